// Two piles, one above the other, are a pile.
ghost use Rattle.std.specs.Prelude.{◌≡◌, ◌++◌};
ghost use Rattle.monitor.specs.Meaning.{lowered, Law};
ghost use Rattle.monitor.specs.PileLaws.{every_append};
ghost use Rattle.std.proofs.Common.{arith};
ghost use Rattle.std.proofs.lemmas.List.{length-append};

use crate::answers::Reason;
use crate::possible::PossibleEvent;
use crate::rules::Rule;

/// The rules of the upper pile, and then those of the lower.
#[derive(Default, Drop)]
pub struct Pair<U, L> {
    /// The pile that is asked first.
    pub upper: U,
    /// The pile that is asked about what the upper one admits.
    pub lower: L,
}

// A reason of the lower pile, so many places further down.
fn further_down(reason: Reason, above: u8) -> Reason
    ensures { result ≡ lowered above reason }
{
    Reason {
        place: above.saturating_add(reason.place),
        ..reason
    }
}

impl<U: Rule, L: Rule> Rule for Pair<U, L> {
    ghost rules = { λ p. U.Rule.rules p.upper ++ L.Rule.rules p.lower };

    ghost some = { λ x. simp length-append (omega (arith, U.Rule.some x.upper)) };

    ghost lawful = { λ x. every_append Law _ _ (U.Rule.lawful x.upper) (L.Rule.lawful x.lower) };

    fn consult(&self, possible: PossibleEvent) -> Result<(), Reason> {
        self.upper.consult(possible)?;
        let above = self.upper.places();
        self.lower
            .consult(possible)
            .map_err(|reason| further_down(reason, above))
    }

    fn places(&self) -> u8 {
        self.upper.places().saturating_add(self.lower.places())
    }
}
