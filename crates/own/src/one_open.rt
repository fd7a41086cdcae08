// At most one of all sessions is open.
ghost use Rattle.std.specs.Prelude.{◌≡◌, [], ◌∷◌};
ghost use Rattle.monitor.specs.PossibleEvents.{tables_of, cells_of};
ghost use Rattle.own.specs.OneOpen.{one_open_session, other_open};
ghost use Rattle.own.specs.OneOpenLaws.{one_open_law};
ghost use Rattle.std.proofs.Common.{arith, rules};

use monitor::{Change, OwnRule, PossibleEvent, Reason, Rule};
use policy::asking::none_of;

/// The rule that at most one of all sessions is open. It names the number 101 and the lowest other
/// open session.
#[derive(Clone, Copy, Default)]
pub struct OneOpenSession {}

// The lowest open session of the policy but for this one.
fn other_open(possible: PossibleEvent, session: u8) -> Option<u8>
    ensures { result ≡ other_open (tables_of possible.entry) (cells_of possible.entry) session }
{
    for other in 0..possible.tables().sizes.sessions {
        if other != session && possible.cells().session(other).is_open() {
            return Some(other);
        }
    }
    None
}

impl Rule for OneOpenSession {
    ghost rules = { λ _. one_open_session ∷ [] };

    ghost some = { Prim.search rules };

    ghost lawful = { λ x. (one_open_law, tt) };

    fn consult(&self, possible: PossibleEvent) -> Result<(), Reason> {
        match possible.change {
            Change::Seated { session, to } if to.is_open() => {
                none_of(other_open(possible, session)).map_err(|other| Reason::at_top(101, other))
            }
            _ => Ok(()),
        }
    }

    fn places(&self) -> u8 {
        1
    }
}

impl OwnRule for OneOpenSession {
    ghost confined = { λ x. (λ t c e law fits can allowed no. (omega arith, omega arith), tt) };
}
