// The monitor: a checked policy, a state that fits it, and the pile that is asked about every
// possible event.
ghost use Rattle.std.specs.Prelude.{◌≡◌, [], ◌∷◌, OnErr};
ghost use Rattle.monitor.specs.RunLaw.{RunLaw};

use crate::answers::Answer;
use crate::governed::GovernedState;
use crate::possible::PossibleEvent;
use crate::rules::Rule;
use policy::checked::Checked;
use records::event::Event;

/// Decides events under one checked policy by one pile of rules, and holds the state after them.
#[derive(Drop)]
pub struct Monitor<P> {
    pub(crate) governed: GovernedState,
    pub(crate) pile: P,
}

impl<P: Rule> Monitor<P> {
    ghost use Rattle.policy.specs.Approved as approved;
    ghost use Rattle.monitor.specs.Cells.{blank};
    ghost use Rattle.monitor.specs.Governed.{policy_of, tables_of, cells_of};
    ghost use Rattle.monitor.specs.Governed.{answer_to, state_after, Extends};
    ghost use Rattle.monitor.specs.Monitors.{state_of, pile_of, SamePolicy};

    /// A monitor with a new state. It uses the checked policy up.
    pub fn begin(checked: Checked, pile: P) -> Monitor<P>
        ensures policy { policy_of (state_of result) ≡ approved.policy_of checked }
        ensures state { cells_of (state_of result) ≡ blank }
        ensures pile { pile_of result ≡ pile }
        ensures law { RunLaw (P.rules pile) (approved.tables_of (approved.policy_of checked)) [] []
            (cells_of (state_of result)) }
    {
        Monitor {
            governed: GovernedState::begin(checked),
            pile,
        }
    }

    /// What the event would be answered now; nothing is changed.
    ///
    /// # Errors
    ///
    /// Why the event would be refused: it is impossible, or a rule of the pile does not admit it.
    pub fn judge(&self, event: Event) -> Answer
        ensures { result ≡ answer_to (P.rules (pile_of self.now)) (state_of self.now) event }
    {
        let possible_event = self.governed.ask(event)?;
        self.pile.consult(possible_event)?;
        Ok(possible_event.cells().listed(event))
    }

    /// Decides an event: where it is possible and every rule admits it, it is done. The answer
    /// holds the roles that the event lists. The rules are consulted with a copy of policy and
    /// state, and the state is written back whole.
    ///
    /// # Errors
    ///
    /// Why the event is refused; the monitor is then as it was.
    pub fn decide(&mut self, event: Event) -> Answer
        ensures answer { result ≡ answer_to (P.rules (pile_of self.old)) (state_of self.old) event }
        ensures state { cells_of (state_of self.new)
            ≡ state_after (P.rules (pile_of self.old)) (state_of self.old) event }
        ensures same { SamePolicy self.old self.new }
        ensures refused { OnErr result (self.new ≡ self.old) }
        ensures law { Extends (P.rules (pile_of self.old)) (state_of self.old) (event ∷ [])
            (result ∷ []) (cells_of (state_of self.new)) }
    {
        // What is possible is asked of what is lent, so that an impossible event copies nothing.
        let change = self.governed.ask(event)?.change;
        let mut copied = self.governed;
        let possible = PossibleEvent {
            governed: &copied,
            event,
            change,
        };
        self.pile.consult(possible)?;
        let listed = copied.grant(event, change);
        self.governed.state = copied.state;
        Ok(listed)
    }
}
