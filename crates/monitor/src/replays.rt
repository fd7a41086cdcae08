// A whole list of events, decided from the new state on: what a room needs after a restart.
ghost use Rattle.std.specs.Prelude.{◌≡◌, IfOk};
ghost use Rattle.policy.specs.Approved as approved;
ghost use Rattle.monitor.specs.Cells.{blank};
ghost use Rattle.monitor.specs.Governed.{policy_of, cells_of};
ghost use Rattle.monitor.specs.History.{replies, after};
ghost use Rattle.monitor.specs.Journal.{Resumes};
ghost use Rattle.monitor.specs.Monitors.{state_of, pile_of};
ghost use Rattle.monitor.specs.Replays.{monitor_of, answers_of};
ghost use Rattle.monitor.specs.RunLaw.{RunLaw};

use crate::answers::Answer;
use crate::monitors::Monitor;
use crate::rules::Rule;
use policy::checked::Checked;
use records::event::Event;
use std::alloc::{AllocError, Global};

/// A monitor that was begun new and has decided a list of events.
#[derive(Drop)]
pub struct Replay<P> {
    /// The monitor, in the state after the last of the events.
    pub monitor: Monitor<P>,
    /// What each event was answered, in their order.
    pub answers: Vec<Answer>,
}

impl<P: Rule> Monitor<P> {
    /// Begins a new monitor and decides each event of the list, one after the other. It uses the
    /// checked policy up.
    ///
    /// This is how a room comes back after a restart: where the list is its journal, the granted
    /// events of all days so far, they are all granted again, and the room is in the state that it
    /// was in.
    pub fn resume(checked: Checked, pile: P, events: &[Event]) -> Monitor<P>
        ensures state { cells_of (state_of result) ≡ after (P.rules pile)
            (approved.tables_of (approved.policy_of checked)) blank events.now }
        ensures policy { policy_of (state_of result) ≡ approved.policy_of checked }
        ensures pile { pile_of result ≡ pile }
        ensures law { RunLaw (P.rules pile) (approved.tables_of (approved.policy_of checked))
            events.now (replies (P.rules pile)
            (approved.tables_of (approved.policy_of checked)) blank events.now)
            (cells_of (state_of result)) }
        ensures journal { Resumes (P.rules pile)
            (approved.tables_of (approved.policy_of checked)) events.now
            (cells_of (state_of result)) }
    {
        let mut monitor = Monitor::begin(checked, pile);
        for event in events {
            let _ = monitor.decide(*event);
        }
        monitor
    }
}

impl<P: Rule + Drop> Monitor<P> {
    /// The same as [`Monitor::resume`], with what each event is answered.
    ///
    /// # Errors
    ///
    /// The memory for the answers cannot be had, and nothing is begun; policy and pile are let go.
    /// When that is so is no part of the contract.
    pub fn replay(
        heap: Global,
        checked: Checked,
        pile: P,
        events: &[Event],
    ) -> Result<Replay<P>, AllocError>
        ensures answers { IfOk result (λ r. answers_of r ≡ replies (P.rules pile)
            (approved.tables_of (approved.policy_of checked)) blank events.now) }
        ensures state { IfOk result (λ r. cells_of (state_of (monitor_of r)) ≡ after (P.rules pile)
            (approved.tables_of (approved.policy_of checked)) blank events.now) }
        ensures policy { IfOk result (λ r.
            policy_of (state_of (monitor_of r)) ≡ approved.policy_of checked) }
        ensures pile { IfOk result (λ r. pile_of (monitor_of r) ≡ pile) }
        ensures law { IfOk result (λ r. RunLaw (P.rules pile)
            (approved.tables_of (approved.policy_of checked)) events.now (answers_of r)
            (cells_of (state_of (monitor_of r)))) }
        ensures journal { IfOk result (λ r. Resumes (P.rules pile)
            (approved.tables_of (approved.policy_of checked)) events.now
            (cells_of (state_of (monitor_of r)))) }
    {
        let mut answers = Vec::with_capacity(heap, events.len())?;
        let mut monitor = Monitor::begin(checked, pile);
        for event in events {
            answers.push_reserved(monitor.decide(*event));
        }
        Ok(Replay { monitor, answers })
    }
}
