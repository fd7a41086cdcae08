// What a run writes for each event.
ghost use Rattle.std.specs.Prelude.{◌≡◌};
ghost use Rattle.monitor.specs.Rows.{row_of};

use crate::answers::Answer;
use records::event::Event;
use sets::RoleSet;

/// The written form of an event and its answer.
#[derive(Clone, Copy, Debug, Default, PartialEq, Eq)]
pub struct Row {
    /// The kind of the event, as its record has it.
    pub kind: u8,
    /// The number of the answer: 0 for a grant, else that of the refusal, 1 to 255.
    pub number: u8,
    /// The role or the user that shows the refusal; 0 where there is none.
    pub subject: u8,
    /// The place in the pile of the rule that refuses, from 1 at the top; 0 where none does.
    pub place: u8,
    /// The roles that a granted closing ended; else none.
    pub roles: RoleSet,
}

impl Row {
    /// The row of an event with its answer.
    pub fn of(event: Event, answer: Answer) -> Row
        ensures { result ≡ row_of event answer }
    {
        let kind = event.kind();
        match answer {
            Ok(roles) => Row {
                kind,
                number: 0,
                subject: 0,
                place: 0,
                roles,
            },
            Err(refusal) => Row {
                kind,
                number: refusal.number(),
                subject: refusal.subject(),
                place: refusal.place(),
                roles: RoleSet::empty(),
            },
        }
    }
}
