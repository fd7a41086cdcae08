// The records of events.
ghost use Rattle.std.specs.Prelude.{◌≡◌};
ghost use Rattle.records.specs.Events.{event_of, kind_of};
ghost use Rattle.records.specs.declared.kinds.Reader.TheVariants.{Events};

use crate::kinds::Reader;
use crate::taking::Record;

/// One event as it is asked for. Each number is a byte of the body as it is there, in range or not.
#[derive(Clone, Copy, PartialEq, Eq)]
pub enum Event {
    /// Kind 32, assign the role to the user.
    Assign { user: u8, role: u8 },
    /// Kind 33, take the role from the user.
    Deassign { user: u8, role: u8 },
    /// Kind 34, enable the role.
    Enable { role: u8 },
    /// Kind 35, disable the role.
    Disable { role: u8 },
    /// Kind 36, open the session for the user.
    Open { session: u8, user: u8 },
    /// Kind 37, close the session.
    Close { session: u8 },
    /// Kind 38, activate the role in the session.
    Activate { session: u8, role: u8 },
    /// Kind 39, deactivate the role in the session.
    Deactivate { session: u8, role: u8 },
}

impl Event {
    /// The kind of the record that asks for the event, 32 to 39.
    pub fn kind(self) -> u8
        ensures { result ≡ kind_of self }
    {
        match self {
            Event::Assign { .. } => 32,
            Event::Deassign { .. } => 33,
            Event::Enable { .. } => 34,
            Event::Disable { .. } => 35,
            Event::Open { .. } => 36,
            Event::Close { .. } => 37,
            Event::Activate { .. } => 38,
            Event::Deactivate { .. } => 39,
        }
    }
}

impl Record for Event {
    ghost READER = { Events };

    ghost decoded = { event_of };

    const READER: Reader = Reader::Events;

    fn decode(kind: u8, body: &[u8]) -> Option<Event> {
        match (kind, body) {
            (32, &[user, role]) => Some(Event::Assign { user, role }),
            (33, &[user, role]) => Some(Event::Deassign { user, role }),
            (34, &[role]) => Some(Event::Enable { role }),
            (35, &[role]) => Some(Event::Disable { role }),
            (36, &[session, user]) => Some(Event::Open { session, user }),
            (37, &[session]) => Some(Event::Close { session }),
            (38, &[session, role]) => Some(Event::Activate { session, role }),
            (39, &[session, role]) => Some(Event::Deactivate { session, role }),
            _ => None,
        }
    }
}
