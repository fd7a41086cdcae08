// The desk: a monitor, a row of each event that it was asked, and a journal of those granted.
ghost use Rattle.std.specs.Prelude.{◌≡◌, [], ◌∷◌, IfOk};
ghost use Rattle.policy.specs.Approved.{policy_of};
ghost use Rattle.records.specs.declared.event.Event.TheVariants as event;
ghost use Rattle.monitor.specs.Journal.{granted_events};
ghost use Rattle.monitor.specs.Rows.{row_of};
ghost use Rattle.monitor.specs.Tickets.{session_of};
ghost use Rattle.shift.specs.Desks.{answer_on, SameMonitor, Added, Noted, Asked, Resumed, GoesOn};
ghost use Rattle.shift.specs.Tickets.{ticket_given, ticket_back, ticket_kept, both_closings, moving};

use families::house::{House, begin, house};
use monitor::{Answer, Monitor, Replay, Row, Ticket};
use policy::Checked;
use records::Event;
use sets::RoleSet;
use std::alloc::{AllocError, Global};

// The most events that a day has here, 11 at work and 5 late: none of them goes unwritten.
const MOST: usize = 16;

/// A monitor, and what is written down of the events that it was asked, as far as there is room. A
/// program whose day has no bound on its events makes room before it decides one.
#[derive(Drop)]
pub struct Desk {
    pub monitor: Monitor<House>,
    /// A row of each.
    pub rows: Vec<Row>,
    /// Those that were granted: what a new monitor needs to come to the same state.
    pub journal: Vec<Event>,
}

// Writes one item more, where there is room.
fn add<T: Drop>(list: &mut Vec<T>, item: T)
    ensures { Added list.old list.new (item ∷ []) }
{
    if list.len() < list.capacity() {
        list.push_reserved(item);
    }
}

impl Desk {
    /// A desk with nothing asked yet.
    ///
    /// # Errors
    ///
    /// The memory for what is to be written down cannot be had; when that is so is no part of the
    /// contract.
    pub fn begin(heap: Global, checked: Checked) -> Result<Desk, AllocError>
        ensures { IfOk result (λ desk. Resumed (policy_of checked) [] desk) }
    {
        Ok(Desk {
            monitor: begin(checked),
            rows: Vec::with_capacity(heap, MOST)?,
            journal: Vec::with_capacity(heap, MOST)?,
        })
    }

    /// The desk of the next day: a new monitor decides the journal of the days before, and each of
    /// its events has its row.
    ///
    /// # Errors
    ///
    /// The memory for what is written down cannot be had; when that is so is no part of the
    /// contract.
    pub fn resume(heap: Global, checked: Checked, journal: Vec<Event>) -> Result<Desk, AllocError>
        ensures began { IfOk result (λ desk. Resumed (policy_of checked) journal.items desk) }
        ensures again { IfOk result (λ desk. GoesOn (policy_of checked) journal.items desk) }
    {
        let mut journal = journal;
        journal.reserve(MOST)?;
        let Replay { monitor, answers } = Monitor::replay(heap, checked, house(), &journal)?;
        let mut rows = Vec::new(heap);
        for (event, answer) in journal.iter().zip(answers.iter()) {
            rows.push(Row::of(*event, *answer))?;
        }
        rows.reserve(MOST)?;
        Ok(Desk {
            monitor,
            rows,
            journal,
        })
    }

    // Writes down an event with its answer.
    fn note(&mut self, event: Event, answer: Answer)
        ensures noted { Noted self.old self.new (row_of event answer ∷ [])
            (granted_events (event ∷ []) (answer ∷ [])) }
        ensures monitor { SameMonitor self.old self.new }
    {
        add(&mut self.rows, Row::of(event, answer));
        if answer.is_ok() {
            add(&mut self.journal, event);
        }
    }

    /// Decides one event that needs no ticket.
    pub fn ask(&mut self, event: Event)
        ensures { Asked self.old self.new (event ∷ []) }
    {
        let answer = self.monitor.decide(event);
        self.note(event, answer);
    }

    /// Opens a session; only a grant gives a ticket.
    pub fn open(&mut self, session: u8, user: u8) -> Option<Ticket>
        ensures ticket { result
            ≡ ticket_given session (answer_on self.old (event.Open session user)) }
        ensures asked { Asked self.old self.new (event.Open session user ∷ []) }
    {
        let event = Event::Open { session, user };
        match self.monitor.open(session, user) {
            Ok(ticket) => {
                self.note(event, Ok(RoleSet::empty()));
                Some(ticket)
            }
            Err(refusal) => {
                self.note(event, Err(refusal));
                None
            }
        }
    }

    /// Closes the session; a refusal hands the ticket back.
    pub fn close(&mut self, ticket: Ticket) -> Result<(), Ticket>
        ensures ticket { result
            ≡ ticket_back ticket (answer_on self.old (event.Close (session_of ticket))) }
        ensures asked { Asked self.old self.new (event.Close (session_of ticket) ∷ []) }
    {
        let event = Event::Close {
            session: ticket.session(),
        };
        match self.monitor.close(ticket) {
            Ok(ended) => {
                self.note(event, Ok(ended));
                Ok(())
            }
            Err((ticket, refusal)) => {
                self.note(event, Err(refusal));
                Err(ticket)
            }
        }
    }

    /// Closes the session, or leaves it open where that is refused.
    pub fn close_or_leave(&mut self, ticket: Ticket)
        ensures { Asked self.old self.new (event.Close (session_of ticket) ∷ []) }
    {
        if let Err(ticket) = self.close(ticket) {
            let _ = ticket.leave();
        }
    }

    /// Closes the scanning session. Where a role of the checking session depends on it, the ticket
    /// comes back, and checking ends first.
    pub fn close_both(&mut self, scanning: Ticket, checking: Ticket)
        ensures { Asked self.old self.new (both_closings (session_of scanning) (session_of checking)
            (answer_on self.old (event.Close (session_of scanning)))) }
    {
        let closed = self.close(scanning);
        self.close_or_leave(checking);
        if let Err(scanning) = closed {
            self.close_or_leave(scanning);
        }
    }

    /// Moves to another session: the new ticket is kept, the old one spent. Where the opening is
    /// refused the old one is kept.
    pub fn move_to(&mut self, old: Ticket, session: u8, user: u8) -> Ticket
        ensures ticket { result
            ≡ ticket_kept old session (answer_on self.old (event.Open session user)) }
        ensures asked { Asked self.old self.new (moving (session_of old) session user
            (answer_on self.old (event.Open session user))) }
    {
        match self.open(session, user) {
            Some(new) => {
                self.close_or_leave(old);
                new
            }
            None => old,
        }
    }
}
