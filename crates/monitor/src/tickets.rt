// Sessions by ticket: who opens one gets a ticket, and must close the session or leave it.
ghost use Rattle.std.specs.Prelude.{◌≡◌, true, [], ◌∷◌, OnErr};
ghost use Rattle.records.specs.declared.event.Event.TheVariants as event;

use crate::answers::Refusal;
use crate::monitors::Monitor;
use crate::rules::Rule;
use records::event::Event;
use sets::RoleSet;

/// The right to close one session. It is not copied, and may be let go only once it is spent: its
/// drop asks for the flag.
pub struct Ticket {
    session: u8,
    spent: bool,
}

impl Drop for Ticket {
    ghost use Rattle.monitor.specs.Tickets.{is_spent};

    fn drop(self)
        requires { is_spent self ≡ true }
    {
        let Ticket {
            session: _,
            spent: _,
        } = self;
    }
}

impl Ticket {
    ghost use Rattle.monitor.specs.Tickets.{session_of};

    /// The session that it may close.
    pub fn session(&self) -> u8
        ensures { result ≡ session_of self.now }
    {
        self.session
    }

    /// Uses the ticket up, and says which session stays open.
    pub fn leave(self) -> u8
        ensures { result ≡ session_of self }
    {
        let session = self.session;
        self.spend();
        session
    }

    // Uses the ticket up.
    fn spend(self) {
        let mut used = self;
        used.spent = true;
    }
}

impl<P: Rule> Monitor<P> {
    ghost use Rattle.monitor.specs.Governed.{cells_of, answer_to, state_after, Extends};
    ghost use Rattle.monitor.specs.Monitors.{state_of, pile_of, SamePolicy};
    ghost use Rattle.monitor.specs.Tickets.{session_of, ticket_answer, closing_answer};

    /// The event open. A grant gives a ticket for the session, a refusal gives none.
    ///
    /// # Errors
    ///
    /// Why the opening is refused.
    pub fn open(&mut self, session: u8, user: u8) -> Result<Ticket, Refusal>
        ensures answer { result ≡ ticket_answer session
            (answer_to (P.rules (pile_of self.old)) (state_of self.old)
            (event.Open session user)) }
        ensures state { cells_of (state_of self.new)
            ≡ state_after (P.rules (pile_of self.old)) (state_of self.old)
            (event.Open session user) }
        ensures same { SamePolicy self.old self.new }
        ensures refused { OnErr result (self.new ≡ self.old) }
        ensures law { Extends (P.rules (pile_of self.old)) (state_of self.old)
            (event.Open session user ∷ [])
            (answer_to (P.rules (pile_of self.old)) (state_of self.old)
            (event.Open session user) ∷ [])
            (cells_of (state_of self.new)) }
    {
        self.decide(Event::Open { session, user })?;
        Ok(Ticket {
            session,
            spent: false,
        })
    }

    /// The event close. A grant uses the ticket up and answers the roles that ended.
    ///
    /// # Errors
    ///
    /// The ticket handed back as it was, and why the closing is refused.
    pub fn close(&mut self, ticket: Ticket) -> Result<RoleSet, (Ticket, Refusal)>
        ensures answer { result ≡ closing_answer ticket
            (answer_to (P.rules (pile_of self.old)) (state_of self.old)
            (event.Close (session_of ticket))) }
        ensures state { cells_of (state_of self.new)
            ≡ state_after (P.rules (pile_of self.old)) (state_of self.old)
            (event.Close (session_of ticket)) }
        ensures same { SamePolicy self.old self.new }
        ensures refused { OnErr result (self.new ≡ self.old) }
        ensures law { Extends (P.rules (pile_of self.old)) (state_of self.old)
            (event.Close (session_of ticket) ∷ [])
            (answer_to (P.rules (pile_of self.old)) (state_of self.old)
            (event.Close (session_of ticket)) ∷ [])
            (cells_of (state_of self.new)) }
    {
        let session = ticket.session;
        match self.decide(Event::Close { session }) {
            Ok(ended) => {
                ticket.spend();
                Ok(ended)
            }
            Err(refusal) => Err((ticket, refusal)),
        }
    }
}
