// Whether an event is possible: its questions, in their order.
ghost use Rattle.std.specs.Prelude.{◌≡◌};
ghost use Rattle.policy.specs.Asking.{ok_unless};
ghost use Rattle.monitor.specs.Changes.{change_of};
ghost use Rattle.monitor.specs.Governed.{tables_of, cells_of};
ghost use Rattle.monitor.specs.Possible.{Possible, impossibility, in_range, session_question, lost_authority};

use crate::answers::Impossibility;
use crate::changes::Change;
use crate::governed::{GovernedState, authority};
use crate::sessions::{Session, Whose, active_with, using_with};
use crate::states::Cells;
use policy::asking::{check, none_of};
use policy::tables::{Sizes, Tables};
use records::event::Event;
use sets::RoleSet;

/// An event that is possible in the state that it is asked in.
#[derive(Clone, Copy)]
pub struct PossibleEvent<'a> {
    /// The state that it is asked in, under its policy.
    pub governed: &'a GovernedState,
    /// The event.
    pub event: Event,
    /// What the event changes.
    pub change: Change,
    ghost possible: { Possible (tables_of governed.now) (cells_of governed.now) event },
    ghost makes: { change ≡ change_of (cells_of governed.now) event },
}

// Whether each number of the event is in range.
fn is_in_range(sizes: Sizes, event: Event) -> bool
    ensures { result ≡ in_range sizes event }
{
    match event {
        Event::Assign { user, role } | Event::Deassign { user, role } => {
            user < sizes.users && role < sizes.roles
        }
        Event::Enable { role } | Event::Disable { role } => role < sizes.roles,
        Event::Open { session, user } => session < sizes.sessions && user < sizes.users,
        Event::Close { session } => session < sizes.sessions,
        Event::Activate { session, role } | Event::Deactivate { session, role } => {
            session < sizes.sessions && role < sizes.roles
        }
    }
}

// The questions to an event that concerns a session, by the state of the session and the event.
fn ask_session(cells: &Cells, session: Session, event: Event) -> Result<(), Impossibility>
    ensures { result ≡ ok_unless (session_question cells.now session event) }
{
    match (session, event) {
        (Session::Closed, Event::Open { .. }) => Ok(()),
        (Session::Open { .. }, Event::Open { .. }) => Err(Impossibility::AlreadyOpen),
        (Session::Closed, _) => Err(Impossibility::NotOpen),
        (Session::Open { owner, active }, Event::Activate { role, .. }) => {
            check(cells.enabled.contains(role), Impossibility::RoleDisabled)?;
            check(
                cells.authorised(owner).contains(role),
                Impossibility::NotAuthorised,
            )?;
            check(!active.contains(role), Impossibility::AlreadyActive)
        }
        (Session::Open { active, .. }, Event::Deactivate { role, .. }) => {
            check(active.contains(role), Impossibility::NotActive)
        }
        (Session::Open { .. }, _) => Ok(()),
    }
}

impl GovernedState {
    // The lowest role active for the user that loses its authority with the assignment of the role.
    fn lost_authority(&self, user: u8, role: u8) -> Option<u8>
        ensures { result ≡ lost_authority (tables_of self.now) (cells_of self.now) user role }
    {
        let cells = self.cells();
        let kept = authority(&self.policy, cells.assigned(user).without(role));
        self.active_in(Whose::User { user })
            .difference(kept)
            .lowest()
    }

    /// The first question that the event fails, where it fails one.
    ///
    /// # Errors
    ///
    /// Why the event is impossible in this state.
    pub fn possible(&self, event: Event) -> Result<(), Impossibility>
        ensures { result
            ≡ ok_unless (impossibility (tables_of self.now) (cells_of self.now) event) }
    {
        let cells = self.cells();
        check(
            is_in_range(self.tables().sizes, event),
            Impossibility::OutOfRange,
        )?;
        match event {
            Event::Assign { user, role } => check(
                !cells.authorised(user).contains(role),
                Impossibility::AlreadyAuthorised,
            ),
            Event::Deassign { user, role } => {
                check(
                    cells.assigned(user).contains(role),
                    Impossibility::NotAssigned,
                )?;
                none_of(
                    self.lost_authority(user, role)
                        .map(|role| Impossibility::StillActive { role }),
                )
            }
            Event::Enable { role } => {
                check(!cells.enabled.contains(role), Impossibility::AlreadyEnabled)
            }
            Event::Disable { role } => {
                check(cells.enabled.contains(role), Impossibility::NotEnabled)?;
                let used = self.active_in(Whose::Anyone);
                check(!used.contains(role), Impossibility::InUse)
            }
            Event::Open { session, .. }
            | Event::Close { session }
            | Event::Activate { session, .. }
            | Event::Deactivate { session, .. } => {
                ask_session(cells, cells.session(session), event)
            }
        }
    }
}

impl GovernedState {
    ghost use Rattle.std.specs.Prelude.{IfOk};
    ghost use Rattle.std.specs.Result.{result_err};
    ghost use Rattle.monitor.specs.PossibleEvents.{Asks};

    /// The event asked in this state, where it is possible.
    ///
    /// # Errors
    ///
    /// The first question that the event fails.
    pub fn ask(&self, event: Event) -> Result<PossibleEvent<'_>, Impossibility>
        ensures impossibility { result_err result
            ≡ impossibility (tables_of self.now) (cells_of self.now) event }
        ensures possible { IfOk result (Asks self.now event) }
    {
        self.possible(event)?;
        Ok(PossibleEvent {
            governed: self,
            event,
            change: self.cells().change(event),
        })
    }
}

impl<'a> PossibleEvent<'a> {
    ghost use Rattle.monitor.specs.PossibleEvents as possible;
    ghost use Rattle.monitor.specs.Changes.{change_of, gained, lost, next};
    ghost use Rattle.monitor.specs.Cells.{seats, using};
    ghost use Rattle.monitor.specs.Sessions.{active_in};

    /// The tables of the policy.
    pub fn tables(self) -> &'a Tables
        ensures { result.now ≡ possible.tables_of self.entry }
    {
        self.governed.tables()
    }

    /// The cells of the state that the event is asked in.
    pub fn cells(self) -> &'a Cells
        ensures { result.now ≡ possible.cells_of self.entry }
    {
        self.governed.cells()
    }

    /// The roles that become active by the event for the owner of the session that it puts.
    pub fn gained(self) -> RoleSet
        ensures { result ≡ record {
          bits = gained (possible.cells_of self.entry)
              (change_of (possible.cells_of self.entry) self.entry.event);
        } }
    {
        self.cells().gained(self.change)
    }

    /// The roles that cease to be active by the event for the owner of the session that was there.
    pub fn lost(self) -> RoleSet
        ensures { result ≡ record {
          bits = lost (possible.cells_of self.entry)
              (change_of (possible.cells_of self.entry) self.entry.event);
        } }
    {
        self.cells().lost(self.change)
    }

    /// The roles active in the sessions that are meant, in the state after the event.
    pub fn active_after(self, whose: Whose) -> RoleSet
        ensures { result ≡ record {
          bits = active_in whose (next (possible.tables_of self.entry)
              (possible.cells_of self.entry) self.entry.event).sessions;
        } }
    {
        match self.change {
            Change::Seated { session, to } => {
                active_with(self.governed.sessions(), session, to, whose)
            }
            _ => self.governed.active_in(whose),
        }
    }

    /// How many seats the user takes, in the state after the event.
    pub fn seats_after(self, user: u8) -> u32
        ensures { result ≡ seats (next (possible.tables_of self.entry)
            (possible.cells_of self.entry) self.entry.event) user }
    {
        let seats = self.governed.seats(user);
        match self.change {
            Change::Seated { session, to } => {
                let whose = Whose::User { user };
                let before = self.cells().session(session).seats_where(whose);
                seats - before + to.seats_where(whose)
            }
            _ => seats,
        }
    }

    /// How many sessions have the role active, in the state after the event.
    pub fn using_after(self, role: u8) -> u8
        ensures { result ≡ using (next (possible.tables_of self.entry)
            (possible.cells_of self.entry) self.entry.event) role }
    {
        match self.change {
            Change::Seated { session, to } => {
                using_with(self.governed.sessions(), session, to, role)
            }
            _ => self.governed.using(role),
        }
    }
}
