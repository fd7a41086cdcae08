// What an event changes: one thing in the state.
ghost use Rattle.std.specs.Prelude.{◌≡◌};

use crate::governed::authority;
use crate::sessions::Session;
use crate::states::Cells;
use policy::approved::Approved;
use policy::rows::put;
use records::event::Event;
use sets::RoleSet;

/// The one change that an event makes: a user's assigned roles, the enabled roles, or another
/// session in the place of one.
#[derive(Clone, Copy, Debug, PartialEq, Eq)]
pub enum Change {
    /// The user has these roles assigned from then on.
    Assigned { user: u8, roles: RoleSet },
    /// These roles are enabled from then on.
    Enabled { roles: RoleSet },
    /// This session stands at the place from then on.
    Seated { session: u8, to: Session },
}

impl Cells {
    ghost use Rattle.policy.specs.Approved.{tables_of};
    ghost use Rattle.monitor.specs.Changes.{change_of, applied, gained, lost, listed};

    /// What the event changes.
    pub fn change(&self, event: Event) -> Change
        ensures { result ≡ change_of self.now event }
    {
        match event {
            Event::Assign { user, role } => Change::Assigned {
                user,
                roles: self.assigned(user).with(role),
            },
            Event::Deassign { user, role } => Change::Assigned {
                user,
                roles: self.assigned(user).without(role),
            },
            Event::Enable { role } => Change::Enabled {
                roles: self.enabled.with(role),
            },
            Event::Disable { role } => Change::Enabled {
                roles: self.enabled.without(role),
            },
            Event::Open { session, user } => Change::Seated {
                session,
                to: Session::Open {
                    owner: user,
                    active: RoleSet::empty(),
                },
            },
            Event::Close { session } => Change::Seated {
                session,
                to: Session::Closed,
            },
            Event::Activate { session, role } => {
                let before = self.session(session);
                Change::Seated {
                    session,
                    to: before.with_active(before.active().with(role)),
                }
            }
            Event::Deactivate { session, role } => {
                let before = self.session(session);
                Change::Seated {
                    session,
                    to: before.with_active(before.active().without(role)),
                }
            }
        }
    }

    /// Makes the change. A user with other roles assigned is authorised for what they give.
    pub(crate) fn apply(&mut self, policy: &Approved, change: Change)
        ensures { self.new ≡ applied (tables_of policy.now) self.old change }
    {
        match change {
            Change::Assigned { user, roles } => {
                put(&mut self.assigned, user, roles);
                put(&mut self.authorised, user, authority(policy, roles));
            }
            Change::Enabled { roles } => self.enabled = roles,
            Change::Seated { session, to } => put(&mut self.sessions, session, to),
        }
    }

    /// The roles that the change makes active for the owner of the session that is put.
    pub fn gained(&self, change: Change) -> RoleSet
        ensures { result ≡ record { bits = gained self.now change } }
    {
        match change {
            Change::Seated { session, to } => self.session(session).gained_by(to),
            _ => RoleSet::empty(),
        }
    }

    /// The roles that the change ends for the owner of the session that was there.
    pub fn lost(&self, change: Change) -> RoleSet
        ensures { result ≡ record { bits = lost self.now change } }
    {
        match change {
            Change::Seated { session, to } => to.gained_by(self.session(session)),
            _ => RoleSet::empty(),
        }
    }

    /// The roles that the event lists where it is granted: those that a closing ends.
    pub fn listed(&self, event: Event) -> RoleSet
        ensures { result ≡ record { bits = listed self.now event } }
    {
        match event {
            Event::Close { .. } => self.lost(self.change(event)),
            _ => RoleSet::empty(),
        }
    }
}
