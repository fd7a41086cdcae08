// A state under its policy: what is authorised is what the assigned roles give by the hierarchy.
ghost use Rattle.std.specs.Prelude.{◌≡◌, ◌↔◌, true, take};
ghost use Rattle.policy.specs.Approved.{tables_of};
ghost use Rattle.monitor.specs.Cells.{assigned_in};
ghost use Rattle.monitor.specs.Authority.{authority_of, Gives, Stored, Ranged, EnabledWithin, OpenWithin};

use crate::changes::Change;
use crate::sessions::{Session, Whose, active_among, seats_among, using_among};
use crate::states::{Cells, State};
use policy::approved::Approved;
use policy::checked::Checked;
use policy::tables::Tables;
use records::event::Event;
use sets::RoleSet;

/// A checked policy with a state that fits it.
#[derive(Clone, Copy)]
pub struct GovernedState {
    pub(crate) policy: Approved,
    pub(crate) state: State,
    ghost stored: { Stored (tables_of policy) state.cells },
    ghost ranged: { Ranged (tables_of policy) state.cells },
    ghost enabled_within: { EnabledWithin (tables_of policy) state.cells },
    ghost open_within: { OpenWithin (tables_of policy) state.cells },
}

/// The roles for which a set of assigned roles authorises.
pub fn authority(policy: &Approved, assigned: RoleSet) -> RoleSet
    ensures answer { result ≡ authority_of (tables_of policy.now) assigned }
    ensures law { Gives (tables_of policy.now) assigned result }
{
    policy.seniority().below(assigned)
}

// The roles assigned to some of the users.
fn assigned_among(users: &[RoleSet; 64]) -> RoleSet
    ensures { result ≡ record { bits = assigned_in users.now } }
{
    users
        .iter()
        .fold(RoleSet::empty(), |all, roles| roles.union(all))
}

impl GovernedState {
    ghost use Rattle.policy.specs.Approved as approved;
    ghost use Rattle.monitor.specs.Authority.{Authorised};
    ghost use Rattle.monitor.specs.Cells.{blank, is_authorised, seats, using};
    ghost use Rattle.monitor.specs.Changes.{change_of, next, listed};
    ghost use Rattle.monitor.specs.Governed as governed;
    ghost use Rattle.monitor.specs.Possible.{Possible};
    ghost use Rattle.monitor.specs.Sessions.{active_in};

    /// A new state under the policy that the checked one held; it is used up.
    pub fn begin(checked: Checked) -> GovernedState
        ensures policy { governed.policy_of result ≡ approved.policy_of checked }
        ensures state { governed.cells_of result ≡ blank }
    {
        GovernedState {
            policy: checked.into_policy(),
            state: State::new(),
        }
    }

    /// The policy.
    pub fn policy(&self) -> &Approved
        ensures { result.now ≡ governed.policy_of self.now }
    {
        &self.policy
    }

    /// The tables of the policy.
    pub fn tables(&self) -> &Tables
        ensures { result.now ≡ governed.tables_of self.now }
    {
        self.policy.tables()
    }

    /// The cells of the state.
    pub fn cells(&self) -> &Cells
        ensures { result.now ≡ governed.cells_of self.now }
    {
        &self.state.cells
    }

    /// The sessions of the policy; past them nothing is active.
    pub fn sessions(&self) -> &[Session]
        ensures { result.now ≡ take (governed.tables_of self.now).sizes.sessions
            (governed.cells_of self.now).sessions }
    {
        &self.state.cells.sessions[..usize::from(self.policy.tables().sizes.sessions)]
    }

    /// The roles active in the sessions that are meant.
    pub fn active_in(&self, whose: Whose) -> RoleSet
        ensures { result ≡ record { bits = active_in whose (governed.cells_of self.now).sessions } }
    {
        active_among(self.sessions(), whose)
    }

    /// How many seats the user takes, 2,048 at most: one for each role active in each of their
    /// sessions.
    pub fn seats(&self, user: u8) -> u32
        ensures { result ≡ seats (governed.cells_of self.now) user }
    {
        seats_among(self.sessions(), Whose::User { user })
    }

    /// How many sessions have the role active, 64 at most.
    pub fn using(&self, role: u8) -> u8
        ensures { result ≡ using (governed.cells_of self.now) role }
    {
        using_among(self.sessions(), role)
    }

    /// The roles assigned to some user.
    pub fn assigned_to_any(&self) -> RoleSet
        ensures { result ≡ record { bits = assigned_in (governed.cells_of self.now).assigned } }
    {
        assigned_among(&self.state.cells.assigned)
    }

    /// Whether the user is authorised for the role: assigned some role that is senior to it.
    pub fn is_authorised(&self, user: u8, role: u8) -> bool
        ensures answer { result ≡ is_authorised (governed.cells_of self.now) user role }
        ensures relation { (result ≡ true) ↔ Authorised (governed.tables_of self.now)
            (governed.cells_of self.now) user role }
    {
        self.state.cells.authorised(user).contains(role)
    }

    // Does a possible event: makes its change. Answers the roles that the event lists.
    pub(crate) fn grant(&mut self, event: Event, change: Change) -> RoleSet
        requires possible { Possible (governed.tables_of self.old)
            (governed.cells_of self.old) event }
        requires change { change ≡ change_of (governed.cells_of self.old) event }
        ensures listed { result ≡ record { bits = listed (governed.cells_of self.old) event } }
        ensures state { governed.cells_of self.new
            ≡ next (governed.tables_of self.old) (governed.cells_of self.old) event }
        ensures policy { governed.policy_of self.new ≡ governed.policy_of self.old }
    {
        let listed = self.state.cells.listed(event);
        self.state.cells.apply(&self.policy, change);
        listed
    }
}
