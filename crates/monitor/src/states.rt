// A state: in every one, an active role is enabled and the owner of its session authorised for it.
ghost use Rattle.std.specs.Prelude.{◌≡◌};
ghost use Rattle.monitor.specs.Cells.{blank, Wide, Owned, Live, Entitled};

use crate::sessions::Session;
use policy::rows::at_or;
use sets::RoleSet;

/// The plain data of a state.
#[derive(Clone, Copy)]
pub struct Cells {
    /// Each user's assigned roles.
    pub assigned: [RoleSet; 64],
    /// The roles for which these authorise each user.
    pub authorised: [RoleSet; 64],
    /// The enabled roles.
    pub enabled: RoleSet,
    /// Each session.
    pub sessions: [Session; 64],
}

/// A state. It is written whole, so that what holds in every state is never given up on the way.
#[derive(Clone, Copy)]
pub struct State {
    /// What stands in it.
    pub cells: Cells,
    ghost wide: { Wide cells },
    ghost owned: { Owned cells },
    ghost live: { Live cells },
    ghost entitled: { Entitled cells },
}

#[tactic(auto, unfolding(crate::specs::Cells::blank))]
fn blank_cells() -> Cells
    ensures { result ≡ blank }
{
    let no_roles = [RoleSet::empty(); 64];
    Cells {
        assigned: no_roles,
        authorised: no_roles,
        enabled: RoleSet::empty(),
        sessions: [Session::Closed; 64],
    }
}

impl State {
    /// A new state: no assignments, all roles disabled, all sessions closed.
    pub fn new() -> State
        ensures { result.cells ≡ blank }
    {
        State {
            cells: blank_cells(),
        }
    }
}

impl Cells {
    ghost use Rattle.monitor.specs.Cells.{session_at, assigned_roles, authorised_roles};

    /// The session of a number; past the sessions, a closed one.
    pub fn session(&self, session: u8) -> Session
        ensures { result ≡ session_at self.now session }
    {
        at_or(&self.sessions, session, Session::Closed)
    }

    /// The roles assigned to a user; past the users there are none.
    pub fn assigned(&self, user: u8) -> RoleSet
        ensures { result ≡ assigned_roles self.now user }
    {
        at_or(&self.assigned, user, RoleSet::empty())
    }

    /// The roles that a user is authorised for; past the users there are none.
    pub fn authorised(&self, user: u8) -> RoleSet
        ensures { result ≡ authorised_roles self.now user }
    {
        at_or(&self.authorised, user, RoleSet::empty())
    }
}
