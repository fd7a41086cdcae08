// A session, and what is active in sessions.
ghost use Rattle.std.specs.Prelude.{◌≡◌, ◌≤◌, if◌then◌else◌, length, slice_set};
ghost use Rattle.monitor.specs.Changes.{gained_by};
ghost use Rattle.monitor.specs.Sessions.{is_open, active, owner, active_where, seats_where};
ghost use Rattle.monitor.specs.Sessions.{with_active, active_in, seats_in, sessions_using};

use sets::RoleSet;

/// A session: closed, or open with its owner and its active roles.
#[derive(Clone, Copy, Debug, PartialEq, Eq)]
pub enum Session {
    /// It has no owner and no active role.
    Closed,
    /// A user has opened it, and these of the roles that the user is authorised for are active.
    Open { owner: u8, active: RoleSet },
}

/// Whose sessions are meant: every session, or those of one user.
#[derive(Clone, Copy, Debug, PartialEq, Eq)]
pub enum Whose {
    /// Every session.
    Anyone,
    /// The sessions that this user owns.
    User { user: u8 },
}

impl Session {
    /// Whether the session is open.
    pub fn is_open(self) -> bool
        ensures { result ≡ is_open self }
    {
        matches!(self, Session::Open { .. })
    }

    /// The roles active in the session; a closed one has none.
    pub fn active(self) -> RoleSet
        ensures { result ≡ record { bits = active self } }
    {
        match self {
            Session::Closed => RoleSet::empty(),
            Session::Open { active, .. } => active,
        }
    }

    /// The owner of the session; 0 for a closed one.
    pub fn owner(self) -> u8
        ensures { result ≡ owner self }
    {
        match self {
            Session::Closed => 0,
            Session::Open { owner, .. } => owner,
        }
    }

    /// The roles active in the session where it is one of those that are meant, else none.
    pub fn active_where(self, whose: Whose) -> RoleSet
        ensures { result ≡ record { bits = active_where whose self } }
    {
        match (whose, self) {
            (Whose::User { user }, Session::Open { owner, active }) => {
                if owner == user {
                    active
                } else {
                    RoleSet::empty()
                }
            }
            (Whose::Anyone, Session::Open { active, .. }) => active,
            (_, Session::Closed) => RoleSet::empty(),
        }
    }

    /// How many roles are active in the session where it is one of those that are meant, else 0.
    pub fn seats_where(self, whose: Whose) -> u32
        ensures { result ≡ seats_where whose self }
    {
        self.active_where(whose).count()
    }

    /// The roles that become active for the owner of the other session where that one stands in
    /// place of this one.
    pub fn gained_by(self, to: Session) -> RoleSet
        ensures { result ≡ record { bits = gained_by self to } }
    {
        let before = self.active_where(Whose::User { user: to.owner() });
        to.active().difference(before)
    }

    /// The session with these roles active instead; a closed one stays closed.
    pub fn with_active(self, roles: RoleSet) -> Session
        ensures { result ≡ with_active self roles }
    {
        match self {
            Session::Closed => Session::Closed,
            Session::Open { owner, .. } => Session::Open {
                owner,
                active: roles,
            },
        }
    }
}

/// The roles active in those of the sessions that are meant.
pub fn active_among(sessions: &[Session], whose: Whose) -> RoleSet
    ensures { result ≡ record { bits = active_in whose sessions.now } }
{
    sessions.iter().fold(RoleSet::empty(), |all, session| {
        session.active_where(whose).union(all)
    })
}

// How many seats there are in those of the sessions, 64 at most, that are meant: one for each role
// active in each of them.
pub(crate) fn seats_among(sessions: &[Session], whose: Whose) -> u32
    requires { length sessions.now ≤ 64 }
    ensures { result ≡ seats_in whose sessions.now }
{
    sessions
        .iter()
        .map(|session| session.seats_where(whose))
        .sum()
}

// How many of the sessions, 64 at most, have the role active.
pub(crate) fn using_among(sessions: &[Session], role: u8) -> u8
    requires { length sessions.now ≤ 64 }
    ensures count { result ≡ sessions_using sessions.now role }
    ensures bound { result ≤ length sessions.now }
{
    let mut using = 0;
    // `filter` and `count` take half as long again.
    for session in sessions {
        using += u8::from(session.active().contains(role));
    }
    using
}

// The roles active in those of the sessions that are meant, once another one stands at a place.
pub(crate) fn active_with(sessions: &[Session], place: u8, to: Session, whose: Whose) -> RoleSet
    ensures { result ≡ record { bits = active_in whose (slice_set sessions.now place to) } }
{
    let place = usize::from(place);
    if place >= sessions.len() {
        return active_among(sessions, whose);
    }
    active_among(&sessions[..place], whose)
        .union(to.active_where(whose))
        .union(active_among(&sessions[place + 1..], whose))
}

// How many of the sessions, 64 at most, have the role active, once another one stands at a place.
pub(crate) fn using_with(sessions: &[Session], place: u8, to: Session, role: u8) -> u8
    requires { length sessions.now ≤ 64 }
    ensures { result ≡ sessions_using (slice_set sessions.now place to) role }
{
    let place = usize::from(place);
    if place >= sessions.len() {
        return using_among(sessions, role);
    }
    using_among(&sessions[..place], role)
        + u8::from(to.active().contains(role))
        + using_among(&sessions[place + 1..], role)
}
