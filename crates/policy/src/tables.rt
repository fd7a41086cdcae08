// The plain tables of a policy, one struct for each concern; a policy is their product. Each has
// an entry for every number there may be, so that no table allocates, and tables alike in shape are
// types of their own, so that none is passed for another.
ghost use Rattle.std.specs.Prelude.{◌≡◌, [], slice_index_or};
ghost use Rattle.policy.specs.Entries.{no_roles, no_users};
ghost use Rattle.policy.specs.Limits.{limit_of_users, limit_of_roles, limit_of_active, limit_of_sessions};
ghost use Rattle.policy.specs.Updates.{with_users};

use crate::rows::{add_pair, at_or, put};
use sets::{RoleSet, UserSet};

/// How many users, roles and sessions there are, each numbered from 0.
#[derive(Clone, Copy)]
pub struct Sizes {
    /// From 1 to 64.
    pub users: u8,
    /// From 1 to 32.
    pub roles: u8,
    /// From 1 to 64.
    pub sessions: u8,
}

/// The role hierarchy as written: for each role, those that it inherits directly.
#[derive(Clone, Copy)]
pub struct Hierarchy {
    pub juniors: [RoleSet; 32],
}

impl Hierarchy {
    /// The roles that this one inherits directly; none past the last role.
    pub fn of(&self, role: u8) -> RoleSet
        ensures { result ≡ slice_index_or self.now.juniors role no_roles }
    {
        at_or(&self.juniors, role, RoleSet::empty())
    }
}

/// Unordered pairs of roles, stored both ways: for each role, those in conflict with it.
#[derive(Clone, Copy)]
pub struct RoleConflicts {
    pub partners: [RoleSet; 32],
}

impl RoleConflicts {
    /// The roles in conflict with this one; none past the last role.
    pub fn of(&self, role: u8) -> RoleSet
        ensures { result ≡ slice_index_or self.now.partners role no_roles }
    {
        at_or(&self.partners, role, RoleSet::empty())
    }
}

/// Unordered pairs of users for a role, stored both ways: for each role and user, the users in
/// conflict with that user.
#[derive(Clone, Copy)]
pub struct UserConflicts {
    pub partners: [[UserSet; 64]; 32],
}

impl UserConflicts {
    /// The users in conflict with this one for a role; none past the last role or user.
    pub fn of(&self, role: u8, user: u8) -> UserSet
        ensures { result ≡ slice_index_or (slice_index_or self.now.partners role []) user no_users }
    {
        self.partners
            .get(usize::from(role))
            .map_or(UserSet::empty(), |row| at_or(row, user, UserSet::empty()))
    }

    // Adds an unordered pair of users for a role, both ways.
    pub(crate) fn add(&mut self, role: u8, first: u8, second: u8)
        ensures { self.new
            ≡ record { partners = with_users self.old.partners role first second } }
    {
        let mut row = at_or(&self.partners, role, [UserSet::empty(); 64]);
        add_pair(&mut row, first, second);
        put(&mut self.partners, role, row);
    }
}

/// The four limits; none where no record set one.
#[derive(Clone, Copy)]
pub struct Limits {
    /// The most users authorised for each role.
    pub users: [Option<u8>; 32],
    /// The most roles that each user is authorised for.
    pub roles: [Option<u8>; 64],
    /// The most seats of each user: pairs of a session of theirs and a role active in it.
    pub active: [Option<u8>; 64],
    /// The most sessions with each role active.
    pub sessions: [Option<u8>; 32],
}

impl Limits {
    /// The most users that may be authorised for the role; none where no record set a limit.
    pub fn users(&self, role: u8) -> Option<u8>
        ensures { result ≡ limit_of_users self.now role }
    {
        at_or(&self.users, role, None)
    }

    /// The most roles that the user may be authorised for.
    pub fn roles(&self, user: u8) -> Option<u8>
        ensures { result ≡ limit_of_roles self.now user }
    {
        at_or(&self.roles, user, None)
    }

    /// The most seats that the user may take: pairs of a session of theirs and a role active in it.
    pub fn active(&self, user: u8) -> Option<u8>
        ensures { result ≡ limit_of_active self.now user }
    {
        at_or(&self.active, user, None)
    }

    /// The most sessions that may have the role active.
    pub fn sessions(&self, role: u8) -> Option<u8>
        ensures { result ≡ limit_of_sessions self.now role }
    {
        at_or(&self.sessions, role, None)
    }
}

/// For each condition less one and each role, the roles that it requires.
///
/// The six conditions: enabled; assigned to the same user; assigned to any users; active for any
/// users; active in the same session; active for the owner.
#[derive(Clone, Copy)]
pub struct Requirements {
    pub sets: [[RoleSet; 32]; 6],
}

/// For each role, those that have to be active in some session while it is.
#[derive(Clone, Copy)]
pub struct Dependencies {
    pub needs: [RoleSet; 32],
}

/// A policy: `ssd` is static and `dsd` dynamic separation of duty. Users in conflict for a role may
/// not both have it active (`activation_conflicts`), or not share an assignment of it
/// (`assignment_conflicts`).
#[derive(Clone, Copy)]
pub struct Tables {
    pub sizes: Sizes,
    pub hierarchy: Hierarchy,
    pub ssd: RoleConflicts,
    pub dsd: RoleConflicts,
    pub activation_conflicts: UserConflicts,
    pub assignment_conflicts: UserConflicts,
    pub limits: Limits,
    pub requirements: Requirements,
    pub dependencies: Dependencies,
}
