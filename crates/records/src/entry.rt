// The records of a policy.
ghost use Rattle.records.specs.Entries.{entry_of};
ghost use Rattle.records.specs.declared.kinds.Reader.TheVariants.{Policy};

use crate::kinds::Reader;
use crate::taking::Record;

/// One record of a policy. Each number is a byte of the body as it is there, in range or not.
#[derive(Clone, Copy, PartialEq, Eq)]
pub enum Entry {
    /// Kind 1, how many users, roles and sessions there are.
    Sizes {
        users: u8,
        roles: u8,
        sessions: u8,
    },
    /// Kind 2, the senior role inherits the junior role.
    Inherits {
        senior: u8,
        junior: u8,
    },
    /// Kind 3, two roles in static conflict.
    StaticPair {
        first: u8,
        second: u8,
    },
    /// Kind 4, two roles in dynamic conflict.
    DynamicPair {
        first: u8,
        second: u8,
    },
    /// Kind 5, two users who may not both have the role active.
    ConflictingUsers {
        role: u8,
        first: u8,
        second: u8,
    },
    /// Kind 6, the most users that may be authorised for the role.
    LimitOfRoleUsers {
        role: u8,
        limit: u8,
    },
    /// Kind 7, the most roles that the user may be authorised for.
    LimitOfUserRoles {
        user: u8,
        limit: u8,
    },
    /// Kind 8, the most seats that the user may take: pairs of a session of theirs and a role
    /// active in it.
    LimitOfUserActive {
        user: u8,
        limit: u8,
    },
    /// Kind 9, the most sessions that may have the role active.
    LimitOfRoleSessions {
        role: u8,
        limit: u8,
    },
    /// Kind 10, the role requires another, by the condition of this number.
    Required {
        // A number: whether it is in range is asked after the kind, and of a whole record.
        condition: u8,
        role: u8,
        required: u8,
    },
    /// Kind 11, the role depends on another.
    Dependency {
        role: u8,
        needs: u8,
    },
    /// Kind 12, the end of the policy.
    End,
    /// Kind 13, two users who may not share an assignment of the role.
    AssignmentConflict {
        role: u8,
        first: u8,
        second: u8,
    },
}

impl Record for Entry {
    ghost READER = { Policy };

    ghost decoded = { entry_of };

    const READER: Reader = Reader::Policy;

    fn decode(kind: u8, body: &[u8]) -> Option<Entry> {
        match (kind, body) {
            (1, &[users, roles, sessions]) => Some(Entry::Sizes {
                users,
                roles,
                sessions,
            }),
            (2, &[senior, junior]) => Some(Entry::Inherits { senior, junior }),
            (3, &[first, second]) => Some(Entry::StaticPair { first, second }),
            (4, &[first, second]) => Some(Entry::DynamicPair { first, second }),
            (5, &[role, first, second]) => Some(Entry::ConflictingUsers {
                role,
                first,
                second,
            }),
            (6, &[role, limit]) => Some(Entry::LimitOfRoleUsers { role, limit }),
            (7, &[user, limit]) => Some(Entry::LimitOfUserRoles { user, limit }),
            (8, &[user, limit]) => Some(Entry::LimitOfUserActive { user, limit }),
            (9, &[role, limit]) => Some(Entry::LimitOfRoleSessions { role, limit }),
            (10, &[condition, role, required]) => Some(Entry::Required {
                condition,
                role,
                required,
            }),
            (11, &[role, needs]) => Some(Entry::Dependency { role, needs }),
            (12, []) => Some(Entry::End),
            (13, &[role, first, second]) => Some(Entry::AssignmentConflict {
                role,
                first,
                second,
            }),
            _ => None,
        }
    }
}
