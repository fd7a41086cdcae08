// Cardinality: limits on who is authorised for what, and on what is active.
ghost use Rattle.std.specs.Prelude.{◌≡◌, [], ◌∷◌};
ghost use Rattle.sets.specs.Sets.{count_below};
ghost use Rattle.policy.specs.Asking.{ok_unless};
ghost use Rattle.policy.specs.Entries.{holds};
ghost use Rattle.policy.specs.Limits.{limit_of_active, within};
ghost use Rattle.monitor.specs.Answers.{at_top};
ghost use Rattle.monitor.specs.Cells.{seats};
ghost use Rattle.monitor.specs.Changes.{next};
ghost use Rattle.monitor.specs.PossibleEvents.{tables_of, cells_of};
ghost use Rattle.families.specs.Cardinality.{is_over_users, is_over_sessions, over_users, over_sessions};
ghost use Rattle.families.specs.Cardinality.{over_authorised, over_active};
ghost use Rattle.families.specs.Cardinality.{violation_of, violation_number, violation_subject, cardinality};
ghost use Rattle.families.specs.CardinalityLaws.{cardinality_law};
ghost use Rattle.families.specs.Family.{by_change};
ghost use Rattle.std.proofs.Common.{rules};

use monitor::answers::Reason;
use monitor::changes::Change;
use monitor::governed::authority;
use monitor::possible::PossibleEvent;
use monitor::rules::Rule;
use policy::asking::{check, none_of};
use policy::rows::{at_or, put};
use policy::tables::Tables;
use sets::RoleSet;
use thiserror::Error;

/// The limit that an event would exceed, and of whom.
#[derive(Clone, Copy, Debug, PartialEq, Eq, Error)]
pub enum Violation {
    /// More users would be authorised for the role than its limit: 41.
    #[error("more users would be authorised for role {role} than its limit")]
    UsersOfRole { role: u8 },
    /// The user would be authorised for more roles than their limit: 42.
    #[error("user {user} would be authorised for more roles than the limit")]
    RolesOfUser { user: u8 },
    /// The user would take more seats than their limit: 43.
    #[error("user {user} would take more seats than the limit")]
    SeatsOfUser { user: u8 },
    /// More sessions would have the role active than its limit: 44.
    #[error("more sessions would have role {role} active than its limit")]
    SessionsOfRole { role: u8 },
}

impl Violation {
    /// The number that is answered, 41 to 44.
    pub fn number(self) -> u8
        ensures { result ≡ violation_number self }
    {
        match self {
            Violation::UsersOfRole { .. } => 41,
            Violation::RolesOfUser { .. } => 42,
            Violation::SeatsOfUser { .. } => 43,
            Violation::SessionsOfRole { .. } => 44,
        }
    }

    /// The role or the user whose limit it is.
    pub fn subject(self) -> u8
        ensures { result ≡ violation_subject self }
    {
        match self {
            Violation::UsersOfRole { role } | Violation::SessionsOfRole { role } => role,
            Violation::RolesOfUser { user } | Violation::SeatsOfUser { user } => user,
        }
    }
}

impl From<Violation> for Reason {
    ghost from_gives = { λ v reason. reason ≡ at_top (violation_number v) (violation_subject v) };

    fn from(violation: Violation) -> Reason {
        Reason::at_top(violation.number(), violation.subject())
    }
}

// How many users are authorised for the role.
#[tactic(auto, unfolding(sets::specs::Sets::count_below))]
fn users_of(authorised: &[RoleSet; 64], role: u8) -> u32
    ensures { result ≡ count_below 64 (λ u. holds authorised.now u role) }
{
    let mut users = 0;
    // `filter` and `count` take four times as long.
    for roles in authorised {
        users += u32::from(roles.contains(role));
    }
    users
}

// The questions where a user is newly authorised for these roles, with what everyone then is.
fn check_authorised(
    tables: &Tables,
    authorised: &[RoleSet; 64],
    user: u8,
    new: RoleSet,
) -> Result<(), Violation>
    ensures { result ≡ ok_unless (over_authorised tables.now authorised.now user new.bits) }
{
    let limits = &tables.limits;
    none_of(over_users(tables, authorised, new)).map_err(|role| Violation::UsersOfRole { role })?;
    let held = at_or(authorised, user, RoleSet::empty());
    check(
        limits
            .roles(user)
            .is_none_or(|most| held.count() <= u32::from(most)),
        Violation::RolesOfUser { user },
    )
}

// Whether the role is one of these and over its limit of users.
fn is_over_users(tables: &Tables, authorised: &[RoleSet; 64], roles: RoleSet, role: u8) -> bool
    ensures { result ≡ is_over_users tables.now authorised.now roles.bits role }
{
    roles.contains(role)
        && tables
            .limits
            .users(role)
            .is_some_and(|most| users_of(authorised, role) > u32::from(most))
}

// The lowest of the roles that is over its limit of users.
fn over_users(tables: &Tables, authorised: &[RoleSet; 64], roles: RoleSet) -> Option<u8>
    ensures { result ≡ over_users tables.now authorised.now roles.bits }
{
    let mut rest = roles;
    while let Some(role) = rest.lowest() {
        if is_over_users(tables, authorised, roles, role) {
            return Some(role);
        }
        rest = rest.without(role);
    }
    None
}

// Whether the role is one of these and over its limit of sessions, in the state after the event.
fn is_over_sessions(possible: PossibleEvent, roles: RoleSet, role: u8) -> bool
    ensures { result ≡ is_over_sessions (tables_of possible.entry)
        (next (tables_of possible.entry) (cells_of possible.entry) possible.entry.event)
        roles.bits role }
{
    let Some(most) = possible.tables().limits.sessions(role) else {
        return false;
    };
    roles.contains(role) && possible.using_after(role) > most
}

// The lowest of the roles that is over its limit of sessions, in the state after the event.
fn over_sessions(possible: PossibleEvent, roles: RoleSet) -> Option<u8>
    ensures { result ≡ over_sessions (tables_of possible.entry)
        (next (tables_of possible.entry) (cells_of possible.entry) possible.entry.event)
        roles.bits }
{
    let mut rest = roles;
    while let Some(role) = rest.lowest() {
        if is_over_sessions(possible, roles, role) {
            return Some(role);
        }
        rest = rest.without(role);
    }
    None
}

// Whether the seats of the user are within the limit, in the state after the event.
fn is_within_seats(possible: PossibleEvent, user: u8) -> bool
    ensures { result ≡ within (limit_of_active (tables_of possible.entry).limits user)
        (seats (next (tables_of possible.entry) (cells_of possible.entry)
        possible.entry.event) user) }
{
    let Some(most) = possible.tables().limits.active(user) else {
        return true;
    };
    possible.seats_after(user) <= u32::from(most)
}

// The questions where these roles have become active for the user, in the state after the event.
fn check_active(possible: PossibleEvent, user: u8, new: RoleSet) -> Result<(), Violation>
    ensures { result ≡ ok_unless (over_active (tables_of possible.entry)
        (next (tables_of possible.entry) (cells_of possible.entry) possible.entry.event)
        user new.bits) }
{
    check(
        is_within_seats(possible, user),
        Violation::SeatsOfUser { user },
    )?;
    none_of(over_sessions(possible, new)).map_err(|role| Violation::SessionsOfRole { role })
}

// The questions that the event may fail: put to the state after it, where something is gained.
fn violation_by(possible: PossibleEvent) -> Result<(), Violation>
    ensures { result ≡ ok_unless (by_change violation_of (tables_of possible.entry)
        (cells_of possible.entry) possible.entry.event) }
{
    match possible.change {
        Change::Assigned { user, roles } => {
            let held = authority(possible.governed.policy(), roles);
            let new = held.difference(possible.cells().authorised(user));
            if new.is_empty() {
                return Ok(());
            }
            let mut authorised = possible.cells().authorised;
            put(&mut authorised, user, held);
            check_authorised(possible.tables(), &authorised, user, new)
        }
        Change::Enabled { .. } => Ok(()),
        Change::Seated { to, .. } => {
            let new = possible.gained();
            if new.is_empty() {
                return Ok(());
            }
            check_active(possible, to.owner(), new)
        }
    }
}

/// The family of limits.
#[derive(Clone, Copy, Debug)]
pub struct Cardinality {}

impl Rule for Cardinality {
    ghost rules = { λ _. cardinality ∷ [] };

    ghost some = { Prim.search rules };

    ghost lawful = { λ x. (cardinality_law, tt) };

    fn consult(&self, possible: PossibleEvent) -> Result<(), Reason> {
        Ok(violation_by(possible)?)
    }

    fn places(&self) -> u8 {
        1
    }
}
