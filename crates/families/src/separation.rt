// Separation of duty: static over authorised roles, dynamic over active ones, and of users.
ghost use Rattle.std.specs.Prelude.{◌≡◌, ℕ, ◌<◌, ◌&&◌, [], ◌∷◌, slice_set};
ghost use Rattle.std.specs.Option.{option_map};
ghost use Rattle.sets.specs.Sets.{has};
ghost use Rattle.policy.specs.Asking.{ok_unless};
ghost use Rattle.policy.specs.Entries.{users_pair};
ghost use Rattle.monitor.specs.declared.sessions.Whose.TheVariants.{User};
ghost use Rattle.monitor.specs.Answers.{at_top};
ghost use Rattle.monitor.specs.Cells.{is_active_for};
ghost use Rattle.monitor.specs.Changes.{next};
ghost use Rattle.monitor.specs.PossibleEvents.{tables_of, cells_of};
ghost use Rattle.monitor.specs.Sessions.{active_in};
ghost use Rattle.families.specs.Family.{by_change};
ghost use Rattle.families.specs.Separation.{static_conflict, dynamic_conflict, user_conflict};
ghost use Rattle.families.specs.Separation.{violation_of, violation_number, violation_subject, separation};
ghost use Rattle.families.specs.declared.separation.Violation.TheVariants.{StaticRole, DynamicRole, ConflictingUser};
ghost use Rattle.families.specs.SeparationLaws.{separation_law};
ghost use Rattle.std.proofs.Common.{rules};

use monitor::answers::Reason;
use monitor::changes::Change;
use monitor::governed::authority;
use monitor::possible::PossibleEvent;
use monitor::rules::Rule;
use monitor::sessions::{Session, Whose};
use policy::asking::none_of;
use policy::seniority::gather;
use sets::{RoleSet, UserSet};
use thiserror::Error;

/// Why an event is not admitted.
#[derive(Clone, Copy, Debug, PartialEq, Eq, Error)]
pub enum Violation {
    /// the user would be authorised for this role, in static conflict with a new one
    #[error("role {role} is in static conflict with a role that is assigned")]
    StaticRole { role: u8 },
    /// the owner would have this role active, in dynamic conflict with a new one
    #[error("role {role} is in dynamic conflict with a role that becomes active")]
    DynamicRole { role: u8 },
    /// this user, in conflict with the owner for a new role, would have it active
    #[error("user {user} has a role active and is in conflict with the owner for it")]
    ConflictingUser { user: u8 },
}

impl Violation {
    /// The number that is answered, 45 to 47.
    pub fn number(self) -> u8
        ensures { result ≡ violation_number self }
    {
        match self {
            Violation::StaticRole { .. } => 45,
            Violation::DynamicRole { .. } => 46,
            Violation::ConflictingUser { .. } => 47,
        }
    }

    /// The lowest such role or user.
    pub fn subject(self) -> u8
        ensures { result ≡ violation_subject self }
    {
        match self {
            Violation::StaticRole { role } | Violation::DynamicRole { role } => role,
            Violation::ConflictingUser { user } => user,
        }
    }
}

impl From<Violation> for Reason {
    ghost from_gives = { λ v reason. reason ≡ at_top (violation_number v) (violation_subject v) };

    fn from(violation: Violation) -> Reason {
        Reason::at_top(violation.number(), violation.subject())
    }
}

// The users who have the role active in one of the sessions.
fn users_with(sessions: &[Session], role: u8) -> UserSet
    ensures { (v : ℕ) → v < 64 → has result.bits v ≡ has (active_in (User v) sessions.now) role }
{
    sessions
        .iter()
        .filter(|session| session.active().contains(role))
        .fold(
            UserSet::empty(),
            |users, session| users.with(session.owner()),
        )
}

// The users who have the role active, once another session stands at a place.
fn users_put(sessions: &[Session], place: u8, to: Session, role: u8) -> UserSet
    ensures { (v : ℕ) → v < 64
        → has result.bits v ≡ has (active_in (User v) (slice_set sessions.now place to)) role }
{
    let place = usize::from(place);
    if place >= sessions.len() {
        return users_with(sessions, role);
    }
    users_with(&sessions[..place], role)
        .union(users_with(&[to], role))
        .union(users_with(&sessions[place + 1..], role))
}

// The users who have the role active in the state after the event.
fn users_after(possible: PossibleEvent, role: u8) -> UserSet
    ensures { (v : ℕ) → v < 64 → has result.bits v
        ≡ is_active_for (next (tables_of possible.entry) (cells_of possible.entry)
        possible.entry.event) (User v) role }
{
    let sessions = possible.governed.sessions();
    match possible.change {
        Change::Seated { session, to } => users_put(sessions, session, to, role),
        Change::Assigned { .. } => users_with(sessions, role),
        Change::Enabled { .. } => users_with(sessions, role),
    }
}

// No role in static conflict with a newly assigned one for which the roles authorise.
fn check_static(possible: PossibleEvent, user: u8, roles: RoleSet) -> Result<(), Violation>
    ensures { result ≡ ok_unless (option_map StaticRole (static_conflict (tables_of possible.entry)
        (cells_of possible.entry) user roles)) }
{
    let new = roles.difference(possible.cells().assigned(user));
    let partners = gather(&possible.tables().ssd.partners, new);
    let conflicting = authority(possible.governed.policy(), roles).intersection(partners);
    none_of(conflicting.lowest()).map_err(|role| Violation::StaticRole { role })
}

// No role in dynamic conflict with a new one that the owner then has active.
fn check_dynamic(possible: PossibleEvent, owner: u8, new: RoleSet) -> Result<(), Violation>
    ensures { result ≡ ok_unless (option_map DynamicRole (dynamic_conflict
        (tables_of possible.entry)
        (next (tables_of possible.entry) (cells_of possible.entry) possible.entry.event)
        owner new)) }
{
    let partners = gather(&possible.tables().dsd.partners, new);
    // Without partners there is no need to look through the sessions.
    if partners.is_empty() {
        return Ok(());
    }
    let active = possible.active_after(Whose::User { user: owner });
    let conflicting = active.intersection(partners);
    none_of(conflicting.lowest()).map_err(|role| Violation::DynamicRole { role })
}

// The users in conflict with the owner for the role who then have it active.
fn rivals(possible: PossibleEvent, owner: u8, role: u8) -> UserSet
    ensures { (v : ℕ) → v < 64 → has result.bits v
        ≡ (users_pair (tables_of possible.entry) role owner v
        && is_active_for (next (tables_of possible.entry) (cells_of possible.entry)
        possible.entry.event) (User v) role) }
{
    let in_conflict = possible.tables().activation_conflicts.of(role, owner);
    // Without users in conflict there is no need to look through the sessions.
    if in_conflict.is_empty() {
        return UserSet::empty();
    }
    in_conflict.intersection(users_after(possible, role))
}

// No user in conflict with the owner for a new role who then has it active.
fn check_users(possible: PossibleEvent, owner: u8, new: RoleSet) -> Result<(), Violation>
    ensures { result ≡ ok_unless (option_map ConflictingUser (user_conflict
        (tables_of possible.entry)
        (next (tables_of possible.entry) (cells_of possible.entry) possible.entry.event)
        owner new)) }
{
    let mut conflicting = UserSet::empty();
    let mut rest = new;
    while let Some(role) = rest.lowest() {
        conflicting = conflicting.union(rivals(possible, owner, role));
        rest = rest.without(role);
    }
    none_of(conflicting.lowest()).map_err(|user| Violation::ConflictingUser { user })
}

// The questions that the event may fail, put to what it changes.
fn violation_by(possible: PossibleEvent) -> Result<(), Violation>
    ensures { result ≡ ok_unless (by_change violation_of (tables_of possible.entry)
        (cells_of possible.entry) possible.entry.event) }
{
    match possible.change {
        Change::Assigned { user, roles } => {
            let new = roles.difference(possible.cells().assigned(user));
            if new.is_empty() {
                return Ok(());
            }
            check_static(possible, user, roles)
        }
        Change::Enabled { .. } => Ok(()),
        Change::Seated { to, .. } => {
            let new = possible.gained();
            if new.is_empty() {
                return Ok(());
            }
            check_dynamic(possible, to.owner(), new)?;
            check_users(possible, to.owner(), new)
        }
    }
}

/// The family of separation of duty.
#[derive(Clone, Copy, Debug)]
pub struct Separation {}

impl Rule for Separation {
    ghost rules = { λ _. separation ∷ [] };

    ghost some = { Prim.search rules };

    ghost lawful = { λ x. (separation_law, tt) };

    fn consult(&self, possible: PossibleEvent) -> Result<(), Reason> {
        Ok(violation_by(possible)?)
    }

    fn places(&self) -> u8 {
        1
    }
}
