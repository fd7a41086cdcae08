// The tables of a draft, read from bytes record by record.
ghost use Rattle.std.specs.Prelude.{◌≡◌, ◌≤◌, length, IfOk, Ok, Err, MatchResult};
ghost use Rattle.policy.specs.WellFormed.{WellFormed};
ghost use Rattle.policy.specs.Updates.{only, bare};
ghost use Rattle.policy.specs.Reading.{is_sizes, is_end, in_range, has_distinct_pair, is_unlimited, with_required, with_entry, after_entry, reading};

use crate::asking::check;
use crate::rows::{add, add_pair, at_or, put};
use crate::tables::{
    Dependencies, Hierarchy, Limits, Requirements, RoleConflicts, Sizes, Tables, UserConflicts,
};
use records::entry::Entry;
use records::fault::Fault;
use records::taking::take;
use sets::{RoleSet, UserSet};

// The tables with one user, role and session, and nothing else.
pub(crate) fn bare_tables() -> Tables
    ensures { result ≡ bare }
{
    only(Sizes {
        users: 1,
        roles: 1,
        sessions: 1,
    })
}

// Tables with these sizes, and nothing else.
#[tactic(auto, unfolding(crate::specs::Updates::only))]
fn only(sizes: Sizes) -> Tables
    ensures { result ≡ only sizes }
{
    let no_roles = [RoleSet::empty(); 32];
    let no_users = [[UserSet::empty(); 64]; 32];
    Tables {
        sizes,
        hierarchy: Hierarchy { juniors: no_roles },
        ssd: RoleConflicts { partners: no_roles },
        dsd: RoleConflicts { partners: no_roles },
        activation_conflicts: UserConflicts { partners: no_users },
        assignment_conflicts: UserConflicts { partners: no_users },
        limits: Limits {
            users: [None; 32],
            roles: [None; 64],
            active: [None; 64],
            sessions: [None; 32],
        },
        requirements: Requirements {
            sets: [no_roles; 6],
        },
        dependencies: Dependencies { needs: no_roles },
    }
}

fn is_sizes(entry: Entry) -> bool
    ensures { result ≡ is_sizes entry }
{
    matches!(entry, Entry::Sizes { .. })
}

fn is_end(entry: Entry) -> bool
    ensures { result ≡ is_end entry }
{
    matches!(entry, Entry::End)
}

// Whether every number of the entry is in range.
fn in_range(sizes: Sizes, entry: Entry) -> bool
    ensures { result ≡ in_range sizes entry }
{
    match entry {
        Entry::Sizes {
            users,
            roles,
            sessions,
        } => { matches!(users, 1..=64) && matches!(roles, 1..=32) && matches!(sessions, 1..=64) }
        Entry::Inherits { senior, junior } => senior < sizes.roles && junior < sizes.roles,
        Entry::StaticPair { first, second } | Entry::DynamicPair { first, second } => {
            first < sizes.roles && second < sizes.roles
        }
        Entry::ConflictingUsers {
            role,
            first,
            second,
        }
        | Entry::AssignmentConflict {
            role,
            first,
            second,
        } => { role < sizes.roles && first < sizes.users && second < sizes.users }
        Entry::LimitOfRoleUsers { role, .. } | Entry::LimitOfRoleSessions { role, .. } => role
            < sizes.roles,
        Entry::LimitOfUserRoles { user, .. } | Entry::LimitOfUserActive { user, .. } => user
            < sizes.users,
        // An entry carries each number as it stands in the bytes, so a condition is asked here.
        Entry::Required {
            condition,
            role,
            required,
        } => { matches!(condition, 1..=6) && role < sizes.roles && required < sizes.roles }
        Entry::Dependency { role, needs } => role < sizes.roles && needs < sizes.roles,
        Entry::End => true,
    }
}

// Whether the last two numbers differ, where they have to.
fn has_distinct_pair(entry: Entry) -> bool
    ensures { result ≡ has_distinct_pair entry }
{
    match entry {
        Entry::ConflictingUsers { first, second, .. }
        | Entry::AssignmentConflict { first, second, .. } => first != second,
        Entry::Dependency { role, needs } => role != needs,
        _ => true,
    }
}

// Whether the subject of a limit had none.
fn is_unlimited(limits: &Limits, entry: Entry) -> bool
    ensures { result ≡ is_unlimited limits.now entry }
{
    let limit = match entry {
        Entry::LimitOfRoleUsers { role, .. } => limits.users(role),
        Entry::LimitOfUserRoles { user, .. } => limits.roles(user),
        Entry::LimitOfUserActive { user, .. } => limits.active(user),
        Entry::LimitOfRoleSessions { role, .. } => limits.sessions(role),
        _ => None,
    };
    limit.is_none()
}

// Adds a role to those that the condition requires of another.
fn add_required(requirements: &mut Requirements, condition: u8, role: u8, required: u8)
    ensures { requirements.new
        ≡ record { sets = with_required requirements.old.sets condition role required } }
{
    let at = condition.saturating_sub(1);
    let mut rows = at_or(&requirements.sets, at, [RoleSet::empty(); 32]);
    add(&mut rows, role, required);
    put(&mut requirements.sets, at, rows);
}

// Enters what the entry says; a sizes record begins anew.
fn enter(tables: &mut Tables, entry: Entry)
    ensures { tables.new ≡ with_entry tables.old entry }
{
    match entry {
        Entry::Sizes {
            users,
            roles,
            sessions,
        } => *tables = only(Sizes {
            users,
            roles,
            sessions,
        }),
        Entry::Inherits { senior, junior } => add(&mut tables.hierarchy.juniors, senior, junior),
        Entry::StaticPair { first, second } => add_pair(&mut tables.ssd.partners, first, second),
        Entry::DynamicPair { first, second } => add_pair(&mut tables.dsd.partners, first, second),
        Entry::ConflictingUsers {
            role,
            first,
            second,
        } => tables.activation_conflicts.add(role, first, second),
        Entry::AssignmentConflict {
            role,
            first,
            second,
        } => tables.assignment_conflicts.add(role, first, second),
        Entry::LimitOfRoleUsers { role, limit } => put(&mut tables.limits.users, role, Some(limit)),
        Entry::LimitOfUserRoles { user, limit } => put(&mut tables.limits.roles, user, Some(limit)),
        Entry::LimitOfUserActive { user, limit } => put(
            &mut tables.limits.active,
            user,
            Some(limit),
        ),
        Entry::LimitOfRoleSessions { role, limit } => put(
            &mut tables.limits.sessions,
            role,
            Some(limit),
        ),
        Entry::Required {
            condition,
            role,
            required,
        } => add_required(&mut tables.requirements, condition, role, required),
        Entry::Dependency { role, needs } => add(&mut tables.dependencies.needs, role, needs),
        Entry::End => {}
    }
}

// The questions of a whole record at a place, in their order; then what it says is entered.
fn apply(tables: &mut Tables, entry: Entry, at: usize) -> Result<(), Fault>
    ensures { MatchResult result
        (λ _. after_entry tables.old entry at ≡ Ok tables.new)
        (λ f. after_entry tables.old entry at ≡ Err f) }
{
    check(
        is_sizes(entry) == (at == 0),
        Fault::MisplacedSizes { place: at },
    )?;
    check(
        in_range(tables.sizes, entry),
        Fault::OutOfRange { place: at },
    )?;
    check(has_distinct_pair(entry), Fault::EqualPair { place: at })?;
    check(
        is_unlimited(&tables.limits, entry),
        Fault::RepeatedLimit { place: at },
    )?;
    enter(tables, entry);
    Ok(())
}

// The tables read from the bytes and how many bytes that took, or the first fault.
pub(crate) fn read_tables(bytes: &[u8]) -> Result<(Tables, usize), Fault>
    ensures answer { result ≡ reading bytes.now }
    ensures tables { IfOk result (λ p. WellFormed p.0) }
    ensures within { IfOk result (λ p. p.1 ≤ length bytes.now) }
{
    let mut tables = bare_tables();
    let mut rest = bytes;
    // How long a record is shows only once it is taken.
    loop {
        let at = bytes.len() - rest.len();
        let (entry, tail) = take::<Entry>(rest, at)?;
        apply(&mut tables, entry, at)?;
        if is_end(entry) {
            return Ok((tables, bytes.len() - tail.len()));
        }
        rest = tail;
    }
}
