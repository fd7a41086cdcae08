// Users who may not share an assignment of a role, or of a role and its senior.
ghost use Rattle.std.specs.Prelude.{◌≡◌, ◌&&◌, not, [], ◌∷◌, ◌==◌, slice_index_or};
ghost use Rattle.sets.specs.Sets.{has};
ghost use Rattle.policy.specs.Approved as approved;
ghost use Rattle.policy.specs.Asking.{ok_unless};
ghost use Rattle.policy.specs.Entries.{no_users};
ghost use Rattle.monitor.specs.Answers.{at_top};
ghost use Rattle.monitor.specs.PossibleEvents.{tables_of, cells_of};
ghost use Rattle.families.specs.AssignmentConflicts.{some_role, is_related, holds_related, stands_against, lowest_against, violation_of, violation_number, violation_subject, assignment_conflicts};
ghost use Rattle.families.specs.AssignmentConflictsLaws.{assignment_conflicts_law};
ghost use Rattle.families.specs.Family.{by_change};
ghost use Rattle.std.proofs.Common.{rules};

use monitor::answers::Reason;
use monitor::changes::Change;
use monitor::possible::PossibleEvent;
use monitor::rules::Rule;
use policy::approved::Approved;
use policy::asking::none_of;
use sets::RoleSet;
use thiserror::Error;

/// Why an event is not admitted.
#[derive(Clone, Copy, Debug, PartialEq, Eq, Error)]
pub enum Violation {
    /// this user, who may not share the assignment, holds the role, a senior or a junior of it
    #[error("user {user} holds the role, a senior or a junior of it, and may not share it")]
    HeldBy { user: u8 },
}

impl Violation {
    /// The number that is answered: 48.
    pub fn number(self) -> u8
        ensures { result ≡ violation_number self }
    {
        match self {
            Violation::HeldBy { .. } => 48,
        }
    }

    /// The lowest such user; never the one whose roles change.
    pub fn subject(self) -> u8
        ensures { result ≡ violation_subject self }
    {
        match self {
            Violation::HeldBy { user } => user,
        }
    }
}

impl From<Violation> for Reason {
    ghost from_gives = { λ v reason. reason ≡ at_top (violation_number v) (violation_subject v) };

    fn from(violation: Violation) -> Reason {
        Reason::at_top(violation.number(), violation.subject())
    }
}

// Whether one of the roles is senior to the other, as a role is to itself.
fn are_related(policy: &Approved, first: u8, second: u8) -> bool
    ensures { result ≡ is_related (approved.tables_of policy.now) first second }
{
    let seniority = policy.seniority();
    seniority.is_senior(first, second) || seniority.is_senior(second, first)
}

// Whether the other user holds this role, or a related one, for which the two are listed.
fn holds_related(possible: PossibleEvent, user: u8, role: u8, other: u8) -> bool
    ensures { result ≡ holds_related (tables_of possible.entry) (cells_of possible.entry)
        user role other }
{
    let policy = possible.governed.policy();
    let conflicts = &possible.tables().assignment_conflicts;
    let held = possible.cells().assigned(other);
    (0..32).any(|held_role| held.contains(held_role)
        && conflicts.of(held_role, user).contains(other)
        && are_related(policy, role, held_role))
}

// The same, where the two are listed for this role too.
fn stands_against(possible: PossibleEvent, user: u8, role: u8, other: u8) -> bool
    ensures { result ≡ stands_against (tables_of possible.entry) (cells_of possible.entry)
        user role other }
{
    let in_conflict = possible.tables().assignment_conflicts.of(role, user);
    in_conflict.contains(other) && holds_related(possible, user, role, other)
}

// Whether what the other user holds stands against this user's being assigned one of the roles.
fn stands_against_any(possible: PossibleEvent, user: u8, roles: RoleSet, other: u8) -> bool
    ensures { result ≡ some_role (λ r. has roles.bits r
        && stands_against (tables_of possible.entry) (cells_of possible.entry) user r other) }
{
    (0..32).any(|role| roles.contains(role) && stands_against(possible, user, role, other))
}

// Whether anybody is listed with the user for one of the roles.
fn is_listed(possible: PossibleEvent, user: u8, roles: RoleSet) -> bool
    ensures { result ≡ some_role (λ r. has roles.bits r
        && not ((slice_index_or (slice_index_or
        (tables_of possible.entry).assignment_conflicts.partners r []) user no_users).bits == 0)) }
{
    let listed = &possible.tables().assignment_conflicts;
    (0..32).any(|role| roles.contains(role) && !listed.of(role, user).is_empty())
}

// The lowest user whose holdings stand against a role that is new to this user.
fn lowest_against(possible: PossibleEvent, user: u8, roles: RoleSet) -> Option<u8>
    ensures { result ≡ lowest_against (tables_of possible.entry) (cells_of possible.entry)
        user roles }
{
    let new = roles.difference(possible.cells().assigned(user));
    // Without users listed for a new role there is no need to look at what anybody holds.
    if !is_listed(possible, user, new) {
        return None;
    }
    (0..64).find(|other| stands_against_any(possible, user, new, *other))
}

// The question that the event may fail, put to what it changes.
fn violation_by(possible: PossibleEvent) -> Result<(), Violation>
    ensures { result ≡ ok_unless (by_change violation_of (tables_of possible.entry)
        (cells_of possible.entry) possible.entry.event) }
{
    match possible.change {
        Change::Assigned { user, roles } => {
            let against = lowest_against(possible, user, roles);
            none_of(against).map_err(|user| Violation::HeldBy { user })
        }
        _ => Ok(()),
    }
}

/// The family of users who may not share an assignment.
#[derive(Clone, Copy, Debug)]
pub struct AssignmentConflicts {}

impl Rule for AssignmentConflicts {
    ghost rules = { λ _. assignment_conflicts ∷ [] };

    ghost some = { Prim.search rules };

    ghost lawful = { λ x. (assignment_conflicts_law, tt) };

    fn consult(&self, possible: PossibleEvent) -> Result<(), Reason> {
        Ok(violation_by(possible)?)
    }

    fn places(&self) -> u8 {
        1
    }
}
