// What is answered on a policy: it passes, or it fails a question.
ghost use Rattle.std.specs.Prelude.{◌≡◌};
ghost use Rattle.policy.specs.Verdicts.{failure_number, failure_names, number_of, names_of};

use thiserror::Error;

/// The question that a policy fails, with its lowest witness: users and roles by their numbers.
#[derive(Clone, Copy, Debug, PartialEq, Eq, Error)]
pub enum Failure {
    /// Two different roles are each senior to the other; the lower comes first.
    #[error("roles {first} and {second} are each senior to the other")]
    Cycle {
        first: u8,
        second: u8,
    },
    /// A role is in static or dynamic conflict with itself.
    #[error("role {role} is in conflict with itself")]
    SelfConflict {
        role: u8,
    },
    /// `junior` is in static conflict with `other`, and its senior is not.
    #[error("role {junior} is in static conflict with role {other}, and its senior {senior} is not")]
    UninheritedConflict {
        senior: u8,
        junior: u8,
        other: u8,
    },
    /// Two roles are in both static and dynamic conflict.
    #[error("roles {first} and {second} are in both static and dynamic conflict")]
    BothConflicts {
        first: u8,
        second: u8,
    },
    /// Two users conflict for `junior`, and not for its senior.
    #[error("users {first} and {second} conflict for role {junior}, and not for its senior {senior}")]
    UninheritedUserConflict {
        senior: u8,
        junior: u8,
        first: u8,
        second: u8,
    },
    /// Two users are listed, as not to share an assignment, for `junior`, and not for its senior.
    #[error("users {first} and {second} may not share role {junior}, but may share its senior {senior}")]
    UninheritedAssignmentConflict {
        senior: u8,
        junior: u8,
        first: u8,
        second: u8,
    },
}

/// The verdict on a policy: it passes, or it fails a question.
pub type Verdict = Result<(), Failure>;

impl Failure {
    /// The number that is printed for the failed question, from 11 to 16.
    pub fn number(self) -> u8
        ensures { result ≡ failure_number self }
    {
        match self {
            Failure::Cycle { .. } => 11,
            Failure::SelfConflict { .. } => 12,
            Failure::UninheritedConflict { .. } => 13,
            Failure::BothConflicts { .. } => 14,
            Failure::UninheritedUserConflict { .. } => 15,
            Failure::UninheritedAssignmentConflict { .. } => 16,
        }
    }

    /// The four names of the witness, as they are printed; unused ones are 0.
    pub fn names(self) -> [u8; 4]
        ensures { result ≡ failure_names self }
    {
        match self {
            Failure::Cycle { first, second } => [first, second, 0, 0],
            Failure::SelfConflict { role } => [role, 0, 0, 0],
            Failure::UninheritedConflict {
                senior,
                junior,
                other,
            } => [senior, junior, other, 0],
            Failure::BothConflicts { first, second } => [first, second, 0, 0],
            Failure::UninheritedUserConflict {
                senior,
                junior,
                first,
                second,
            }
            | Failure::UninheritedAssignmentConflict {
                senior,
                junior,
                first,
                second,
            } => [senior, junior, first, second],
        }
    }
}

/// The number that is printed for a verdict: 0 where the policy passes.
pub fn number(verdict: Verdict) -> u8
    ensures { result ≡ number_of verdict }
{
    match verdict {
        Ok(()) => 0,
        Err(failure) => failure.number(),
    }
}

/// The four names that are printed for a verdict; all are 0 where the policy passes.
pub fn names(verdict: Verdict) -> [u8; 4]
    ensures { result ≡ names_of verdict }
{
    match verdict {
        Ok(()) => [0, 0, 0, 0],
        Err(failure) => failure.names(),
    }
}
