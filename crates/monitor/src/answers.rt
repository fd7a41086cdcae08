// What an event is answered.
ghost use Rattle.std.specs.Prelude.{◌≡◌};
ghost use Rattle.monitor.specs.declared.answers.Refusal.TheVariants.{Impossible, Refused};
ghost use Rattle.monitor.specs.Answers.{impossibility_number, impossibility_subject, at_top, refusal_number, refusal_subject, refusal_place};

use sets::RoleSet;
use thiserror::Error;

/// Why an event is not possible: the first of its questions that is answered no.
#[derive(Clone, Copy, Debug, PartialEq, Eq, Error)]
pub enum Impossibility {
    /// 4, of any event: a user, a role or a session is not one of the policy's.
    #[error("a number of the event is out of range")]
    OutOfRange,
    /// 21, of assign: the user is authorised for the role.
    #[error("the user is already authorised for the role")]
    AlreadyAuthorised,
    /// 22, of deassign: the role is not assigned to the user.
    #[error("the role is not assigned to the user")]
    NotAssigned,
    /// 23, of enable: the role is enabled.
    #[error("the role is already enabled")]
    AlreadyEnabled,
    /// 24, of disable: the role is disabled.
    #[error("the role is not enabled")]
    NotEnabled,
    /// 25, of open: the session is open.
    #[error("the session is already open")]
    AlreadyOpen,
    /// 26, of close, activate and deactivate: the session is closed.
    #[error("the session is not open")]
    NotOpen,
    /// 27, of activate: the role is disabled.
    #[error("the role to be activated is not enabled")]
    RoleDisabled,
    /// 28, of activate: the owner of the session is not authorised for the role.
    #[error("the owner of the session is not authorised for the role")]
    NotAuthorised,
    /// 29, of activate: the role is active in the session.
    #[error("the role is already active in the session")]
    AlreadyActive,
    /// 30, of deactivate: the role is not active in the session.
    #[error("the role is not active in the session")]
    NotActive,
    /// 31, of disable: the role is active in some session.
    #[error("the role is active in a session")]
    InUse,
    /// 32, of deassign: this role, the lowest such, is active for the user and would lose its
    /// authority.
    #[error("role {role} is active for the user and would lose its authority")]
    StillActive { role: u8 },
}

impl Impossibility {
    /// The number that is answered: 4, or 21 to 32.
    pub fn number(self) -> u8
        ensures { result ≡ impossibility_number self }
    {
        match self {
            Impossibility::OutOfRange => 4,
            Impossibility::AlreadyAuthorised => 21,
            Impossibility::NotAssigned => 22,
            Impossibility::AlreadyEnabled => 23,
            Impossibility::NotEnabled => 24,
            Impossibility::AlreadyOpen => 25,
            Impossibility::NotOpen => 26,
            Impossibility::RoleDisabled => 27,
            Impossibility::NotAuthorised => 28,
            Impossibility::AlreadyActive => 29,
            Impossibility::NotActive => 30,
            Impossibility::InUse => 31,
            Impossibility::StillActive { .. } => 32,
        }
    }

    /// The role that would lose its authority, and else 0.
    pub fn subject(self) -> u8
        ensures { result ≡ impossibility_subject self }
    {
        match self {
            Impossibility::StillActive { role } => role,
            _ => 0,
        }
    }
}

/// Why a rule does not admit an event. The number is a plain number, since an archive's rule brings
/// numbers of its own.
#[derive(Clone, Copy, Debug, PartialEq, Eq, Error)]
#[error("rule {place} of the pile refuses with {number}, subject {subject}")]
pub struct Reason {
    /// The number of the rule's refusal, 1 to 255.
    pub number: u8,
    /// The role or the user that shows it; 0 where there is none.
    pub subject: u8,
    /// The place of the rule in the pile, 1 at the top; 255 stands for each place past 254.
    pub place: u8,
}

impl Reason {
    /// The reason that a rule by itself names.
    pub fn at_top(number: u8, subject: u8) -> Reason
        ensures { result ≡ at_top number subject }
    {
        Reason {
            number,
            subject,
            place: 1,
        }
    }
}

/// Why an event is refused.
#[derive(Clone, Copy, Debug, PartialEq, Eq, Error)]
pub enum Refusal {
    /// It is not possible in this state.
    #[error(transparent)]
    Impossible(Impossibility),
    /// It is possible, and a rule of the pile does not admit it.
    #[error(transparent)]
    Refused(Reason),
}

/// The answer to an event: done, with the roles that it lists, or why not.
pub type Answer = Result<RoleSet, Refusal>;

impl Refusal {
    /// The number that is answered, 1 to 255.
    pub fn number(self) -> u8
        ensures { result ≡ refusal_number self }
    {
        match self {
            Refusal::Impossible(impossibility) => impossibility.number(),
            Refusal::Refused(reason) => reason.number,
        }
    }

    /// The role or the user that shows it; 0 where there is none.
    pub fn subject(self) -> u8
        ensures { result ≡ refusal_subject self }
    {
        match self {
            Refusal::Impossible(impossibility) => impossibility.subject(),
            Refusal::Refused(reason) => reason.subject,
        }
    }

    /// The place of the rule in the pile; 0 where no rule was asked.
    pub fn place(self) -> u8
        ensures { result ≡ refusal_place self }
    {
        match self {
            Refusal::Impossible(_) => 0,
            Refusal::Refused(reason) => reason.place,
        }
    }
}

impl From<Impossibility> for Refusal {
    ghost from_gives = { λ why r. r ≡ Impossible why };

    fn from(impossibility: Impossibility) -> Refusal {
        Refusal::Impossible(impossibility)
    }
}

impl From<Reason> for Refusal {
    ghost from_gives = { λ reason r. r ≡ Refused reason };

    fn from(reason: Reason) -> Refusal {
        Refusal::Refused(reason)
    }
}
