// Precedence: all that a role requires stands before the role is enabled, assigned or activated.
ghost use Rattle.std.specs.Prelude.{◌≡◌, [], ◌∷◌};
ghost use Rattle.sets.specs.Sets.{has};
ghost use Rattle.policy.specs.Asking.{ok_unless};
ghost use Rattle.monitor.specs.Answers.{at_top};
ghost use Rattle.monitor.specs.PossibleEvents.{tables_of, cells_of};
ghost use Rattle.families.specs.Precedence.{precedence, requirement_number, requirement_row, required_set, unmet_requirement};
ghost use Rattle.families.specs.Precedence.{unmet_at_enabling, unmet_at_assignment, unmet_at_activation};
ghost use Rattle.families.specs.Precedence.{violation_by, violation_number, violation_subject};
ghost use Rattle.families.specs.PrecedenceLaws.{precedence_law};
ghost use Rattle.std.proofs.Common.{rules};

use monitor::answers::Reason;
use monitor::possible::PossibleEvent;
use monitor::rules::Rule;
use monitor::sessions::{Session, Whose};
use policy::asking::none_of;
use policy::rows::at_or;
use records::event::Event;
use sets::RoleSet;
use thiserror::Error;

/// How the roles that a role requires have to stand.
#[derive(Clone, Copy, Debug, PartialEq, Eq)]
pub enum RequirementKind {
    /// enabled, before the role is enabled
    Enabled,
    /// assigned to the same user, before the role is assigned
    AssignedToUser,
    /// assigned to any user, before the role is assigned
    AssignedToAny,
    /// active for any user, before the role is activated
    ActiveForAny,
    /// active in the same session, before the role is activated
    ActiveInSession,
    /// active for the session's owner, in any session, before the role is activated
    ActiveForOwner,
}

impl RequirementKind {
    /// The number that is answered, 51 to 56.
    pub fn number(self) -> u8
        ensures { result ≡ requirement_number self }
    {
        match self {
            RequirementKind::Enabled => 51,
            RequirementKind::AssignedToUser => 52,
            RequirementKind::AssignedToAny => 53,
            RequirementKind::ActiveForAny => 54,
            RequirementKind::ActiveInSession => 55,
            RequirementKind::ActiveForOwner => 56,
        }
    }

    // Where a policy keeps the roles that are required so.
    fn row(self) -> u8
        ensures { result ≡ requirement_row self }
    {
        self as u8
    }
}

/// The lowest required role that does not stand, and how it should.
#[derive(Clone, Copy, Debug, PartialEq, Eq, Error)]
#[error("role {role} is required and does not stand: {kind:?}")]
pub struct Violation {
    /// How the role is required to stand.
    pub kind: RequirementKind,
    /// The required role.
    pub role: u8,
}

impl Violation {
    /// The number that is answered, 51 to 56.
    pub fn number(self) -> u8
        ensures { result ≡ violation_number self }
    {
        self.kind.number()
    }

    /// The required role.
    pub fn subject(self) -> u8
        ensures { result ≡ violation_subject self }
    {
        self.role
    }
}

impl From<Violation> for Reason {
    ghost from_gives = { λ v reason. reason ≡ at_top (violation_number v) (violation_subject v) };

    fn from(violation: Violation) -> Reason {
        Reason::at_top(violation.number(), violation.subject())
    }
}

// The roles that a role requires to stand so.
fn required_set(possible: PossibleEvent, kind: RequirementKind, role: u8) -> RoleSet
    ensures { result ≡ required_set (tables_of possible.entry) kind role }
{
    at_or(
        &possible.tables().requirements.sets[usize::from(kind.row())],
        role,
        RoleSet::empty(),
    )
}

// Passes where every role that is required so is among those that stand.
fn require(
    possible: PossibleEvent,
    kind: RequirementKind,
    role: u8,
    standing: RoleSet,
) -> Result<(), Violation>
    ensures { result ≡ ok_unless (unmet_requirement (tables_of possible.entry) kind role
        (has standing.bits)) }
{
    let missing = required_set(possible, kind, role).difference(standing);
    none_of(missing.lowest()).map_err(|role| Violation { kind, role })
}

// The question to the enabling of a role.
fn unmet_at_enabling(possible: PossibleEvent, role: u8) -> Result<(), Violation>
    ensures { result ≡ ok_unless (unmet_at_enabling (tables_of possible.entry)
        (cells_of possible.entry) role) }
{
    let enabled = possible.cells().enabled;
    require(possible, RequirementKind::Enabled, role, enabled)
}

// The questions to an assignment.
fn unmet_at_assignment(possible: PossibleEvent, user: u8, role: u8) -> Result<(), Violation>
    ensures { result ≡ ok_unless (unmet_at_assignment (tables_of possible.entry)
        (cells_of possible.entry) user role) }
{
    let own = possible.cells().assigned(user);
    require(possible, RequirementKind::AssignedToUser, role, own)?;
    let anywhere = possible.governed.assigned_to_any();
    require(possible, RequirementKind::AssignedToAny, role, anywhere)
}

// The questions to an activation in a session.
fn unmet_at_activation(possible: PossibleEvent, role: u8, session: Session) -> Result<(), Violation>
    ensures { result ≡ ok_unless (unmet_at_activation (tables_of possible.entry)
        (cells_of possible.entry) role session) }
{
    let required = required_set(possible, RequirementKind::ActiveForAny, role)
        .union(required_set(possible, RequirementKind::ActiveInSession, role))
        .union(required_set(possible, RequirementKind::ActiveForOwner, role));
    // Where nothing is required there is no need to look through the sessions.
    if required.is_empty() {
        return Ok(());
    }
    let anyone = possible.governed.active_in(Whose::Anyone);
    require(possible, RequirementKind::ActiveForAny, role, anyone)?;
    let active = session.active();
    require(possible, RequirementKind::ActiveInSession, role, active)?;
    let owner = session.owner();
    let owned = possible.governed.active_in(Whose::User { user: owner });
    require(possible, RequirementKind::ActiveForOwner, role, owned)
}

// The questions that the event may fail.
fn violation_by(possible: PossibleEvent) -> Result<(), Violation>
    ensures { result ≡ ok_unless (violation_by (tables_of possible.entry) (cells_of possible.entry)
        possible.entry.event) }
{
    let cells = possible.cells();
    match possible.event {
        Event::Enable { role } => unmet_at_enabling(possible, role),
        Event::Assign { user, role } => unmet_at_assignment(possible, user, role),
        Event::Activate { session, role } => {
            unmet_at_activation(possible, role, cells.session(session))
        }
        _ => Ok(()),
    }
}

/// The family of six kinds of requirement.
#[derive(Clone, Copy, Debug)]
pub struct Precedence {}

impl Rule for Precedence {
    ghost rules = { λ _. precedence ∷ [] };

    ghost some = { Prim.search rules };

    ghost lawful = { λ x. (precedence_law, tt) };

    fn consult(&self, possible: PossibleEvent) -> Result<(), Reason> {
        Ok(violation_by(possible)?)
    }

    fn places(&self) -> u8 {
        1
    }
}
