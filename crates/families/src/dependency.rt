// Dependency: each role that an active role depends on is active in some session, of anyone.
ghost use Rattle.std.specs.Prelude.{◌≡◌, [], ◌∷◌};
ghost use Rattle.policy.specs.Asking.{ok_unless};
ghost use Rattle.monitor.specs.Answers.{at_top};
ghost use Rattle.monitor.specs.PossibleEvents.{tables_of, cells_of};
ghost use Rattle.families.specs.Dependency.{dependency, violation_of, violation_number, violation_subject, missing_from};
ghost use Rattle.families.specs.DependencyLaws.{dependency_law};
ghost use Rattle.families.specs.Family.{by_change};
ghost use Rattle.std.proofs.Common.{rules};

use monitor::answers::Reason;
use monitor::changes::Change;
use monitor::possible::PossibleEvent;
use monitor::rules::Rule;
use monitor::sessions::Whose;
use policy::asking::none_of;
use policy::seniority::gather;
use policy::tables::Tables;
use sets::RoleSet;
use thiserror::Error;

/// Why an event is not admitted.
#[derive(Clone, Copy, Debug, PartialEq, Eq, Error)]
pub enum Violation {
    /// an active role depends on this one, which would be active in no session
    #[error("an active role depends on role {role}, which would be active in no session")]
    NotActive { role: u8 },
}

impl Violation {
    /// The number that is answered: 61.
    pub fn number(self) -> u8
        ensures { result ≡ violation_number self }
    {
        match self {
            Violation::NotActive { .. } => 61,
        }
    }

    /// The lowest missing role.
    pub fn subject(self) -> u8
        ensures { result ≡ violation_subject self }
    {
        match self {
            Violation::NotActive { role } => role,
        }
    }
}

impl From<Violation> for Reason {
    ghost from_gives = { λ v reason. reason ≡ at_top (violation_number v) (violation_subject v) };

    fn from(violation: Violation) -> Reason {
        Reason::at_top(violation.number(), violation.subject())
    }
}

// The lowest role that one of the active roles depends on and that is not among them.
fn lowest_missing(tables: &Tables, active: RoleSet) -> Option<u8>
    ensures { result ≡ missing_from tables.now active.bits }
{
    gather(&tables.dependencies.needs, active)
        .difference(active)
        .lowest()
}

// The question put to the state after the event; a closing is judged once all its roles have ended
// together.
fn violation_by(possible: PossibleEvent) -> Result<(), Violation>
    ensures { result ≡ ok_unless (by_change violation_of (tables_of possible.entry)
        (cells_of possible.entry) possible.entry.event) }
{
    match possible.change {
        Change::Seated { .. } => {
            let changed = possible.gained().union(possible.lost());
            if changed.is_empty() {
                return Ok(());
            }
            let active = possible.active_after(Whose::Anyone);
            none_of(lowest_missing(possible.tables(), active)).map_err(|role| Violation::NotActive {
                role,
            })
        }
        _ => Ok(()),
    }
}

/// The family of dependencies between active roles.
#[derive(Clone, Copy, Debug)]
pub struct Dependency {}

impl Rule for Dependency {
    ghost rules = { λ _. dependency ∷ [] };

    ghost some = { Prim.search rules };

    ghost lawful = { λ x. (dependency_law, tt) };

    fn consult(&self, possible: PossibleEvent) -> Result<(), Reason> {
        Ok(violation_by(possible)?)
    }

    fn places(&self) -> u8 {
        1
    }
}
