// A policy that passed the questions. Governed states and monitors hold a copy of one.
ghost use Rattle.policy.specs.Questions.{Passes};
ghost use Rattle.policy.specs.Seniority.{Closes};

use crate::draft::Draft;
use crate::seniority::Seniority;
use crate::tables::Tables;

/// A policy that passed every question, with its role hierarchy closed.
///
/// [`Checked::into_policy`](crate::Checked::into_policy) alone hands one out.
#[derive(Clone, Copy)]
pub struct Approved {
    pub(crate) draft: Draft,
    pub(crate) seniority: Seniority,
    ghost closed: { Closes draft.tables.hierarchy.juniors seniority.rows },
    ghost passes: { Passes draft.tables },
}

impl Approved {
    ghost use Rattle.std.specs.Prelude.{◌≡◌};
    ghost use Rattle.policy.specs.Approved.{tables_of, seniority_of};

    /// The tables of the policy.
    pub fn tables(&self) -> &Tables
        ensures { result.now ≡ tables_of self.now }
    {
        &self.draft.tables
    }

    /// The role hierarchy, closed.
    pub fn seniority(&self) -> &Seniority
        ensures { result.now ≡ seniority_of self.now }
    {
        &self.seniority
    }
}
