// The role hierarchy, closed once.
ghost use Rattle.std.specs.Prelude.{◌≡◌, map};
ghost use Rattle.std.specs.List.{range_with_len};
ghost use Rattle.policy.specs.Entries.{holds};
ghost use Rattle.policy.specs.Seniority.{row_with_below, rows_union, closure, only_itself, spread_rows, TellsSeniority};

use crate::draft::Draft;
use crate::rows::at_or;
use sets::RoleSet;
use std::array;

/// For each role, the roles that it is senior to: itself, and all that it inherits step by step.
#[derive(Clone, Copy)]
pub struct Seniority {
    pub rows: [RoleSet; 32],
}

impl Seniority {
    ghost use Rattle.policy.specs.Approved.{drafted_tables};

    /// The seniority that the hierarchy of the draft gives.
    pub fn of(draft: &Draft) -> Seniority
        ensures value { result.rows ≡ closure (drafted_tables draft.now).hierarchy.juniors }
        ensures tells { TellsSeniority (drafted_tables draft.now).hierarchy.juniors result.rows }
    {
        let mut rows = alone();
        for role in 0..32u8 {
            let juniors = draft.tables.hierarchy.of(role);
            // A role without juniors adds nothing to any row.
            if !juniors.is_empty() {
                let below = gather(&rows, juniors);
                rows = spread(&rows, role, below);
            }
        }
        Seniority { rows }
    }

    /// Whether the table has the second role in the row of the first: by a table of
    /// [`Seniority::of`], whether the first role is senior to the second.
    pub fn is_senior(&self, senior: u8, junior: u8) -> bool
        ensures { result ≡ holds self.now.rows senior junior }
    {
        at_or(&self.rows, senior, RoleSet::empty()).contains(junior)
    }

    /// The roles in the rows of the set's roles: by a table of [`Seniority::of`], those that some
    /// role of the set is senior to.
    pub fn below(&self, roles: RoleSet) -> RoleSet
        ensures { result ≡ record { bits = rows_union self.now.rows roles 32 } }
    {
        gather(&self.rows, roles)
    }
}

// Each role by itself.
fn alone() -> [RoleSet; 32]
    ensures { result ≡ map only_itself (range_with_len 0 32) }
{
    array::from_fn(|role| RoleSet::empty().with(role as u8))
}

/// The members of the rows of the chosen roles.
pub fn gather(rows: &[RoleSet; 32], chosen: RoleSet) -> RoleSet
    ensures { result ≡ record { bits = rows_union rows.now chosen 32 } }
{
    let mut all = RoleSet::empty();
    let mut rest = chosen;
    while let Some(role) = rest.lowest() {
        all = all.union(at_or(rows, role, RoleSet::empty()));
        rest = rest.without(role);
    }
    all
}

// The row with the roles below `role`, where it has that role.
fn extend(row: RoleSet, role: u8, below: RoleSet) -> RoleSet
    ensures { result ≡ row_with_below role below.bits row }
{
    if row.contains(role) {
        row.union(below)
    } else {
        row
    }
}

// Every row that has the role gets the roles below it.
fn spread(rows: &[RoleSet; 32], role: u8, below: RoleSet) -> [RoleSet; 32]
    ensures { result ≡ spread_rows role below.bits rows.now }
{
    rows.map(|row| extend(row, role, below))
}
