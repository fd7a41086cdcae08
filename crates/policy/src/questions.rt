// The questions put to a policy, each a search for its lowest witness.
ghost use Rattle.std.specs.Prelude.{◌≡◌};
ghost use Rattle.sets.specs.First.{first_of};
ghost use Rattle.policy.specs.Seniority.{closure};
ghost use Rattle.policy.specs.Search.{cycle_at, lowest_cycle, self_conflict_at, lowest_self_conflict, is_uninherited_conflict, lowest_uninherited_conflict, both_conflicts_at, lowest_both_conflicts, uninherited_user_conflict_at, uninherited_users_at, lowest_uninherited_users, uninherited_assignment_conflict_at, uninherited_assignments_at, lowest_uninherited_assignments, verdict};

use crate::asking::none_of;
use crate::seniority::Seniority;
use crate::tables::Tables;
use crate::verdict::{Failure, Verdict};

// What the questions are put to: the tables of a policy, and its hierarchy closed.
#[derive(Clone, Copy)]
pub(crate) struct Questions<'a> {
    pub(crate) tables: &'a Tables,
    pub(crate) seniority: &'a Seniority,
    ghost closed: { seniority.now.rows ≡ closure tables.now.hierarchy.juniors },
}

impl Questions<'_> {
    // The questions in their order: the first that finds a failure refuses.
    pub(crate) fn vet(&self) -> Verdict
        ensures { result ≡ verdict self.now.tables.now }
    {
        none_of(self.find_cycle())?;
        none_of(self.find_self_conflict())?;
        none_of(self.find_uninherited_conflict())?;
        none_of(self.find_both_conflicts())?;
        none_of(self.find_uninherited_users())?;
        none_of(self.find_uninherited_assignments())
    }

    // Two different roles that are each senior to the other, the lower first.
    fn find_cycle(&self) -> Option<Failure>
        ensures { result ≡ lowest_cycle self.now.seniority.now.rows self.now.tables.now }
    {
        (0..self.tables.sizes.roles).find_map(|first| self.cycle_from(first))
    }

    fn cycle_from(&self, first: u8) -> Option<Failure>
        ensures { result ≡ first_of self.now.tables.now.sizes.roles
            (cycle_at self.now.seniority.now.rows first) }
    {
        (0..self.tables.sizes.roles).find_map(|second| self.cycle_at(first, second))
    }

    fn cycle_at(&self, first: u8, second: u8) -> Option<Failure>
        ensures { result ≡ cycle_at self.now.seniority.now.rows first second }
    {
        let each_senior = first < second
            && self.seniority.is_senior(first, second)
            && self.seniority.is_senior(second, first);
        each_senior.then_some(Failure::Cycle { first, second })
    }

    // A role in static or dynamic conflict with itself.
    fn find_self_conflict(&self) -> Option<Failure>
        ensures { result ≡ lowest_self_conflict self.now.tables.now }
    {
        (0..self.tables.sizes.roles).find_map(|role| self.self_conflict_at(role))
    }

    fn self_conflict_at(&self, role: u8) -> Option<Failure>
        ensures { result ≡ self_conflict_at self.now.tables.now role }
    {
        let in_conflict = self.tables.ssd.of(role).contains(role)
            || self.tables.dsd.of(role).contains(role);
        in_conflict.then_some(Failure::SelfConflict { role })
    }

    // A senior role without the static conflict of its junior. The three loops read as the triple
    // that they look for, and the label leaves them at the first.
    #[tactic(auto, unfolding(sets::specs::First::first_of))]
    fn find_uninherited_conflict(&self) -> Option<Failure>
        ensures { result
            ≡ lowest_uninherited_conflict self.now.seniority.now.rows self.now.tables.now }
    {
        let roles = self.tables.sizes.roles;
        'search: {
            for senior in 0..roles {
                for junior in 0..roles {
                    for other in 0..roles {
                        if self.is_uninherited_conflict(senior, junior, other) {
                            break 'search Some(Failure::UninheritedConflict {
                                senior,
                                junior,
                                other,
                            });
                        }
                    }
                }
            }
            None
        }
    }

    // Whether the junior is in static conflict with the other role, and its senior is not.
    fn is_uninherited_conflict(&self, senior: u8, junior: u8, other: u8) -> bool
        ensures { result ≡ is_uninherited_conflict self.now.seniority.now.rows self.now.tables.now
            senior junior other }
    {
        let statics = &self.tables.ssd;
        self.seniority.is_senior(senior, junior)
            && statics.of(junior).contains(other)
            && !statics.of(senior).contains(other)
    }

    // A pair in both static and dynamic conflict.
    fn find_both_conflicts(&self) -> Option<Failure>
        ensures { result ≡ lowest_both_conflicts self.now.tables.now }
    {
        (0..self.tables.sizes.roles).find_map(|first| self.both_conflicts_of(first))
    }

    // The lowest role that is in both static and dynamic conflict with this one.
    fn both_conflicts_of(&self, first: u8) -> Option<Failure>
        ensures { result ≡ first_of 32 (both_conflicts_at self.now.tables.now first) }
    {
        let statics = self.tables.ssd.of(first);
        let dynamics = self.tables.dsd.of(first);
        let both = statics.intersection(dynamics);
        both.lowest()
            .map(|second| Failure::BothConflicts { first, second })
    }

    // Two users who conflict for a junior role and not for its senior.
    fn find_uninherited_users(&self) -> Option<Failure>
        ensures { result
            ≡ lowest_uninherited_users self.now.seniority.now.rows self.now.tables.now }
    {
        (0..self.tables.sizes.roles).find_map(|senior| self.uninherited_users_from(senior))
    }

    fn uninherited_users_from(&self, senior: u8) -> Option<Failure>
        ensures { result ≡ first_of self.now.tables.now.sizes.roles
            (uninherited_users_at self.now.seniority.now.rows self.now.tables.now senior) }
    {
        (0..self.tables.sizes.roles).find_map(|junior| self.uninherited_users_of(senior, junior))
    }

    fn uninherited_users_of(&self, senior: u8, junior: u8) -> Option<Failure>
        ensures { result
            ≡ uninherited_users_at self.now.seniority.now.rows self.now.tables.now senior junior }
    {
        if !self.seniority.is_senior(senior, junior) {
            return None;
        }
        (0..self.tables.sizes.users).find_map(|first| self.uninherited_user_conflict(
            senior, junior, first,
        ))
    }

    // The lowest user in conflict with `first` for the junior and not for the senior.
    fn uninherited_user_conflict(&self, senior: u8, junior: u8, first: u8) -> Option<Failure>
        ensures { result ≡ first_of 64
            (uninherited_user_conflict_at self.now.tables.now senior junior first) }
    {
        let below = self.tables.activation_conflicts.of(junior, first);
        let above = self.tables.activation_conflicts.of(senior, first);
        let lost = below.difference(above);
        lost.lowest()
            .map(|second| Failure::UninheritedUserConflict {
                senior,
                junior,
                first,
                second,
            })
    }

    // Two users who are listed, as not to share an assignment, for a junior role and not its senior.
    fn find_uninherited_assignments(&self) -> Option<Failure>
        ensures { result
            ≡ lowest_uninherited_assignments self.now.seniority.now.rows self.now.tables.now }
    {
        (0..self.tables.sizes.roles).find_map(|senior| self.uninherited_assignments_from(senior))
    }

    fn uninherited_assignments_from(&self, senior: u8) -> Option<Failure>
        ensures { result ≡ first_of self.now.tables.now.sizes.roles
            (uninherited_assignments_at self.now.seniority.now.rows self.now.tables.now senior) }
    {
        (0..self.tables.sizes.roles).find_map(|junior| self.uninherited_assignments_of(
            senior, junior,
        ))
    }

    fn uninherited_assignments_of(&self, senior: u8, junior: u8) -> Option<Failure>
        ensures { result ≡ uninherited_assignments_at self.now.seniority.now.rows
            self.now.tables.now senior junior }
    {
        if !self.seniority.is_senior(senior, junior) {
            return None;
        }
        (0..self.tables.sizes.users).find_map(|first| self.uninherited_assignment_conflict(
            senior, junior, first,
        ))
    }

    // The lowest user who is listed with `first` for the junior and not for the senior.
    fn uninherited_assignment_conflict(&self, senior: u8, junior: u8, first: u8) -> Option<Failure>
        ensures { result ≡ first_of 64
            (uninherited_assignment_conflict_at self.now.tables.now senior junior first) }
    {
        let below = self.tables.assignment_conflicts.of(junior, first);
        let above = self.tables.assignment_conflicts.of(senior, first);
        let lost = below.difference(above);
        lost.lowest()
            .map(|second| Failure::UninheritedAssignmentConflict {
                senior,
                junior,
                first,
                second,
            })
    }
}
