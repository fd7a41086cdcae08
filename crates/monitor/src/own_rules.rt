// Rules that an archive brings: their numbers are 100 to 199.
ghost use Rattle.monitor.specs.Meaning.{Every};
ghost use Rattle.monitor.specs.Own.{Confined};
ghost use Rattle.monitor.specs.PileLaws.{every_append};

use crate::pairs::Pair;
use crate::rules::Rule;

/// A rule that an archive brings, or a pile of such rules.
pub trait OwnRule: Rule {
    // Each of its rules names the numbers 100 to 199 only.
    ghost confined: { (x : Self) → Every Confined (Self.rules x) };
}

impl<U: OwnRule, L: OwnRule> OwnRule for Pair<U, L> {
    ghost confined = { λ x. every_append Confined _ _ (U.OwnRule.confined x.upper)
        (L.OwnRule.confined x.lower) };
}
