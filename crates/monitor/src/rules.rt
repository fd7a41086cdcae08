// What a rule is: the one consultation that families, piles and an archive's own rules answer.
ghost use Rattle.std.specs.Prelude.{◌≡◌, ◌≤◌, min, List, length};
ghost use Rattle.monitor.specs.Meaning.{Meaning, Every, Law, ruling};
ghost use Rattle.monitor.specs.PossibleEvents.{tables_of, cells_of};

use crate::answers::Reason;
use crate::possible::PossibleEvent;

/// A pile of rules: one rule, or the rules of one pile above those of another.
pub trait Rule {
    // The rules of the pile, from the top.
    ghost rules: { Self → List Meaning };

    /// Admits the possible event, or names the topmost rule that does not. Nothing is changed.
    ///
    /// # Errors
    ///
    /// The number and the subject that this rule names, and its place in the pile.
    fn consult(&self, possible: PossibleEvent) -> Result<(), Reason>
        ensures { result ≡ ruling (rules self.now) (tables_of possible.entry)
            (cells_of possible.entry) possible.entry.event };

    /// How many rules there are, 255 at most.
    fn places(&self) -> u8
        ensures { result ≡ min 255 (length (rules self.now)) };

    // There is at least one.
    ghost some: { (x : Self) → 1 ≤ length (rules x) };

    // Each of them keeps the laws of a rule.
    ghost lawful: { (x : Self) → Every Law (rules x) };
}
