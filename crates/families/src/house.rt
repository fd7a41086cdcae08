// The house pile, from the top: cardinality, separation, assignment conflicts, precedence,
// dependency.
ghost use Rattle.std.specs.Prelude.{◌≡◌, ◌+◌, ◌<◌, ◌≤◌, [], ◌∷◌, ◌++◌, length, OnErr};
ghost use Rattle.policy.specs.declared.tables.Tables.{Tables};
ghost use Rattle.policy.specs.Approved as approved;
ghost use Rattle.monitor.specs.Apart.{SeparatesAt, StaticallyApart};
ghost use Rattle.monitor.specs.Cells.{blank};
ghost use Rattle.monitor.specs.Governed.{policy_of, cells_of, answer_to, state_after, Extends};
ghost use Rattle.monitor.specs.Meaning.{Every};
ghost use Rattle.monitor.specs.Monitors.{state_of, SamePolicy};
ghost use Rattle.monitor.specs.Own.{Confined};
ghost use Rattle.monitor.specs.RunLaw.{RunLaw};
ghost use Rattle.families.specs.AssignmentConflicts.{assignment_conflicts, Unshared};
ghost use Rattle.families.specs.Cardinality.{cardinality, SeatsWithin};
ghost use Rattle.families.specs.Dependency.{dependency};
ghost use Rattle.families.specs.Family.{Exact};
ghost use Rattle.families.specs.Holdings.{JudgesHoldings};
ghost use Rattle.families.specs.House.{house_rules, KeepsApart, Keeps};
ghost use Rattle.families.specs.HousePiles.{house_pile, BelowOwn, NumbersTell};
ghost use Rattle.families.specs.Precedence.{precedence};
ghost use Rattle.families.specs.Requirements.{AdmitsWhatStands};
ghost use Rattle.families.specs.Separation.{separation};

use crate::assignment_conflicts::AssignmentConflicts;
use crate::cardinality::Cardinality;
use crate::dependency::Dependency;
use crate::precedence::Precedence;
use crate::separation::Separation;
use monitor::answers::Answer;
use monitor::monitors::Monitor;
use monitor::own_rules::OwnRule;
use monitor::pairs::Pair;
use monitor::rules::Rule;
use policy::checked::Checked;
use records::event::Event;

/// The five families, from the top.
pub type House = Pair<
    Cardinality,
    Pair<Separation, Pair<AssignmentConflicts, Pair<Precedence, Dependency>>>,
>;

/// The house pile. In every state that the five families allow, nobody is authorised for two roles
/// in static conflict. In a state that it allows, each of cardinality, separation, assignment
/// conflicts and dependency admits a possible event exactly when it allows the state that a grant
/// makes; precedence admits an event exactly when all that the event requires stands. Assignment
/// conflicts refuse an assignment exactly where what another user holds stands against it, and name
/// the lowest such user.
pub fn house() -> House
    ensures value { result ≡ house_pile }
    ensures law { KeepsApart house_rules }
    ensures separates { (t : Tables) → SeparatesAt house_rules 1 t }
    ensures cardinality { Exact cardinality }
    ensures separation { Exact separation }
    ensures assignment_conflicts { Exact assignment_conflicts }
    ensures holdings { JudgesHoldings assignment_conflicts }
    ensures precedence { AdmitsWhatStands precedence }
    ensures dependency { Exact dependency }
{
    Pair {
        upper: Cardinality {},
        lower: Pair {
            upper: Separation {},
            lower: Pair {
                upper: AssignmentConflicts {},
                lower: Pair {
                    upper: Precedence {},
                    lower: Dependency {},
                },
            },
        },
    }
}

/// A pile above the house pile. Separation then stands at the second place below it.
pub fn above_house<P: Rule>(pile: P) -> Pair<P, House>
    ensures value { result ≡ record { upper = pile; lower = house_pile } }
    ensures separates { (t : Tables)
        → SeparatesAt (P.rules pile ++ house_rules) (1 + length (P.rules pile)) t }
{
    Pair {
        upper: pile,
        lower: house(),
    }
}

/// A pile below the house pile. Separation then stands at the second place from the top.
pub fn below_house<P: Rule>(pile: P) -> Pair<House, P>
    ensures value { result ≡ record { upper = house_pile; lower = pile } }
    ensures separates { (t : Tables) → SeparatesAt (house_rules ++ P.rules pile) 1 t }
{
    Pair {
        upper: house(),
        lower: pile,
    }
}

/// An archive's own rule above the house pile. A refusal has a number from 100 to 199 exactly where
/// the own rule names it.
pub fn own_above_house<R: OwnRule>(rule: R) -> Pair<R, House>
    ensures value { result ≡ record { upper = rule; lower = house_pile } }
    ensures separates { (t : Tables)
        → SeparatesAt (R.rules rule ++ house_rules) (1 + length (R.rules rule)) t }
    ensures confined { Every Confined (R.rules rule) }
    ensures below { Every BelowOwn house_rules }
    ensures tells { NumbersTell (R.rules rule ++ house_rules) (λ k. k < length (R.rules rule)) }
{
    above_house(rule)
}

/// An archive's own rule below the house pile. A refusal has a number from 100 to 199 exactly where
/// the own rule names it.
pub fn own_below_house<R: OwnRule>(rule: R) -> Pair<House, R>
    ensures value { result ≡ record { upper = house_pile; lower = rule } }
    ensures separates { (t : Tables) → SeparatesAt (house_rules ++ R.rules rule) 1 t }
    ensures confined { Every Confined (R.rules rule) }
    ensures below { Every BelowOwn house_rules }
    ensures tells { NumbersTell (house_rules ++ R.rules rule) (λ k. length house_rules ≤ k) }
{
    below_house(rule)
}

/// A monitor with the house pile and a new state. It uses the checked policy up.
pub fn begin(checked: Checked) -> Monitor<House>
    ensures policy { policy_of (state_of result) ≡ approved.policy_of checked }
    ensures state { cells_of (state_of result) ≡ blank }
    ensures law { RunLaw house_rules (approved.tables_of (approved.policy_of checked)) [] []
        (cells_of (state_of result)) }
{
    Monitor::begin(checked, house())
}

/// Decides an event by the house pile. Whatever events led here, nobody is authorised afterwards
/// for two roles in static conflict, no two users share an assignment that they may not, and nobody
/// takes more seats than their limit allows.
///
/// # Errors
///
/// Why the event is refused; the monitor is then as it was.
pub fn decide(monitor: &mut Monitor<House>, event: Event) -> Answer
    ensures answer { result ≡ answer_to house_rules (state_of monitor.old) event }
    ensures state { cells_of (state_of monitor.new)
        ≡ state_after house_rules (state_of monitor.old) event }
    ensures same { SamePolicy monitor.old monitor.new }
    ensures refused { OnErr result (monitor.new ≡ monitor.old) }
    ensures law { Extends house_rules (state_of monitor.old) (event ∷ []) (result ∷ [])
        (cells_of (state_of monitor.new)) }
    ensures apart { Keeps StaticallyApart (state_of monitor.old) (cells_of (state_of monitor.new)) }
    ensures unshared { Keeps Unshared (state_of monitor.old) (cells_of (state_of monitor.new)) }
    ensures seats { Keeps SeatsWithin (state_of monitor.old) (cells_of (state_of monitor.new)) }
{
    monitor.decide(event)
}
