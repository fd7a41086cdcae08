// The roll of an input: the verdict on its policy, and what each event after it is answered.
ghost use Rattle.std.specs.Prelude.{◌≡◌, ◌++◌, IfOk, string_bytes};
ghost use Rattle.families.specs.AssignmentConflicts.{Unshared};
ghost use Rattle.families.specs.Cardinality.{SeatsWithin};
ghost use Rattle.families.specs.House.{house_rules};
ghost use Rattle.report.specs.RollLaw.{RollLaw, ApartRollLaw, HouseRollLaw, KeptRollLaw};
ghost use Rattle.report.specs.Roll.{roll_text};
ghost use Rattle.report.specs.VerdictLaw.{VerdictLaw};

use crate::events::write_events;
use crate::judging::read_and_check;
use crate::line::PolicyLine;
use families::house::{house, own_above_house, own_below_house};
use monitor::{Monitor, OwnRule, Rule};
use policy::Checked;
use std::alloc::Global;
use std::fmt;

// The most bytes that an input may have.
const MOST: usize = 65_536;

/// The roll of an input, its events decided by a pile. An input of more than 65,536 bytes is not
/// read, and its roll says so.
///
/// # Errors
///
/// The memory for the text cannot be had; when that is so is no part of the contract.
pub fn roll_by<P: Rule + Drop>(heap: Global, bytes: &[u8], pile: P) -> Result<String, fmt::Error>
    ensures text { IfOk result (λ t. string_bytes t ≡ roll_text (P.rules pile) bytes.now) }
    ensures verdict { IfOk result (λ t. VerdictLaw bytes.now (string_bytes t)) }
    ensures law { IfOk result (λ t. RollLaw (P.rules pile) bytes.now (string_bytes t)) }
{
    let mut text = String::new(heap);
    if bytes.len() > MOST {
        writeln!(text, "input 9")?;
        return Ok(text);
    }
    let mut held = Checked::bare();
    let judged = read_and_check(&mut held, bytes);
    let line = PolicyLine::from(judged);
    writeln!(text, "{line}")?;
    let Ok(policy) = judged else {
        return Ok(text);
    };
    if policy.verdict.is_err() {
        return Ok(text);
    }
    let mut monitor = Monitor::begin(held, pile);
    write_events(&mut text, &mut monitor, &bytes[policy.bytes..])?;
    Ok(text)
}

/// The roll of an input, its events decided by the house pile.
///
/// # Errors
///
/// The memory for the text cannot be had; when that is so is no part of the contract.
pub fn roll(heap: Global, bytes: &[u8]) -> Result<String, fmt::Error>
    ensures text { IfOk result (λ t. string_bytes t ≡ roll_text house_rules bytes.now) }
    ensures verdict { IfOk result (λ t. VerdictLaw bytes.now (string_bytes t)) }
    ensures law { IfOk result (λ t. HouseRollLaw bytes.now (string_bytes t)) }
    ensures unshared { IfOk result (λ t.
        KeptRollLaw Unshared house_rules bytes.now (string_bytes t)) }
    ensures seats { IfOk result (λ t.
        KeptRollLaw SeatsWithin house_rules bytes.now (string_bytes t)) }
{
    roll_by(heap, bytes, house())
}

/// The roll of an input, its events decided by an archive's own rule above the house pile.
///
/// # Errors
///
/// The memory for the text cannot be had; when that is so is no part of the contract.
pub fn roll_with_own_above<R: OwnRule + Drop>(
    heap: Global,
    bytes: &[u8],
    rule: R,
) -> Result<String, fmt::Error>
    ensures text { IfOk result (λ t. string_bytes t
        ≡ roll_text (R.rules rule ++ house_rules) bytes.now) }
    ensures verdict { IfOk result (λ t. VerdictLaw bytes.now (string_bytes t)) }
    ensures law { IfOk result (λ t.
        ApartRollLaw (R.rules rule ++ house_rules) bytes.now (string_bytes t)) }
{
    roll_by(heap, bytes, own_above_house(rule))
}

/// The roll of an input, its events decided by an archive's own rule below the house pile.
///
/// # Errors
///
/// The memory for the text cannot be had; when that is so is no part of the contract.
pub fn roll_with_own_below<R: OwnRule + Drop>(
    heap: Global,
    bytes: &[u8],
    rule: R,
) -> Result<String, fmt::Error>
    ensures text { IfOk result (λ t. string_bytes t
        ≡ roll_text (house_rules ++ R.rules rule) bytes.now) }
    ensures verdict { IfOk result (λ t. VerdictLaw bytes.now (string_bytes t)) }
    ensures law { IfOk result (λ t.
        ApartRollLaw (house_rules ++ R.rules rule) bytes.now (string_bytes t)) }
{
    roll_by(heap, bytes, own_below_house(rule))
}
