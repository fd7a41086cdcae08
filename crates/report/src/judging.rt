// A policy read and judged.
ghost use Rattle.std.specs.Prelude.{◌≡◌, ◌≤◌, true, length, IfOk};
ghost use Rattle.policy.specs.Approved.{tables_of, policy_of};
ghost use Rattle.policy.specs.Reading.{reading};
ghost use Rattle.report.specs.Judging.{judgement_of, held_after, is_refused, IsRightJudgement};

use policy::{Checked, Draft, Verdict};
use records::Fault;

/// A policy that was read: how many bytes it took, and the verdict on it.
#[derive(Clone, Copy, Debug, PartialEq, Eq)]
pub struct Judged {
    pub bytes: usize,
    pub verdict: Verdict,
}

/// Reads a policy at the front of the bytes and puts the questions to it. One that passes is held
/// from now on; else the held policy is as it was.
///
/// # Errors
///
/// The first fault of a record, with its place.
#[tactic(auto, using(crate::proofs::RollLaws::passed_by_number))]
pub fn read_and_check(held: &mut Checked, bytes: &[u8]) -> Result<Judged, Fault>
    ensures answer { result ≡ judgement_of (reading bytes.now) }
    ensures law { IsRightJudgement (reading bytes.now) result }
    ensures within { IfOk result (λ j. j.bytes ≤ length bytes.now) }
    ensures policy { tables_of (policy_of held.new)
        ≡ held_after (reading bytes.now) (tables_of (policy_of held.old)) }
    ensures refused { is_refused result ≡ true → held.new ≡ held.old }
{
    let mut draft = Draft::bare();
    let bytes = draft.read(bytes)?;
    let verdict = held.check(&draft);
    Ok(Judged { bytes, verdict })
}
