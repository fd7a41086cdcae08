// The worked cases: what piles with the two rules answer in one small state each.
ghost use Rattle.std.specs.Prelude.{◌≡◌};
ghost use Rattle.own.specs.Cases.{Worked, WorkedOneOpen};

use crate::once::OncePerUser;
use crate::one_open::OneOpenSession;

/// The two rules, the first for role 1, with what the definitions say of each in one small state.
pub fn worked_cases() -> (OncePerUser, OneOpenSession)
    ensures value { result ≡ (record { role = 1 }, record {}) }
    ensures law { Worked }
    ensures one_open { WorkedOneOpen }
{
    (OncePerUser { role: 1 }, OneOpenSession {})
}
