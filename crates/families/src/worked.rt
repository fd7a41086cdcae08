// The worked cases: small policies, runs, and the boundaries of the five families.
ghost use Rattle.std.specs.Prelude.{◌≡◌};
ghost use Rattle.families.specs.Worked.{WorkedRulings, WorkedCases};

/// How many rulings are worked, each with the answer that the written rules give.
pub fn worked_rulings() -> u8
    ensures value { result ≡ 55 }
    ensures law { WorkedRulings }
{
    55
}

/// How many cases are worked, each with the answer that the written rules give: 5 policies, 2 runs
/// and 55 rulings.
pub fn worked_cases() -> u8
    ensures value { result ≡ 62 }
    ensures law { WorkedCases }
{
    5 + 2 + 55
}
