// The worked policies: what the definitions say of them is shown once, of the bytes themselves.
ghost use Rattle.std.specs.Prelude.{◌≡◌};
ghost use Rattle.policy.specs.Worked as worked;
ghost use Rattle.policy.specs.Worked.{Worked};

/// Five small policies as bytes.
#[derive(Clone, Copy)]
pub struct Policies {
    /// Role 0 inherits 1; static pairs 1 with 2 and 0 with 2; role 3 depends on 1.
    pub sample: [u8; 17],
    /// The same without the pair of 0 and 2.
    pub unpaired: [u8; 14],
    /// Role 2 in static conflict with itself.
    pub selfpaired: [u8; 8],
    /// Roles 0 and 1 inherit each other.
    pub cyclic: [u8; 11],
    /// Role 0 inherits 1; users 1 and 0 may not share an assignment of role 1.
    pub unshared: [u8; 12],
}

/// The five, with the verdict that the written rules give on each.
#[tactic(auto, using(crate::specs::WorkedLaws::policies))]
pub fn worked_policies() -> Policies
    ensures value { (result.sample ≡ worked.sample)
        × (result.unpaired ≡ worked.unpaired)
        × (result.selfpaired ≡ worked.selfpaired)
        × (result.cyclic ≡ worked.cyclic)
        × (result.unshared ≡ worked.unshared) }
    ensures law { Worked }
{
    Policies {
        sample: [1, 2, 4, 2, 2, 0, 1, 3, 1, 2, 3, 0, 2, 11, 3, 1, 12],
        unpaired: [1, 2, 4, 2, 2, 0, 1, 3, 1, 2, 11, 3, 1, 12],
        selfpaired: [1, 2, 4, 2, 3, 2, 2, 12],
        cyclic: [1, 2, 4, 2, 2, 0, 1, 2, 1, 0, 12],
        unshared: [1, 3, 3, 1, 2, 0, 1, 13, 1, 1, 0, 12],
    }
}
