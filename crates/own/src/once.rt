// A role that a user never has active in two sessions at once.
ghost use Rattle.std.specs.Prelude.{[], ◌∷◌};
ghost use Rattle.own.specs.Once.{once_per_user};
ghost use Rattle.own.specs.OnceLaws.{once_law};
ghost use Rattle.std.proofs.Common.{arith, rules};

use monitor::{Change, OwnRule, PossibleEvent, Reason, Rule, Whose};
use policy::asking::check;

/// The rule that a user never has the role active in two sessions at once. It names the number 100
/// and the user.
#[derive(Clone, Copy, Default)]
pub struct OncePerUser {
    pub role: u8,
}

impl Rule for OncePerUser {
    ghost rules = { λ x. once_per_user x.role ∷ [] };

    ghost some = { Prim.search rules };

    ghost lawful = { λ x. (once_law x.role, tt) };

    fn consult(&self, possible: PossibleEvent) -> Result<(), Reason> {
        match possible.change {
            Change::Seated { to, .. } => {
                let owner = to.owner();
                let twice = possible.gained().contains(self.role)
                    && possible
                        .governed
                        .active_in(Whose::User { user: owner })
                        .contains(self.role);
                check(!twice, Reason::at_top(100, owner))
            }
            _ => Ok(()),
        }
    }

    fn places(&self) -> u8 {
        1
    }
}

impl OwnRule for OncePerUser {
    ghost confined = { λ x. (λ t c e law fits can allowed no. (omega arith, omega arith), tt) };
}
