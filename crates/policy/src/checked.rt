// The checked policy that a caller holds: a draft that passes takes the held one's place.
ghost use Rattle.policy.specs.Questions.{Vetted};
ghost use Rattle.policy.specs.Search.{verdict};
ghost use Rattle.policy.specs.Updates.{bare};
ghost use Rattle.policy.specs.Verdicts.{number_of};

use crate::approved::Approved;
use crate::draft::Draft;
use crate::questions::Questions;
use crate::seniority::Seniority;
use crate::verdict::Verdict;

/// A policy that passed every question.
///
/// [`Checked::check`] fills it, and whoever begins a monitor from it uses it up: it is moved, never
/// copied.
#[derive(Drop)]
pub struct Checked {
    pub(crate) policy: Approved,
}

impl Checked {
    ghost use Rattle.std.specs.Prelude.{◌≡◌, if◌then◌else◌, nat_eq, OnErr};
    ghost use Rattle.policy.specs.Approved.{drafted_tables, tables_of, policy_of};

    /// The bare checked policy: one user, role and session, and nothing else.
    pub fn bare() -> Checked
        ensures { tables_of (policy_of result) ≡ bare }
    {
        let draft = Draft::bare();
        let seniority = Seniority::of(&draft);
        Checked {
            policy: Approved { draft, seniority },
        }
    }

    /// The policy that is held; the checked one is used up.
    pub fn into_policy(self) -> Approved
        ensures { result ≡ policy_of self }
    {
        let Checked { policy } = self;
        policy
    }

    /// Puts the questions to the draft. One that passes is held from now on; after a refusal the
    /// held policy is as it was.
    #[tactic(auto, using(crate::proofs::Drafts::vetted))]
    pub fn check(&mut self, draft: &Draft) -> Verdict
        ensures answer { result ≡ verdict (drafted_tables draft.now) }
        ensures law { Vetted (drafted_tables draft.now) result }
        ensures policy { tables_of (policy_of self.new)
            ≡ (if nat_eq (number_of result) 0
            then drafted_tables draft.now
            else tables_of (policy_of self.old)) }
        ensures refused { OnErr result (self.new ≡ self.old) }
    {
        // The hierarchy is closed once: for the questions, and for the policy that passes them.
        let seniority = Seniority::of(draft);
        let verdict = Questions {
            tables: &draft.tables,
            seniority: &seniority,
        }
        .vet();
        if verdict.is_ok() {
            self.policy = Approved {
                draft: *draft,
                seniority,
            };
        }
        verdict
    }
}
