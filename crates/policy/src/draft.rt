// A policy as it was read: well formed, and not yet put to the questions.
ghost use Rattle.policy.specs.Reading.{reading, answer_of, draft_of};
ghost use Rattle.policy.specs.Recorded.{ReadingLaw};
ghost use Rattle.policy.specs.Updates.{bare};
ghost use Rattle.policy.specs.WellFormed.{WellFormed};

use crate::reading::{bare_tables, read_tables};
use crate::tables::Tables;
use records::fault::Fault;

/// A policy that was read and may still fail a question; [`Draft::bare`] and [`Draft::read`] alone
/// make one.
#[derive(Clone, Copy)]
pub struct Draft {
    pub(crate) tables: Tables,
    ghost formed: { WellFormed tables },
}

impl Draft {
    ghost use Rattle.std.specs.Prelude.{◌≡◌, ◌≤◌, length, IfOk};
    ghost use Rattle.policy.specs.Approved.{drafted_tables};

    /// The bare draft: one user, role and session, and nothing else.
    #[tactic(auto, using(crate::specs::WellFormedLaws::bare_well_formed))]
    pub fn bare() -> Draft
        ensures { drafted_tables result ≡ bare }
    {
        Draft {
            tables: bare_tables(),
        }
    }

    /// Reads a policy up to its end record, and answers how many bytes that took.
    ///
    /// # Errors
    ///
    /// The fault of the first record that has one; the draft is bare then.
    pub fn read(&mut self, bytes: &[u8]) -> Result<usize, Fault>
        ensures answer { result ≡ answer_of (reading bytes.now) }
        ensures draft { drafted_tables self.new ≡ draft_of (reading bytes.now) }
        ensures within { IfOk result (λ n. n ≤ length bytes.now) }
        ensures law { ReadingLaw bytes.now result (drafted_tables self.new) }
    {
        *self = Draft::bare();
        let (tables, count) = read_tables(bytes)?;
        *self = Draft { tables };
        Ok(count)
    }
}
