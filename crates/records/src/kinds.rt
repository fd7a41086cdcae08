// The kinds of record, and the length of the body of each.
ghost use Rattle.std.specs.Prelude.{◌≡◌};
ghost use Rattle.records.specs.Kinds.{body_length, reads};

/// One of the two readers of records: each takes kinds of its own.
#[derive(Clone, Copy, PartialEq, Eq)]
pub enum Reader {
    /// The reader of a policy, which takes the kinds 1 to 13.
    Policy,
    /// The reader of events, which takes the kinds 32 to 39.
    Events,
}

impl Reader {
    /// Whether the reader takes records of this kind.
    pub fn takes(self, kind: u8) -> bool
        ensures { result ≡ reads self kind }
    {
        match self {
            Reader::Policy => matches!(kind, 1..=13),
            Reader::Events => matches!(kind, 32..=39),
        }
    }
}

// The length of each kind's body, none of an unknown kind. A reference, so that no call builds it.
#[rattlefmt::skip]
const BODY: &[Option<u8>; 256] = &[
    None, Some(3), Some(2), Some(2), Some(2), Some(3), Some(2), Some(2),
    Some(2), Some(2), Some(3), Some(2), Some(0), Some(3), None, None,
    None, None, None, None, None, None, None, None,
    None, None, None, None, None, None, None, None,
    Some(2), Some(2), Some(1), Some(1), Some(2), Some(1), Some(2), Some(2),
    None, None, None, None, None, None, None, None,
    None, None, None, None, None, None, None, None,
    None, None, None, None, None, None, None, None,
    None, None, None, None, None, None, None, None,
    None, None, None, None, None, None, None, None,
    None, None, None, None, None, None, None, None,
    None, None, None, None, None, None, None, None,
    None, None, None, None, None, None, None, None,
    None, None, None, None, None, None, None, None,
    None, None, None, None, None, None, None, None,
    None, None, None, None, None, None, None, None,
    None, None, None, None, None, None, None, None,
    None, None, None, None, None, None, None, None,
    None, None, None, None, None, None, None, None,
    None, None, None, None, None, None, None, None,
    None, None, None, None, None, None, None, None,
    None, None, None, None, None, None, None, None,
    None, None, None, None, None, None, None, None,
    None, None, None, None, None, None, None, None,
    None, None, None, None, None, None, None, None,
    None, None, None, None, None, None, None, None,
    None, None, None, None, None, None, None, None,
    None, None, None, None, None, None, None, None,
    None, None, None, None, None, None, None, None,
    None, None, None, None, None, None, None, None,
    None, None, None, None, None, None, None, None,
    None, None, None, None, None, None, None, None,
];

/// How many bytes the body of a record of this kind has, 0 to 3; none where the kind is unknown.
pub fn body_length(kind: u8) -> Option<u8>
    ensures { result ≡ body_length kind }
{
    BODY[kind as usize]
}
