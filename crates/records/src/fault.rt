// The faults of records.
ghost use Rattle.std.specs.Prelude.{◌≡◌};
ghost use Rattle.records.specs.Faults.{number_of, place_of};

use thiserror::Error;

/// Why a record is refused.
///
/// The place is the index of the record's first byte among the bytes that were read, counted from 0.
#[derive(Clone, Copy, Debug, PartialEq, Eq, Error)]
pub enum Fault {
    /// The kind is none that the reader takes.
    #[error("unknown record kind at byte {place}")]
    UnknownKind { place: usize },
    /// Fewer bytes are left than the body has.
    #[error("record cut short at byte {place}")]
    CutBody { place: usize },
    /// The first record is not a sizes record, or a later one is.
    #[error("sizes record missing or repeated at byte {place}")]
    MisplacedSizes { place: usize },
    /// A user, a role, a size or a condition is out of its range.
    #[error("number out of range at byte {place}")]
    OutOfRange { place: usize },
    /// Two users, or two roles, that must differ are the same.
    #[error("pair of equal numbers at byte {place}")]
    EqualPair { place: usize },
    /// The user or role has a limit of this kind already.
    #[error("limit given twice at byte {place}")]
    RepeatedLimit { place: usize },
    /// No byte is left where a record would begin.
    #[error("no record left at byte {place}")]
    NoByte { place: usize },
}

impl Fault {
    /// The number of the fault in what is printed, 1 to 7.
    pub fn number(self) -> u8
        ensures { result ≡ number_of self }
    {
        match self {
            Fault::UnknownKind { .. } => 1,
            Fault::CutBody { .. } => 2,
            Fault::MisplacedSizes { .. } => 3,
            Fault::OutOfRange { .. } => 4,
            Fault::EqualPair { .. } => 5,
            Fault::RepeatedLimit { .. } => 6,
            Fault::NoByte { .. } => 7,
        }
    }

    /// The index of the first byte of the refused record, counted from 0.
    pub fn place(self) -> usize
        ensures { result ≡ place_of self }
    {
        match self {
            Fault::UnknownKind { place }
            | Fault::CutBody { place }
            | Fault::MisplacedSizes { place }
            | Fault::OutOfRange { place }
            | Fault::EqualPair { place }
            | Fault::RepeatedLimit { place }
            | Fault::NoByte { place } => place,
        }
    }
}
