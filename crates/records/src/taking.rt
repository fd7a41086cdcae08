// A record of some type taken from the front of the bytes.
ghost use Rattle.std.specs.Prelude.{◌≡◌, ◌<◌, ℕ, List, Option, length, IfOk};
ghost use Rattle.records.specs.Parts.{Took, taken};
ghost use Rattle.records.specs.declared.kinds.Reader.{Reader};

use crate::fault::Fault;
use crate::kinds::Reader;
use crate::parts::take_apart;

/// A type of records.
pub trait Record: Sized {
    // The reader that takes them, for clauses.
    ghost READER: { Reader };

    // The record that a kind and a body are.
    ghost decoded: { ℕ → List ℕ → Option Self };

    /// The reader that takes records of this type.
    const READER: Reader;

    /// The record of this kind and body; none where no record of the type has them.
    fn decode(kind: u8, body: &[u8]) -> Option<Self>
        ensures { result ≡ decoded kind body.now };
}

/// The record at the front, and the bytes after it.
///
/// `at` is the index of the first of the bytes among those that the caller reads, counted from 0, and
/// the place of every fault.
///
/// # Errors
///
/// Those of [`take_apart`].
pub fn take<R: Record>(bytes: &[u8], at: usize) -> Result<(R, &[u8]), Fault>
    ensures value { Took (taken R.READER R.decoded bytes.now at) result }
    ensures shorter { IfOk result (λ p. length p.1.now < length bytes.now) }
{
    let (kind, body, rest) = take_apart(bytes, at, R::READER)?;
    let record = R::decode(kind, body).ok_or(Fault::UnknownKind { place: at })?;
    Ok((record, rest))
}
