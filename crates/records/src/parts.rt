// A record taken apart into its kind, its body and the bytes after it.
ghost use Rattle.std.specs.Prelude.{◌<◌, length, IfOk};
ghost use Rattle.records.specs.Parts.{TakenApart};

use crate::fault::Fault;
use crate::kinds::{Reader, body_length};

/// The kind and the body of the record at the front, and the bytes after it.
///
/// `at` is the index of the first of the bytes among those that the caller reads, counted from 0, and
/// the place of every fault.
///
/// # Errors
///
/// In this order: `NoByte` where no byte is left, `UnknownKind` where the reader does not take the
/// kind, and `CutBody` where fewer bytes are left than the body has.
pub fn take_apart(bytes: &[u8], at: usize, reader: Reader) -> Result<(u8, &[u8], &[u8]), Fault>
    ensures value { TakenApart reader bytes.now at result }
    ensures shorter { IfOk result (λ p. length p.2.now < length bytes.now) }
{
    let [kind, after @ ..] = bytes else {
        return Err(Fault::NoByte { place: at });
    };
    if !reader.takes(*kind) {
        return Err(Fault::UnknownKind { place: at });
    }
    let length = body_length(*kind).ok_or(Fault::UnknownKind { place: at })?;
    let (body, rest) = after
        .split_at_checked(length as usize)
        .ok_or(Fault::CutBody { place: at })?;
    Ok((*kind, body, rest))
}
