// The input read and its roll printed.
ghost use Rattle.std.specs.Prelude.{OnOk};
ghost use Rattle.printing.specs.Prints.{Printed};

use anyhow::Result;
use std::alloc::Global;
use std::io::{Read, Write};

// One byte more than an input may have is enough to refuse it.
const ENOUGH: u64 = 65_537;

/// Reads the input, 65,537 bytes of it at most, and prints the text that `roll` gives of them.
///
/// # Errors
///
/// Those of reading and of `roll`, before anything is written; those of writing, after which a part
/// of the text may be written.
pub fn print_roll<R: Read + Drop, W: Write, F: FnOnce(&[u8]) -> Result<String>>(
    heap: Global,
    input: R,
    out: &mut W,
    roll: F,
) -> Result<()>
    requires { F.IsAlwaysCallable roll }
    ensures { OnOk result
        (Printed F.FnOnce roll (R.remaining input) (W.contents out.old) (W.contents out.new)) }
{
    let mut bytes = Vec::new(heap);
    input.take(ENOUGH).read_to_end(&mut bytes)?;
    let text = roll(bytes.as_slice())?;
    out.write_all(text.as_bytes())?;
    out.flush()?;
    Ok(())
}
