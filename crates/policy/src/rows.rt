// Rows: reading an entry, and adding a member or a limit.
ghost use Rattle.std.specs.Prelude.{◌≡◌, slice_index_or, slice_set};
ghost use Rattle.policy.specs.Updates.{with_one, with_both};

use sets::{BitSet, Word};

/// The entry at a place, or the other value past the end.
pub fn at_or<T: Copy>(rows: &[T], at: u8, or: T) -> T
    ensures { result ≡ slice_index_or rows.now at or }
{
    rows.get(usize::from(at)).copied().unwrap_or(or)
}

/// Writes the entry at a place; past the end it writes nothing.
pub fn put<T: Copy>(rows: &mut [T], at: u8, entry: T)
    ensures { rows.new ≡ slice_set rows.old at entry }
{
    let at = usize::from(at);
    // No clause of `get_mut` ties what it lends to the slice after it.
    if at < rows.len() {
        rows[at] = entry;
    }
}

// Adds a member to the row at a place.
pub(crate) fn add<W: Word>(rows: &mut [BitSet<W>], at: u8, member: u8)
    ensures { rows.new ≡ with_one W.value W.word W.width rows.old at member }
{
    let row = at_or(rows, at, BitSet::empty());
    put(rows, at, row.with(member));
}

// Adds an unordered pair, both ways.
pub(crate) fn add_pair<W: Word>(rows: &mut [BitSet<W>], first: u8, second: u8)
    ensures { rows.new ≡ with_both W.value W.word W.width rows.old first second }
{
    add(rows, first, second);
    add(rows, second, first);
}
