// The run: event bytes in, one row out for each event.
ghost use Rattle.std.specs.Prelude.{◌≡◌, length, Ok, Err, MatchResult};
ghost use Rattle.records.specs.Events.{event_taken};
ghost use Rattle.monitor.specs.declared.run.Stop.TheVariants.{NoRowLeft};
ghost use Rattle.monitor.specs.OneRun.{Joins};
ghost use Rattle.monitor.specs.Governed.{tables_of, cells_of};
ghost use Rattle.monitor.specs.Monitors.{state_of, pile_of, SamePolicy};
ghost use Rattle.monitor.specs.Rows.{outcome, rows_after, state_run, ExtendsByBytes, FilledRow, RunBounds};
ghost use Rattle.monitor.specs.Scripts.{end_number, script_of};

use crate::monitors::Monitor;
use crate::rows::Row;
use crate::rules::Rule;
use records::event::Event;
use records::fault::Fault;
use records::taking::take;

/// Why a run stops where no record is at fault.
#[derive(Clone, Copy, Debug, PartialEq, Eq)]
pub enum Stop {
    /// Each byte is taken.
    NoByteLeft,
    /// Each row is filled, and bytes are left.
    NoRowLeft,
}

/// What came of a run.
#[derive(Clone, Copy, Debug, PartialEq, Eq)]
pub struct Outcome {
    /// How many of the lent rows are filled, one for each event.
    pub rows: usize,
    /// How many bytes these events took.
    pub bytes: usize,
    /// Why the run ended.
    pub end: Result<Stop, Fault>,
}

impl Outcome {
    /// The number of the end: 0 where no byte is left, 10 where no row is, else that of the fault.
    pub fn number(&self) -> u8
        ensures { result ≡ end_number self.now.end }
    {
        match self.end {
            Ok(Stop::NoByteLeft) => 0,
            Ok(Stop::NoRowLeft) => 10,
            Err(fault) => fault.number(),
        }
    }
}

// Decides the event at the front, writes its row and answers the bytes after it; `at` is its place.
fn fill_row<'a, P: Rule>(
    monitor: &mut Monitor<P>,
    bytes: &'a [u8],
    at: usize,
    row: &mut Row,
) -> Result<&'a [u8], Fault>
    ensures filled { MatchResult result
        (λ tail. FilledRow (P.rules (pile_of monitor.old)) (state_of monitor.old) bytes.now at
        tail.now row.new (cells_of (state_of monitor.new)))
        (λ f. (event_taken bytes.now at ≡ Err f) × ((row.new ≡ row.old)
        × (cells_of (state_of monitor.new) ≡ cells_of (state_of monitor.old)))) }
    ensures same { SamePolicy monitor.old monitor.new }
{
    let (event, tail) = take::<Event>(bytes, at)?;
    *row = Row::of(event, monitor.decide(event));
    Ok(tail)
}

// How far a run has come: the rows filled, and the bytes that their events took.
#[derive(Clone, Copy, Default)]
struct Progress {
    rows: usize,
    bytes: usize,
}

// Fills a row for each event, until something ends it, and keeps count: the run, from which `run`
// has its laws.
fn fill<P: Rule>(
    monitor: &mut Monitor<P>,
    bytes: &[u8],
    rows: &mut [Row],
    progress: &mut Progress,
) -> Result<Stop, Fault>
    ensures answer { record {
      rows = progress.new.rows;
      bytes = progress.new.bytes;
      end = result;
    } ≡ outcome (script_of bytes.now rows.old) }
    ensures rows { rows.new
        ≡ rows_after (P.rules (pile_of monitor.old)) (state_of monitor.old) bytes.now rows.old }
    ensures state { cells_of (state_of monitor.new)
        ≡ state_run (P.rules (pile_of monitor.old)) (state_of monitor.old) bytes.now rows.old }
    ensures same { SamePolicy monitor.old monitor.new }
{
    let mut rest = bytes;
    for (filled, row) in rows.iter_mut().enumerate() {
        *progress = Progress {
            rows: filled,
            bytes: bytes.len() - rest.len(),
        };
        if rest.is_empty() {
            return Ok(Stop::NoByteLeft);
        }
        rest = fill_row(monitor, rest, progress.bytes, row)?;
    }
    *progress = Progress {
        rows: rows.len(),
        bytes: bytes.len() - rest.len(),
    };
    Ok(if rest.is_empty() {
        Stop::NoByteLeft
    } else {
        Stop::NoRowLeft
    })
}

/// Decides each event of the bytes and writes its row, while there are rows. It ends when no byte
/// is left, when no row is left, or at the first record that is no event or is cut, asked in this
/// order; later rows stay as they were. The place of a fault counts from 0 at the first byte.
pub fn run<P: Rule>(monitor: &mut Monitor<P>, bytes: &[u8], rows: &mut [Row]) -> Outcome
    ensures answer { result ≡ outcome (script_of bytes.now rows.old) }
    ensures rows { rows.new
        ≡ rows_after (P.rules (pile_of monitor.old)) (state_of monitor.old) bytes.now rows.old }
    ensures state { cells_of (state_of monitor.new)
        ≡ state_run (P.rules (pile_of monitor.old)) (state_of monitor.old) bytes.now rows.old }
    ensures same { SamePolicy monitor.old monitor.new }
    ensures law { ExtendsByBytes (P.rules (pile_of monitor.old)) (state_of monitor.old) bytes.now
        rows.old (cells_of (state_of monitor.new)) }
    ensures within { RunBounds rows.old bytes.now result }
    ensures joins { result.end ≡ Ok NoRowLeft
        → Joins (P.rules (pile_of monitor.old)) (tables_of (state_of monitor.old))
        (cells_of (state_of monitor.old)) bytes.now (length rows.old) }
{
    let mut progress = Progress::default();
    let end = fill(monitor, bytes, rows, &mut progress);
    Outcome {
        rows: progress.rows,
        bytes: progress.bytes,
        end,
    }
}
