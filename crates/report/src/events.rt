// The lines of the events: run after run, until one ends for another reason than that no row is
// left.
ghost use Rattle.std.specs.Prelude.{◌≡◌, ◌+◌, ◌≤◌, ◌++◌, length, string_bytes, OnOk};
ghost use Rattle.monitor.specs.Governed.{tables_of, cells_of};
ghost use Rattle.monitor.specs.Monitors.{state_of, pile_of};
ghost use Rattle.report.specs.Roll.{rows_text, events_text};

use crate::line::{EndLine, RowLine};
use monitor::run::run;
use monitor::{Monitor, Outcome, Row, Rule, Stop};
use std::fmt;

// How many rows a run is given.
const ROWS: usize = 1024;

// Writes a line for each row, counting on from the index.
fn write_rows(text: &mut String, index: usize, rows: &[Row]) -> fmt::Result
    requires { index + length rows.now ≤ 65536 }
    ensures { OnOk result (string_bytes text.new
        ≡ string_bytes text.old ++ rows_text index rows.now) }
{
    for (i, row) in rows.iter().enumerate() {
        let line = RowLine {
            index: index + i,
            row: *row,
        };
        writeln!(text, "{line}")?;
    }
    Ok(())
}

// Decides the events of the bytes and writes their lines and the last one. Each run goes on at the
// byte where the one before ended.
pub(crate) fn write_events<P: Rule>(
    text: &mut String,
    monitor: &mut Monitor<P>,
    bytes: &[u8],
) -> fmt::Result
    requires { length bytes.now ≤ 65536 }
    ensures { OnOk result (string_bytes text.new ≡ string_bytes text.old
        ++ events_text (P.rules (pile_of monitor.old)) (tables_of (state_of monitor.old))
        (cells_of (state_of monitor.old)) bytes.now) }
{
    let mut rows = [Row::default(); ROWS];
    let mut rest = bytes;
    // The sum of the rows of all runs, and no index: each run counts its own.
    let mut count = 0;
    // Only a run says whether another one follows.
    loop {
        let outcome = run(monitor, rest, &mut rows);
        write_rows(text, count, &rows[..outcome.rows])?;
        count += outcome.rows;
        rest = &rest[outcome.bytes..];
        if outcome.end != Ok(Stop::NoRowLeft) {
            let total = Outcome {
                rows: count,
                bytes: bytes.len() - rest.len(),
                end: outcome.end,
            };
            let line = EndLine::from(total);
            writeln!(text, "{line}")?;
            return Ok(());
        }
    }
}
