// The lines of the roll, each a value that prints itself.
ghost use Rattle.std.specs.Prelude.{◌≡◌, Some};
ghost use Rattle.report.specs.Texts.{policy_line, end_line, policy_text, row_text, end_text};

use crate::judging::Judged;
use monitor::{Outcome, Row};
use policy::verdict;
use records::Fault;
use std::fmt;

/// What the first line of the roll says: the number of the fault or verdict, the fault's place or
/// else the bytes read, four names. Plain numbers, since the format fixes them.
#[derive(Clone, Copy, Debug, PartialEq, Eq)]
pub struct PolicyLine {
    pub number: u8,
    pub figure: usize,
    pub names: [u8; 4],
}

impl From<Result<Judged, Fault>> for PolicyLine {
    ghost from_gives = { λ judged line. line ≡ policy_line judged };

    fn from(judged: Result<Judged, Fault>) -> PolicyLine {
        match judged {
            Ok(Judged { bytes, verdict }) => PolicyLine {
                number: verdict::number(verdict),
                figure: bytes,
                names: verdict::names(verdict),
            },
            Err(fault) => PolicyLine {
                number: fault.number(),
                figure: fault.place(),
                names: [0, 0, 0, 0],
            },
        }
    }
}

impl fmt::Display for PolicyLine {
    ghost output = { λ x. Some (policy_text x.number x.figure x.names) };

    fn fmt<W: fmt::Write>(&self, f: &mut fmt::Formatter<W>) -> fmt::Result {
        let number = self.number;
        let figure = self.figure;
        let [a, b, c, d] = self.names;
        write!(f, "policy {number} {figure} {a} {b} {c} {d}")
    }
}

/// A row of the roll, after its index over the whole input, counted from 0.
#[derive(Clone, Copy, Debug, PartialEq, Eq)]
pub struct RowLine {
    pub index: usize,
    pub row: Row,
}

impl fmt::Display for RowLine {
    ghost output = { λ x. Some (row_text x.index x.row) };

    fn fmt<W: fmt::Write>(&self, f: &mut fmt::Formatter<W>) -> fmt::Result {
        let index = self.index;
        let Row {
            kind,
            number,
            subject,
            place,
            roles,
        } = self.row;
        let roles = roles.bits;
        write!(f, "{index} {kind} {number} {subject} {place} {roles}")
    }
}

/// The last line of the roll: how many rows, the bytes of their events, and the number of the end.
/// Plain numbers, since the format fixes them.
#[derive(Clone, Copy, Debug, PartialEq, Eq)]
pub struct EndLine {
    pub rows: usize,
    pub bytes: usize,
    pub number: u8,
}

impl From<Outcome> for EndLine {
    ghost from_gives = { λ total line. line ≡ end_line total };

    fn from(total: Outcome) -> EndLine {
        EndLine {
            rows: total.rows,
            bytes: total.bytes,
            number: total.number(),
        }
    }
}

impl fmt::Display for EndLine {
    ghost output = { λ x. Some (end_text x.rows x.bytes x.number) };

    fn fmt<W: fmt::Write>(&self, f: &mut fmt::Formatter<W>) -> fmt::Result {
        let rows = self.rows;
        let bytes = self.bytes;
        let number = self.number;
        write!(f, "end {rows} {bytes} {number}")
    }
}
