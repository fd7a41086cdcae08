// How an answer is printed: the lines of the roll.
#![tactic(auto)]

pub mod events;
pub mod judging;
pub mod line;
pub mod rolls;

pub use judging::{Judged, read_and_check};
pub use line::{EndLine, PolicyLine, RowLine};
pub use rolls::{roll, roll_by, roll_with_own_above, roll_with_own_below};
