// How an event is decided, for any pile of rules.
#![tactic(auto)]

pub mod answers;
pub mod changes;
pub mod governed;
pub mod monitors;
pub mod own_rules;
pub mod pairs;
pub mod possible;
mod readers;
pub mod replays;
pub mod rows;
pub mod rules;
pub mod run;
pub mod sessions;
pub mod states;
pub mod tickets;

pub use answers::{Answer, Impossibility, Reason, Refusal};
pub use changes::Change;
pub use governed::GovernedState;
pub use monitors::Monitor;
pub use own_rules::OwnRule;
pub use pairs::Pair;
pub use possible::PossibleEvent;
pub use replays::Replay;
pub use rows::Row;
pub use rules::Rule;
pub use run::{Outcome, Stop};
pub use sessions::{Session, Whose};
pub use states::{Cells, State};
pub use tickets::Ticket;
