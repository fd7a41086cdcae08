// The records of policies and of events, as they stand in bytes, and how one is taken.
#![tactic(auto)]

pub mod entry;
pub mod event;
pub mod fault;
pub mod kinds;
pub mod parts;
pub mod taking;

pub use entry::Entry;
pub use event::Event;
pub use fault::Fault;
pub use kinds::{Reader, body_length};
pub use parts::take_apart;
pub use taking::{Record, take};
