// What a policy is, how it is read, and when it passes.
#![tactic(auto)]

pub mod approved;
pub mod asking;
pub mod checked;
pub mod draft;
mod questions;
mod reading;
pub mod rows;
pub mod seniority;
pub mod tables;
pub mod verdict;
pub mod worked;

pub use approved::Approved;
pub use checked::Checked;
pub use draft::Draft;
pub use seniority::Seniority;
pub use tables::Tables;
pub use verdict::{Failure, Verdict};
