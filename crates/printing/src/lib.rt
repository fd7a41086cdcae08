// How a program's input reaches its roll, and the roll its output.
#![tactic(auto)]

pub mod input;
#[cfg(test)]
mod tests;

pub use input::print_roll;
