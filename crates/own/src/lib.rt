// An archive's own rules: two examples to follow for one more.
#![tactic(auto)]

pub mod once;
pub mod one_open;
pub mod piles;
#[cfg(test)]
mod tests;
pub mod worked;

pub use once::OncePerUser;
pub use one_open::OneOpenSession;
pub use worked::worked_cases;
