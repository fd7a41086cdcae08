// The rules that archives write: limits, separation of duty, users who may not share an assignment,
// precedence and dependency.
#![tactic(auto)]

pub mod assignment_conflicts;
pub mod cardinality;
pub mod dependency;
pub mod house;
pub mod precedence;
pub mod separation;
pub mod worked;
