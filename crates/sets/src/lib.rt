// Sets of roles and sets of users, each the bits of one word.
#![tactic(auto)]

pub mod bit_set;
pub mod roles;
pub mod users;
pub mod words;

pub use bit_set::BitSet;
pub use roles::RoleSet;
pub use users::UserSet;
pub use words::Word;
