// Sets of users, numbered below 64.
ghost use Rattle.std.specs.Prelude.{refl};

use crate::bit_set::BitSet;
use crate::words::Word;

/// A set of users, numbered below 64: user r is a member where bit r is set.
pub type UserSet = BitSet<u64>;

// The laws of num_traits are of integers that may be negative: each clause would need a premise.
impl Word for u64 {
    ghost width = { 64 };

    ghost value = { λ n. n };

    ghost word = { λ n. n };

    ghost value_word = { λ n. refl };

    fn zero() -> u64 {
        0
    }

    #[tactic(auto, using(crate::specs::SetLaws::bit_within, crate::specs::SetLaws::bit_past))]
    fn bit(at: u8) -> u64 {
        if at < 64 { 1 << at } else { 0 }
    }

    #[tactic(auto, using(crate::specs::SetLaws::shifted_low, crate::specs::SetLaws::no_bit_past))]
    fn has(self, at: u8) -> bool {
        at < 64 && (self >> at) & 1 == 1
    }

    fn or(self, other: u64) -> u64 {
        self | other
    }

    fn and(self, other: u64) -> u64 {
        self & other
    }

    fn not(self) -> u64 {
        !self
    }

    fn is_zero(self) -> bool {
        self == 0
    }

    fn trailing_zeros(self) -> u8 {
        self.trailing_zeros() as u8
    }

    fn count_ones(self) -> u32 {
        self.count_ones()
    }
}
