// Sets of numbers below a width, each held as the bits of one word.
ghost use Rattle.std.specs.Prelude.{◌≡◌, ℕ, ◌<◌, true, false, not, ◌&&◌, ◌||◌, MatchOption, ◌==◌, nat_lt};
ghost use Rattle.sets.specs.First.{first_below};
ghost use Rattle.sets.specs.Sets.{has, with_member, without_member, union, intersection, difference, count_below};

use crate::words::Word;

/// A set of numbers below the width of a word: 32 for a `u32`, 64 for a `u64`.
#[derive(Clone, Copy, PartialEq, Eq, Debug, Default)]
pub struct BitSet<W> {
    /// The members: number r is one where bit r is set.
    pub bits: W,
}

impl<W: Word> BitSet<W> {
    /// The set with no member.
    #[tactic(auto, using(crate::specs::SetLaws::of_empty))]
    pub fn empty() -> BitSet<W>
        ensures value { result ≡ record { bits = W.word 0 } }
        ensures members { (k : ℕ) → has (W.value result.bits) k ≡ false }
    {
        BitSet { bits: W::zero() }
    }

    /// Whether the number is a member; one at or past the width never is.
    pub fn contains(self, member: u8) -> bool
        ensures { result ≡ has (W.value self.bits) member }
    {
        self.bits.has(member)
    }

    /// The set with this number as a member; a number at or past the width leaves the set as it is.
    #[tactic(auto, using(crate::specs::SetLaws::of_with))]
    pub fn with(self, member: u8) -> BitSet<W>
        ensures value { result
            ≡ record { bits = W.word (with_member W.width (W.value self.bits) member) } }
        ensures members { (k : ℕ) → has (W.value result.bits) k
            ≡ (has (W.value self.bits) k || (k == member && nat_lt k W.width)) }
    {
        BitSet {
            bits: self.bits.or(W::bit(member)),
        }
    }

    /// The set without this number; a number at or past the width leaves the set as it is.
    #[tactic(auto, using(crate::specs::SetLaws::of_without))]
    pub fn without(self, member: u8) -> BitSet<W>
        ensures value { result
            ≡ record { bits = W.word (without_member W.width (W.value self.bits) member) } }
        ensures members { (k : ℕ) → has (W.value result.bits) k
            ≡ (has (W.value self.bits) k && not (k == member)) }
    {
        BitSet {
            bits: self.bits.and(W::bit(member).not()),
        }
    }

    /// The numbers that are a member of either set.
    #[tactic(auto, using(crate::specs::SetLaws::has_or), unfolding(crate::specs::Sets::union))]
    pub fn union(self, other: BitSet<W>) -> BitSet<W>
        ensures value { result
            ≡ record { bits = W.word (union (W.value self.bits) (W.value other.bits)) } }
        ensures members { (k : ℕ) → has (W.value result.bits) k
            ≡ (has (W.value self.bits) k || has (W.value other.bits) k) }
    {
        BitSet {
            bits: self.bits.or(other.bits),
        }
    }

    /// The numbers that are a member of both sets.
    #[tactic(auto, using(crate::specs::SetLaws::has_and), unfolding(crate::specs::Sets::intersection))]
    pub fn intersection(self, other: BitSet<W>) -> BitSet<W>
        ensures value { result
            ≡ record { bits = W.word (intersection (W.value self.bits) (W.value other.bits)) } }
        ensures members { (k : ℕ) → has (W.value result.bits) k
            ≡ (has (W.value self.bits) k && has (W.value other.bits) k) }
    {
        BitSet {
            bits: self.bits.and(other.bits),
        }
    }

    /// The members of this set that are not members of the other.
    #[tactic(auto, using(crate::specs::SetLaws::of_difference))]
    pub fn difference(self, other: BitSet<W>) -> BitSet<W>
        ensures value { result
            ≡ record {
              bits = W.word (difference W.width (W.value self.bits) (W.value other.bits));
            } }
        ensures members { (k : ℕ) → has (W.value result.bits) k
            ≡ (has (W.value self.bits) k && not (has (W.value other.bits) k)) }
    {
        BitSet {
            bits: self.bits.and(other.bits.not()),
        }
    }

    /// Whether the set has no member.
    #[tactic(auto, using(crate::specs::SetLaws::of_is_empty))]
    pub fn is_empty(self) -> bool
        ensures value { result ≡ (W.value self.bits == 0) }
        ensures is { result ≡ true → (k : ℕ) → has (W.value self.bits) k ≡ false }
        ensures isnt { ((k : ℕ) → has (W.value self.bits) k ≡ false) → result ≡ true }
    {
        self.bits.is_zero()
    }

    /// The least member; none where the set is empty.
    pub fn lowest(self) -> Option<u8>
        ensures value { result ≡ first_below W.width (has (W.value self.bits)) }
        ensures members { MatchOption result
            ((k : ℕ) → has (W.value self.bits) k ≡ false)
            (λ m. (has (W.value self.bits) m ≡ true)
            × ((k : ℕ) → k < m → has (W.value self.bits) k ≡ false)) }
    {
        if self.is_empty() {
            None
        } else {
            Some(self.bits.trailing_zeros())
        }
    }

    /// How many members the set has.
    #[tactic(auto, using(crate::specs::SetLaws::ones_count))]
    pub fn count(self) -> u32
        ensures { result ≡ count_below W.width (has (W.value self.bits)) }
    {
        self.bits.count_ones()
    }
}
