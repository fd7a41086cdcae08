// Words: numbers of a fixed width whose bits a set can be.
ghost use Rattle.std.specs.Prelude.{◌≡◌, ℕ, ◌-◌, ◌^◌, ◌<◌, ◌==◌, if◌then◌else◌, nat_lt, bit_and, bit_or};
ghost use Rattle.std.specs.Int.Count.{ones, count_trailing_zeros};
ghost use Rattle.sets.specs.Sets.{has};

/// A number of a fixed width, as the bits of a set.
pub trait Word: Copy {
    // How many bits a word has.
    ghost width: { ℕ };

    // The number that a word is, and the word of a number.
    ghost value: { Self → ℕ };

    ghost word: { ℕ → Self };

    /// The word with no bit set.
    fn zero() -> Self
        ensures { result ≡ word 0 };

    /// The word with one bit set; with none where the bit is at or past the width.
    fn bit(at: u8) -> Self
        ensures { result ≡ word (if nat_lt at width then 2 ^ at else 0) };

    /// Whether the bit is set; one at or past the width never is.
    fn has(self, at: u8) -> bool
        ensures { result ≡ has (value self) at };

    /// The bits that are set in either word.
    fn or(self, other: Self) -> Self
        ensures { result ≡ word (bit_or (value self) (value other)) };

    // A law takes any number for a word, so the clauses `within` say that it is below 2 ^ width.
    /// The bits that are set in both words.
    fn and(self, other: Self) -> Self
        ensures value { result ≡ word (bit_and (value self) (value other)) }
        ensures within { value self < 2 ^ width };

    /// The bits that are not set.
    fn not(self) -> Self
        ensures value { result ≡ word (2 ^ width - 1 - value self) }
        ensures within { value self < 2 ^ width };

    /// Whether no bit is set.
    fn is_zero(self) -> bool
        ensures value { result ≡ (value self == 0) }
        ensures within { value self < 2 ^ width };

    /// The place of the lowest bit that is set, and the width where none is.
    fn trailing_zeros(self) -> u8
        ensures value { result ≡ count_trailing_zeros width (value self) }
        ensures within { value self < 2 ^ width };

    /// How many bits are set.
    fn count_ones(self) -> u32
        ensures value { result ≡ ones (value self) }
        ensures within { value self < 2 ^ width };

    // A number's word is that number.
    ghost value_word: { (n : ℕ) → value (word n) ≡ n };
}
