// One word of marks: bit i is the mark of number i.
#![tactic(auto)]

ghost use Rattle.std.specs.Prelude.{◌≡◌, Bool, true, false, ℕ, ◌≤◌, ◌<◌, ltb};
ghost use Rattle.lists.specs.Below.{count_below, updated, bits_below};

// The word with bit i set, whatever it was.
pub fn with_bit(word: u64, i: usize) -> u64
    requires { i < 64 }
    ensures { (f : ℕ → Bool) → word ≡ bits_below 64 f → result ≡ bits_below 64 (updated f i true) }
{
    word | (1u64 << i)
}

// The word with bit i clear, whatever it was.
pub fn without_bit(word: u64, i: usize) -> u64
    requires { i < 64 }
    ensures { (f : ℕ → Bool) → word ≡ bits_below 64 f → result ≡ bits_below 64 (updated f i false) }
{
    word & !(1u64 << i)
}

// Bit i is set.
pub fn has_bit(word: u64, i: usize) -> bool
    requires { i < 64 }
    ensures { (f : ℕ → Bool) → word ≡ bits_below 64 f → result ≡ f i }
{
    (word >> i) & 1 == 1
}

// The word whose first n bits are set, and no other.
pub fn first_bits(n: usize) -> u64
    requires { n ≤ 64 }
    ensures { result ≡ bits_below 64 (λ i. ltb i n) }
{
    if n == 64 {
        return u64::MAX;
    }
    (1u64 << n) - 1
}

// How many bits are set.
pub fn count(word: u64) -> usize
    ensures upper_bound { result ≤ 64 }
    ensures by_index { (f : ℕ → Bool) → word ≡ bits_below 64 f → result ≡ count_below 64 f }
{
    u64::count_ones(word) as usize
}
