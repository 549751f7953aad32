// The bytes of the chip as numbers, low byte first: four or eight at a time.
#![tactic(auto)]

ghost use Rattle.std.specs.Prelude.{◌≡◌, ◌+◌, ◌<◌, ◌≤◌, length, drop, take};
ghost use Rattle.rules.specs.Pages.{le32};
ghost use Rattle.chip_words.specs.Words.{le};

// A byte as a number.
fn wide(x: u8) -> usize
    ensures value { result ≡ x }
    ensures upper_bound { result < 256 }
{
    x as usize
}

// The four bytes of a lent part from byte a on, as a number, low byte first: one load.
pub fn half(part: &[u8], a: usize) -> usize
    requires { a + 4 ≤ length part.now }
    ensures value { result ≡ le32 (drop a part.now) }
    ensures upper_bound { result < 4294967296 }
{
    wide(part[a])
        + 256 * wide(part[a + 1])
        + 65536 * wide(part[a + 2])
        + 16777216 * wide(part[a + 3])
}

// The eight bytes from byte a on, as a number: one load, so that eight bytes are looked at at once.
pub fn word(part: &[u8], a: usize) -> usize
    requires { a + 8 ≤ length part.now }
    ensures { result ≡ le (take 8 (drop a part.now)) }
{
    half(part, a) + 4294967296 * half(part, a + 4)
}
