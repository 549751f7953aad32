// Whether a lent part of the chip is erased, that is 255 throughout.
#![tactic(auto)]

ghost use Rattle.std.specs.Prelude.{◌≡◌, ◌&&◌, length};
ghost use Rattle.lists.specs.Parts.{all_are};
ghost use Rattle.chip_erased.specs.Full.{full};

// A word whose 64 bits are ones.
const ONES: usize = 18446744073709551615;

// Eight words side by side: the bits that all rows of 64 bytes have.
// Kept: eight fields, not an array, since eight words side by side are what makes the loop over the rows fast.
#[derive(Clone, Copy)]
struct Eight {
    a: usize,
    b: usize,
    c: usize,
    d: usize,
    e: usize,
    f: usize,
    g: usize,
    h: usize,
}

// The bits that a row of 64 bytes has too.
fn gather(w: Eight, row: &[u8]) -> Eight
    requires { length row.now ≡ 64 }
    ensures { full result ≡ full w && all_are 255 row.now }
{
    Eight {
        a: w.a & chip_words::word(row, 0),
        b: w.b & chip_words::word(row, 8),
        c: w.c & chip_words::word(row, 16),
        d: w.d & chip_words::word(row, 24),
        e: w.e & chip_words::word(row, 32),
        f: w.f & chip_words::word(row, 40),
        g: w.g & chip_words::word(row, 48),
        h: w.h & chip_words::word(row, 56),
    }
}

// True if all eight have every bit.
fn is_full(w: Eight) -> bool
    ensures { result ≡ full w }
{
    (w.a == ONES)
        & (w.b == ONES)
        & (w.c == ONES)
        & (w.d == ONES)
        & (w.e == ONES)
        & (w.f == ONES)
        & (w.g == ONES)
        & (w.h == ONES)
}

// True if every byte of a row is 255.
fn row_erased(row: &[u8]) -> bool
    ensures { result ≡ all_are 255 row.now }
{
    let mut all: u8 = 255;
    for b in row {
        all &= *b;
    }
    all == 255
}

// True if every byte is 255: rows of 64 bytes, whose common bits are gathered with no early exit, eight words a turn, and what is left behind the last row.
pub fn is_erased(part: &[u8]) -> bool
    ensures { result ≡ all_are 255 part.now }
{
    let k = part.len() / 64;
    let mut w = Eight {
        a: ONES,
        b: ONES,
        c: ONES,
        d: ONES,
        e: ONES,
        f: ONES,
        g: ONES,
        h: ONES,
    };
    for i in 0..k {
        let a = i * 64;
        w = gather(w, &part[a..a + 64]);
    }
    let z = k * 64;
    is_full(w) & row_erased(&part[z..])
}
