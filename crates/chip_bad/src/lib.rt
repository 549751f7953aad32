// Document 02's T-02: which blocks are bad, by the factory's marks on the chip.
#![tactic(auto)]

ghost use Rattle.std.specs.Prelude.{◌≡◌, ◌&&◌, not, true, ◌*◌, ◌<◌, length};
ghost use Rattle.rules.specs.Parameters.{allowed, block_bytes, pages};
ghost use Rattle.rules.specs.Traces.{worn};
ghost use Rattle.rules.specs.Format.{bad_mark, bad, good_blocks};

use rules::{PBlock, Params};

// True if page j of block n has the factory's bad mark: byte 5 of its spare area is not 255.
fn has_bad_mark(p: Params, chip: &[u8], n: PBlock, j: usize) -> bool
    requires p_value { allowed p ≡ true }
    requires chip_len { length chip.now ≡ p.N * block_bytes p }
    requires n_lt_n { n.0 < p.N }
    requires j_bound { j < pages p }
    ensures { result ≡ bad_mark p chip.now n.0 j }
{
    let w = chip_sizes::block_bytes(p);
    let q = chip_sizes::page_bytes(p);
    let i = n.0 * w + (j * q + (p.s + 5));
    chip[i] != 255
}

// True if block n is bad: page 0 has that mark, or page 1 where the block has one.
pub fn is_bad(p: Params, chip: &[u8], n: PBlock) -> bool
    requires p_value { allowed p ≡ true }
    requires chip_len { length chip.now ≡ p.N * block_bytes p }
    requires n_lt_n { n.0 < p.N }
    ensures { result ≡ bad p chip.now n.0 }
{
    if has_bad_mark(p, chip, n, 0) {
        return true;
    }
    if chip_sizes::pages(p) < 2 {
        return false;
    }
    has_bad_mark(p, chip, n, 1)
}

// True if block n is "still good after its erases": not bad, and not worn out by one erase more.
fn stays_good(p: Params, chip: &[u8], wear: &[u32], n: PBlock) -> bool
    requires p_value { allowed p ≡ true }
    requires chip_len { length chip.now ≡ p.N * block_bytes p }
    requires wear_len { length wear.now ≡ p.N }
    requires n_lt_n { n.0 < p.N }
    ensures { result ≡ not (bad p chip.now n.0) && not (worn p wear.now n.0) }
{
    if is_bad(p, chip, n) {
        return false;
    }
    !chip_worn::wears_out(p, wear, n)
}

// How many blocks are, counted before anything is erased.
pub fn count_good(p: Params, chip: &[u8], wear: &[u32]) -> usize
    requires p_value { allowed p ≡ true }
    requires chip_len { length chip.now ≡ p.N * block_bytes p }
    requires wear_len { length wear.now ≡ p.N }
    ensures { result ≡ good_blocks p chip.now wear.now }
{
    (0..p.N)
        .filter(|n| stays_good(p, chip, wear, PBlock(*n)))
        .count()
}
