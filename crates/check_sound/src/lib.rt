// The first question of a start: whether every good block of the chip is erased or orderly by itself.
#![tactic(auto)]

ghost use Rattle.std.specs.Prelude.{◌≡◌, true, not, ◌||◌, ◌<◌, length};
ghost use Rattle.rules.specs.Parameters.{allowed, block_bytes, chip_bytes};
ghost use Rattle.rules.specs.Pages.{block, erased};
ghost use Rattle.rules.specs.Start.{in_use, sound, sound_rule};

use rules::{PBlock, Params, VBlock};

// True if a block is orderly by itself: its first page names a virtual block below γ and a cluster below C, and the block is a used one of these.
fn is_sound(p: Params, blk: &[u8]) -> bool
    requires p_value { allowed p ≡ true }
    requires blk_len { length blk.now ≡ block_bytes p }
    ensures { result ≡ sound p blk.now }
{
    let fr = chip_blocks::frame_of(p, blk, 0);
    let v = chip_spares::vblock_in(p, fr) as usize;
    if v >= p.gamma {
        return false;
    }
    let c = chip_spares::cluster_in(p, fr);
    if c.0 >= p.C {
        return false;
    }
    chip_blocks::block_ok(p, rules::region_of(p, c), VBlock(v), blk)
}

// True if a block is erased or so. Its first page tells which of the two it can be.
fn is_right(p: Params, blk: &[u8]) -> bool
    requires p_value { allowed p ≡ true }
    requires blk_len { length blk.now ≡ block_bytes p }
    ensures { result ≡ erased blk.now || sound p blk.now }
{
    if chip_spares::is_programmed(p, chip_blocks::frame_of(p, blk, 0)) {
        return is_sound(p, blk);
    }
    chip_erased::is_erased(blk)
}

// True if block n is not in use or orderly by itself.
fn sound_ok(p: Params, chip: &[u8], n: PBlock) -> bool
    requires p_value { allowed p ≡ true }
    requires chip_len { length chip.now ≡ chip_bytes p }
    requires n_lt_n { n.0 < p.N }
    ensures { result ≡ not (in_use p chip.now n.0) || sound p (block p chip.now n.0) }
{
    if chip_bad::is_bad(p, chip, n) {
        return true;
    }
    is_right(p, chip_blocks::block_of(p, chip, n))
}

// The same of every block.
pub fn sounds_ok(p: Params, chip: &[u8]) -> bool
    requires p_value { allowed p ≡ true }
    requires chip_len { length chip.now ≡ chip_bytes p }
    ensures { result ≡ sound_rule p chip.now }
{
    (0..p.N).all(|n| sound_ok(p, chip, PBlock(n)))
}
