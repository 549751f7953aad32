// What the first page of a block says of it, on a chip whose blocks in use are sound: one look at a block, not at its bytes.
#![tactic(auto)]

ghost use Rattle.std.specs.Prelude.{◌≡◌, true, ◌<◌, length};
ghost use Rattle.rules.specs.Parameters.{allowed, block_bytes, chip_bytes};
ghost use Rattle.rules.specs.Pages.{block};
ghost use Rattle.rules.specs.Start.{in_use, region_named, sound};
ghost use Rattle.chip_heads.specs.Heads.{HeadOf, Names};

use rules::{PBlock, Params, VBlock};

// What a block in use says: whether it is full, and the region and the virtual block that it names.
#[derive(Clone, Copy)]
pub struct Head {
    pub full: bool,
    pub region: usize,
    pub vblock: VBlock,
}

// What a sound block says.
fn says(p: Params, blk: &[u8]) -> Head
    requires p_value { allowed p ≡ true }
    requires blk_len { length blk.now ≡ block_bytes p }
    requires blk_value { sound p blk.now ≡ true }
    ensures { Names p blk.now result }
{
    let fr = chip_blocks::frame_of(p, blk, 0);
    Head {
        full: chip_blocks::is_full(p, blk),
        region: rules::region_of(p, chip_spares::cluster_in(p, fr)),
        vblock: VBlock(chip_spares::vblock_in(p, fr) as usize),
    }
}

// What block n says, if it is in use. An erased block and a sound one differ in their first page; a bad one may be like either.
pub fn head_of(p: Params, chip: &[u8], n: PBlock) -> Option<Head>
    requires p_value { allowed p ≡ true }
    requires chip_len { length chip.now ≡ chip_bytes p }
    requires n_lt_n { n.0 < p.N }
    requires n_value { in_use p chip.now n.0 ≡ true → sound p (block p chip.now n.0) ≡ true }
    ensures { HeadOf p chip.now n.0 result }
{
    let blk = chip_blocks::block_of(p, chip, n);
    if !chip_spares::is_programmed(p, chip_blocks::frame_of(p, blk, 0))
        || chip_bad::is_bad(p, chip, n)
    {
        return None;
    }
    Some(says(p, blk))
}

// True if the first page of block n names no cluster of region r, whatever else the block is.
pub fn elsewhere(p: Params, chip: &[u8], r: usize, n: PBlock) -> bool
    requires p_value { allowed p ≡ true }
    requires chip_len { length chip.now ≡ chip_bytes p }
    requires n_lt_n { n.0 < p.N }
    ensures { result ≡ true → region_named p (block p chip.now n.0) ≡ r → ⊥ }
{
    let fr = chip_blocks::frame_of(p, chip_blocks::block_of(p, chip, n), 0);
    let c = chip_spares::cluster_in(p, fr);
    (c.0 as u32 % p.mu as u32) as usize != r
}
