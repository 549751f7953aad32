// The third question of a start, of one region: whether two whole frames of a cluster in the kept blocks share a stamp. Each whole frame is looked for among the
// earlier ones, but only where a bit for its stamp is set already: two stamps that are the same have the same bit.
#![tactic(auto)]

ghost use Rattle.std.specs.Prelude.{◌≡◌, true, List, ℕ, ◌≤◌, ◌<◌, get_or, length};
ghost use Rattle.rules.specs.Parameters.{allowed, block_bytes, frame_bytes, frames};
ghost use Rattle.rules.specs.Tables.{bt_at, none};
ghost use Rattle.rules.specs.Start.{found_view, stamps_apart};
ghost use Rattle.check_apart.specs.Apart.{Asked, BlockDone, FrameDone, Seen, Sees, has, kept_apart, kept_body, lack_before, lacks};

use rules::{Cluster, PBlock, Params, VBlock};

// True if a frame is a whole one of cluster c with stamp t.
fn has(p: Params, fr: &[u8], c: Cluster, t: u32) -> bool
    requires p_value { allowed p ≡ true }
    requires fr_len { length fr.now ≡ frame_bytes p }
    ensures { result ≡ has p c.0 t fr.now }
{
    if chip_spares::stamp_in(p, fr) != t {
        return false;
    }
    if chip_spares::cluster_in(p, fr) != c {
        return false;
    }
    chip_spares::is_whole(p, fr)
}

// True if none of the first k frames of a block is such a frame.
fn lacks(p: Params, blk: &[u8], c: Cluster, t: u32, k: usize) -> bool
    requires p_value { allowed p ≡ true }
    requires blk_len { length blk.now ≡ block_bytes p }
    requires k_bound { k ≤ frames p }
    ensures { result ≡ lacks p c.0 t k blk.now }
{
    (0..k).all(|f| !has(p, chip_blocks::frame_of(p, blk, f), c, t))
}

// True if no frame of the block that virtual block v keeps is such a frame.
fn block_lacks(p: Params, chip: &[u8], kept: &[u16], c: Cluster, t: u32, v: VBlock) -> bool
    requires asked { Asked p chip.now kept.now }
    requires v_lt_gamma { v.0 < p.gamma }
    ensures { result ≡ lacks p c.0 t (frames p) (kept_body p chip.now kept.now v.0) }
{
    let Some(n) = chip_tables::entry_named(kept, v.0) else {
        return true;
    };
    lacks(
        p,
        chip_blocks::block_of(p, chip, n),
        c,
        t,
        chip_sizes::frames(p),
    )
}

// The same of the first v virtual blocks.
fn lack_before(p: Params, chip: &[u8], kept: &[u16], c: Cluster, t: u32, v: VBlock) -> bool
    requires asked { Asked p chip.now kept.now }
    requires v_lt_gamma { v.0 < p.gamma }
    ensures { result ≡ lack_before p chip.now kept.now c.0 t v.0 }
{
    (0..v.0).all(|u| block_lacks(p, chip, kept, c, t, VBlock(u)))
}

// True if the bit of stamp t was set; it is set then.
fn see(seen: &mut [u64], t: u32) -> bool
    requires { length seen.old ≡ 256 }
    ensures { Sees seen.old t result seen.new }
{
    let i = (t / 64 % 256) as usize;
    let b = (t % 64) as usize;
    let word = seen[i];
    seen[i] = bits::with_bit(word, b);
    bits::has_bit(word, b)
}

// True if frame f of virtual block v, whose block is lent too, differs from all earlier ones, which were seen; then it is seen too.
fn frame_apart(
    p: Params,
    chip: &[u8],
    kept: &[u16],
    seen: &mut [u64],
    blk: &[u8],
    v: VBlock,
    f: usize,
) -> bool
    requires asked { Asked p chip.now kept.now }
    requires v_lt_gamma { v.0 < p.gamma }
    requires f_bound { f < frames p }
    requires blk_value { blk.now ≡ kept_body p chip.now kept.now v.0 }
    requires blk_len { length blk.now ≡ block_bytes p }
    requires seen { Seen p chip.now kept.now v.0 f seen.old }
    ensures { FrameDone p chip.now kept.now v.0 f result seen.new }
{
    let fr = chip_blocks::frame_of(p, blk, f);
    if !chip_spares::is_whole(p, fr) {
        return true;
    }
    let t = chip_spares::stamp_in(p, fr);
    if !see(seen, t) {
        return true;
    }
    let c = chip_spares::cluster_in(p, fr);
    if !lacks(p, blk, c, t, f) {
        return false;
    }
    lack_before(p, chip, kept, c, t, v)
}

// The same of every frame of that block.
fn block_apart(
    p: Params,
    chip: &[u8],
    kept: &[u16],
    seen: &mut [u64],
    blk: &[u8],
    v: VBlock,
) -> bool
    requires asked { Asked p chip.now kept.now }
    requires v_lt_gamma { v.0 < p.gamma }
    requires blk_value { blk.now ≡ kept_body p chip.now kept.now v.0 }
    requires blk_len { length blk.now ≡ block_bytes p }
    requires seen { Seen p chip.now kept.now v.0 0 seen.old }
    ensures { BlockDone p chip.now kept.now v.0 result seen.new }
{
    for f in 0..chip_sizes::frames(p) {
        if !frame_apart(p, chip, kept, seen, blk, v, f) {
            return false;
        }
    }
    true
}

// The same of virtual block v, which may have no block.
fn vblock_apart(p: Params, chip: &[u8], kept: &[u16], seen: &mut [u64], v: VBlock) -> bool
    requires asked { Asked p chip.now kept.now }
    requires v_lt_gamma { v.0 < p.gamma }
    requires seen { Seen p chip.now kept.now v.0 0 seen.old }
    ensures { BlockDone p chip.now kept.now v.0 result seen.new }
{
    let Some(n) = chip_tables::entry_named(kept, v.0) else {
        return true;
    };
    block_apart(p, chip, kept, seen, chip_blocks::block_of(p, chip, n), v)
}

// The same of every virtual block. Whatever is seen before the first frame, none is missed.
fn all_apart(p: Params, chip: &[u8], kept: &[u16], seen: &mut [u64]) -> bool
    requires asked { Asked p chip.now kept.now }
    requires seen_len { length seen.old ≡ 256 }
    ensures { result ≡ kept_apart p chip.now kept.now }
{
    for v in 0..p.gamma {
        if !vblock_apart(p, chip, kept, seen, VBlock(v)) {
            return false;
        }
    }
    true
}

// True if no two whole frames of a cluster in the blocks that `kept` names share a stamp.
pub fn stamps_apart(p: Params, chip: &[u8], kept: &[u16]) -> bool
    requires { Asked p chip.now kept.now }
    ensures { (bt : List ℕ) (r : ℕ) → ((v : ℕ) → v < p.gamma → bt_at p bt r v ≡ get_or kept.now v none)
        → result ≡ stamps_apart p (found_view p chip.now bt r) }
{
    let mut seen = [0u64; 256];
    all_apart(p, chip, kept, &mut seen)
}
