// Which frames are valid, and whether each mark of a virtual block is that of a valid frame. Crate check_board has why no valid frame is then without one.
#![tactic(auto)]

ghost use Rattle.std.specs.Prelude.{◌≡◌, false, true, not, ◌||◌, ℕ, ◌+◌, ◌*◌, ◌/◌, ◌%◌, ◌<◌, eqb};
ghost use Rattle.lists.specs.Below.{all_below};
ghost use Rattle.rules.specs.Parameters.{allowed};
ghost use Rattle.rules.specs.Pages.{last_in};
ghost use Rattle.rules.specs.Regions.{View, valid};
ghost use Rattle.rules.specs.Marks.{marked};
ghost use Rattle.chip_marks.specs.Asked.{WordsAsked};
ghost use Rattle.check_marks.specs.Shown.{CheckAsked, HoldsAt, OneBlock, OneFrame, Shows, marks_valid, only_in, word_only};

use rules::{Cluster, Params, Segment, VBlock};

// The segment in place k of a virtual block.
fn segment_in(p: Params, v: VBlock, k: usize) -> Segment
    requires p_value { allowed p ≡ true }
    requires v_lt_gamma { v.0 < p.gamma }
    requires k_lt_d { k < p.d }
    ensures { result.0 ≡ v.0 * p.d + k }
{
    Segment(v.0 * p.d + k)
}

// The place of the segment of frame 64·w; no division for the first word.
fn first_place(p: Params, w: usize) -> usize
    requires p_value { allowed p ≡ true }
    requires w_bound { w < 4 }
    ensures { result ≡ 64 * w / p.beta }
{
    if w == 0 {
        return 0;
    }
    64 * w / p.beta
}

// The place of the segment of frame f + 1, where that of frame f is k: no division.
fn next_place(p: Params, f: usize, k: usize) -> usize
    requires p_value { allowed p ≡ true }
    requires f_bound { f < 256 }
    requires k_value { k ≡ f / p.beta }
    ensures { result ≡ (f + 1) / p.beta }
{
    if (k + 1) * p.beta == f + 1 {
        return k + 1;
    }
    k
}

// True if no frame after frame f, in the same segment, holds its cluster c. The place of the segment in the block is k.
fn is_last(p: Params, blk: &[u8], k: usize, f: usize, c: Cluster) -> bool
    requires { HoldsAt p blk.now k f c.0 }
    ensures { result ≡ eqb (last_in p blk.now k c.0) f }
{
    let end = (k + 1) * p.beta;
    (f + 1..end).all(|g| !chip_blocks::holds(p, chip_blocks::frame_of(p, blk, g), c))
}

// True if frame f of virtual block v, whose bytes are lent, is valid. The place of its segment in the block is k.
pub fn is_valid(p: Params, blk: &[u8], ct: &[u16], v: VBlock, k: usize, f: usize) -> bool
    requires one_frame { OneFrame p blk.now ct.now v.0 f }
    requires k_value { k ≡ f / p.beta }
    ensures { (r : ℕ) (vw : View) → Shows p r v.0 blk.now ct.now vw → result ≡ valid p vw v.0 f }
{
    let fr = chip_blocks::frame_of(p, blk, f);
    if !chip_spares::is_whole(p, fr) {
        return false;
    }
    let c = chip_spares::last_cluster(p, fr);
    if chip_tables::ct_at(ct, c) != segment_in(p, v, k) {
        return false;
    }
    is_last(p, blk, k, f, c)
}

// True if bit 0 of the word is clear, or frame f, whose mark that bit is, is valid.
fn mark_ok(p: Params, blk: &[u8], ct: &[u16], v: VBlock, k: usize, f: usize, word: u64) -> bool
    requires one_block { OneBlock p blk.now ct.now v.0 }
    requires k_value { k ≡ f / p.beta }
    ensures { (r : ℕ) (vw : View) → Shows p r v.0 blk.now ct.now vw → result ≡ not (eqb (word % 2) 1) || marked p vw v.0 f }
{
    if word % 2 == 0 {
        return true;
    }
    if f >= chip_sizes::frames(p) {
        return false;
    }
    is_valid(p, blk, ct, v, k, f)
}

// True if each mark in word w of virtual block v, whose bytes are lent, is that of a valid frame. The loop ends at the last mark.
fn word_ok(p: Params, blk: &[u8], ct: &[u16], v: VBlock, w: usize, word: u64) -> bool
    requires one_block { OneBlock p blk.now ct.now v.0 }
    requires w_bound { w < 4 }
    ensures { (r : ℕ) (vw : View) → Shows p r v.0 blk.now ct.now vw → result ≡ only_in (marked p vw v.0) w word }
{
    if word == 0 {
        return true;
    }
    let mut k = first_place(p, w);
    let mut i: usize = 0;
    let mut rest = word;
    while rest > 0 {
        let f = 64 * w + i;
        if !mark_ok(p, blk, ct, v, k, f, rest) {
            return false;
        }
        k = next_place(p, f, k);
        i += 1;
        rest = rest / 2;
    }
    true
}

// True if each mark of virtual block v of region r, whose block's bytes are lent, is that of a valid frame.
fn held_ok(p: Params, blk: &[u8], ct: &[u16], marks: &[u64], r: usize, v: VBlock) -> bool
    requires one_block { OneBlock p blk.now ct.now v.0 }
    requires words_asked { WordsAsked p marks.now r v.0 }
    ensures { (vw : View) → Shows p r v.0 blk.now ct.now vw → result ≡ all_below 4 (word_only p marks.now r v.0 (marked p vw v.0)) }
{
    // Kept: what word_ok tells is of any view, which the law of a chain does not take.
    for w in 0..4 {
        if !word_ok(p, blk, ct, v, w, chip_marks::word_at(p, marks, r, v, w)) {
            return false;
        }
    }
    true
}

// True if it has no mark, where it has no block.
fn none_ok(p: Params, marks: &[u64], r: usize, v: VBlock) -> bool
    requires { WordsAsked p marks.now r v.0 }
    ensures { result ≡ all_below 4 (word_only p marks.now r v.0 (λ f. false)) }
{
    (0..4).all(|w| chip_marks::word_at(p, marks, r, v, w) == 0)
}

// True if each mark of virtual block v of region r is that of a valid frame, with or without a block.
pub fn marks_ok(
    p: Params,
    chip: &[u8],
    ct: &[u16],
    bt: &[u16],
    marks: &[u64],
    r: usize,
    v: VBlock,
) -> bool
    requires { CheckAsked p chip.now ct.now bt.now marks.now r v.0 }
    ensures { result ≡ marks_valid p chip.now ct.now bt.now marks.now r v.0 }
{
    let Some(n) = chip_tables::block_named(p, bt, r, v) else {
        return none_ok(p, marks, r, v);
    };
    held_ok(p, chip_blocks::block_of(p, chip, n), ct, marks, r, v)
}
