// One block of the chip, read: its frames, the clusters that they hold, and whether it is as its region wants it.
#![tactic(auto)]

ghost use Rattle.std.specs.Prelude.{◌≡◌, ◌&&◌, cond, false, not, true, ℕ, ◌*◌, ◌-◌, ◌≤◌, ◌<◌, eqb, drop, length, MatchOption, IfSome};
ghost use Rattle.lists.specs.Below.{all_below};
ghost use Rattle.lists.specs.Parts.{all_are, same_list};
ghost use Rattle.rules.specs.Parameters.{allowed, frames, page_bytes, frame_bytes, block_bytes, chip_bytes};
ghost use Rattle.rules.specs.Tables.{not_found};
ghost use Rattle.rules.specs.Pages.{block, frame, programmed, holds, filled, last_in, programmed_down_to, spare, spare_bytes};
ghost use Rattle.rules.specs.Orderly.{block_rule, stamps_to};
ghost use Rattle.chip_blocks.specs.First.{FirstFrames, fit_frame};

use rules::{Cluster, Label, PBlock, Params, VBlock};

// Block n of the chip.
pub fn block_of(p: Params, chip: &[u8], n: PBlock) -> &[u8]
    requires p_value { allowed p ≡ true }
    requires chip_len { length chip.now ≡ chip_bytes p }
    requires n_lt_n { n.0 < p.N }
    ensures result_value { result.now ≡ block p chip.now n.0 }
    ensures result_len { length result.now ≡ block_bytes p }
{
    let w = chip_sizes::block_bytes(p);
    let a = n.0 * w;
    let b = a + w;
    &chip[a..b]
}

// Frame f of a block.
pub fn frame_of(p: Params, blk: &[u8], f: usize) -> &[u8]
    requires p_value { allowed p ≡ true }
    requires blk_len { length blk.now ≡ block_bytes p }
    requires f_bound { f < frames p }
    ensures result_value { result.now ≡ frame p blk.now f }
    ensures result_len { length result.now ≡ frame_bytes p }
{
    let w = chip_sizes::frame_bytes(p);
    let a = f * w;
    let b = a + w;
    &blk[a..b]
}

// True if a frame whose first j pages have their spare bytes is only begun: there is such a page, and everything after them is erased.
fn only_begun(p: Params, fr: &[u8], j: usize) -> bool
    requires p_value { allowed p ≡ true }
    requires fr_len { length fr.now ≡ frame_bytes p }
    requires j_le_alpha { j ≤ p.alpha }
    ensures { result ≡ not (eqb j 0) && all_are 255 (drop (j * page_bytes p) fr.now) }
{
    if j == 0 {
        return false;
    }
    let a = j * chip_sizes::page_bytes(p);
    chip_erased::is_erased(&fr[a..])
}

// True if every page of a frame has the spare bytes that the label says: the loop over most pages of a board, so it answers nothing else.
// It and the two searches beside it are loops by `for`: as chains of an iterator they take an eighth more instructions for a block.
fn all_right(p: Params, fr: &[u8], of: Label) -> bool
    requires p_value { allowed p ≡ true }
    requires fr_len { length fr.now ≡ frame_bytes p }
    ensures { result ≡ all_below p.alpha (λ j. same_list (spare p fr.now j) (spare_bytes of.cluster.0 j of.stamp of.vblock)) }
{
    for j in 0..p.alpha {
        if !chip_spares::spare_right(p, fr, of, j) {
            return false;
        }
    }
    true
}

// How many pages of a frame, from the first on, have the spare bytes that the label says: up to the first that has not.
fn right_pages(p: Params, fr: &[u8], of: Label) -> usize
    requires p_value { allowed p ≡ true }
    requires fr_len { length fr.now ≡ frame_bytes p }
    ensures upper_bound { result ≤ p.alpha }
    ensures vblock_value { all_below result (λ j. same_list (spare p fr.now j) (spare_bytes of.cluster.0 j of.stamp of.vblock)) ≡ true }
    ensures vblock_value_2 { result < p.alpha → same_list (spare p fr.now result) (spare_bytes of.cluster.0 result of.stamp of.vblock) ≡ false }
{
    for j in 0..p.alpha {
        if !chip_spares::spare_right(p, fr, of, j) {
            return j;
        }
    }
    p.alpha
}

// True if a frame is as programming leaves it, whole or in its first pages, with a cluster of region r, in virtual block v, and with a stamp up to `last`.
fn good_frame(p: Params, r: usize, v: VBlock, last: u32, fr: &[u8]) -> bool
    requires p_value { allowed p ≡ true }
    requires v_lt_gamma { v.0 < p.gamma }
    requires fr_len { length fr.now ≡ frame_bytes p }
    ensures { result ≡ fit_frame p r v.0 last fr.now }
{
    let c = chip_spares::cluster_in(p, fr);
    if c.0 >= p.C {
        return false;
    }
    if rules::region_of(p, c) != r {
        return false;
    }
    let t = chip_spares::stamp_in(p, fr);
    if t > last {
        return false;
    }
    let of = Label {
        cluster: c,
        stamp: t,
        vblock: v.0 as u8,
    };
    if !all_right(p, fr, of) {
        return only_begun(p, fr, right_pages(p, fr, of));
    }
    true
}

// True if a whole frame holds cluster c, by its last page. Its number is looked at first: where many frames are asked, most hold another.
pub fn holds(p: Params, fr: &[u8], c: Cluster) -> bool
    requires p_value { allowed p ≡ true }
    requires fr_len { length fr.now ≡ frame_bytes p }
    ensures { result ≡ holds p fr.now c.0 }
{
    if chip_spares::last_cluster(p, fr).0 != c.0 {
        return false;
    }
    chip_spares::is_whole(p, fr)
}

// How many frames of the block are programmed.
pub fn filled(p: Params, blk: &[u8]) -> usize
    requires p_value { allowed p ≡ true }
    requires blk_len { length blk.now ≡ block_bytes p }
    ensures { result ≡ filled p blk.now }
{
    (0..chip_sizes::frames(p))
        .filter(|f| chip_spares::is_programmed(p, frame_of(p, blk, *f)))
        .count()
}

// The first frame from frame `from` on that is not programmed, F if there is none: how many frames are programmed, where these are the first k of the
// block and `from` is not above k.
pub fn next_free(p: Params, blk: &[u8], from: usize) -> usize
    requires p_value { allowed p ≡ true }
    requires blk_len { length blk.now ≡ block_bytes p }
    requires from_bound { from ≤ frames p }
    ensures { (k : ℕ) → from ≤ k → FirstFrames p blk.now k → result ≡ k }
{
    let n = chip_sizes::frames(p);
    (from..n)
        .find(|f| !chip_spares::is_programmed(p, frame_of(p, blk, *f)))
        .unwrap_or(n)
}

// True if the last frame of the block is programmed. If the first k frames are and no others, the block is full exactly then.
pub fn is_full(p: Params, blk: &[u8]) -> bool
    requires p_value { allowed p ≡ true }
    requires blk_len { length blk.now ≡ block_bytes p }
    ensures { result ≡ programmed p (frame p blk.now (frames p - 1)) }
{
    let f = chip_sizes::frames(p) - 1;
    chip_spares::is_programmed(p, frame_of(p, blk, f))
}

// How many frames, from the first on, are such frames: up to the first that is not.
fn good_frames(p: Params, r: usize, v: VBlock, last: u32, blk: &[u8]) -> usize
    requires p_value { allowed p ≡ true }
    requires v_lt_gamma { v.0 < p.gamma }
    requires blk_len { length blk.now ≡ block_bytes p }
    ensures upper_bound { result ≤ frames p }
    ensures f_value { all_below result (λ f. fit_frame p r v.0 last (frame p blk.now f)) ≡ true }
    ensures result_value { result < frames p → fit_frame p r v.0 last (frame p blk.now result) ≡ false }
{
    let n = chip_sizes::frames(p);
    for f in 0..n {
        if !good_frame(p, r, v, last, frame_of(p, blk, f)) {
            return f;
        }
    }
    n
}

// True if the frames from frame k on are erased.
fn rest_erased(p: Params, blk: &[u8], k: usize) -> bool
    requires p_value { allowed p ≡ true }
    requires blk_len { length blk.now ≡ block_bytes p }
    requires k_bound { k ≤ frames p }
    ensures { result ≡ all_are 255 (drop (k * frame_bytes p) blk.now) }
{
    let w = chip_sizes::frame_bytes(p);
    let a = k * w;
    chip_erased::is_erased(&blk[a..])
}

// How many frames of the block are programmed, if it is a used block of region r and virtual block v with stamps up to `last`; 0 if it is not one.
pub fn used_frames(p: Params, r: usize, v: VBlock, last: u32, blk: &[u8]) -> usize
    requires p_value { allowed p ≡ true }
    requires v_lt_gamma { v.0 < p.gamma }
    requires blk_len { length blk.now ≡ block_bytes p }
    ensures { result ≡ cond (block_rule p r v.0 blk.now && stamps_to p last blk.now) (filled p blk.now) 0 }
{
    let k = good_frames(p, r, v, last, blk);
    if k == 0 {
        return 0;
    }
    if !rest_erased(p, blk, k) {
        return 0;
    }
    k
}

// True if the block is a used block of region r and virtual block v, whatever its stamps.
pub fn block_ok(p: Params, r: usize, v: VBlock, blk: &[u8]) -> bool
    requires p_value { allowed p ≡ true }
    requires v_lt_gamma { v.0 < p.gamma }
    requires blk_len { length blk.now ≡ block_bytes p }
    ensures { result ≡ block_rule p r v.0 blk.now }
{
    used_frames(p, r, v, rules::LAST_STAMP, blk) != 0
}

// Where a search ended, if it found what it looked for, and how many spare areas of programmed frames it looked at on its way.
#[derive(Clone, Copy)]
pub struct Search {
    pub frame: Option<usize>,
    pub looks: u32,
}

// The spare areas that a search looks at in a frame: that of a programmed one; it starts below the erased ones.
fn looked(p: Params, fr: &[u8]) -> u32
    requires p_value { allowed p ≡ true }
    requires fr_len { length fr.now ≡ frame_bytes p }
    ensures { result ≡ cond (programmed p fr.now) 1 0 }
{
    if chip_spares::is_programmed(p, fr) {
        1
    } else {
        0
    }
}

// The last of the β frames in place k of the block that holds cluster c, if one does, searched from the last one down, and what the search looked at.
pub fn last_in(p: Params, blk: &[u8], k: usize, c: Cluster) -> Search
    requires p_value { allowed p ≡ true }
    requires blk_len { length blk.now ≡ block_bytes p }
    requires k_lt_d { k < p.d }
    ensures frame_value { MatchOption result.frame (last_in p blk.now k c.0 ≡ not_found) (λ f. (f ≡ last_in p blk.now k c.0) × (f < frames p)) }
    ensures looks_le_beta { result.looks ≤ p.beta }
    ensures looks_value { IfSome result.frame (λ f. result.looks ≡ programmed_down_to p blk.now k f) }
{
    let lo = k * p.beta;
    let mut looks = 0;
    for f in (lo..lo + p.beta).rev() {
        let fr = frame_of(p, blk, f);
        looks += looked(p, fr);
        if holds(p, fr, c) {
            return Search {
                frame: Some(f),
                looks,
            };
        }
    }
    Search { frame: None, looks }
}
