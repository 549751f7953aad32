// Document 01, "Reclaim": the victim's valid frames, which are those with a mark, are copied to the free block, CT follows each, and the victim is erased;
// T-12: and marked where that wears it out.
#![tactic(auto)]

ghost use Rattle.std.specs.Prelude.{◌≡◌, ◌≤◌};
ghost use Rattle.rules.specs.Pages.{block, frame, held};
ghost use Rattle.rules.specs.Traces.{replay_chip, frame_ops};
ghost use Rattle.rules.specs.Marks.{Marks, table_of};
ghost use Rattle.chip_marks.specs.Asked.{WordsAsked};
ghost use Rattle.write_reclaim.specs.Moves.{OnChip, CopyAsked, MoveAsked, Moved, MovedIf, FromTo, Copied, ReclaimAsked, Reclaimed, marked_frames};

use rules::{Cluster, PBlock, Params, VBlock};

// The cluster that frame f of block n holds.
fn cluster_at(p: Params, chip: &[u8], n: PBlock, f: usize) -> Cluster
    requires { OnChip p chip.now n.0 f }
    ensures { result.0 ≡ held p (frame p (block p chip.now n.0) f) }
{
    chip_spares::cluster_in(
        p,
        chip_blocks::frame_of(p, chip_blocks::block_of(p, chip, n), f),
    )
}

// The first m pages of frame f of block o are copied to frame k of block n: all of them, or fewer at a cut.
pub fn copy_part(p: Params, chip: &mut [u8], o: PBlock, n: PBlock, f: usize, k: usize, m: usize)
    requires copy_asked { CopyAsked p chip.old o.0 n.0 f k }
    requires m_le_alpha { m ≤ p.alpha }
    ensures { chip.new ≡ replay_chip p chip.old (frame_ops p n.0 k (frame p (block p chip.old o.0) f) m) }
{
    let from = chip_frames::frame_at(p, o, f);
    let to = chip_frames::frame_at(p, n, k);
    chip_frames::copy_pages(chip, p.s + rules::SPARE_BYTES, p.alpha, from, to, m);
}

// Frame f of block o is copied to frame k of block n, and CT follows.
fn move_frame(
    p: Params,
    chip: &mut [u8],
    ct: &mut [u16],
    o: PBlock,
    n: PBlock,
    v: VBlock,
    f: usize,
    k: usize,
)
    requires { MoveAsked p chip.old ct.old o.0 n.0 v.0 f k }
    ensures { Moved p chip.old ct.old o.0 n.0 v.0 f k chip.new ct.new }
{
    let c = cluster_at(p, chip, o, f);
    copy_part(p, chip, o, n, f, k, p.alpha);
    chip_tables::set_ct(ct, c, rules::segment_of(p, v, k));
}

// The same where the frame has a mark; how many frames that copied.
fn move_marked(
    p: Params,
    chip: &mut [u8],
    ct: &mut [u16],
    marks: &[u64],
    o: PBlock,
    n: PBlock,
    r: usize,
    v: VBlock,
    f: usize,
    k: usize,
) -> usize
    requires move_asked { MoveAsked p chip.old ct.old o.0 n.0 v.0 f k }
    requires words_asked { WordsAsked p marks.now r v.0 }
    ensures { (m : Marks) → marks.now ≡ table_of p m
        → MovedIf p chip.old ct.old o.0 n.0 v.0 f k (m r v.0 f) chip.new ct.new result }
{
    if chip_marks::is_marked(p, marks, r, v, f) {
        move_frame(p, chip, ct, o, n, v, f, k);
        return 1;
    }
    0
}

// The frames of block o that have a mark are copied to block n, in order from frame 0, and CT follows each.
fn copy_marked(
    p: Params,
    chip: &mut [u8],
    ct: &mut [u16],
    marks: &[u64],
    o: PBlock,
    n: PBlock,
    r: usize,
    v: VBlock,
) -> usize
    requires from_to { FromTo p chip.old ct.old o.0 n.0 v.0 }
    requires words_asked { WordsAsked p marks.now r v.0 }
    ensures { (m : Marks) → marks.now ≡ table_of p m
        → Copied p chip.old ct.old n.0 v.0 (marked_frames p (block p chip.old o.0) (m r v.0)) chip.new ct.new result }
{
    let mut k = 0;
    for f in 0..chip_sizes::frames(p) {
        k += move_marked(p, chip, ct, marks, o, n, r, v, f, k);
    }
    k
}

// The frames with a mark of block o, which virtual block v of region r has, go to block n, and block o is erased,
// and marked where that wears it out. How many were copied.
pub fn reclaim(
    p: Params,
    chip: &mut [u8],
    ct: &mut [u16],
    wear: &mut [u32],
    marks: &[u64],
    o: PBlock,
    n: PBlock,
    r: usize,
    v: VBlock,
) -> usize
    requires { ReclaimAsked p chip.old ct.old wear.old marks.now o.0 n.0 r v.0 }
    ensures { (m : Marks) → marks.now ≡ table_of p m
        → Reclaimed p chip.old ct.old wear.old o.0 n.0 v.0 (marked_frames p (block p chip.old o.0) (m r v.0))
        chip.new ct.new wear.new result }
{
    let k = copy_marked(p, chip, ct, marks, o, n, r, v);
    chip_worn::erase_block(p, chip, wear, o);
    k
}
