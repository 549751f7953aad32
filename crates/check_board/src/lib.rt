// Whether the state is in order, its table of marks included. One pass over the chip, in which FST's rule is held to the frames that it counts, and then two counts instead
// of a look at each CT entry.
#![tactic(auto)]

ghost use Rattle.std.specs.Prelude.{◌≡◌, ◌&&◌, true, List, ℕ, ◌*◌, ◌<◌, ◌≤◌, length};
ghost use Rattle.lists.specs.Below.{all_below, count_below};
ghost use Rattle.rules.specs.Numbers.{vblock_of};
ghost use Rattle.rules.specs.Orderly.{orderly};
ghost use Rattle.rules.specs.Parameters.{allowed, frames};
ghost use Rattle.rules.specs.Tables.{board_of, marks_length};
ghost use Rattle.check_rules.specs.Check.{Lengths};
ghost use Rattle.check_board.specs.Order.{BlocksAsked, bit_at, block_held_to, bound_of, counts_ok, entry_ok, frames_ok, order_ok_to, region_held_to, nine_rules};

use rules::{Params, Segment, VBlock};

// True if k programmed frames are right for virtual block v, where FST names segment sg of virtual block o.
// The last of them is in that segment, if v is o; they are all F, if it is not.
fn frames_ok(p: Params, sg: Segment, o: VBlock, v: VBlock, k: usize) -> bool
    requires p_value { allowed p ≡ true }
    requires o_value { o.0 ≡ vblock_of p sg.0 }
    requires v_lt_gamma { v.0 < p.gamma }
    requires k_bound { k ≤ frames p }
    ensures { result ≡ frames_ok p sg.0 v.0 k }
{
    if k == 0 {
        return false;
    }
    if v != o {
        return k == chip_sizes::frames(p);
    }
    rules::segment_of(p, v, k - 1) == sg
}

// Virtual block v of region r: its block is one of that region, with the right frames programmed and stamps up to `last`,
// and each of its marks is that of a valid frame.
fn vblock_ok(
    p: Params,
    chip: &[u8],
    ct: &[u16],
    bt: &[u16],
    bst: &[u8],
    marks: &[u64],
    last: u32,
    r: usize,
    sg: Segment,
    o: VBlock,
    v: VBlock,
) -> bool
    requires blocks_asked { BlocksAsked p chip.now ct.now bt.now bst.now marks.now }
    requires r_lt_mu { r < p.mu }
    requires o_value { o.0 ≡ vblock_of p sg.0 }
    requires v_lt_gamma { v.0 < p.gamma }
    ensures { result ≡ block_held_to p chip.now ct.now bt.now bst.now marks.now last r sg.0 v.0 }
{
    let k = check_blocks::vblock_frames(p, chip, bt, bst, last, r, v);
    if !frames_ok(p, sg, o, v, k) {
        return false;
    }
    check_marks::marks_ok(p, chip, ct, bt, marks, r, v)
}

// The same of every virtual block of region r,
// while its bytes are at hand.
fn vblocks_ok(
    p: Params,
    chip: &[u8],
    ct: &[u16],
    bt: &[u16],
    bst: &[u8],
    marks: &[u64],
    last: u32,
    r: usize,
    sg: Segment,
) -> bool
    requires blocks_asked { BlocksAsked p chip.now ct.now bt.now bst.now marks.now }
    requires r_lt_mu { r < p.mu }
    requires sg_bound { sg.0 < 65536 }
    ensures { result ≡ all_below p.gamma (block_held_to p chip.now ct.now bt.now bst.now marks.now last r sg.0) }
{
    let o = rules::vblock_of(p, sg);
    (0..p.gamma).all(|v| vblock_ok(p, chip, ct, bt, bst, marks, last, r, sg, o, VBlock(v)))
}

// True if FST's entry sg is none exactly if region r has no block,
// and else a segment of a virtual block that has one.
fn entry_ok(p: Params, bt: &[u16], r: usize, sg: Segment) -> bool
    requires p_value { allowed p ≡ true }
    requires bt_len { length bt.now ≡ p.mu * p.gamma }
    requires r_lt_mu { r < p.mu }
    requires sg_bound { sg.0 < 65536 }
    ensures { result ≡ entry_ok p bt.now r sg.0 }
{
    if check_tables::empty_at(p, bt, r) {
        return sg.0 == rules::NONE;
    }
    if sg.0 >= p.gamma * p.d {
        return false;
    }
    chip_tables::block_named(p, bt, r, rules::vblock_of(p, sg)).is_some()
}

// The rules of region r:
// its FST entry, its blocks and their marks.
fn region_ok(
    p: Params,
    chip: &[u8],
    ct: &[u16],
    bt: &[u16],
    fst: &[u16],
    bst: &[u8],
    marks: &[u64],
    last: u32,
    r: usize,
) -> bool
    requires blocks_asked { BlocksAsked p chip.now ct.now bt.now bst.now marks.now }
    requires fst_len { length fst.now ≡ p.mu }
    requires r_lt_mu { r < p.mu }
    ensures { result ≡ region_held_to p chip.now ct.now bt.now fst.now bst.now marks.now last r }
{
    let sg = chip_tables::fst_at(fst, r);
    if !entry_ok(p, bt, r, sg) {
        return false;
    }
    vblocks_ok(p, chip, ct, bt, bst, marks, last, r, sg)
}

// The largest stamp that region r may have: its last one, or any where the stamps are not held to the table.
fn bound_of(bound: bool, stamps: &[u32], r: usize) -> u32
    requires { r < length stamps.now }
    ensures { result ≡ bound_of bound stamps.now r }
{
    if bound {
        return chip_tables::stamp_at(stamps, r);
    }
    rules::LAST_STAMP
}

// The same of every region, with the stamps that it may have,
// up to the first that is not in order.
fn regions_ok(
    p: Params,
    chip: &[u8],
    ct: &[u16],
    bt: &[u16],
    fst: &[u16],
    bst: &[u8],
    marks: &[u64],
    stamps: &[u32],
    bound: bool,
) -> bool
    requires blocks_asked { BlocksAsked p chip.now ct.now bt.now bst.now marks.now }
    requires fst_len { length fst.now ≡ p.mu }
    requires stamps_len { length stamps.now ≡ p.mu }
    ensures { result ≡ all_below p.mu (λ r. region_held_to p chip.now ct.now bt.now fst.now bst.now marks.now
        (bound_of bound stamps.now r) r) }
{
    (0..p.mu).all(|r| {
        let last = bound_of(bound, stamps, r);
        region_ok(p, chip, ct, bt, fst, bst, marks, last, r)
    })
}

// How many marks the table has:
// the ones of all its words.
fn count_marked(marks: &[u64]) -> usize
    requires { length marks.now ≤ 65536 }
    ensures { result ≡ count_below (64 * length marks.now) (bit_at marks.now) }
{
    let mut k = 0;
    for word in marks {
        k += bits::count(*word);
    }
    k
}

// As many entries of CT as marks: then each entry has its frame,
// and each valid frame its mark.
fn counts_ok(ct: &[u16], marks: &[u64]) -> bool
    requires { length marks.now ≤ 65536 }
    ensures { result ≡ counts_ok ct.now marks.now }
{
    let k = chip_tables::count_named(ct);
    k == count_marked(marks)
}

// True if the state is orderly, each mark included, and each stamp where they are held to the table. No rule looks at the wear.
fn checked(
    p: Params,
    chip: &[u8],
    ct: &[u16],
    bt: &[u16],
    fst: &[u16],
    bst: &[u8],
    marks: &[u64],
    stamps: &[u32],
    bound: bool,
) -> bool
    requires lengths { Lengths p chip.now ct.now bt.now fst.now bst.now }
    requires marks_len { length marks.now ≡ marks_length p }
    requires stamps_len { length stamps.now ≡ p.mu }
    ensures { result ≡ order_ok_to p chip.now ct.now bt.now fst.now bst.now marks.now
        (bound_of bound stamps.now) }
{
    if !check_blocks::tables_ok(p, bt, bst) {
        return false;
    }
    if !check_blocks::frees_ok(p, chip, bst) {
        return false;
    }
    if !regions_ok(p, chip, ct, bt, fst, bst, marks, stamps, bound) {
        return false;
    }
    counts_ok(ct, marks)
}

// True if the state is orderly; reply 7 if not.
pub fn in_order(
    p: Params,
    chip: &[u8],
    ct: &[u16],
    bt: &[u16],
    fst: &[u16],
    bst: &[u8],
    marks: &[u64],
    stamps: &[u32],
) -> bool
    requires lengths { Lengths p chip.now ct.now bt.now fst.now bst.now }
    requires marks_len { length marks.now ≡ marks_length p }
    requires stamps_len { length stamps.now ≡ p.mu }
    ensures { (wear : List ℕ) → result ≡ orderly p (board_of chip.now ct.now bt.now fst.now bst.now wear
        marks.now stamps.now) }
{
    checked(p, chip, ct, bt, fst, bst, marks, stamps, true)
}

// True if its first nine rules hold, all but that of the stamps.
pub fn in_order_but_stamps(
    p: Params,
    chip: &[u8],
    ct: &[u16],
    bt: &[u16],
    fst: &[u16],
    bst: &[u8],
    marks: &[u64],
    stamps: &[u32],
) -> bool
    requires lengths { Lengths p chip.now ct.now bt.now fst.now bst.now }
    requires marks_len { length marks.now ≡ marks_length p }
    requires stamps_len { length stamps.now ≡ p.mu }
    ensures { (wear : List ℕ) → result ≡ nine_rules p (board_of chip.now ct.now bt.now fst.now bst.now wear
        marks.now stamps.now) }
{
    checked(p, chip, ct, bt, fst, bst, marks, stamps, false)
}
