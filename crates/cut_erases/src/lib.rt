// Document 02, T-07, cuts, of the calls that do nothing to the chip but erase blocks in rising order and mark those that they wear out, a format and a start. After such a cut every table but the wear is lost, so
// BST is free to list what is to be erased: a block that it has as free is.
#![tactic(auto)]

ghost use Rattle.std.specs.Prelude.{◌≡◌, true, ◌<◌, length, take};
ghost use Rattle.rules.specs.Parameters.{allowed};
ghost use Rattle.rules.specs.Tables.{board_of};
ghost use Rattle.rules.specs.Traces.{erase_where, replay_chip, replay_wear};
ghost use Rattle.rules.specs.Replies.{lengths_fit};
ghost use Rattle.rules.specs.Cuts.{cut_board};
ghost use Rattle.format_work.specs.Blocks.{BlockAsked, BlocksAsked};
ghost use Rattle.cut_erases.specs.Listed.{EraseDone, block_ops, listed};

use rules::{PBlock, Params};

// How many operations block b takes: none where BST does not list it, its erase, and its mark where that wears it out.
fn ops_of(p: Params, bst: &[u8], wear: &[u32], b: PBlock) -> usize
    requires b_in_bounds { b.0 < length bst.now }
    requires b_in_bounds_2 { b.0 < length wear.now }
    ensures { result ≡ length (block_ops p bst.now wear.now b.0) }
{
    if chip_tables::bst_at(bst, b) != rules::FREE {
        return 0;
    }
    if chip_worn::wears_out(p, wear, b) {
        return 2;
    }
    1
}

// How many operations the blocks that BST lists take.
pub fn count_listed(p: Params, bst: &[u8], wear: &[u32]) -> usize
    requires p_value { allowed p ≡ true }
    requires bst_len { length bst.now ≡ p.N }
    requires wear_len { length wear.now ≡ p.N }
    ensures { result ≡ length (erase_where p wear.now (listed bst.now)) }
{
    let mut k: usize = 0;
    for n in 0..p.N {
        k += ops_of(p, bst, wear, PBlock(n));
    }
    k
}

// Block n is erased if BST lists it and an operation is left, and marked where that wears it out and one more is left. How many operations that took.
fn erase_listed(
    p: Params,
    chip: &mut [u8],
    bst: &[u8],
    wear: &mut [u32],
    n: PBlock,
    left: usize,
) -> usize
    requires { BlockAsked p chip.old bst.now wear.old n.0 }
    ensures { EraseDone p chip.old bst.now wear.old n.0 left chip.new wear.new result }
{
    if left == 0 {
        return 0;
    }
    if chip_tables::bst_at(bst, n) != rules::FREE {
        return 0;
    }
    if left == 1 {
        chip_worn::clear_block(p, chip, wear, n);
        return 1;
    }
    if chip_worn::erase_block(p, chip, wear, n) {
        return 2;
    }
    1
}

// The first k operations of the blocks that BST lists are made, and no other.
fn erase_first(p: Params, chip: &mut [u8], bst: &[u8], wear: &mut [u32], k: usize)
    requires { BlocksAsked p chip.old bst.now wear.old }
    ensures chip_after { chip.new ≡ replay_chip p chip.old (take k (erase_where p wear.old (listed bst.now))) }
    ensures wear_after { wear.new ≡ replay_wear wear.old (take k (erase_where p wear.old (listed bst.now))) }
{
    let mut left = k;
    for n in 0..p.N {
        left -= erase_listed(p, chip, bst, wear, PBlock(n), left);
    }
}

// The same, and then the power is gone: every table but the wear is lost.
pub fn cut_after(
    p: Params,
    chip: &mut [u8],
    ct: &mut [u16],
    bt: &mut [u16],
    fst: &mut [u16],
    bst: &mut [u8],
    wear: &mut [u32],
    marks: &mut [u64],
    stamps: &mut [u32],
    k: usize,
)
    requires p_value { allowed p ≡ true }
    requires stamps_value { lengths_fit p (board_of chip.old ct.old bt.old fst.old bst.old wear.old marks.old stamps.old) ≡ true }
    ensures { board_of chip.new ct.new bt.new fst.new bst.new wear.new marks.new stamps.new ≡ cut_board p (board_of chip.old ct.old bt.old fst.old bst.old wear.old marks.old stamps.old) (take k (erase_where p wear.old (listed bst.old))) }
{
    erase_first(p, chip, bst, wear, k);
    chip_lost::lose(ct, bt, fst, bst, marks, stamps);
}
