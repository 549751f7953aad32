// Document 02, T-07, what a start makes of the blocks: BST and BT, and the erases. "If two blocks name one virtual block, the one with a page of every frame
// programmed (full) stays and the other is erased."
#![tactic(auto)]

ghost use Rattle.std.specs.Prelude.{◌≡◌, Bool, ◌&&◌, cond, false, ℕ, ◌<◌, ◌≤◌, eqb, length, set};
ghost use Rattle.lists.specs.Below.{list_below};
ghost use Rattle.rules.specs.Tables.{bt_entry, none};
ghost use Rattle.rules.specs.Pages.{block, is_full};
ghost use Rattle.rules.specs.Start.{found_bt, in_use, left_over};
ghost use Rattle.start_blocks.specs.Named.{BlockAsked, Kept, OpenDone, StartAsked, fulls_to, index_named, kinds, named_by, too_many};

use rules::{PBlock, Params};

// Block n goes into BT if it is in use and full.
fn name_full(p: Params, chip: &[u8], bt: &mut [u16], n: PBlock)
    requires { BlockAsked p chip.now bt.old n.0 }
    ensures { bt.new ≡ cond (in_use p chip.now n.0 && is_full p (block p chip.now n.0)) (set bt.old (index_named p (block p chip.now n.0)) n.0) bt.old }
{
    let Some(h) = chip_heads::head_of(p, chip, n) else {
        return;
    };
    if h.full {
        chip_tables::set_bt(p, bt, h.region, h.vblock, n);
    }
}

// The same of every block.
fn name_fulls(p: Params, chip: &[u8], bt: &mut [u16])
    requires start_asked { StartAsked p chip.now bt.old }
    requires bt_value { bt.old ≡ fulls_to p chip.now 0 }
    ensures { bt.new ≡ fulls_to p chip.now p.N }
{
    for n in 0..p.N {
        name_full(p, chip, bt, PBlock(n));
    }
}

// Block n, if it is in use and not full, goes into BT where the entry that it names is none, and else is erased, and marked where that wears it out. How many erases that took.
fn name_open(p: Params, chip: &mut [u8], bt: &mut [u16], wear: &mut [u32], n: PBlock) -> usize
    requires block_asked { BlockAsked p chip.old bt.old n.0 }
    requires wear_len { length wear.old ≡ p.N }
    ensures { OpenDone p chip.old bt.old wear.old n.0 chip.new bt.new wear.new result }
{
    let Some(h) = chip_heads::head_of(p, chip, n) else {
        return 0;
    };
    if h.full {
        return 0;
    }
    if chip_tables::block_named(p, bt, h.region, h.vblock).is_none() {
        chip_tables::set_bt(p, bt, h.region, h.vblock, n);
        return 0;
    }
    chip_worn::erase_block(p, chip, wear, n);
    1
}

// The same of every block, in order. How many were erased.
fn name_opens(p: Params, chip: &mut [u8], bt: &mut [u16], wear: &mut [u32]) -> usize
    requires start_asked { StartAsked p chip.old bt.old }
    requires wear_len { length wear.old ≡ p.N }
    requires bt_value { bt.old ≡ fulls_to p chip.old p.N }
    ensures { Kept p chip.old wear.old chip.new bt.new wear.new result }
{
    let mut k = 0;
    for n in 0..p.N {
        k += name_open(p, chip, bt, wear, PBlock(n));
    }
    k
}

// The block that entry i of BT names is used.
fn set_used(bt: &[u16], bst: &mut [u8], i: usize)
    requires i_in_bounds { i < length bt.now }
    requires i_in_bounds_2 { (bt_entry bt.now i ≡ none → ⊥) → bt_entry bt.now i < length bst.old }
    ensures { bst.new ≡ cond (eqb (bt_entry bt.now i) none) bst.old (set bst.old (bt_entry bt.now i) 1) }
{
    if let Some(n) = chip_tables::entry_named(bt, i) {
        chip_tables::set_bst(bst, n, rules::USED);
    }
}

// Every block that BT names is used. No bad one is named.
fn use_named(bt: &[u16], bst: &mut [u8])
    requires bst_len_bound { length bst.old ≤ 65535 }
    requires by_index { (i : ℕ) → i < length bt.now → (bt_entry bt.now i ≡ none → ⊥) → bt_entry bt.now i < length bst.old }
    ensures { (bad : ℕ → Bool) → ((i : ℕ) → i < length bt.now → (bt_entry bt.now i ≡ none → ⊥) → bad (bt_entry bt.now i) ≡ false) → bst.old ≡ list_below (length bst.old) (λ n. cond (bad n) 2 0) → bst.new ≡ list_below (length bst.old) (λ n. cond (bad n) 2 (cond (named_by bt.now (length bt.now) n) 1 0)) }
{
    for i in 0..bt.len() {
        set_used(bt, bst, i);
    }
}

// BT names the blocks that are kept, what is left over is erased, and BST tells bad, used and free blocks: those that are worn out by then are bad. How many were erased.
pub fn find_blocks(
    p: Params,
    chip: &mut [u8],
    bt: &mut [u16],
    bst: &mut [u8],
    wear: &mut [u32],
) -> usize
    requires start_asked { StartAsked p chip.old bt.old }
    requires bst_len { length bst.old ≡ p.N }
    requires wear_len { length wear.old ≡ p.N }
    ensures kept { Kept p chip.old wear.old chip.new bt.new wear.new result }
    ensures bst_after { bst.new ≡ kinds p chip.old wear.old (found_bt p chip.old) }
{
    format_work::clear(bt);
    name_fulls(p, chip, bt);
    let k = name_opens(p, chip, bt, wear);
    format_work::reserve_bad(p, chip, bst);
    use_named(bt, bst);
    k
}

// What BST has for block n as the list of what is to be erased: free where the block is in use, not full, and BT has another for the entry that it names; else reserved.
fn left_kind(p: Params, chip: &[u8], bt: &[u16], n: PBlock) -> u8
    requires { BlockAsked p chip.now bt.now n.0 }
    ensures { result ≡ cond (too_many p chip.now bt.now n.0) 0 2 }
{
    let Some(h) = chip_heads::head_of(p, chip, n) else {
        return rules::RESERVED;
    };
    if h.full {
        return rules::RESERVED;
    }
    if chip_tables::block_named(p, bt, h.region, h.vblock).is_none() {
        return rules::RESERVED;
    }
    rules::FREE
}

// The same of every block, once BT has the full ones.
fn list_kinds(p: Params, chip: &[u8], bt: &[u16], bst: &mut [u8])
    requires start_asked { StartAsked p chip.now bt.now }
    requires bt_value { bt.now ≡ fulls_to p chip.now p.N }
    requires bst_len { length bst.old ≡ p.N }
    ensures { bst.new ≡ list_below p.N (λ n. cond (left_over p chip.now n) 0 2) }
{
    for n in 0..p.N {
        bst[n] = left_kind(p, chip, bt, PBlock(n));
    }
}

// BST lists what is left over, and nothing is erased yet. BT is written over on the way.
pub fn list_left(p: Params, chip: &[u8], bt: &mut [u16], bst: &mut [u8])
    requires start_asked { StartAsked p chip.now bt.old }
    requires bst_len { length bst.old ≡ p.N }
    ensures { bst.new ≡ list_below p.N (λ n. cond (left_over p chip.now n) 0 2) }
{
    format_work::clear(bt);
    name_fulls(p, chip, bt);
    list_kinds(p, chip, bt, bst);
}
