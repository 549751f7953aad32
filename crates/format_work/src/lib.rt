// Document 01, "Format": what is made of each block.
#![tactic(auto)]

ghost use Rattle.std.specs.Prelude.{◌≡◌, cond, true, ◌*◌, ◌<◌, length, replicate};
ghost use Rattle.lists.specs.Below.{list_below};
ghost use Rattle.rules.specs.Parameters.{allowed, block_bytes};
ghost use Rattle.rules.specs.Tables.{none};
ghost use Rattle.rules.specs.Format.{bad};
ghost use Rattle.format_work.specs.Blocks.{BlockAsked, BlockDone, BlocksAsked, BlocksDone};

use rules::{PBlock, Params};

// Every entry of a table becomes none.
pub fn clear(table: &mut [u16])
    ensures { table.new ≡ replicate (length table.old) none }
{
    table.fill(rules::NONE as u16);
}

// What BST has for block n while none is used: reserved where it is bad, else free.
fn kind_of(p: Params, chip: &[u8], n: PBlock) -> u8
    requires p_value { allowed p ≡ true }
    requires chip_len { length chip.now ≡ p.N * block_bytes p }
    requires n_lt_n { n.0 < p.N }
    ensures { result ≡ cond (bad p chip.now n.0) 2 0 }
{
    if chip_bad::is_bad(p, chip, n) {
        return rules::RESERVED;
    }
    rules::FREE
}

// The same of every block.
pub fn reserve_bad(p: Params, chip: &[u8], bst: &mut [u8])
    requires p_value { allowed p ≡ true }
    requires chip_len { length chip.now ≡ p.N * block_bytes p }
    requires bst_len { length bst.old ≡ p.N }
    ensures { bst.new ≡ list_below p.N (λ n. cond (bad p chip.now n) 2 0) }
{
    for n in 0..p.N {
        bst[n] = kind_of(p, chip, PBlock(n));
    }
}

// Block n becomes reserved where it is bad; else it is erased, and becomes free or, where that wears it out, reserved. How many erases that took.
fn format_block(p: Params, chip: &mut [u8], bst: &mut [u8], wear: &mut [u32], n: PBlock) -> usize
    requires { BlockAsked p chip.old bst.old wear.old n.0 }
    ensures { BlockDone p chip.old bst.old wear.old n.0 chip.new bst.new wear.new result }
{
    if chip_bad::is_bad(p, chip, n) {
        chip_tables::set_bst(bst, n, rules::RESERVED);
        return 0;
    }
    let out = chip_worn::erase_block(p, chip, wear, n);
    chip_tables::set_bst(bst, n, chip_worn::state_after(out));
    1
}

// The same of every block, in order. How many were erased.
pub fn format_blocks(p: Params, chip: &mut [u8], bst: &mut [u8], wear: &mut [u32]) -> usize
    requires { BlocksAsked p chip.old bst.old wear.old }
    ensures { BlocksDone p chip.old wear.old chip.new bst.new wear.new result }
{
    let mut k: usize = 0;
    for n in 0..p.N {
        k += format_block(p, chip, bst, wear, PBlock(n));
    }
    k
}
