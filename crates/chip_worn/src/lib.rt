// Document 02's T-12: a block is erased, and marked where that wears it out. So a format, a start and a reclaim erase.
#![tactic(auto)]

ghost use Rattle.std.specs.Prelude.{◌≡◌, cond, true, ◌*◌, ◌<◌, length};
ghost use Rattle.rules.specs.Parameters.{allowed, block_bytes};
ghost use Rattle.rules.specs.Pages.{block, erased, page};
ghost use Rattle.rules.specs.Traces.{erase, erase_ops, mark, on_chip, on_wear, replay_chip, worn};

use rules::{PBlock, Params};

// True if the next erase of block n "brings a block's wear to E or more".
pub fn wears_out(p: Params, wear: &[u32], n: PBlock) -> bool
    requires { n.0 < length wear.now }
    ensures { result ≡ worn p wear.now n.0 }
{
    let w = chip_tables::wear_at(wear, n) as usize;
    w + 1 >= p.E
}

// Block n is erased, and its wear counts that. It is not marked.
pub fn clear_block(p: Params, chip: &mut [u8], wear: &mut [u32], n: PBlock)
    requires p_value { allowed p ≡ true }
    requires chip_len { length chip.old ≡ p.N * block_bytes p }
    requires wear_len { length wear.old ≡ p.N }
    requires n_lt_n { n.0 < p.N }
    ensures chip_after { chip.new ≡ on_chip p chip.old (erase n.0) }
    ensures wear_after { wear.new ≡ on_wear wear.old (erase n.0) }
{
    let w = chip_sizes::block_bytes(p);
    chip_pages::erase_at(chip, w, n);
    chip_tables::count_erase(wear, n);
}

// "Its first page gets a zero in spare byte 5": the one byte that changes, where that page is erased.
pub fn mark_at(p: Params, chip: &mut [u8], n: PBlock)
    requires p_value { allowed p ≡ true }
    requires chip_len { length chip.old ≡ p.N * block_bytes p }
    requires n_lt_n { n.0 < p.N }
    requires n_value { erased (page p (block p chip.old n.0) 0) ≡ true }
    ensures { chip.new ≡ on_chip p chip.old (mark n.0) }
{
    let w = chip_sizes::block_bytes(p);
    let i = n.0 * w + (p.s + 5);
    chip[i] = 0;
}

// Block n is erased, its wear counts that, and it is marked where that wears it out. Whether it does.
pub fn erase_block(p: Params, chip: &mut [u8], wear: &mut [u32], n: PBlock) -> bool
    requires p_value { allowed p ≡ true }
    requires chip_len { length chip.old ≡ p.N * block_bytes p }
    requires wear_len { length wear.old ≡ p.N }
    requires n_lt_n { n.0 < p.N }
    ensures chip_after { chip.new ≡ replay_chip p chip.old (erase_ops p wear.old n.0) }
    ensures wear_after { wear.new ≡ on_wear wear.old (erase n.0) }
    ensures value { result ≡ worn p wear.old n.0 }
{
    let out = wears_out(p, wear, n);
    clear_block(p, chip, wear, n);
    if out {
        mark_at(p, chip, n);
    }
    out
}

// What BST has for a block once it is erased: "the block becomes reserved" where that wears it out; else it is free.
pub fn state_after(spent: bool) -> u8
    ensures { result ≡ cond spent 2 0 }
{
    if spent {
        return rules::RESERVED;
    }
    rules::FREE
}
