// What the check of a state asks of the tables, of the free blocks, and of one virtual block. A block that two regions name would be one of both, which its first
// page rules out; so no search goes beyond one region. The named blocks are used, so that every used block is named if there are as many.
#![tactic(auto)]

ghost use Rattle.std.specs.Prelude.{◌≡◌, true, not, ◌||◌, ◌-◌, ◌*◌, ◌<◌, length, eqb};
ghost use Rattle.rules.specs.Parameters.{allowed, chip_bytes};
ghost use Rattle.rules.specs.Tables.{bst_at};
ghost use Rattle.rules.specs.Pages.{block, erased};
ghost use Rattle.rules.specs.Orderly.{free_rule};
ghost use Rattle.check_rules.specs.Check.{Lent, vblock_frames_to, tables_ok};

use rules::{Cluster, PBlock, Params, Segment, VBlock};

// Block n is erased if it is free.
fn free_ok(p: Params, chip: &[u8], bst: &[u8], n: PBlock) -> bool
    requires p_value { allowed p ≡ true }
    requires chip_len { length chip.now ≡ chip_bytes p }
    requires bst_len { length bst.now ≡ p.N }
    requires n_lt_n { n.0 < p.N }
    ensures { result ≡ not (eqb (bst_at bst.now n.0) 0) || erased (block p chip.now n.0) }
{
    if chip_tables::bst_at(bst, n) != rules::FREE {
        return true;
    }
    chip_erased::is_erased(chip_blocks::block_of(p, chip, n))
}

// The same of every block.
pub fn frees_ok(p: Params, chip: &[u8], bst: &[u8]) -> bool
    requires p_value { allowed p ≡ true }
    requires chip_len { length chip.now ≡ chip_bytes p }
    requires bst_len { length bst.now ≡ p.N }
    ensures { result ≡ free_rule p chip.now bst.now }
{
    (0..p.N).all(|n| free_ok(p, chip, bst, PBlock(n)))
}

// How many frames of virtual block v of region r are programmed, if its block is named once there, is used, and is a block of that region with stamps up to `last`.
// All F if it has no block; 0 if its block is not so.
pub fn vblock_frames(
    p: Params,
    chip: &[u8],
    bt: &[u16],
    bst: &[u8],
    last: u32,
    r: usize,
    v: VBlock,
) -> usize
    requires lent { Lent p chip.now bt.now }
    requires bst_len { length bst.now ≡ p.N }
    requires r_lt_mu { r < p.mu }
    requires v_lt_gamma { v.0 < p.gamma }
    ensures { result ≡ vblock_frames_to p chip.now bt.now bst.now last r v.0 }
{
    let Some(n) = chip_tables::block_named(p, bt, r, v) else {
        return chip_sizes::frames(p);
    };
    if !check_tables::differs(p, bt, r, v) {
        return 0;
    }
    if chip_tables::bst_at(bst, n) != rules::USED {
        return 0;
    }
    chip_blocks::used_frames(p, r, v, last, chip_blocks::block_of(p, chip, n))
}

// The rules of the tables that look at no byte of the chip, and as many blocks used as named.
pub fn tables_ok(p: Params, bt: &[u16], bst: &[u8]) -> bool
    requires p_value { allowed p ≡ true }
    requires bt_len { length bt.now ≡ p.mu * p.gamma }
    requires bst_len { length bst.now ≡ p.N }
    ensures { result ≡ tables_ok p bt.now bst.now }
{
    if !check_tables::bt_ok(p, bt) {
        return false;
    }
    check_tables::kinds_ok(p, bst, chip_tables::count_named(bt))
}
