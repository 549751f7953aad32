// The rules of BT and BST that look at no byte of the chip, and what the check of a state asks of BT's entries.
#![tactic(auto)]

ghost use Rattle.std.specs.Prelude.{◌≡◌, true, not, ◌||◌, ◌*◌, ◌+◌, ◌<◌, length, eqb, ltb};
ghost use Rattle.lists.specs.Below.{count_below};
ghost use Rattle.rules.specs.Parameters.{allowed};
ghost use Rattle.rules.specs.Tables.{none, bt_entry, bst_at};
ghost use Rattle.rules.specs.Orderly.{bst_rule, bt_rule};
ghost use Rattle.check_tables.specs.Entries.{differs, empty_at, kinds_ok};

use rules::{PBlock, Params, VBlock};

// BST holds 0, 1 or 2.
pub fn bst_ok(p: Params, bst: &[u8]) -> bool
    requires { length bst.now ≡ p.N }
    ensures { result ≡ bst_rule p bst.now }
{
    (0..p.N).all(|n| chip_tables::bst_at(bst, PBlock(n)) <= rules::RESERVED)
}

// Entry i of BT is none or names a block.
fn bt_entry_ok(p: Params, bt: &[u16], i: usize) -> bool
    requires { i < length bt.now }
    ensures { result ≡ eqb (bt_entry bt.now i) none || ltb (bt_entry bt.now i) p.N }
{
    let Some(n) = chip_tables::entry_named(bt, i) else {
        return true;
    };
    n.0 < p.N
}

// BT entries are none or below N.
pub fn bt_ok(p: Params, bt: &[u16]) -> bool
    requires { length bt.now ≡ p.mu * p.gamma }
    ensures { result ≡ bt_rule p bt.now }
{
    (0..bt.len()).all(|i| bt_entry_ok(p, bt, i))
}

// BST holds 0, 1 or 2, and as many blocks are used as BT names: one pass.
pub fn kinds_ok(p: Params, bst: &[u8], named: usize) -> bool
    requires { length bst.now ≡ p.N }
    ensures { result ≡ kinds_ok p bst.now named }
{
    let mut used = 0;
    for s in bst {
        if *s > rules::RESERVED {
            return false;
        }
        used += usize::from(*s == rules::USED);
    }
    used == named
}

// No lower virtual block of region r has the block of virtual block v.
pub fn differs(p: Params, bt: &[u16], r: usize, v: VBlock) -> bool
    requires bt_len { length bt.now ≡ p.mu * p.gamma }
    requires r_lt_mu { r < p.mu }
    requires v_lt_gamma { v.0 < p.gamma }
    ensures { result ≡ differs p bt.now r v.0 }
{
    let n = chip_tables::bt_at(p, bt, r, v);
    (0..v.0).all(|u| chip_tables::bt_at(p, bt, r, VBlock(u)) != n)
}

// Region r has no block.
pub fn empty_at(p: Params, bt: &[u16], r: usize) -> bool
    requires bt_len { length bt.now ≡ p.mu * p.gamma }
    requires r_lt_mu { r < p.mu }
    ensures { result ≡ empty_at p bt.now r }
{
    (0..p.gamma).all(|v| chip_tables::block_named(p, bt, r, VBlock(v)).is_none())
}
