// The rules of which blocks BT names: none twice, and exactly the used ones. They search BT as often as they need: only the question which rule is broken asks.
#![tactic(auto)]

ghost use Rattle.std.specs.Prelude.{◌≡◌, true, not, ◌||◌, ◌*◌, ◌<◌, length, eqb};
ghost use Rattle.std.specs.Bool.{beq};
ghost use Rattle.lists.specs.Below.{all_below};
ghost use Rattle.rules.specs.Tables.{none, bt_entry, bst_at};
ghost use Rattle.rules.specs.Orderly.{once_rule, named, used_rule};

use rules::{PBlock, Params};

// Entries i and j of BT are one entry, or do not name the same block.
fn pair_ok(bt: &[u16], i: usize, j: usize) -> bool
    requires i_in_bounds { i < length bt.now }
    requires j_in_bounds { j < length bt.now }
    ensures { result ≡ eqb i j || (eqb (bt_entry bt.now i) none || not (eqb (bt_entry bt.now i) (bt_entry bt.now j))) }
{
    if i == j {
        return true;
    }
    let Some(n) = chip_tables::entry_named(bt, i) else {
        return true;
    };
    let other = chip_tables::bt_entry(bt, j);
    n != other
}

// No other entry of BT names the block of entry i.
fn entry_once(p: Params, bt: &[u16], i: usize) -> bool
    requires bt_len { length bt.now ≡ p.mu * p.gamma }
    requires i_bound { i < p.mu * p.gamma }
    ensures { result ≡ all_below (p.mu * p.gamma) (λ j. eqb i j || (eqb (bt_entry bt.now i) none || not (eqb (bt_entry bt.now i) (bt_entry bt.now j)))) }
{
    (0..bt.len()).all(|j| pair_ok(bt, i, j))
}

// No block is named twice.
pub fn once_ok(p: Params, bt: &[u16]) -> bool
    requires { length bt.now ≡ p.mu * p.gamma }
    ensures { result ≡ once_rule p bt.now }
{
    (0..bt.len()).all(|i| entry_once(p, bt, i))
}

// BT names block n.
fn is_named(p: Params, bt: &[u16], n: PBlock) -> bool
    requires { length bt.now ≡ p.mu * p.gamma }
    ensures { result ≡ named p bt.now n.0 }
{
    (0..bt.len()).any(|i| chip_tables::bt_entry(bt, i) == n)
}

// Block n is used exactly if BT names it.
fn used_if_named(p: Params, bt: &[u16], bst: &[u8], n: PBlock) -> bool
    requires bt_len { length bt.now ≡ p.mu * p.gamma }
    requires n_in_bounds { n.0 < length bst.now }
    ensures { result ≡ beq (eqb (bst_at bst.now n.0) 1) (named p bt.now n.0) }
{
    let yes = is_named(p, bt, n);
    if chip_tables::bst_at(bst, n) == rules::USED {
        return yes;
    }
    !yes
}

// The same of every block.
pub fn used_ok(p: Params, bt: &[u16], bst: &[u8]) -> bool
    requires bt_len { length bt.now ≡ p.mu * p.gamma }
    requires bst_len { length bst.now ≡ p.N }
    ensures { result ≡ used_rule p bt.now bst.now }
{
    (0..p.N).all(|n| used_if_named(p, bt, bst, PBlock(n)))
}
