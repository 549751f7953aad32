// Which rule of an orderly state a board breaks: the first in document 01's order, T-06's rule of the marks and T-07's of the stamps last. Each rule is
// looked at only where those before it hold. It is asked only where a call is refused with 7.
#![tactic(auto)]

ghost use Rattle.std.specs.Prelude.{◌≡◌, true, not, List, ℕ, ◌<◌, length};
ghost use Rattle.lists.specs.Below.{all_below};
ghost use Rattle.rules.specs.Tables.{board_of, marks_length};
ghost use Rattle.check_rules.specs.Check.{Lengths, Lent};
ghost use Rattle.check_broken.specs.Broken.{rule_number, broken_rule};
ghost use Rattle.check_broken.specs.Tests.{block_ok, region_blocks_ok};

use rules::{Params, VBlock};

// The rules of an orderly state, in document 01's order, and T-06's and T-07's after them.
#[derive(Clone, Copy)]
pub enum Rule {
    BstValues,
    BtRange,
    NamedTwice,
    UsedIfNamed,
    FreeErased,
    UsedBlock,
    Fst,
    Ct,
    Marks,
    Stamps,
}

// The number of a rule, from 1 to 11; 5 was that of enough blocks, which T-12 took out, and is never told.
impl From<Rule> for u32 {
    ghost from_gives = { λ r n. n ≡ rule_number r };

    fn from(r: Rule) -> u32
        ensures { result ≡ rule_number r }
    {
        match r {
            Rule::BstValues => 1,
            Rule::BtRange => 2,
            Rule::NamedTwice => 3,
            Rule::UsedIfNamed => 4,
            Rule::FreeErased => 6,
            Rule::UsedBlock => 7,
            Rule::Fst => 8,
            Rule::Ct => 9,
            Rule::Marks => 10,
            Rule::Stamps => 11,
        }
    }
}

// Virtual block v of region r has no block, or has a used block of that region.
fn block_ok(p: Params, chip: &[u8], bt: &[u16], r: usize, v: VBlock) -> bool
    requires lent { Lent p chip.now bt.now }
    requires r_lt_mu { r < p.mu }
    requires v_lt_gamma { v.0 < p.gamma }
    ensures { result ≡ block_ok p chip.now bt.now r v.0 }
{
    let Some(n) = chip_tables::block_named(p, bt, r, v) else {
        return true;
    };
    chip_blocks::block_ok(p, r, v, chip_blocks::block_of(p, chip, n))
}

// The same of every virtual block of region r.
fn region_blocks_ok(p: Params, chip: &[u8], bt: &[u16], r: usize) -> bool
    requires lent { Lent p chip.now bt.now }
    requires r_lt_mu { r < p.mu }
    ensures { result ≡ region_blocks_ok p chip.now bt.now r }
{
    (0..p.gamma).all(|v| block_ok(p, chip, bt, r, VBlock(v)))
}

// The same of every region.
fn blocks_ok(p: Params, chip: &[u8], bt: &[u16]) -> bool
    requires { Lent p chip.now bt.now }
    ensures { result ≡ all_below p.mu (region_blocks_ok p chip.now bt.now) }
{
    (0..p.mu).all(|r| region_blocks_ok(p, chip, bt, r))
}

// The first rule that does not hold, of a state that is not orderly: each is looked at only where those before it hold.
// The last, that of the stamps, needs no look of its own: where the nine others hold it is the one.
pub fn broken_rule(
    p: Params,
    chip: &[u8],
    ct: &[u16],
    bt: &[u16],
    fst: &[u16],
    bst: &[u8],
    marks: &[u64],
    stamps: &[u32],
) -> Rule
    requires lengths { Lengths p chip.now ct.now bt.now fst.now bst.now }
    requires marks_len { length marks.now ≡ marks_length p }
    requires stamps_len { length stamps.now ≡ p.mu }
    ensures { (wear : List ℕ) → result ≡ broken_rule p (board_of chip.now ct.now bt.now fst.now bst.now wear
        marks.now stamps.now) }
{
    if !check_tables::bst_ok(p, bst) {
        return Rule::BstValues;
    }
    if !check_tables::bt_ok(p, bt) {
        return Rule::BtRange;
    }
    if !check_names::once_ok(p, bt) {
        return Rule::NamedTwice;
    }
    if !check_names::used_ok(p, bt, bst) {
        return Rule::UsedIfNamed;
    }
    if !check_blocks::frees_ok(p, chip, bst) {
        return Rule::FreeErased;
    }
    if !blocks_ok(p, chip, bt) {
        return Rule::UsedBlock;
    }
    if !check_entries::fsts_ok(p, chip, bt, fst) {
        return Rule::Fst;
    }
    if !check_entries::cts_ok(p, chip, ct, bt) {
        return Rule::Ct;
    }
    if !check_board::in_order_but_stamps(p, chip, ct, bt, fst, bst, marks, stamps) {
        return Rule::Marks;
    }
    Rule::Stamps
}
