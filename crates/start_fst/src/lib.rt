// Document 02, T-07, what a start rebuilds of FST: the last segment of each region's open block. "If all of a region's blocks are full, FST names the last segment
// of the lowest virtual block."
#![tactic(auto)]

ghost use Rattle.std.specs.Prelude.{◌≡◌, not, ◌*◌, ◌-◌, ◌<◌, eqb, length};
ghost use Rattle.lists.specs.Below.{first_below, list_below};
ghost use Rattle.rules.specs.Numbers.{segment_of};
ghost use Rattle.rules.specs.Tables.{bt_at, none, not_found};
ghost use Rattle.rules.specs.Pages.{block, filled};
ghost use Rattle.rules.specs.Start.{found_fst, found_view, is_open};
ghost use Rattle.start_found.specs.Found.{Found};
ghost use Rattle.start_fst.specs.Open.{First, open_vblock};

use rules::{Params, Segment, VBlock};

// True if virtual block v of region r has a block that is not full.
fn is_open(p: Params, chip: &[u8], bt: &[u16], r: usize, v: VBlock) -> bool
    requires found { Found p chip.now bt.now }
    requires r_lt_mu { r < p.mu }
    requires v_lt_gamma { v.0 < p.gamma }
    ensures { result ≡ is_open p (found_view p chip.now bt.now r) v.0 }
{
    let Some(n) = chip_tables::block_named(p, bt, r, v) else {
        return false;
    };
    !chip_blocks::is_full(p, chip_blocks::block_of(p, chip, n))
}

// The lowest such virtual block of region r, if there is one.
fn first_open(p: Params, chip: &[u8], bt: &[u16], r: usize) -> Option<VBlock>
    requires found { Found p chip.now bt.now }
    requires r_lt_mu { r < p.mu }
    ensures { First result p.gamma (first_below not_found p.gamma (is_open p (found_view p chip.now bt.now r))) }
{
    (0..p.gamma)
        .find(|v| is_open(p, chip, bt, r, VBlock(*v)))
        .map(|v| VBlock(v))
}

// The lowest virtual block of region r that has a block, if there is one.
fn first_named(p: Params, bt: &[u16], r: usize) -> Option<VBlock>
    requires bt_len { length bt.now ≡ p.mu * p.gamma }
    requires gamma_bound { p.gamma < 65535 }
    requires r_lt_mu { r < p.mu }
    ensures { First result p.gamma (first_below not_found p.gamma (λ v. not (eqb (bt_at p bt.now r v) none))) }
{
    (0..p.gamma)
        .find(|v| chip_tables::block_named(p, bt, r, VBlock(*v)).is_some())
        .map(|v| VBlock(v))
}

// The virtual block whose last segment FST names: the lowest that is not full, else the lowest.
fn open_vblock(p: Params, chip: &[u8], bt: &[u16], r: usize) -> Option<VBlock>
    requires found { Found p chip.now bt.now }
    requires r_lt_mu { r < p.mu }
    ensures { First result p.gamma (open_vblock p (found_view p chip.now bt.now r)) }
{
    let Some(v) = first_open(p, chip, bt, r) else {
        return first_named(p, bt, r);
    };
    Some(v)
}

// The segment of the last programmed frame of virtual block v of region r, which has a block.
fn last_segment(p: Params, chip: &[u8], bt: &[u16], r: usize, v: VBlock) -> Segment
    requires found { Found p chip.now bt.now }
    requires r_lt_mu { r < p.mu }
    requires v_lt_gamma { v.0 < p.gamma }
    requires fact { bt_at p bt.now r v.0 ≡ none → ⊥ }
    ensures result_value { result.0 ≡ segment_of p v.0 (filled p (block p chip.now (bt_at p bt.now r v.0)) - 1) }
    ensures result_bound { result.0 < 65536 }
{
    let n = chip_tables::bt_at(p, bt, r, v);
    let k = chip_blocks::filled(p, chip_blocks::block_of(p, chip, n));
    rules::segment_of(p, v, k - 1)
}

// What FST has for region r, none if the region has no block.
fn segment_of(p: Params, chip: &[u8], bt: &[u16], r: usize) -> Segment
    requires found { Found p chip.now bt.now }
    requires r_lt_mu { r < p.mu }
    ensures result_value { result.0 ≡ found_fst p (found_view p chip.now bt.now r) }
    ensures result_bound { result.0 < 65536 }
{
    let Some(v) = open_vblock(p, chip, bt, r) else {
        return Segment(rules::NONE);
    };
    last_segment(p, chip, bt, r, v)
}

// The same of every region.
pub fn fill_fst(p: Params, chip: &[u8], bt: &[u16], fst: &mut [u16])
    requires found { Found p chip.now bt.now }
    requires fst_len { length fst.old ≡ p.mu }
    ensures { fst.new ≡ list_below p.mu (λ r. found_fst p (found_view p chip.now bt.now r)) }
{
    for r in 0..p.mu {
        chip_tables::set_fst(fst, r, segment_of(p, chip, bt, r));
    }
}
