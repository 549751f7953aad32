// FST's and CT's rules entry by entry, over a chip and a BT whose own rules hold: for the question which rule is broken.
#![tactic(auto)]

ghost use Rattle.std.specs.Prelude.{◌≡◌, true, ◌-◌, ◌<◌, length};
ghost use Rattle.lists.specs.Below.{all_below};
ghost use Rattle.rules.specs.Numbers.{region_of};
ghost use Rattle.check_rules.specs.Check.{Lent, full_ok, open_ok, fst_ok, segment_ok, cluster_ok};

use rules::{Cluster, Params, Segment, VBlock};

// Virtual block v of region r is the open one, or has no block, or is full.
fn full_ok(p: Params, chip: &[u8], bt: &[u16], r: usize, o: VBlock, v: VBlock) -> bool
    requires lent { Lent p chip.now bt.now }
    requires r_lt_mu { r < p.mu }
    requires v_lt_gamma { v.0 < p.gamma }
    ensures { result ≡ full_ok p chip.now bt.now r o.0 v.0 }
{
    if v == o {
        return true;
    }
    let Some(n) = chip_tables::block_named(p, bt, r, v) else {
        return true;
    };
    chip_blocks::is_full(p, chip_blocks::block_of(p, chip, n))
}

// The same of every virtual block of region r.
fn fulls_ok(p: Params, chip: &[u8], bt: &[u16], r: usize, o: VBlock) -> bool
    requires lent { Lent p chip.now bt.now }
    requires r_lt_mu { r < p.mu }
    ensures { result ≡ all_below p.gamma (full_ok p chip.now bt.now r o.0) }
{
    (0..p.gamma).all(|v| full_ok(p, chip, bt, r, o, VBlock(v)))
}

// Segment sg is that of the last programmed frame of the open block, and every other block is full.
fn open_ok(p: Params, chip: &[u8], bt: &[u16], r: usize, sg: Segment) -> bool
    requires lent { Lent p chip.now bt.now }
    requires r_lt_mu { r < p.mu }
    ensures { result ≡ open_ok p chip.now bt.now r sg.0 }
{
    if sg.0 >= p.gamma * p.d {
        return false;
    }
    let o = rules::vblock_of(p, sg);
    let Some(n) = chip_tables::block_named(p, bt, r, o) else {
        return false;
    };
    let k = chip_blocks::filled(p, chip_blocks::block_of(p, chip, n));
    let last = rules::segment_of(p, o, k.saturating_sub(1));
    if sg != last {
        return false;
    }
    fulls_ok(p, chip, bt, r, o)
}

// FST is none exactly if region r has no block, else it names the segment of the last programmed frame of the open block.
fn fst_ok(p: Params, chip: &[u8], bt: &[u16], fst: &[u16], r: usize) -> bool
    requires lent { Lent p chip.now bt.now }
    requires fst_len { length fst.now ≡ p.mu }
    requires r_lt_mu { r < p.mu }
    ensures { result ≡ fst_ok p chip.now bt.now fst.now r }
{
    let Some(sg) = chip_tables::last_named(fst, r) else {
        return check_tables::empty_at(p, bt, r);
    };
    open_ok(p, chip, bt, r, sg)
}

// FST is as it should be for every region.
pub fn fsts_ok(p: Params, chip: &[u8], bt: &[u16], fst: &[u16]) -> bool
    requires lent { Lent p chip.now bt.now }
    requires fst_len { length fst.now ≡ p.mu }
    ensures { result ≡ all_below p.mu (fst_ok p chip.now bt.now fst.now) }
{
    (0..p.mu).all(|r| fst_ok(p, chip, bt, fst, r))
}

// Segment sg of region r holds a programmed frame of cluster c.
fn segment_ok(p: Params, chip: &[u8], bt: &[u16], r: usize, c: Cluster, sg: Segment) -> bool
    requires lent { Lent p chip.now bt.now }
    requires r_lt_mu { r < p.mu }
    ensures { result ≡ segment_ok p chip.now bt.now r c.0 sg.0 }
{
    if sg.0 >= p.gamma * p.d {
        return false;
    }
    let v = rules::vblock_of(p, sg);
    let Some(n) = chip_tables::block_named(p, bt, r, v) else {
        return false;
    };
    let k = rules::place_of(p, sg);
    chip_blocks::last_in(p, chip_blocks::block_of(p, chip, n), k, c)
        .frame
        .is_some()
}

// The CT entry of cluster c is none or names such a segment of c's region.
fn cluster_ok(p: Params, chip: &[u8], ct: &[u16], bt: &[u16], c: Cluster) -> bool
    requires lent { Lent p chip.now bt.now }
    requires ct_len { length ct.now ≡ p.C }
    requires c_lt_c { c.0 < p.C }
    ensures { result ≡ cluster_ok p chip.now ct.now bt.now (region_of p c.0) c.0 }
{
    let r = rules::region_of(p, c);
    let Some(sg) = chip_tables::segment_named(ct, c) else {
        return true;
    };
    segment_ok(p, chip, bt, r, c, sg)
}

// The same of every cluster.
pub fn cts_ok(p: Params, chip: &[u8], ct: &[u16], bt: &[u16]) -> bool
    requires lent { Lent p chip.now bt.now }
    requires ct_len { length ct.now ≡ p.C }
    ensures { result ≡ all_below p.C (λ c. cluster_ok p chip.now ct.now bt.now (region_of p c) c) }
{
    (0..p.C).all(|c| cluster_ok(p, chip, ct, bt, Cluster(c)))
}
