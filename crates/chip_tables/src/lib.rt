// The lent tables, each read and written by its own kinds of numbers.
#![tactic(auto)]

ghost use Rattle.std.specs.Prelude.{◌≡◌, MatchOption, not, ◌*◌, ◌+◌, ◌<◌, min, eqb, get_or, length, replicate, set};
ghost use Rattle.lists.specs.Below.{count_below};
ghost use Rattle.rules.specs.Tables.{none, ct_at, bt_entry, bt_at, fst_at, bst_at, wear_at, stamp_at};

use rules::{Cluster, PBlock, Params, Segment, VBlock};

// Entry i of CT, BT or FST.
fn entry(table: &[u16], i: usize) -> usize
    requires { i < length table.now }
    ensures value { result ≡ get_or table.now i none }
    ensures upper_bound { result < 65536 }
{
    table[i] as usize
}

// Entry i of CT, BT or FST, if it is not none.
fn named(table: &[u16], i: usize) -> Option<usize>
    requires { i < length table.now }
    ensures { MatchOption result (get_or table.now i none ≡ none) (λ x. (x ≡ get_or table.now i none) × (x < none)) }
{
    let x = entry(table, i);
    if x == rules::NONE {
        return None;
    }
    Some(x)
}

// How many entries of CT, BT or FST are not none.
pub fn count_named(table: &[u16]) -> usize
    ensures { result ≡ count_below (length table.now) (λ i. not (eqb (get_or table.now i none) none)) }
{
    // Kept: a filter with a count at its end tests each entry by a jump, and takes two to nine times as long.
    let mut k = 0;
    for x in table {
        k += usize::from(*x as usize != rules::NONE);
    }
    k
}

// The segment that CT has for a cluster.
pub fn ct_at(ct: &[u16], c: Cluster) -> Segment
    requires { c.0 < length ct.now }
    ensures result_value { result.0 ≡ ct_at ct.now c.0 }
    ensures result_bound { result.0 < 65536 }
{
    Segment(entry(ct, c.0))
}

// The segment that FST has for a region.
pub fn fst_at(fst: &[u16], r: usize) -> Segment
    requires { r < length fst.now }
    ensures result_value { result.0 ≡ fst_at fst.now r }
    ensures result_bound { result.0 < 65536 }
{
    Segment(entry(fst, r))
}

// Entry i of BT.
pub fn bt_entry(bt: &[u16], i: usize) -> PBlock
    requires { i < length bt.now }
    ensures result_value { result.0 ≡ bt_entry bt.now i }
    ensures result_bound { result.0 < 65536 }
{
    PBlock(entry(bt, i))
}

// The physical block that BT has for virtual block v of region r.
pub fn bt_at(p: Params, bt: &[u16], r: usize, v: VBlock) -> PBlock
    requires bt_len { length bt.now ≡ p.mu * p.gamma }
    requires r_lt_mu { r < p.mu }
    requires v_lt_gamma { v.0 < p.gamma }
    ensures result_value { result.0 ≡ bt_at p bt.now r v.0 }
    ensures result_bound { result.0 < 65536 }
{
    let i = r * p.gamma + v.0;
    bt_entry(bt, i)
}

// The segment that CT names for a cluster, if it names one.
pub fn segment_named(ct: &[u16], c: Cluster) -> Option<Segment>
    requires { c.0 < length ct.now }
    ensures { MatchOption result (ct_at ct.now c.0 ≡ none) (λ s. (s.0 ≡ ct_at ct.now c.0) × (s.0 < none)) }
{
    named(ct, c.0).map(|x| Segment(x))
}

// The segment that FST names for a region, if it names one.
pub fn last_named(fst: &[u16], r: usize) -> Option<Segment>
    requires { r < length fst.now }
    ensures { MatchOption result (fst_at fst.now r ≡ none) (λ s. (s.0 ≡ fst_at fst.now r) × (s.0 < none)) }
{
    named(fst, r).map(|x| Segment(x))
}

// The block that entry i of BT names, if it names one.
pub fn entry_named(bt: &[u16], i: usize) -> Option<PBlock>
    requires { i < length bt.now }
    ensures { MatchOption result (bt_entry bt.now i ≡ none) (λ n. (n.0 ≡ bt_entry bt.now i) × (n.0 < none)) }
{
    named(bt, i).map(|x| PBlock(x))
}

// The block that BT names for virtual block v of region r, if it names one.
pub fn block_named(p: Params, bt: &[u16], r: usize, v: VBlock) -> Option<PBlock>
    requires bt_len { length bt.now ≡ p.mu * p.gamma }
    requires r_lt_mu { r < p.mu }
    requires v_lt_gamma { v.0 < p.gamma }
    ensures { MatchOption result (bt_at p bt.now r v.0 ≡ none) (λ n. (n.0 ≡ bt_at p bt.now r v.0) × (n.0 < none)) }
{
    entry_named(bt, r * p.gamma + v.0)
}

// What BST has for a block: 0 free, 1 used, 2 reserved.
pub fn bst_at(bst: &[u8], n: PBlock) -> u8
    requires { n.0 < length bst.now }
    ensures { result ≡ bst_at bst.now n.0 }
{
    let i = n.0;
    bst[i]
}

// The wear of a block.
pub fn wear_at(wear: &[u32], n: PBlock) -> u32
    requires { n.0 < length wear.now }
    ensures { result ≡ wear_at wear.now n.0 }
{
    let i = n.0;
    wear[i]
}

// The last stamp of a region.
pub fn stamp_at(stamps: &[u32], r: usize) -> u32
    requires { r < length stamps.now }
    ensures { result ≡ stamp_at stamps.now r }
{
    stamps[r]
}

// CT names this segment for the cluster.
pub fn set_ct(ct: &mut [u16], c: Cluster, sg: Segment)
    requires c_in_bounds { c.0 < length ct.old }
    requires sg_bound { sg.0 < 65536 }
    ensures { ct.new ≡ set ct.old c.0 sg.0 }
{
    let i = c.0;
    ct[i] = sg.0 as u16;
}

// FST names this segment for the region.
pub fn set_fst(fst: &mut [u16], r: usize, sg: Segment)
    requires r_in_bounds { r < length fst.old }
    requires sg_bound { sg.0 < 65536 }
    ensures { fst.new ≡ set fst.old r sg.0 }
{
    fst[r] = sg.0 as u16;
}

// BT names this block for virtual block v of region r.
pub fn set_bt(p: Params, bt: &mut [u16], r: usize, v: VBlock, n: PBlock)
    requires bt_len { length bt.old ≡ p.mu * p.gamma }
    requires r_lt_mu { r < p.mu }
    requires v_lt_gamma { v.0 < p.gamma }
    requires n_bound { n.0 < 65536 }
    ensures { bt.new ≡ set bt.old (r * p.gamma + v.0) n.0 }
{
    let i = r * p.gamma + v.0;
    bt[i] = n.0 as u16;
}

// BST has this for the block.
pub fn set_bst(bst: &mut [u8], n: PBlock, s: u8)
    requires { n.0 < length bst.old }
    ensures { bst.new ≡ set bst.old n.0 s }
{
    let i = n.0;
    bst[i] = s;
}

// The wear of a block counts one erase more, up to the largest count.
pub fn count_erase(wear: &mut [u32], n: PBlock)
    requires { n.0 < length wear.old }
    ensures { wear.new ≡ set wear.old n.0 (min (wear_at wear.old n.0 + 1) 4294967295) }
{
    let i = n.0;
    wear[i] = wear[i].saturating_add(1);
}

// The next stamp of a region, which then is its last.
pub fn take_stamp(stamps: &mut [u32], r: usize) -> u32
    requires r_in_bounds { r < length stamps.old }
    requires r_bound { stamp_at stamps.old r < 4294967295 }
    ensures value { result ≡ stamp_at stamps.old r + 1 }
    ensures stamps_after { stamps.new ≡ set stamps.old r (stamp_at stamps.old r + 1) }
{
    let t = stamps[r] + 1;
    stamps[r] = t;
    t
}

// Every region's last stamp becomes 0.
pub fn clear_stamps(stamps: &mut [u32])
    ensures { stamps.new ≡ replicate (length stamps.old) 0 }
{
    stamps.fill(0);
}
