// What a write chooses: the free block, the lowest virtual block without a physical block, and the victim of a reclaim.
#![tactic(auto)]

ghost use Rattle.std.specs.Prelude.{◌≡◌, true, ◌*◌, ◌<◌, length, MatchOption};
ghost use Rattle.rules.specs.Parameters.{allowed};
ghost use Rattle.rules.specs.Tables.{not_found};
ghost use Rattle.rules.specs.Write.{free_block};
ghost use Rattle.rules.specs.Marks.{Marks, table_of};
ghost use Rattle.write_choose.specs.Search.{Pool, Compared, RegionMarks, better, least_marked, lowest_none};

use rules::{PBlock, Params, VBlock};

// Block n is free, and better than the best so far, if there is one.
fn is_better(bst: &[u8], wear: &[u32], n: PBlock, best: Option<PBlock>) -> bool
    requires { Compared bst.now wear.now n.0 best }
    ensures { result ≡ better bst.now wear.now n.0 best }
{
    if chip_tables::bst_at(bst, n) != rules::FREE {
        return false;
    }
    let Some(m) = best else {
        return true;
    };
    chip_tables::wear_at(wear, n) < chip_tables::wear_at(wear, m)
}

// The free block with the lowest wear, the lowest number on a tie, if one is free.
pub fn free_block(p: Params, bst: &[u8], wear: &[u32]) -> Option<PBlock>
    requires { Pool p bst.now wear.now }
    ensures { MatchOption result (free_block p bst.now wear.now ≡ not_found) (λ n. (n.0 ≡ free_block p bst.now wear.now) × (n.0 < p.N)) }
{
    let mut best = None;
    for i in 0..p.N {
        if is_better(bst, wear, PBlock(i), best) {
            best = Some(PBlock(i));
        }
    }
    best
}

// The lowest virtual block of region r that BT gives no block, if there is one.
pub fn lowest_unassigned(p: Params, bt: &[u16], r: usize) -> Option<VBlock>
    requires p_value { allowed p ≡ true }
    requires bt_len { length bt.now ≡ p.mu * p.gamma }
    requires r_lt_mu { r < p.mu }
    ensures { MatchOption result (lowest_none p bt.now r p.gamma ≡ not_found) (λ v. (v.0 ≡ lowest_none p bt.now r p.gamma) × (v.0 < p.gamma)) }
{
    for v in 0..p.gamma {
        if chip_tables::block_named(p, bt, r, VBlock(v)).is_none() {
            return Some(VBlock(v));
        }
    }
    None
}

// The virtual block of region r with fewest marks, the lowest on a tie.
pub fn victim(p: Params, marks: &[u64], r: usize) -> VBlock
    requires { RegionMarks p marks.now r }
    ensures { (m : Marks) → marks.now ≡ table_of p m → result.0 ≡ least_marked m r p.gamma }
{
    let mut least = VBlock(0);
    let mut fewest = chip_marks::count_marks(p, marks, r, least);
    for v in 1..p.gamma {
        let k = chip_marks::count_marks(p, marks, r, VBlock(v));
        if k < fewest {
            least = VBlock(v);
            fewest = k;
        }
    }
    least
}
