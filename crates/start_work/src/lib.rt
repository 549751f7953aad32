// Document 02, T-07, the start, on a chip that has passed its checks: "The start rebuilds BST, BT, CT, FST, the marks and the stamps."
#![tactic(auto)]

ghost use Rattle.std.specs.Prelude.{◌≡◌, ◌≤◌};
ghost use Rattle.rules.specs.Tables.{board_of};
ghost use Rattle.rules.specs.Traces.{erases_in};
ghost use Rattle.rules.specs.Start.{start_ops, started};
ghost use Rattle.starts.specs.Admitted.{StartAdmitted};
ghost use Rattle.start_work.specs.Rebuilt.{Rebuilt, TablesAsked};

use rules::Params;

// CT, FST, the marks and the stamps, from the chip and BT as found.
fn fill_tables(
    p: Params,
    chip: &[u8],
    ct: &mut [u16],
    bt: &[u16],
    fst: &mut [u16],
    marks: &mut [u64],
    stamps: &mut [u32],
)
    requires { TablesAsked p chip.now ct.old bt.now fst.old marks.old stamps.old }
    ensures { Rebuilt p chip.now bt.now ct.new fst.new marks.new stamps.new }
{
    start_clusters::fill_ct(p, chip, bt, ct);
    start_fst::fill_fst(p, chip, bt, fst);
    start_clusters::fill_stamps(p, chip, bt, stamps);
    start_marks::fill_marks(p, chip, ct, bt, marks);
}

// All tables but the wear are rebuilt from the chip, what is left over is erased, and marked where that wears it out, and the wear counts the erases. How many blocks were erased.
pub fn start_all(
    p: Params,
    chip: &mut [u8],
    ct: &mut [u16],
    bt: &mut [u16],
    fst: &mut [u16],
    bst: &mut [u8],
    wear: &mut [u32],
    marks: &mut [u64],
    stamps: &mut [u32],
) -> usize
    requires { StartAdmitted p (board_of chip.old ct.old bt.old fst.old bst.old wear.old marks.old stamps.old) }
    ensures stamps_after { board_of chip.new ct.new bt.new fst.new bst.new wear.new marks.new stamps.new ≡ started p (board_of chip.old ct.old bt.old fst.old bst.old wear.old marks.old stamps.old) }
    ensures value { result ≡ erases_in (start_ops p chip.old wear.old) }
    ensures upper_bound { result ≤ p.N }
{
    let k = start_blocks::find_blocks(p, chip, bt, bst, wear);
    fill_tables(p, chip, ct, bt, fst, marks, stamps);
    k
}
