// What a cut leaves of the lent tables: nothing but ones. Power that goes takes the tables with it; the wear is kept elsewhere.
#![tactic(auto)]

ghost use Rattle.chip_lost.specs.Lost.{Lost};

// Every entry of CT, BT, FST, BST, the marks and the stamps becomes all ones.
pub fn lose(
    ct: &mut [u16],
    bt: &mut [u16],
    fst: &mut [u16],
    bst: &mut [u8],
    marks: &mut [u64],
    stamps: &mut [u32],
)
    ensures { Lost ct.old bt.old fst.old bst.old marks.old stamps.old ct.new bt.new
        fst.new bst.new marks.new stamps.new }
{
    ct.fill(rules::NONE as u16);
    bt.fill(rules::NONE as u16);
    fst.fill(rules::NONE as u16);
    bst.fill(u8::MAX);
    marks.fill(u64::MAX);
    stamps.fill(u32::MAX);
}
