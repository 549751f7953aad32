// Document 01, "Write", on a state that is known to be orderly: the room that its plan makes.
#![tactic(auto)]

ghost use Rattle.std.specs.Prelude.{◌≡◌, List, ℕ, ◌<◌, MatchOption};
ghost use Rattle.rules.specs.Tables.{board_of, bt_at, not_found};
ghost use Rattle.rules.specs.Pages.{block};
ghost use Rattle.rules.specs.Write.{plan_block};
ghost use Rattle.rules.specs.Marks.{Marks, marks_of, table_of};
ghost use Rattle.write_reclaim.specs.Moves.{marked_frames};
ghost use Rattle.write_plan.specs.Plans.{plan_is};
ghost use Rattle.write_room.specs.Rooms.{BlockAsked, OpenAsked, Opened, ReclaimReady, BlockReclaimed, RoomAsked, RoomMade};

use rules::{PBlock, Params, VBlock};
use write_plan::Planned;

// The frame that a plan has made room for, how many frames it copied, and how many blocks it erased.
#[derive(Clone, Copy)]
pub struct Room {
    pub vblock: VBlock,
    pub frame: usize,
    pub copied: usize,
    pub erases: u32,
}

// The physical block that a plan writes: the open block's, or the free block, if one is free.
pub fn plan_block(
    p: Params,
    bt: &[u16],
    bst: &[u8],
    wear: &[u32],
    r: usize,
    pl: Planned,
) -> Option<PBlock>
    requires { BlockAsked p bt.now bst.now wear.now r (plan_is pl) }
    ensures { (chip ct fst marks stamps : List ℕ)
        → MatchOption result (plan_block p (board_of chip ct bt.now fst bst.now wear.now marks stamps) r (plan_is pl) ≡ not_found)
        (λ n. (n.0 ≡ plan_block p (board_of chip ct bt.now fst bst.now wear.now marks stamps) r (plan_is pl)) × (n.0 < not_found)) }
{
    match pl {
        Planned::Continues(v, _) => chip_tables::block_named(p, bt, r, v),
        Planned::Opens(_) => write_choose::free_block(p, bst, wear),
        Planned::Reclaims(_) => write_choose::free_block(p, bst, wear),
    }
}

// Virtual block v of region r takes block n.
fn open_block(p: Params, bt: &mut [u16], bst: &mut [u8], r: usize, v: VBlock, n: PBlock)
    requires { OpenAsked p bt.old bst.old r v.0 n.0 }
    ensures { Opened p bt.old bst.old r v.0 n.0 bt.new bst.new }
{
    chip_tables::set_bt(p, bt, r, v, n);
    chip_tables::set_bst(bst, n, rules::USED);
}

// Block n is taken; the frames of virtual block v that have a mark go to it;
// v's old block is erased and becomes free, or reserved where it is worn. How many were copied.
fn reclaim_block(
    p: Params,
    chip: &mut [u8],
    ct: &mut [u16],
    bt: &mut [u16],
    bst: &mut [u8],
    wear: &mut [u32],
    marks: &[u64],
    r: usize,
    v: VBlock,
    n: PBlock,
) -> usize
    requires { ReclaimReady p chip.old ct.old bt.old bst.old wear.old marks.now r v.0 n.0 }
    ensures { (m : Marks) → marks.now ≡ table_of p m
        → BlockReclaimed p chip.old ct.old bt.old bst.old wear.old r v.0 n.0
        (marked_frames p (block p chip.old (bt_at p bt.old r v.0)) (m r v.0)) chip.new ct.new bt.new
        bst.new wear.new result }
{
    let o = chip_tables::bt_at(p, bt, r, v);
    let left = chip_worn::state_after(chip_worn::wears_out(p, wear, o));
    let k = write_reclaim::reclaim(p, chip, ct, wear, marks, o, n, r, v);
    chip_tables::set_bt(p, bt, r, v, n);
    chip_tables::set_bst(bst, n, rules::USED);
    chip_tables::set_bst(bst, o, left);
    k
}

// The plan makes room for one frame, in block n, which is the plan's.
pub fn make_room(
    p: Params,
    chip: &mut [u8],
    ct: &mut [u16],
    bt: &mut [u16],
    bst: &mut [u8],
    wear: &mut [u32],
    marks: &[u64],
    r: usize,
    pl: Planned,
    n: PBlock,
) -> Room
    requires { RoomAsked p chip.old ct.old bt.old bst.old wear.old marks.now r (plan_is pl) n.0 }
    ensures { (fst stamps : List ℕ) → marks.now ≡ marks_of p (board_of chip.old ct.old bt.old fst bst.old wear.old marks.now stamps)
        → RoomMade p (board_of chip.old ct.old bt.old fst bst.old wear.old marks.now stamps) r (plan_is pl)
        result.vblock.0 result.frame result.copied result.erases chip.new ct.new bt.new bst.new wear.new }
{
    match pl {
        Planned::Continues(v, f) => Room {
            vblock: v,
            frame: f,
            copied: 0,
            erases: 0,
        },
        Planned::Opens(v) => {
            open_block(p, bt, bst, r, v, n);
            Room {
                vblock: v,
                frame: 0,
                copied: 0,
                erases: 0,
            }
        }
        Planned::Reclaims(v) => {
            let k = reclaim_block(p, chip, ct, bt, bst, wear, marks, r, v, n);
            Room {
                vblock: v,
                frame: k,
                copied: k,
                erases: 1,
            }
        }
    }
}
