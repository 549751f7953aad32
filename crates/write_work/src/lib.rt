// Document 01, "Write", on a state that is known to be orderly: the plan, the block that it writes, the room that it makes, and the cluster put there.
#![tactic(auto)]

ghost use Rattle.std.specs.Prelude.{◌≡◌, []};
ghost use Rattle.rules.specs.Tables.{board_of};
ghost use Rattle.rules.specs.Lent.{entry_board, exit_board};
ghost use Rattle.rules.specs.Requests.{write, request_of};
ghost use Rattle.rules.specs.Replies.{early_rows, first_row};
ghost use Rattle.rules.specs.Calls.{answer_of, outcome_of};
ghost use Rattle.outcomes.specs.Claims.{outcome};
ghost use Rattle.write_plan.specs.Plans.{plan_is};
ghost use Rattle.write_work.specs.Asked.{PlanMade};

use rules::{Answer, PBlock, Params, Reply};
use write_plan::Planned;

// What a write answers that needs a free block where there is none.
pub fn no_block_left() -> Answer
    ensures { result ≡ answer_of Reply.NoBlockLeft [] 0 }
{
    Answer {
        reply: Reply::NoBlockLeft,
        programs: 0,
        erases: 0,
        looks: 0,
    }
}

// The work of an accepted write, whose plan writes block n.
// The search that is counted is that of the state at entry; after a reclaim, which may have moved the old cluster, it is looked up again.
pub fn write_planned(
    p: Params,
    chip: &mut [u8],
    ct: &mut [u16],
    bt: &mut [u16],
    fst: &mut [u16],
    bst: &mut [u8],
    wear: &mut [u32],
    marks: &mut [u64],
    stamps: &mut [u32],
    lba: usize,
    count: usize,
    bytes: &[u8],
    r: usize,
    pl: Planned,
    n: PBlock,
) -> Answer
    requires { PlanMade p (board_of chip.old ct.old bt.old fst.old bst.old wear.old marks.old stamps.old) (request_of lba count bytes.now) r (plan_is pl) n.0 }
    ensures { outcome result bytes.now [] (exit_board chip ct bt fst bst wear marks stamps) ≡ outcome_of p (entry_board chip ct bt fst bst wear marks stamps)
        (write (request_of lba count bytes.now)) }
{
    let c = rules::cluster_of(p, lba);
    let at = read_work::find_frame(p, chip, ct, bt, c);
    let room = write_room::make_room(p, chip, ct, bt, bst, wear, marks, r, pl, n);
    let old = read_work::find_again(p, chip, ct, bt, c, at.spot, room.erases);
    write_cluster::put_cluster(
        p,
        chip,
        ct,
        bt,
        fst,
        stamps,
        lba,
        count,
        bytes,
        old,
        room.vblock,
        room.frame,
    );
    write_marks::keep_marks(p, marks, r, room, old);
    write_marks::answered(p, room.copied, room.erases, at.looks)
}

// The work of a write that no row before the last refuses: the state is not checked again.
// Where its plan needs a free block and there is none, it is refused, and nothing changes.
pub fn write_orderly(
    p: Params,
    chip: &mut [u8],
    ct: &mut [u16],
    bt: &mut [u16],
    fst: &mut [u16],
    bst: &mut [u8],
    wear: &mut [u32],
    marks: &mut [u64],
    stamps: &mut [u32],
    lba: usize,
    count: usize,
    bytes: &[u8],
) -> Answer
    requires { first_row Reply.Accepted (early_rows p (board_of chip.old ct.old bt.old fst.old bst.old wear.old marks.old stamps.old) (request_of lba count bytes.now)) ≡ Reply.Accepted }
    ensures { outcome result bytes.now [] (exit_board chip ct bt fst bst wear marks stamps) ≡ outcome_of p (entry_board chip ct bt fst bst wear marks stamps)
        (write (request_of lba count bytes.now)) }
{
    let r = rules::region_of(p, rules::cluster_of(p, lba));
    let pl = write_plan::plan_of(p, chip, bt, fst, marks, r);
    let Some(n) = write_room::plan_block(p, bt, bst, wear, r, pl) else {
        return no_block_left();
    };
    write_planned(
        p, chip, ct, bt, fst, bst, wear, marks, stamps, lba, count, bytes, r, pl, n,
    )
}
