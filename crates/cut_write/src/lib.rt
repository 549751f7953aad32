// Document 02, T-07, cuts, of a write on a state that is known to be orderly. How many operations it will make is known before the first; where the budget
// has more, it is the plain write, and else as many are made as the budget has, and the tables are lost.
#![tactic(auto)]

ghost use Rattle.std.specs.Prelude.{◌≡◌, true, List, [], ◌++◌, ℕ, ◌-◌, ◌≤◌, ◌<◌, length, take};
ghost use Rattle.rules.specs.Parameters.{allowed};
ghost use Rattle.rules.specs.Pages.{block};
ghost use Rattle.rules.specs.Tables.{board_of};
ghost use Rattle.rules.specs.Lent.{entry_board, exit_board};
ghost use Rattle.rules.specs.Traces.{erase_ops, frames_ops};
ghost use Rattle.rules.specs.Marks.{Marks, marks_of, table_of};
ghost use Rattle.rules.specs.Write.{plan_block, room_ops, write_ops};
ghost use Rattle.rules.specs.Requests.{write, request_of};
ghost use Rattle.rules.specs.Replies.{early_rows, first_row};
ghost use Rattle.rules.specs.Calls.{answer_of, ops_of, work_of};
ghost use Rattle.rules.specs.Cuts.{cut_board, limited, step_outcome};
ghost use Rattle.outcomes.specs.Claims.{outcome};
ghost use Rattle.write_plan.specs.Plans.{plan_is};
ghost use Rattle.write_work.specs.Asked.{PlanMade};
ghost use Rattle.chip_marks.specs.Asked.{WordsAsked};
ghost use Rattle.write_reclaim.specs.Moves.{Between, marked_frames};
ghost use Rattle.cut_write.specs.Cut.{CountAsked, CopiesAsked, CutAsked, FirstMade};

use rules::{Answer, PBlock, Params, Reply, VBlock};
use write_plan::Planned;

// What a call with a budget answers, and what is left of the budget: 0 where it was cut.
#[derive(Clone, Copy)]
pub struct Limited {
    pub answer: Answer,
    pub left: u64,
}

// What a write answers that was cut: reply 0 with counts 0,
// and nothing is left of its budget.
fn spent() -> Limited
    ensures answer_value { result.answer ≡ answer_of Reply.Accepted [] 0 }
    ensures left_value { result.left ≡ 0 }
{
    Limited {
        answer: Answer {
            reply: Reply::Accepted,
            programs: 0,
            erases: 0,
            looks: 0,
        },
        left: 0,
    }
}

// How many operations erase block n: "mark programs count in T-07's budget".
fn erase_ops(p: Params, wear: &[u32], n: PBlock) -> usize
    requires { n.0 < length wear.now }
    ensures value { result ≡ length (erase_ops p wear.now n.0) }
    ensures upper_bound { result ≤ 2 }
{
    if chip_worn::wears_out(p, wear, n) {
        return 2;
    }
    1
}

// How many operations make a plan's room: α for each frame that is copied, and those that erase the victim;
// none where nothing is reclaimed.
fn room_ops(p: Params, bt: &[u16], wear: &[u32], marks: &[u64], r: usize, pl: Planned) -> usize
    requires p_value { allowed p ≡ true }
    requires count_asked { CountAsked p bt.now wear.now marks.now r (plan_is pl) }
    ensures value { (chip ct fst bst stamps : List ℕ) → marks.now ≡ marks_of p (board_of chip ct bt.now fst bst wear.now marks.now stamps)
        → result ≡ length (room_ops p (board_of chip ct bt.now fst bst wear.now marks.now stamps) r (plan_is pl)) }
    ensures upper_bound { result ≤ 4098 }
{
    match pl {
        Planned::Continues(_, _) => 0,
        Planned::Opens(_) => 0,
        Planned::Reclaims(v) => {
            let o = chip_tables::bt_at(p, bt, r, v);
            p.alpha * chip_marks::count_marks(p, marks, r, v) + erase_ops(p, wear, o)
        }
    }
}

// The first k of the operations that reclaim block o, fewer than all, which are `room`: its frames that have a mark are copied until k pages are made.
// Where fewer are left than erase it, only its mark is left out.
fn cut_reclaim(
    p: Params,
    chip: &mut [u8],
    wear: &mut [u32],
    marks: &[u64],
    o: PBlock,
    n: PBlock,
    r: usize,
    v: VBlock,
    room: usize,
    k: usize,
)
    requires between { Between p chip.old o.0 n.0 }
    requires wear_len { length wear.old ≡ p.N }
    requires words_asked { WordsAsked p marks.now r v.0 }
    requires k_lt_room { k < room }
    ensures { (m : Marks) → marks.now ≡ table_of p m
        → room ≡ length (frames_ops p n.0 0 (marked_frames p (block p chip.old o.0) (m r v.0)) ++ erase_ops p wear.old o.0)
        → FirstMade p chip.old wear.old (frames_ops p n.0 0 (marked_frames p (block p chip.old o.0) (m r v.0)) ++ erase_ops p wear.old o.0) k
        chip.new wear.new }
{
    cut_copies::copy_first(p, chip, marks, o, n, r, v, k);
    if room - k < erase_ops(p, wear, o) {
        chip_worn::clear_block(p, chip, wear, o);
    }
}

// The first k of the operations that make a plan's room, fewer than all, which are `room`;
// there are none where nothing is reclaimed.
fn cut_room(
    p: Params,
    chip: &mut [u8],
    bt: &[u16],
    wear: &mut [u32],
    marks: &[u64],
    r: usize,
    pl: Planned,
    n: PBlock,
    room: usize,
    k: usize,
)
    requires copies_asked { CopiesAsked p chip.old bt.now wear.old marks.now r (plan_is pl) n.0 }
    requires k_lt_room { k < room }
    ensures { (ct fst bst stamps : List ℕ) → marks.now ≡ marks_of p (board_of chip.old ct bt.now fst bst wear.old marks.now stamps)
        → n.0 ≡ plan_block p (board_of chip.old ct bt.now fst bst wear.old marks.now stamps) r (plan_is pl)
        → room ≡ length (room_ops p (board_of chip.old ct bt.now fst bst wear.old marks.now stamps) r (plan_is pl))
        → FirstMade p chip.old wear.old (room_ops p (board_of chip.old ct bt.now fst bst wear.old marks.now stamps) r (plan_is pl)) k
        chip.new wear.new }
{
    match pl {
        Planned::Continues(_, _) => {}
        Planned::Opens(_) => {}
        Planned::Reclaims(v) => {
            let o = chip_tables::bt_at(p, bt, r, v);
            cut_reclaim(p, chip, wear, marks, o, n, r, v, room, k);
        }
    }
}

// The first k operations of a write are made, of which `room` make the plan's room; the rest of it and the tables are lost.
// Behind the room come the new frame's pages, its old sectors read where the old cluster then stands.
fn cut(
    p: Params,
    chip: &mut [u8],
    ct: &mut [u16],
    bt: &mut [u16],
    fst: &mut [u16],
    bst: &mut [u8],
    wear: &mut [u32],
    marks: &mut [u64],
    stamps: &mut [u32],
    lba: usize,
    count: usize,
    bytes: &[u8],
    r: usize,
    pl: Planned,
    n: PBlock,
    room: usize,
    k: usize,
) -> Limited
    requires { CutAsked p (board_of chip.old ct.old bt.old fst.old bst.old wear.old marks.old stamps.old) (request_of lba count bytes.now) r (plan_is pl) n.0 room k }
    ensures answer_value { result.answer ≡ answer_of Reply.Accepted [] 0 }
    ensures left_value { result.left ≡ 0 }
    ensures stamps_value { exit_board chip ct bt fst bst wear marks stamps ≡ cut_board p (entry_board chip ct bt fst bst wear marks stamps)
        (take k (write_ops p (entry_board chip ct bt fst bst wear marks stamps) (request_of lba count bytes.now))) }
{
    if k < room {
        cut_room(p, chip, bt, wear, marks, r, pl, n, room, k);
        chip_lost::lose(ct, bt, fst, bst, marks, stamps);
        return spent();
    }
    let made = write_room::make_room(p, chip, ct, bt, bst, wear, marks, r, pl, n);
    let c = rules::cluster_of(p, lba);
    let old = read_work::find_frame(p, chip, ct, bt, c);
    let v = made.vblock;
    let f = made.frame;
    write_cluster::put_pages(
        p,
        chip,
        bt,
        stamps,
        c,
        r,
        lba,
        count,
        bytes,
        old.spot,
        v,
        f,
        k - room,
    );
    chip_lost::lose(ct, bt, fst, bst, marks, stamps);
    spent()
}

// The work of an accepted write with a budget, whose plan writes block n:
// the plain write where the budget has more than its operations, and else cut.
fn limit_planned(
    p: Params,
    chip: &mut [u8],
    ct: &mut [u16],
    bt: &mut [u16],
    fst: &mut [u16],
    bst: &mut [u8],
    wear: &mut [u32],
    marks: &mut [u64],
    stamps: &mut [u32],
    lba: usize,
    count: usize,
    bytes: &[u8],
    budget: u64,
    r: usize,
    pl: Planned,
    n: PBlock,
) -> Limited
    requires { PlanMade p (board_of chip.old ct.old bt.old fst.old bst.old wear.old marks.old stamps.old) (request_of lba count bytes.now) r (plan_is pl) n.0 }
    ensures stamps_value { outcome result.answer bytes.now [] (exit_board chip ct bt fst bst wear marks stamps) ≡ step_outcome p (entry_board chip ct bt fst bst wear marks stamps)
        (limited budget (write (request_of lba count bytes.now))) }
    ensures left_value { result.left ≡ budget - length (ops_of (work_of p (entry_board chip ct bt fst bst wear marks stamps) (write (request_of lba count bytes.now))).parts) }
{
    let room = room_ops(p, bt, wear, marks, r, pl);
    let ops = (room + p.alpha) as u64;
    if budget > ops {
        let answer = write_work::write_planned(
            p, chip, ct, bt, fst, bst, wear, marks, stamps, lba, count, bytes, r, pl, n,
        );
        let left = budget - ops;
        return Limited { answer, left };
    }
    cut(
        p,
        chip,
        ct,
        bt,
        fst,
        bst,
        wear,
        marks,
        stamps,
        lba,
        count,
        bytes,
        r,
        pl,
        n,
        room,
        budget as usize,
    )
}

// The work of a write with a budget that no row before the last refuses.
// Where its plan needs a free block and there is none, it is refused, nothing changes, and the whole budget is left.
pub fn write_limited(
    p: Params,
    chip: &mut [u8],
    ct: &mut [u16],
    bt: &mut [u16],
    fst: &mut [u16],
    bst: &mut [u8],
    wear: &mut [u32],
    marks: &mut [u64],
    stamps: &mut [u32],
    lba: usize,
    count: usize,
    bytes: &[u8],
    budget: u64,
) -> Limited
    requires { first_row Reply.Accepted (early_rows p (board_of chip.old ct.old bt.old fst.old bst.old wear.old marks.old stamps.old) (request_of lba count bytes.now)) ≡ Reply.Accepted }
    ensures stamps_value { outcome result.answer bytes.now [] (exit_board chip ct bt fst bst wear marks stamps) ≡ step_outcome p (entry_board chip ct bt fst bst wear marks stamps)
        (limited budget (write (request_of lba count bytes.now))) }
    ensures left_value { result.left ≡ budget - length (ops_of (work_of p (entry_board chip ct bt fst bst wear marks stamps) (write (request_of lba count bytes.now))).parts) }
{
    let r = rules::region_of(p, rules::cluster_of(p, lba));
    let pl = write_plan::plan_of(p, chip, bt, fst, marks, r);
    let Some(n) = write_room::plan_block(p, bt, bst, wear, r, pl) else {
        return Limited {
            answer: write_work::no_block_left(),
            left: budget,
        };
    };
    limit_planned(
        p, chip, ct, bt, fst, bst, wear, marks, stamps, lba, count, bytes, budget, r, pl, n,
    )
}
