// T-07: T-01's queue as C lends it, with a budget. Each item gets what is left of it; nothing left says that the queue is cut.
#![tactic(auto)]

ghost use Rattle.std.specs.Prelude.{◌≡◌, take};
ghost use Rattle.rules.specs.Tables.{board_of};
ghost use Rattle.rules.specs.Lent.{entry_board, exit_board};
ghost use Rattle.queue_turns.specs.Limited.{turns_from};
ghost use Rattle.queue_head.specs.Heads.{Ready};
ghost use Rattle.c_answer.specs.Packed.{packed};
ghost use Rattle.c_queue.specs.Flat.{TurnAsked, TurnsAsked, flat_outcome, items_of};
ghost use Rattle.c_queue_cut.specs.Cut.{TurnCut, flat_cut, stage};

use rules::{Params, Seen};

// One turn of the queue: the i-th request is served while something is left of the budget,
// and answered in its place if something is left after it. What is left then.
fn turn(
    p: Params,
    chip: &mut [u8],
    ct: &mut [u16],
    bt: &mut [u16],
    fst: &mut [u16],
    bst: &mut [u8],
    wear: &mut [u32],
    marks: &mut [u64],
    stamps: &mut [u32],
    ordered: bool,
    requests: &[u32],
    bytes: &[u8],
    answers: &mut [u64],
    i: usize,
    left: u64,
) -> u64
    requires ready { (left ≡ 0 → ⊥) → Ready p ordered (board_of chip.old ct.old bt.old fst.old bst.old wear.old marks.old stamps.old) }
    requires turn_asked { TurnAsked requests.now answers.old i }
    ensures { TurnCut p ordered (entry_board chip ct bt fst bst wear marks stamps) requests.now bytes.now answers.old i left
        (exit_board chip ct bt fst bst wear marks stamps) answers.new result }
{
    if left == 0 {
        return 0;
    }
    let l = queue_item::item_limited(
        p,
        chip,
        ct,
        bt,
        fst,
        bst,
        wear,
        marks,
        stamps,
        ordered,
        requests[3 * i],
        requests[3 * i + 1],
        requests[3 * i + 2],
        bytes,
        left,
    );
    let rest = l.left;
    if rest != 0 {
        c_answer::put(answers, i, l.answer);
    }
    rest
}

// The first n requests are served, one after the other.
// What is left of the budget.
fn turns(
    p: Params,
    chip: &mut [u8],
    ct: &mut [u16],
    bt: &mut [u16],
    fst: &mut [u16],
    bst: &mut [u8],
    wear: &mut [u32],
    marks: &mut [u64],
    stamps: &mut [u32],
    ordered: bool,
    requests: &[u32],
    bytes: &[u8],
    answers: &mut [u64],
    n: usize,
    budget: u64,
) -> u64
    requires { TurnsAsked p ordered (board_of chip.old ct.old bt.old fst.old bst.old wear.old marks.old stamps.old) requests.now answers.old n }
    ensures { stage (exit_board chip ct bt fst bst wear marks stamps) answers.new result ≡ turns_from packed p bytes.now (take n (items_of requests.now)) 0
        (stage (entry_board chip ct bt fst bst wear marks stamps) answers.old budget) }
{
    let mut left = budget;
    for i in 0..n {
        left = turn(
            p, chip, ct, bt, fst, bst, wear, marks, stamps, ordered, requests, bytes, answers, i,
            left,
        );
    }
    left
}

// The items are written in list order until the budget is spent, and then the tables are lost.
// The answers of the items that were finished stand. Returns the call's own reply, which is 0 where it is let through.
pub fn queue_cut(
    p: Params,
    chip: &mut [u8],
    ct: &mut [u16],
    bt: &mut [u16],
    fst: &mut [u16],
    bst: &mut [u8],
    wear: &mut [u32],
    marks: &mut [u64],
    stamps: &mut [u32],
    requests: &[u32],
    bytes: &[u8],
    answers: &mut [u64],
    budget: u64,
) -> u64
    ensures { flat_outcome result answers.new (exit_board chip ct bt fst bst wear marks stamps) ≡ flat_cut p (entry_board chip ct bt fst bst wear marks stamps) budget
        requests.now bytes.now answers.old }
{
    let h = match queue_head::head_flat(
        p,
        Seen {
            chip,
            ct,
            bt,
            fst,
            bst,
            wear,
            marks,
            stamps,
        },
        requests.len(),
        answers.len(),
    ) {
        Ok(h) => h,
        Err(reply) => return u32::from(reply) as u64,
    };
    let left = turns(
        p, chip, ct, bt, fst, bst, wear, marks, stamps, h.ordered, requests, bytes, answers,
        h.items, budget,
    );
    if left == 0 {
        chip_lost::lose(ct, bt, fst, bst, marks, stamps);
    }
    0
}
