// T-01's queue as C lends it: the requests as a flat list of numbers, three to each, and the answers as numbers. The items are those of `queue_item`.
#![tactic(auto)]

ghost use Rattle.std.specs.Prelude.{◌≡◌, take};
ghost use Rattle.queue_turns.specs.Served.{served_from};
ghost use Rattle.rules.specs.Tables.{board_of};
ghost use Rattle.rules.specs.Lent.{entry_board, exit_board};
ghost use Rattle.queue_head.specs.Heads.{Ready};
ghost use Rattle.c_answer.specs.Packed.{packed};
ghost use Rattle.c_queue.specs.Flat.{TurnAsked, TurnDone, TurnsAsked, flat_call, flat_outcome, items_of};

use rules::{Params, Seen};

// One turn of the queue: the i-th request is served,
// and its answer packed into its place.
fn turn(
    p: Params,
    chip: &mut [u8],
    ct: &mut [u16],
    bt: &mut [u16],
    fst: &mut [u16],
    bst: &mut [u8],
    wear: &mut [u32],
    marks: &mut [u64],
    stamps: &mut [u32],
    ordered: bool,
    requests: &[u32],
    bytes: &[u8],
    answers: &mut [u64],
    i: usize,
)
    requires ready { Ready p ordered (board_of chip.old ct.old bt.old fst.old bst.old wear.old marks.old stamps.old) }
    requires turn_asked { TurnAsked requests.now answers.old i }
    ensures { TurnDone p ordered (entry_board chip ct bt fst bst wear marks stamps) requests.now bytes.now answers.old i
        (exit_board chip ct bt fst bst wear marks stamps) answers.new }
{
    let a = queue_item::item(
        p,
        chip,
        ct,
        bt,
        fst,
        bst,
        wear,
        marks,
        stamps,
        ordered,
        requests[3 * i],
        requests[3 * i + 1],
        requests[3 * i + 2],
        bytes,
    );
    c_answer::put(answers, i, a);
}

// The first n requests are served,
// one after the other.
fn turns(
    p: Params,
    chip: &mut [u8],
    ct: &mut [u16],
    bt: &mut [u16],
    fst: &mut [u16],
    bst: &mut [u8],
    wear: &mut [u32],
    marks: &mut [u64],
    stamps: &mut [u32],
    ordered: bool,
    requests: &[u32],
    bytes: &[u8],
    answers: &mut [u64],
    n: usize,
)
    requires { TurnsAsked p ordered (board_of chip.old ct.old bt.old fst.old bst.old wear.old marks.old stamps.old) requests.now answers.old n }
    ensures { (exit_board chip ct bt fst bst wear marks stamps, answers.new) ≡ served_from packed p bytes.now (take n (items_of requests.now)) 0
        (entry_board chip ct bt fst bst wear marks stamps) answers.old }
{
    for i in 0..n {
        turn(
            p, chip, ct, bt, fst, bst, wear, marks, stamps, ordered, requests, bytes, answers, i,
        );
    }
}

// The items are written in list order, each answered in its place; the state is checked once.
// Returns the call's own reply, which is 0 where it is let through.
pub fn queue(
    p: Params,
    chip: &mut [u8],
    ct: &mut [u16],
    bt: &mut [u16],
    fst: &mut [u16],
    bst: &mut [u8],
    wear: &mut [u32],
    marks: &mut [u64],
    stamps: &mut [u32],
    requests: &[u32],
    bytes: &[u8],
    answers: &mut [u64],
) -> u64
    ensures { flat_outcome result answers.new (exit_board chip ct bt fst bst wear marks stamps) ≡ flat_call p (entry_board chip ct bt fst bst wear marks stamps)
        requests.now bytes.now answers.old }
{
    let h = match queue_head::head_flat(
        p,
        Seen {
            chip,
            ct,
            bt,
            fst,
            bst,
            wear,
            marks,
            stamps,
        },
        requests.len(),
        answers.len(),
    ) {
        Ok(h) => h,
        Err(reply) => return u32::from(reply) as u64,
    };
    turns(
        p, chip, ct, bt, fst, bst, wear, marks, stamps, h.ordered, requests, bytes, answers,
        h.items,
    );
    0
}
