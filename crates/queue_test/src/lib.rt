// A queue of two writes with plain parameters, so that the queue of crate `queue_list` can be run by a test.
#![tactic(auto)]

ghost use Rattle.std.specs.Prelude.{◌≡◌, [], ◌∷◌};
ghost use Rattle.rules.specs.Lent.{entry_board, exit_board};
ghost use Rattle.rules.specs.Requests.{item_of, queue, queue_of};
ghost use Rattle.rules.specs.Calls.{outcome_of};
ghost use Rattle.outcomes.specs.Claims.{outcome};
ghost use Rattle.c_answer.specs.Packed.{params_of};
ghost use Rattle.queue_test.specs.Two.{Two, placed, unset};

use rules::{Answer, Item, Params, Reply};

// What two writes as one queue gave: the call's own answer and each item's.
#[derive(Clone, Copy)]
pub struct Pair {
    pub own: Answer,
    pub first: Answer,
    pub second: Answer,
}

// Two writes as one queue, with an answer list that holds `blank` twice.
fn two(
    p: Params,
    chip: &mut [u8],
    ct: &mut [u16],
    bt: &mut [u16],
    fst: &mut [u16],
    bst: &mut [u8],
    wear: &mut [u32],
    marks: &mut [u64],
    stamps: &mut [u32],
    a: Item,
    b: Item,
    bytes: &[u8],
    blank: Answer,
) -> Pair
    ensures { outcome result.own bytes.now (result.first ∷ result.second ∷ []) (exit_board chip ct bt fst bst wear marks stamps)
        ≡ outcome_of p (entry_board chip ct bt fst bst wear marks stamps) (queue (queue_of (a ∷ b ∷ []) bytes.now (blank ∷ blank ∷ []))) }
{
    let requests = [a, b];
    let mut answers = [blank, blank];
    let own = queue_list::queue(
        p,
        chip,
        ct,
        bt,
        fst,
        bst,
        wear,
        marks,
        stamps,
        &requests,
        bytes,
        &mut answers,
    );
    Pair {
        own,
        first: answers[0],
        second: answers[1],
    }
}

// Two writes as one queue, with plain parameters.
pub fn queue_two(
    p: Params,
    chip: &mut [u8],
    ct: &mut [u16],
    bt: &mut [u16],
    fst: &mut [u16],
    bst: &mut [u8],
    wear: &mut [u32],
    marks: &mut [u64],
    stamps: &mut [u32],
    lba: u32,
    count: u32,
    first: u32,
    lba2: u32,
    count2: u32,
    first2: u32,
    bytes: &[u8],
) -> Pair
    ensures { outcome result.own bytes.now (result.first ∷ result.second ∷ []) (exit_board chip ct bt fst bst wear marks stamps)
        ≡ outcome_of p (entry_board chip ct bt fst bst wear marks stamps) (queue (queue_of (item_of lba count first ∷ item_of lba2 count2 first2 ∷ []) bytes.now (unset ∷ unset ∷ []))) }
{
    let a = Item {
        lba: lba,
        count: count,
        first: first,
    };
    let b = Item {
        lba: lba2,
        count: count2,
        first: first2,
    };
    let blank = Answer {
        reply: Reply::Accepted,
        programs: 0,
        erases: 0,
        looks: 0,
    };
    two(
        p, chip, ct, bt, fst, bst, wear, marks, stamps, a, b, bytes, blank,
    )
}

// Both answers' numbers in the first places, and then their counts of spare areas, where there are four places or more.
fn put_both(answers: &mut [u64], first: u64, second: u64, looks: u32, looks2: u32)
    ensures { answers.new ≡ placed (first ∷ second ∷ looks ∷ looks2 ∷ []) answers.old }
{
    if answers.len() >= 4 {
        answers[0] = first;
        answers[1] = second;
        answers[2] = looks as u64;
        answers[3] = looks2 as u64;
    }
}

// The same for C, with the parameters one by one, each answer as one number and then the count that is not in it.
#[unsafe(no_mangle)]
pub extern "C" fn cnftl_queue_two(
    s: u32,
    alpha: u32,
    beta: u32,
    d: u32,
    mu: u32,
    gamma: u32,
    c: u32,
    n: u32,
    e: u32,
    chip: &mut [u8],
    ct: &mut [u16],
    bt: &mut [u16],
    fst: &mut [u16],
    bst: &mut [u8],
    wear: &mut [u32],
    marks: &mut [u64],
    stamps: &mut [u32],
    lba: u32,
    count: u32,
    first: u32,
    lba2: u32,
    count2: u32,
    first2: u32,
    bytes: &[u8],
    answers: &mut [u64],
) -> u64
    ensures { Two (outcome_of (params_of s alpha beta d mu gamma c n e) (entry_board chip ct bt fst bst wear marks stamps)
        (queue (queue_of (item_of lba count first ∷ item_of lba2 count2 first2 ∷ []) bytes.now (unset ∷ unset ∷ [])))) bytes.now answers.old result
        answers.new (exit_board chip ct bt fst bst wear marks stamps) }
{
    let p = c_answer::params(s, alpha, beta, d, mu, gamma, c, n, e);
    let r = queue_two(
        p, chip, ct, bt, fst, bst, wear, marks, stamps, lba, count, first, lba2, count2, first2,
        bytes,
    );
    let own = r.own;
    let a = r.first;
    let b = r.second;
    put_both(
        answers,
        c_answer::pack(a),
        c_answer::pack(b),
        a.looks,
        b.looks,
    );
    c_answer::pack(own)
}
