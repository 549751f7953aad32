// Document 01, "Write", on the lent chip and tables, with T-06's table of marks. No `requires`: the contract says that the whole outcome is the rules', for every input.
#![tactic(auto)]

ghost use Rattle.std.specs.Prelude.{◌≡◌, []};
ghost use Rattle.rules.specs.Lent.{entry_board, exit_board};
ghost use Rattle.rules.specs.Requests.{write, request_of};
ghost use Rattle.rules.specs.Calls.{outcome_of};
ghost use Rattle.rules.specs.Cuts.{limited, step_outcome};
ghost use Rattle.outcomes.specs.Claims.{outcome};

use rules::{Answer, Params, Seen};

// The cluster of the LBA is rewritten with the lent data in the sectors asked for.
pub fn write(
    p: Params,
    chip: &mut [u8],
    ct: &mut [u16],
    bt: &mut [u16],
    fst: &mut [u16],
    bst: &mut [u8],
    wear: &mut [u32],
    marks: &mut [u64],
    stamps: &mut [u32],
    lba: u32,
    count: u32,
    bytes: &[u8],
) -> Answer
    ensures { outcome result bytes.now [] (exit_board chip ct bt fst bst wear marks stamps) ≡ outcome_of p (entry_board chip ct bt fst bst wear marks stamps)
        (write (request_of lba count bytes.now)) }
{
    if let Err(reply) = replies::write_reply(
        p,
        Seen {
            chip,
            ct,
            bt,
            fst,
            bst,
            wear,
            marks,
            stamps,
        },
        lba,
        count,
        bytes.len(),
    ) {
        return reply_rows::idle(reply);
    }
    write_work::write_orderly(
        p,
        chip,
        ct,
        bt,
        fst,
        bst,
        wear,
        marks,
        stamps,
        lba as usize,
        count as usize,
        bytes,
    )
}

// The same with a budget of programs and erases: where the write has as many or more, it stops when that many are made, answers 0 with counts 0, and leaves the
// tables all ones.
pub fn write_cut(
    p: Params,
    chip: &mut [u8],
    ct: &mut [u16],
    bt: &mut [u16],
    fst: &mut [u16],
    bst: &mut [u8],
    wear: &mut [u32],
    marks: &mut [u64],
    stamps: &mut [u32],
    lba: u32,
    count: u32,
    bytes: &[u8],
    budget: u64,
) -> Answer
    ensures { outcome result bytes.now [] (exit_board chip ct bt fst bst wear marks stamps) ≡ step_outcome p (entry_board chip ct bt fst bst wear marks stamps)
        (limited budget (write (request_of lba count bytes.now))) }
{
    if let Err(reply) = replies::write_reply(
        p,
        Seen {
            chip,
            ct,
            bt,
            fst,
            bst,
            wear,
            marks,
            stamps,
        },
        lba,
        count,
        bytes.len(),
    ) {
        return reply_rows::idle(reply);
    }
    let at = lba as usize;
    let n = count as usize;
    let l = cut_write::write_limited(
        p, chip, ct, bt, fst, bst, wear, marks, stamps, at, n, bytes, budget,
    );
    l.answer
}
