// Document 02's T-07, "Start from the chip alone", on the lent chip and tables. No `requires`: the contract says that the whole outcome is the rules', for every input.
#![tactic(auto)]

ghost use Rattle.std.specs.Prelude.{◌≡◌, []};
ghost use Rattle.rules.specs.declared.Reply.TheVariants.{Accepted};
ghost use Rattle.rules.specs.Tables.{board_of};
ghost use Rattle.rules.specs.Lent.{entry_board, exit_board, board_seen};
ghost use Rattle.rules.specs.Requests.{start};
ghost use Rattle.rules.specs.Replies.{reply_of};
ghost use Rattle.rules.specs.Calls.{outcome_of};
ghost use Rattle.rules.specs.Cuts.{limited, step_outcome};
ghost use Rattle.outcomes.specs.Claims.{outcome};
ghost use Rattle.reply_rows.specs.Verdicts.{Verdict};

use rules::{Answer, Params, Reply, Seen};

// Lets a start through, or refuses it with 1 or 2, or with 7 where the chip is none to start from.
#[inline(always)]
fn start_reply(p: Params, board: Seen<'_>) -> Result<(), Reply>
    ensures { Verdict result (reply_of p (board_seen board.entry) start) }
{
    replies::board_reply(p, board)?;
    if !check_start::can_start(p, board.chip) {
        return Err(Reply::NotOrderly);
    }
    Ok(())
}

// What an accepted start does: the blocks that are left over are erased, and marked where that wears them out, and every table but the wear is rebuilt from the chip. The answer counts the erases.
fn rebuild(
    p: Params,
    chip: &mut [u8],
    ct: &mut [u16],
    bt: &mut [u16],
    fst: &mut [u16],
    bst: &mut [u8],
    wear: &mut [u32],
    marks: &mut [u64],
    stamps: &mut [u32],
) -> Answer
    requires { reply_of p (board_of chip.old ct.old bt.old fst.old bst.old wear.old marks.old stamps.old) start ≡ Accepted }
    ensures { outcome result [] [] (exit_board chip ct bt fst bst wear marks stamps) ≡ outcome_of p (entry_board chip ct bt fst bst wear marks stamps) start }
{
    let k = start_work::start_all(p, chip, ct, bt, fst, bst, wear, marks, stamps);
    Answer {
        reply: Reply::Accepted,
        programs: 0,
        erases: k as u32,
        looks: 0,
    }
}

// The blocks that are left over are erased, and every table but the wear is rebuilt from the chip.
pub fn start(
    p: Params,
    chip: &mut [u8],
    ct: &mut [u16],
    bt: &mut [u16],
    fst: &mut [u16],
    bst: &mut [u8],
    wear: &mut [u32],
    marks: &mut [u64],
    stamps: &mut [u32],
) -> Answer
    ensures { outcome result [] [] (exit_board chip ct bt fst bst wear marks stamps) ≡ outcome_of p (entry_board chip ct bt fst bst wear marks stamps) start }
{
    if let Err(reply) = start_reply(
        p,
        Seen {
            chip,
            ct,
            bt,
            fst,
            bst,
            wear,
            marks,
            stamps,
        },
    ) {
        return reply_rows::idle(reply);
    }
    rebuild(p, chip, ct, bt, fst, bst, wear, marks, stamps)
}

// The same with a budget of erases and marks. Where a start makes that many or more, so many are made, the tables are lost, and the answer counts nothing.
pub fn start_cut(
    p: Params,
    chip: &mut [u8],
    ct: &mut [u16],
    bt: &mut [u16],
    fst: &mut [u16],
    bst: &mut [u8],
    wear: &mut [u32],
    marks: &mut [u64],
    stamps: &mut [u32],
    budget: u64,
) -> Answer
    ensures { outcome result [] [] (exit_board chip ct bt fst bst wear marks stamps) ≡ step_outcome p (entry_board chip ct bt fst bst wear marks stamps) (limited budget start) }
{
    if let Err(reply) = start_reply(
        p,
        Seen {
            chip,
            ct,
            bt,
            fst,
            bst,
            wear,
            marks,
            stamps,
        },
    ) {
        return reply_rows::idle(reply);
    }
    start_blocks::list_left(p, chip, bt, bst);
    if budget > cut_erases::count_listed(p, bst, wear) as u64 {
        return rebuild(p, chip, ct, bt, fst, bst, wear, marks, stamps);
    }
    cut_erases::cut_after(
        p,
        chip,
        ct,
        bt,
        fst,
        bst,
        wear,
        marks,
        stamps,
        budget as usize,
    );
    reply_rows::idle(Reply::Accepted)
}
