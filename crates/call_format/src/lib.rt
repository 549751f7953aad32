// Document 01, "Format", on the lent chip and tables. No `requires`: the contract says that the whole outcome is the rules', for every input.
#![tactic(auto)]

ghost use Rattle.std.specs.Prelude.{◌≡◌, []};
ghost use Rattle.rules.specs.declared.Reply.TheVariants.{Accepted};
ghost use Rattle.rules.specs.Tables.{board_of};
ghost use Rattle.rules.specs.Lent.{entry_board, exit_board};
ghost use Rattle.rules.specs.Requests.{format};
ghost use Rattle.rules.specs.Replies.{reply_of};
ghost use Rattle.rules.specs.Calls.{outcome_of};
ghost use Rattle.rules.specs.Cuts.{limited, step_outcome};
ghost use Rattle.outcomes.specs.Claims.{outcome};

use rules::{Answer, Params, Reply, Seen};

// What an accepted format does: the bad blocks become reserved, all others are erased and free, or reserved where that wears them out, every table entry becomes none
// and every mark 0. The answer counts the erases.
fn format_all(
    p: Params,
    chip: &mut [u8],
    ct: &mut [u16],
    bt: &mut [u16],
    fst: &mut [u16],
    bst: &mut [u8],
    wear: &mut [u32],
    marks: &mut [u64],
    stamps: &mut [u32],
) -> Answer
    requires { reply_of p (board_of chip.old ct.old bt.old fst.old bst.old wear.old marks.old stamps.old) format ≡ Accepted }
    ensures { outcome result [] [] (exit_board chip ct bt fst bst wear marks stamps) ≡ outcome_of p (entry_board chip ct bt fst bst wear marks stamps) format }
{
    format_work::clear(ct);
    format_work::clear(bt);
    format_work::clear(fst);
    chip_marks::clear_all(marks);
    chip_tables::clear_stamps(stamps);
    let k = format_work::format_blocks(p, chip, bst, wear);
    Answer {
        reply: Reply::Accepted,
        programs: 0,
        erases: k as u32,
        looks: 0,
    }
}

// Every block that is not bad is erased, and every table is made anew.
pub fn format(
    p: Params,
    chip: &mut [u8],
    ct: &mut [u16],
    bt: &mut [u16],
    fst: &mut [u16],
    bst: &mut [u8],
    wear: &mut [u32],
    marks: &mut [u64],
    stamps: &mut [u32],
) -> Answer
    ensures { outcome result [] [] (exit_board chip ct bt fst bst wear marks stamps) ≡ outcome_of p (entry_board chip ct bt fst bst wear marks stamps) format }
{
    if let Err(reply) = replies::format_reply(
        p,
        Seen {
            chip,
            ct,
            bt,
            fst,
            bst,
            wear,
            marks,
            stamps,
        },
    ) {
        return reply_rows::idle(reply);
    }
    format_all(p, chip, ct, bt, fst, bst, wear, marks, stamps)
}

// The same with a budget of erases and marks. Where a format makes that many or more, so many are made, the tables are lost, and the answer counts nothing.
pub fn format_cut(
    p: Params,
    chip: &mut [u8],
    ct: &mut [u16],
    bt: &mut [u16],
    fst: &mut [u16],
    bst: &mut [u8],
    wear: &mut [u32],
    marks: &mut [u64],
    stamps: &mut [u32],
    budget: u64,
) -> Answer
    ensures { outcome result [] [] (exit_board chip ct bt fst bst wear marks stamps) ≡ step_outcome p (entry_board chip ct bt fst bst wear marks stamps) (limited budget format) }
{
    if let Err(reply) = replies::format_reply(
        p,
        Seen {
            chip,
            ct,
            bt,
            fst,
            bst,
            wear,
            marks,
            stamps,
        },
    ) {
        return reply_rows::idle(reply);
    }
    format_work::reserve_bad(p, chip, bst);
    if budget > cut_erases::count_listed(p, bst, wear) as u64 {
        return format_all(p, chip, ct, bt, fst, bst, wear, marks, stamps);
    }
    cut_erases::cut_after(
        p,
        chip,
        ct,
        bt,
        fst,
        bst,
        wear,
        marks,
        stamps,
        budget as usize,
    );
    reply_rows::idle(Reply::Accepted)
}
