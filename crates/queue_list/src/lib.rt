// Document 02, T-01: one call that takes a list of write requests and fills a list of answers.
#![tactic(auto)]

ghost use Rattle.std.specs.Prelude.{◌≡◌};
ghost use Rattle.rules.specs.Lent.{entry_board, exit_board};
ghost use Rattle.rules.specs.Requests.{queue, queue_of};
ghost use Rattle.rules.specs.Calls.{outcome_of};
ghost use Rattle.outcomes.specs.Claims.{outcome};

use rules::{Answer, Item, Params, Reply, Seen};

// The items are written in list order, each answered in its place; the state is checked once.
pub fn queue(
    p: Params,
    chip: &mut [u8],
    ct: &mut [u16],
    bt: &mut [u16],
    fst: &mut [u16],
    bst: &mut [u8],
    wear: &mut [u32],
    marks: &mut [u64],
    stamps: &mut [u32],
    requests: &[Item],
    bytes: &[u8],
    answers: &mut [Answer],
) -> Answer
    ensures { outcome result bytes.now answers.new (exit_board chip ct bt fst bst wear marks stamps) ≡ outcome_of p (entry_board chip ct bt fst bst wear marks stamps)
        (queue (queue_of requests.now bytes.now answers.old)) }
{
    let h = match queue_head::head_of(
        p,
        Seen {
            chip,
            ct,
            bt,
            fst,
            bst,
            wear,
            marks,
            stamps,
        },
        requests.len(),
        answers.len(),
    ) {
        Ok(h) => h,
        Err(reply) => return reply_rows::idle(reply),
    };
    for i in 0..h.items {
        let q = requests[i];
        let a = queue_item::item(
            p, chip, ct, bt, fst, bst, wear, marks, stamps, h.ordered, q.lba, q.count, q.first,
            bytes,
        );
        answers[i] = a;
    }
    reply_rows::idle(Reply::Accepted)
}
