// Document 02, T-01: the head of a queue of writes, which is what the call is answered as a whole, before its items. It looks at lengths and state once,
// for all of them.
#![tactic(auto)]

ghost use Rattle.rules.specs.Lent.{board_seen};
ghost use Rattle.queue_head.specs.Heads.{FlatHead, HeadIs};

use rules::{Params, Reply, Seen};

// What the head of a call that is let through found: whether the state is orderly, and how many items are to be served.
#[derive(Clone, Copy)]
pub struct Head {
    pub ordered: bool,
    pub items: usize,
}

// The one look at the state, where the call itself is not refused with 1, 2 or 8.
#[inline(always)]
pub fn head_of(p: Params, board: Seen<'_>, items: usize, answers: usize) -> Result<Head, Reply>
    ensures { HeadIs p (board_seen board.entry) items answers result }
{
    replies::board_reply(p, board)?;
    if answers < items {
        return Err(Reply::TooFewAnswers);
    }
    let state = replies::state_reply(
        p,
        board.chip,
        board.ct,
        board.bt,
        board.fst,
        board.bst,
        board.marks,
        board.stamps,
    );
    Ok(Head {
        ordered: state.is_ok(),
        items,
    })
}

// The head of a queue whose request list has `len` numbers:
// 1 comes first, then 2 where they are not three to a request.
#[inline(always)]
pub fn head_flat(p: Params, board: Seen<'_>, len: usize, answers: usize) -> Result<Head, Reply>
    ensures { FlatHead p (board_seen board.entry) len answers result }
{
    if !chip_sizes::parameters_allowed(p) {
        return Err(Reply::BadParameter);
    }
    if len % 3 != 0 {
        return Err(Reply::WrongLength);
    }
    head_of(p, board, len / 3, answers)
}
