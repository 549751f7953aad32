// Document 01, "Reply numbers": the rows of each call, checked in the table's order.
#![tactic(auto)]

ghost use Rattle.std.specs.Prelude.{◌≡◌, List, ℕ, length};
ghost use Rattle.rules.specs.Tables.{board_of, marks_length};
ghost use Rattle.rules.specs.Lent.{board_seen};
ghost use Rattle.rules.specs.Requests.{Request, format, read, release};
ghost use Rattle.rules.specs.Replies.{early_rows, first_row, lent_rows, order_row, reply_of, why_reply};
ghost use Rattle.check_rules.specs.Check.{Lengths};
ghost use Rattle.reply_rows.specs.Verdicts.{Verdict};

use rules::{Params, Reply, Seen};

// Lets a call through by the parameters and the lengths, or refuses it with 1 or 2.
#[inline(always)]
pub fn board_reply(p: Params, board: Seen<'_>) -> Result<(), Reply>
    ensures { Verdict result (first_row Reply.Accepted (lent_rows p (board_seen board.entry))) }
{
    if !chip_sizes::parameters_allowed(p) {
        return Err(Reply::BadParameter);
    }
    if !chip_sizes::lengths_fit(
        p,
        board.chip.len(),
        board.ct.len(),
        board.bt.len(),
        board.fst.len(),
        board.bst.len(),
        board.wear.len(),
        board.marks.len(),
        board.stamps.len(),
    ) {
        return Err(Reply::WrongLength);
    }
    Ok(())
}

// Lets a call through where the state is orderly, and refuses it with 7 else. No wear is asked for: whether a state is orderly does not depend on it.
#[inline(always)]
pub fn state_reply(
    p: Params,
    chip: &[u8],
    ct: &[u16],
    bt: &[u16],
    fst: &[u16],
    bst: &[u8],
    marks: &[u64],
    stamps: &[u32],
) -> Result<(), Reply>
    requires lengths { Lengths p chip.now ct.now bt.now fst.now bst.now }
    requires marks_len { length marks.now ≡ marks_length p }
    requires stamps_len { length stamps.now ≡ p.mu }
    ensures { (wear : List ℕ) → Verdict result (first_row Reply.Accepted
        (order_row p (board_of chip.now ct.now bt.now fst.now bst.now wear marks.now stamps.now))) }
{
    if check_board::in_order(p, chip, ct, bt, fst, bst, marks, stamps) {
        return Ok(());
    }
    Err(Reply::NotOrderly)
}

// The reply to a read of `count` sectors from LBA on, with `len` bytes of data.
#[inline(always)]
pub fn read_reply(p: Params, board: Seen<'_>, lba: u32, count: u32, len: usize) -> Result<(), Reply>
    ensures { (q : Request) → q.lba ≡ lba → q.count ≡ count → length q.bytes ≡ len → Verdict result (reply_of p (board_seen board.entry) (read q)) }
{
    board_reply(p, board)?;
    let wrong = reply_rows::wrong_data(p, count, len);
    reply_rows::request_reply(p, lba, count, wrong)?;
    state_reply(
        p,
        board.chip,
        board.ct,
        board.bt,
        board.fst,
        board.bst,
        board.marks,
        board.stamps,
    )
}

// The reply to a write of them, but for 10, which its plan tells: a read's, and 9 where its region has no stamp left.
#[inline(always)]
pub fn write_reply(
    p: Params,
    board: Seen<'_>,
    lba: u32,
    count: u32,
    len: usize,
) -> Result<(), Reply>
    ensures { (q : Request) → q.lba ≡ lba → q.count ≡ count → length q.bytes ≡ len → Verdict result (first_row Reply.Accepted (early_rows p (board_seen board.entry) q)) }
{
    read_reply(p, board, lba, count, len)?;
    reply_rows::stamp_reply(p, board.stamps, lba)
}

// The reply to a release of cluster c.
#[inline(always)]
pub fn release_reply(p: Params, board: Seen<'_>, c: u32) -> Result<(), Reply>
    ensures { Verdict result (reply_of p (board_seen board.entry) (release c)) }
{
    board_reply(p, board)?;
    if reply_rows::bad_cluster(p, c) {
        return Err(Reply::BadAddress);
    }
    state_reply(
        p,
        board.chip,
        board.ct,
        board.bt,
        board.fst,
        board.bst,
        board.marks,
        board.stamps,
    )
}

// The reply to the question why a sector reads so.
#[inline(always)]
pub fn why_reply(p: Params, board: Seen<'_>, lba: u32) -> Result<(), Reply>
    ensures { Verdict result (why_reply p (board_seen board.entry) lba) }
{
    board_reply(p, board)?;
    if reply_rows::bad_address(p, lba) {
        return Err(Reply::BadAddress);
    }
    state_reply(
        p,
        board.chip,
        board.ct,
        board.bt,
        board.fst,
        board.bst,
        board.marks,
        board.stamps,
    )
}

// The reply to a format.
#[inline(always)]
pub fn format_reply(p: Params, board: Seen<'_>) -> Result<(), Reply>
    ensures { Verdict result (reply_of p (board_seen board.entry) format) }
{
    board_reply(p, board)?;
    if chip_bad::count_good(p, board.chip, board.wear) < p.mu * p.gamma + 1 {
        return Err(Reply::TooFewBlocks);
    }
    Ok(())
}
