// Document 02, T-01: one item of a queue of writes. The head has looked at lengths and state once, for all items; an item is then the single write
// without that look.
#![tactic(auto)]

ghost use Rattle.std.specs.Prelude.{◌≡◌, true, List, ℕ, length};
ghost use Rattle.rules.specs.Parameters.{allowed};
ghost use Rattle.rules.specs.Tables.{board_of};
ghost use Rattle.rules.specs.Lent.{entry_board, exit_board};
ghost use Rattle.rules.specs.Requests.{item_of, lies};
ghost use Rattle.queue_head.specs.Heads.{Ready};
ghost use Rattle.queue_item.specs.Items.{ItemIs, ItemLimited};

use cut_write::Limited;
use rules::{Answer, Params};

// True if the bytes of an item lie in the data part, of which `len` are lent. The sum cannot wrap: both numbers are of 32 bits, and s is at most 512.
fn has_bytes(p: Params, len: usize, count: u32, first: u32) -> bool
    requires { allowed p ≡ true }
    ensures { (bytes : List ℕ) (lba : ℕ) → length bytes ≡ len → result ≡ lies p bytes (item_of lba count first) }
{
    first as usize + count as usize * p.s <= len
}

// One item: refused by its count, its address, its bytes, the state, its region's last stamp or the lack of a free block, in this order, else written.
pub fn item(
    p: Params,
    chip: &mut [u8],
    ct: &mut [u16],
    bt: &mut [u16],
    fst: &mut [u16],
    bst: &mut [u8],
    wear: &mut [u32],
    marks: &mut [u64],
    stamps: &mut [u32],
    ordered: bool,
    lba: u32,
    count: u32,
    first: u32,
    bytes: &[u8],
) -> Answer
    requires { Ready p ordered (board_of chip.old ct.old bt.old fst.old bst.old wear.old marks.old stamps.old) }
    ensures { ItemIs p ordered (entry_board chip ct bt fst bst wear marks stamps) bytes.now (item_of lba count first) result (exit_board chip ct bt fst bst wear marks stamps) }
{
    let fits = has_bytes(p, bytes.len(), count, first);
    if let Err(reply) = reply_rows::item_reply(p, ordered, stamps, lba, count, fits) {
        return reply_rows::idle(reply);
    }
    let from = first as usize;
    let to = from + count as usize * p.s;
    write_work::write_orderly(
        p,
        chip,
        ct,
        bt,
        fst,
        bst,
        wear,
        marks,
        stamps,
        lba as usize,
        count as usize,
        &bytes[from..to],
    )
}

// The same with what is left of a budget:
// where nothing is left of it after the item, the item was cut.
pub fn item_limited(
    p: Params,
    chip: &mut [u8],
    ct: &mut [u16],
    bt: &mut [u16],
    fst: &mut [u16],
    bst: &mut [u8],
    wear: &mut [u32],
    marks: &mut [u64],
    stamps: &mut [u32],
    ordered: bool,
    lba: u32,
    count: u32,
    first: u32,
    bytes: &[u8],
    budget: u64,
) -> Limited
    requires { Ready p ordered (board_of chip.old ct.old bt.old fst.old bst.old wear.old marks.old stamps.old) }
    ensures { ItemLimited p ordered (entry_board chip ct bt fst bst wear marks stamps) bytes.now budget (item_of lba count first) result.answer result.left
        (exit_board chip ct bt fst bst wear marks stamps) }
{
    let fits = has_bytes(p, bytes.len(), count, first);
    if let Err(refusal) = reply_rows::item_reply(p, ordered, stamps, lba, count, fits) {
        return Limited {
            answer: reply_rows::idle(refusal),
            left: budget,
        };
    }
    let begin = first as usize;
    let to = begin + count as usize * p.s;
    cut_write::write_limited(
        p,
        chip,
        ct,
        bt,
        fst,
        bst,
        wear,
        marks,
        stamps,
        lba as usize,
        count as usize,
        &bytes[begin..to],
        budget,
    )
}
