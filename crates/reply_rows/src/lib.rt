// Document 01, "Reply numbers": the rows that look at the request and at its region's last stamp alone, and the answer of a call that is refused.
#![tactic(auto)]

ghost use Rattle.std.specs.Prelude.{◌≡◌, true, false, not, [], length, OnOk};
ghost use Rattle.rules.specs.Parameters.{allowed};
ghost use Rattle.rules.specs.Tables.{Board};
ghost use Rattle.rules.specs.Orderly.{orderly};
ghost use Rattle.rules.specs.Requests.{Request, request_region};
ghost use Rattle.rules.specs.Replies.{access_rows, bad_address, bad_cluster, bad_count, early_rows, first_row, lengths_fit, stamp_row, wrong_data};
ghost use Rattle.rules.specs.Calls.{answer_of};
ghost use Rattle.reply_rows.specs.Verdicts.{Verdict};

use rules::{Answer, Params, Reply};

// True if count is 0, or LBA mod α + count exceeds α; reply 3 if so.
fn bad_count(p: Params, lba: u32, count: u32) -> bool
    requires { allowed p ≡ true }
    ensures { (q : Request) → q.lba ≡ lba → q.count ≡ count → result ≡ bad_count p q }
{
    if count == 0 {
        return true;
    }
    p.alpha < rules::sector_of(p, lba as usize) + count as usize
}

// True if LBA is C·α or more; reply 4 if so.
pub fn bad_address(p: Params, lba: u32) -> bool
    requires { allowed p ≡ true }
    ensures { result ≡ bad_address p lba }
{
    p.C * p.alpha <= lba as usize
}

// True if the data length is not count × s; reply 5 if so.
pub fn wrong_data(p: Params, count: u32, len: usize) -> bool
    requires { allowed p ≡ true }
    ensures { (q : Request) → q.count ≡ count → length q.bytes ≡ len → result ≡ wrong_data p q }
{
    len != count as usize * p.s
}

// The reply by the request of a read or a write: its count, its address, and whether its data has the wrong length. Refused with 3, 4 or 5.
pub fn request_reply(p: Params, lba: u32, count: u32, wrong: bool) -> Result<(), Reply>
    requires { allowed p ≡ true }
    ensures value { (q : Request) → q.lba ≡ lba → q.count ≡ count → (bad_count p q ≡ false → wrong_data p q ≡ wrong) → Verdict result (first_row Reply.Accepted (access_rows p q)) }
    ensures lba_value { OnOk result (bad_address p lba ≡ false) }
{
    if bad_count(p, lba, count) {
        return Err(Reply::BadCount);
    }
    if bad_address(p, lba) {
        return Err(Reply::BadAddress);
    }
    if wrong {
        return Err(Reply::WrongData);
    }
    Ok(())
}

// True if a cluster is not below C; reply 4 of a release if so.
pub fn bad_cluster(p: Params, c: u32) -> bool
    ensures { result ≡ bad_cluster p c }
{
    p.C <= c as usize
}

// The reply by the last stamp of the LBA's region: refused with 9 where it is the largest.
pub fn stamp_reply(p: Params, stamps: &[u32], lba: u32) -> Result<(), Reply>
    requires p_value { allowed p ≡ true }
    requires lba_value { bad_address p lba ≡ false }
    requires stamps_len { length stamps.now ≡ p.mu }
    ensures { (b : Board) (q : Request) → b.stamps ≡ stamps.now → q.lba ≡ lba → Verdict result (first_row Reply.Accepted (stamp_row p b (request_region p q))) }
{
    let c = rules::cluster_of(p, lba as usize);
    if chip_tables::stamp_at(stamps, rules::region_of(p, c)) == rules::LAST_STAMP {
        return Err(Reply::NoStampLeft);
    }
    Ok(())
}

// The reply to a write whose parameters and lengths are right, by its count, its address, whether its data has the right length, whether the state
// is orderly, and the last stamps: all but 10, which its plan tells.
pub fn item_reply(
    p: Params,
    ordered: bool,
    stamps: &[u32],
    lba: u32,
    count: u32,
    fits: bool,
) -> Result<(), Reply>
    requires p_value { allowed p ≡ true }
    requires stamps_len { length stamps.now ≡ p.mu }
    ensures { (b : Board) (q : Request) → lengths_fit p b ≡ true → ordered ≡ orderly p b → b.stamps ≡ stamps.now → q.lba ≡ lba → q.count ≡ count
        → (bad_count p q ≡ false → wrong_data p q ≡ not fits) → Verdict result (first_row Reply.Accepted (early_rows p b q)) }
{
    request_reply(p, lba, count, !fits)?;
    if !ordered {
        return Err(Reply::NotOrderly);
    }
    stamp_reply(p, stamps, lba)
}

// The answer of a call that programs and erases nothing and looks at so many spare areas: a read.
pub fn looked(r: Reply, looks: u32) -> Answer
    ensures { result ≡ answer_of r [] looks }
{
    Answer {
        reply: r,
        programs: 0,
        erases: 0,
        looks,
    }
}

// The answer of a call that counts nothing: one that is refused, a release, or a queue's own.
pub fn idle(r: Reply) -> Answer
    ensures { result ≡ answer_of r [] 0 }
{
    looked(r, 0)
}
