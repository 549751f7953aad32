// Document 01, "Read", on the lent chip and tables. No `requires`: the contract says that the whole outcome is the rules', for every input.
#![tactic(auto)]

ghost use Rattle.std.specs.Prelude.{◌≡◌, []};
ghost use Rattle.rules.specs.Lent.{board_seen};
ghost use Rattle.rules.specs.Requests.{read, request_of};
ghost use Rattle.rules.specs.Calls.{outcome_of};
ghost use Rattle.outcomes.specs.Claims.{outcome};

use rules::{Answer, Params, Reply, Seen};

// The lent data becomes the sectors asked for; 255 in those that were not written since the last format.
pub fn read(p: Params, board: Seen<'_>, lba: u32, count: u32, bytes: &mut [u8]) -> Answer
    ensures { outcome result bytes.new [] (board_seen board.entry) ≡ outcome_of p (board_seen board.entry)
        (read (request_of lba count bytes.old)) }
{
    if let Err(reply) = replies::read_reply(p, board, lba, count, bytes.len()) {
        return reply_rows::idle(reply);
    }
    let looks = read_work::read_sectors(
        p,
        board.chip,
        board.ct,
        board.bt,
        lba as usize,
        count as usize,
        bytes,
    );
    reply_rows::looked(Reply::Accepted, looks)
}
