// Document 02, T-03, the release, on the lent chip and tables, with T-06's table of marks. No `requires`: the contract says that the whole outcome is the rules', for every input.
#![tactic(auto)]

ghost use Rattle.std.specs.Prelude.{◌≡◌, []};
ghost use Rattle.rules.specs.Tables.{board_of};
ghost use Rattle.rules.specs.Requests.{release};
ghost use Rattle.rules.specs.Calls.{outcome_of};
ghost use Rattle.outcomes.specs.Claims.{outcome};

use rules::{Answer, Cluster, Params, Reply, Seen, Segment};

// The cluster's CT entry becomes none: its sectors read as 255 from now on, and no reclaim copies its frames.
pub fn release(
    p: Params,
    chip: &[u8],
    ct: &mut [u16],
    bt: &[u16],
    fst: &[u16],
    bst: &[u8],
    wear: &[u32],
    marks: &mut [u64],
    stamps: &mut [u32],
    cluster: u32,
) -> Answer
    ensures { outcome result [] [] (board_of chip.now ct.new bt.now fst.now bst.now wear.now marks.new stamps.new) ≡ outcome_of p (board_of chip.now ct.old bt.now fst.now bst.now wear.now marks.old stamps.old) (release cluster) }
{
    if let Err(reply) = replies::release_reply(
        p,
        Seen {
            chip,
            ct,
            bt,
            fst,
            bst,
            wear,
            marks,
            stamps,
        },
        cluster,
    ) {
        return reply_rows::idle(reply);
    }
    let c = Cluster(cluster as usize);
    let old = read_work::find_frame(p, chip, ct, bt, c);
    write_marks::unmark(p, marks, rules::region_of(p, c), old.spot);
    chip_tables::set_ct(ct, c, Segment(rules::NONE));
    reply_rows::idle(Reply::Accepted)
}
