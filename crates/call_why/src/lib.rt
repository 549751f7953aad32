// Document 02, T-05: why a sector reads so, and what a write of it would do; with T-06's table of marks.
#![tactic(auto)]

ghost use Rattle.std.specs.Prelude.{◌≡◌, true, List, [], ℕ, ◌<◌, eqb, length};
ghost use Rattle.rules.specs.Regions.{view, view_of};
ghost use Rattle.rules.specs.Tables.{Board, board_of, not_found, stamp_at};
ghost use Rattle.rules.specs.Lent.{board_seen};
ghost use Rattle.rules.specs.Write.{plan_block, plan_of};
ghost use Rattle.rules.specs.Marks.{marks_of};
ghost use Rattle.read_work.specs.Lookup.{Within};
ghost use Rattle.write_plan.specs.Plans.{plan_is};
ghost use Rattle.call_why.specs.Asked.{ForecastAsked, PlaceAsked, VictimAsked};
ghost use Rattle.call_why.specs.Why.{Small, forecast_in, forecast_numbers, holder_of, numbers_of, place_numbers, plan_numbers, why_of};

use check_broken::Rule;
use read_work::Spot;
use rules::{Cluster, PBlock, Params, Reply, Seen, Segment, VBlock};
use write_plan::Planned;

// Where a cluster is held: its region, its segment, the virtual and the physical block, and the frame of that block.
#[derive(Clone, Copy)]
pub struct Place {
    pub region: usize,
    pub segment: Segment,
    pub vblock: VBlock,
    pub pblock: PBlock,
    pub frame: usize,
}

// What a write would do: take this frame of the open virtual block; open a virtual block; reclaim one that has so many valid frames; or be refused, as its region
// has no stamp left, or as it needs a free block and there is none.
#[derive(Clone, Copy)]
pub enum Forecast {
    Continues(VBlock, usize),
    Opens(VBlock),
    Reclaims(VBlock, usize),
    NoStamp,
    NoBlock,
}

// Why a sector reads so: the call is refused, or the state or its marks are not in order, by the first broken rule; or no frame is held, or one is held there,
// which a read or a write finds with so many looks at spare areas.
#[derive(Clone, Copy)]
pub enum Why {
    Refused(Reply),
    Disordered(Rule),
    Empty(Forecast),
    Held(Place, Forecast, u32),
}

// What a plan of a write to region r is told as: where it reclaims, the marks of the virtual block are counted.
fn planned(p: Params, marks: &[u64], r: usize, pl: Planned) -> Forecast
    requires { VictimAsked p marks.now r (plan_is pl) }
    ensures { (b : Board) → marks.now ≡ marks_of p b → forecast_numbers result ≡ plan_numbers p (view p b r) (plan_is pl) }
{
    match pl {
        Planned::Continues(v, f) => Forecast::Continues(v, f),
        Planned::Opens(v) => Forecast::Opens(v),
        Planned::Reclaims(v) => Forecast::Reclaims(v, chip_marks::count_marks(p, marks, r, v)),
    }
}

// What a write to region r would do, on a state that is known to be orderly: its plan, if the region has a stamp left and the plan a block to write.
fn forecast_of(p: Params, board: Seen<'_>, r: usize) -> Forecast
    requires forecast_asked { ForecastAsked p board.chip.now board.bt.now board.fst.now board.bst.now board.wear.now board.marks.now r }
    requires r_in_bounds { r < length board.stamps.now }
    ensures { (ct : List ℕ) → board.entry.marks.now ≡ marks_of p (board_of board.entry.chip.now ct board.entry.bt.now board.entry.fst.now [] [] [] [])
        → forecast_numbers result ≡ forecast_in p (stamp_at board.entry.stamps.now r)
        (eqb (plan_block p (board_of board.entry.chip.now ct board.entry.bt.now board.entry.fst.now board.entry.bst.now board.entry.wear.now board.entry.marks.now board.entry.stamps.now) r
        (plan_of p (view_of p board.entry.chip.now ct board.entry.bt.now board.entry.fst.now r))) not_found) (view_of p board.entry.chip.now ct board.entry.bt.now board.entry.fst.now r) }
{
    if chip_tables::stamp_at(board.stamps, r) == rules::LAST_STAMP {
        return Forecast::NoStamp;
    }
    let pl = write_plan::plan_of(p, board.chip, board.bt, board.fst, board.marks, r);
    let Some(_) = write_room::plan_block(p, board.bt, board.bst, board.wear, r, pl) else {
        return Forecast::NoBlock;
    };
    planned(p, board.marks, r, pl)
}

// The place of cluster c, which the lookup found there.
fn place_at(p: Params, ct: &[u16], bt: &[u16], c: Cluster, at: Spot) -> Place
    requires { PlaceAsked p ct.now bt.now c.0 at.vblock.0 }
    ensures { (chip fst bst wear marks stamps : List ℕ) → Within p chip ct.now bt.now c.0 true at.vblock.0 at.inner
        → place_numbers result ≡ holder_of p (board_of chip ct.now bt.now fst bst wear marks stamps) c.0 }
{
    let r = rules::region_of(p, c);
    let v = at.vblock;
    Place {
        region: r,
        segment: chip_tables::ct_at(ct, c),
        vblock: v,
        pblock: chip_tables::bt_at(p, bt, r, v),
        frame: at.inner,
    }
}

// Why the sector at an LBA reads so, and what a write of it would do; each answer is true of every content of the lent chip and tables.
pub fn explain(p: Params, board: Seen<'_>, lba: u32) -> Why
    ensures result_value { numbers_of result ≡ why_of p (board_seen board.entry) lba }
    ensures small { Small (numbers_of result) }
{
    if let Err(reply) = replies::why_reply(p, board, lba) {
        let n = u32::from(reply);
        if n == 7 {
            let broken = check_broken::broken_rule(
                p,
                board.chip,
                board.ct,
                board.bt,
                board.fst,
                board.bst,
                board.marks,
                board.stamps,
            );
            return Why::Disordered(broken);
        }
        return Why::Refused(reply);
    }
    let c = rules::cluster_of(p, lba as usize);
    let fc = forecast_of(p, board, rules::region_of(p, c));
    let at = read_work::find_frame(p, board.chip, board.ct, board.bt, c);
    let Some(spot) = at.spot else {
        return Why::Empty(fc);
    };
    Why::Held(place_at(p, board.ct, board.bt, c, spot), fc, at.looks)
}
