// Document 01, "Write", on a state that is known to be orderly: where the write goes.
#![tactic(auto)]

ghost use Rattle.std.specs.Prelude.{◌≡◌, List, [], ℕ, length};
ghost use Rattle.rules.specs.Tables.{board_of, marks_length};
ghost use Rattle.rules.specs.Regions.{view_of};
ghost use Rattle.rules.specs.Write.{plan_of};
ghost use Rattle.rules.specs.Marks.{marks_of};
ghost use Rattle.write_plan.specs.Plans.{PlanAsked, next_in, plan_is};

use rules::{Params, VBlock};

// Where a write goes: frame f of the open virtual block; a virtual block that takes a free block; a virtual block that is reclaimed.
#[derive(Clone, Copy)]
pub enum Planned {
    Continues(VBlock, usize),
    Opens(VBlock),
    Reclaims(VBlock),
}

// The frame after the programmed ones of region r's open block, which is in the segment that FST names or just after it; F where there is no open block.
fn next_frame(p: Params, chip: &[u8], bt: &[u16], fst: &[u16], r: usize) -> usize
    requires { PlanAsked p chip.now bt.now fst.now r }
    ensures { result ≡ next_in p chip.now bt.now fst.now r }
{
    let Some(sg) = chip_tables::last_named(fst, r) else {
        return chip_sizes::frames(p);
    };
    let v = rules::vblock_of(p, sg);
    let n = chip_tables::bt_at(p, bt, r, v);
    let from = rules::place_of(p, sg) * p.beta;
    chip_blocks::next_free(p, chip_blocks::block_of(p, chip, n), from)
}

// The plan of a write to region r.
pub fn plan_of(p: Params, chip: &[u8], bt: &[u16], fst: &[u16], marks: &[u64], r: usize) -> Planned
    requires plan_asked { PlanAsked p chip.now bt.now fst.now r }
    requires marks_len { length marks.now ≡ marks_length p }
    ensures { (ct : List ℕ) → marks.now ≡ marks_of p (board_of chip.now ct bt.now fst.now [] [] [] [])
        → plan_is result ≡ plan_of p (view_of p chip.now ct bt.now fst.now r) }
{
    let f = next_frame(p, chip, bt, fst, r);
    if f < chip_sizes::frames(p) {
        return Planned::Continues(rules::vblock_of(p, chip_tables::fst_at(fst, r)), f);
    }
    if let Some(v) = write_choose::lowest_unassigned(p, bt, r) {
        return Planned::Opens(v);
    }
    Planned::Reclaims(write_choose::victim(p, marks, r))
}
