// Document 01, "Write", on a state that is known to be orderly: the marks that follow it, and its answer.
#![tactic(auto)]

ghost use Rattle.std.specs.Prelude.{◌≡◌, false, cond, ◌<◌, ◌≤◌, eqb, is_some};
ghost use Rattle.read_work.specs.Lookup.{spot_inner, spot_vblock};
ghost use Rattle.rules.specs.Marks.{Marks, table_of};
ghost use Rattle.marks.specs.Kept.{first_marks, put_mark};
ghost use Rattle.chip_marks.specs.Asked.{MarkAsked, WordsAsked};
ghost use Rattle.write_marks.specs.Keeping.{UnmarkAsked, kept_marks, accepted_answer};

use read_work::Spot;
use rules::{Answer, Params, Reply, VBlock};
use write_room::Room;

// After a reclaim the copies, which are valid, stand in the first frames of the virtual block.
fn mark_copies(p: Params, marks: &mut [u64], r: usize, v: VBlock, copied: usize, erases: u32)
    requires { WordsAsked p marks.old r v.0 }
    ensures { (m : Marks) → marks.old ≡ table_of p m → marks.new ≡ table_of p (cond (eqb erases 0) m (first_marks m r v.0 copied)) }
{
    if erases != 0 {
        chip_marks::set_first(p, marks, r, v, copied);
    }
}

// The frame that was found loses its mark, where there is one.
pub fn unmark(p: Params, marks: &mut [u64], r: usize, old: Option<Spot>)
    requires { UnmarkAsked p marks.old r (is_some old) (spot_vblock old) (spot_inner old) }
    ensures { (m : Marks) → marks.old ≡ table_of p m → marks.new ≡ table_of p (cond (is_some old) (put_mark m r (spot_vblock old) (spot_inner old) false) m) }
{
    if let Some(s) = old {
        chip_marks::clear_mark(p, marks, r, s.vblock, s.inner);
    }
}

// The marks follow a write: those of a reclaim's copies, that of the cluster's old frame, and that of its new one.
pub fn keep_marks(p: Params, marks: &mut [u64], r: usize, room: Room, old: Option<Spot>)
    requires mark_asked { MarkAsked p marks.old r room.vblock.0 room.frame }
    requires unmark_asked { UnmarkAsked p marks.old r (is_some old) (spot_vblock old) (spot_inner old) }
    ensures { (m : Marks) → marks.old ≡ table_of p m
        → marks.new ≡ table_of p (kept_marks m r room.vblock.0 room.frame room.copied room.erases (is_some old) (spot_vblock old) (spot_inner old)) }
{
    mark_copies(p, marks, r, room.vblock, room.copied, room.erases);
    unmark(p, marks, r, old);
    chip_marks::set_mark(p, marks, r, room.vblock, room.frame);
}

// What an accepted write answers that copied so many frames, erased so many blocks, and looked at so many spare areas for its cluster.
pub fn answered(p: Params, copied: usize, erases: u32, looks: u32) -> Answer
    requires alpha_bound { p.alpha ≤ 16 }
    requires copied_bound { copied < 256 }
    ensures { result ≡ accepted_answer p copied erases looks }
{
    Answer {
        reply: Reply::Accepted,
        programs: (p.alpha * (copied + 1)) as u32,
        erases,
        looks,
    }
}
