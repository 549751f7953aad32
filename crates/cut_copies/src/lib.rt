// Document 02, T-07, cuts: "Power may go after any page program". The copies of a reclaim, of which only the first pages are made.
#![tactic(auto)]

ghost use Rattle.std.specs.Prelude.{◌≡◌, min, take};
ghost use Rattle.rules.specs.Pages.{block};
ghost use Rattle.rules.specs.Traces.{replay_chip, frames_ops};
ghost use Rattle.rules.specs.Marks.{Marks, table_of};
ghost use Rattle.chip_marks.specs.Asked.{WordsAsked};
ghost use Rattle.write_reclaim.specs.Moves.{Between, marked_frames};
ghost use Rattle.cut_copies.specs.Turns.{TurnAsked, TurnMade};

use rules::{PBlock, Params, VBlock};

// The less of two numbers:
// a frame has no more pages than it has, and a cut makes no more than are left.
fn least(x: usize, y: usize) -> usize
    ensures { result ≡ min x y }
{
    if x < y { x } else { y }
}

// Where frame f of block o has a mark, its copy is frame j of block n: those of its pages are made that are among the first k of all copies.
// How many frames that passed.
fn copy_turn(
    p: Params,
    chip: &mut [u8],
    marks: &[u64],
    o: PBlock,
    n: PBlock,
    r: usize,
    v: VBlock,
    f: usize,
    j: usize,
    k: usize,
) -> usize
    requires turn_asked { TurnAsked p chip.old o.0 n.0 f j k }
    requires words_asked { WordsAsked p marks.now r v.0 }
    ensures { (m : Marks) → marks.now ≡ table_of p m
        → TurnMade p chip.old o.0 n.0 f j k (m r v.0 f) chip.new result }
{
    if !chip_marks::is_marked(p, marks, r, v, f) {
        return 0;
    }
    let made = j * p.alpha;
    if made < k {
        let m = least(k - made, p.alpha);
        write_reclaim::copy_part(p, chip, o, n, f, j, m);
    }
    1
}

// The frames of block o that have a mark are copied to block n, in order from frame 0,
// until k pages are made.
pub fn copy_first(
    p: Params,
    chip: &mut [u8],
    marks: &[u64],
    o: PBlock,
    n: PBlock,
    r: usize,
    v: VBlock,
    k: usize,
)
    requires between { Between p chip.old o.0 n.0 }
    requires words_asked { WordsAsked p marks.now r v.0 }
    ensures { (m : Marks) → marks.now ≡ table_of p m
        → chip.new ≡ replay_chip p chip.old (take k (frames_ops p n.0 0 (marked_frames p (block p chip.old o.0) (m r v.0)))) }
{
    let mut j = 0;
    for f in 0..chip_sizes::frames(p) {
        j += copy_turn(p, chip, marks, o, n, r, v, f, j, k);
    }
}
