// Document 02, T-06: the lent table of marks, read and written. A contract is over all marks that the table may hold.
#![tactic(auto)]

ghost use Rattle.std.specs.Prelude.{◌≡◌, true, false, ◌*◌, ◌-◌, ◌<◌, min, length, replicate};
ghost use Rattle.lists.specs.Below.{count_below};
ghost use Rattle.rules.specs.Marks.{Marks, table_of};
ghost use Rattle.rules.specs.Tables.{mark_index, marks_length, word_at};
ghost use Rattle.marks.specs.Kept.{first_marks, put_mark};
ghost use Rattle.chip_marks.specs.Asked.{MarkAsked, WordAsked, WordsAsked};

use rules::{Params, VBlock};

// Where word w of virtual block v of region r stands in the table:
// four words for each virtual block, and γ virtual blocks for each region.
fn word_index(p: Params, r: usize, v: VBlock, w: usize) -> usize
    requires { WordAsked p r v.0 w }
    ensures value { result ≡ mark_index p r v.0 w }
    ensures upper_bound { result < marks_length p }
{
    4 * (r * p.gamma + v.0) + w
}

// Word w of virtual block v of region r,
// as it stands in the table.
pub fn word_at(p: Params, marks: &[u64], r: usize, v: VBlock, w: usize) -> u64
    requires words_asked { WordsAsked p marks.now r v.0 }
    requires w_bound { w < 4 }
    ensures { result ≡ word_at marks.now (mark_index p r v.0 w) }
{
    let i = word_index(p, r, v, w);
    marks[i]
}

// Frame f of virtual block v of region r gets its mark:
// bit f mod 64 of word f / 64.
pub fn set_mark(p: Params, marks: &mut [u64], r: usize, v: VBlock, f: usize)
    requires { MarkAsked p marks.old r v.0 f }
    ensures { (m : Marks) → marks.old ≡ table_of p m → marks.new ≡ table_of p (put_mark m r v.0 f true) }
{
    let i = word_index(p, r, v, f / 64);
    marks[i] = bits::with_bit(marks[i], f % 64);
}

// The mark of frame f of virtual block v of region r goes;
// the others of its word stay.
pub fn clear_mark(p: Params, marks: &mut [u64], r: usize, v: VBlock, f: usize)
    requires { MarkAsked p marks.old r v.0 f }
    ensures { (m : Marks) → marks.old ≡ table_of p m → marks.new ≡ table_of p (put_mark m r v.0 f false) }
{
    let i = word_index(p, r, v, f / 64);
    marks[i] = bits::without_bit(marks[i], f % 64);
}

// True if frame f of virtual block v of region r has its mark.
// One word is looked at.
pub fn is_marked(p: Params, marks: &[u64], r: usize, v: VBlock, f: usize) -> bool
    requires { MarkAsked p marks.now r v.0 f }
    ensures { (m : Marks) → marks.now ≡ table_of p m → result ≡ m r v.0 f }
{
    let i = word_index(p, r, v, f / 64);
    bits::has_bit(marks[i], f % 64)
}

// How many frames of virtual block v of region r have a mark:
// the ones of its four words.
pub fn count_marks(p: Params, marks: &[u64], r: usize, v: VBlock) -> usize
    requires { WordsAsked p marks.now r v.0 }
    ensures { (m : Marks) → marks.now ≡ table_of p m → result ≡ count_below 256 (m r v.0) }
{
    let mut n: usize = 0;
    for w in 0..4 {
        let i = word_index(p, r, v, w);
        n += bits::count(marks[i]);
    }
    n
}

// How many of the first k frames have their marks in word w:
// those past its first 64·w, and no more than 64.
fn in_word(k: usize, w: usize) -> usize
    requires { w < 4 }
    ensures { result ≡ min (k - 64 * w) 64 }
{
    let before = 64 * w;
    if k <= before {
        return 0;
    }
    if k - before >= 64 {
        return 64;
    }
    k - before
}

// The first k frames of virtual block v of region r have marks, and no other frame of it:
// each of its four words is made anew.
pub fn set_first(p: Params, marks: &mut [u64], r: usize, v: VBlock, k: usize)
    requires { WordsAsked p marks.old r v.0 }
    ensures { (m : Marks) → marks.old ≡ table_of p m → marks.new ≡ table_of p (first_marks m r v.0 k) }
{
    for j in 0..4 {
        let i = word_index(p, r, v, j);
        let n = in_word(k, j);
        marks[i] = bits::first_bits(n);
    }
}

// No frame has a mark:
// every word of the table becomes 0.
pub fn clear_all(marks: &mut [u64])
    ensures { marks.new ≡ replicate (length marks.old) 0 }
{
    marks.fill(0);
}
