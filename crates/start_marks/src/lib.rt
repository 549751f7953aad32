// Document 02, T-07, what a start rebuilds of the marks: each is set by the validity rule, frame by frame, from the chip, CT and BT.
#![tactic(auto)]

ghost use Rattle.std.specs.Prelude.{◌≡◌, List, [], ℕ, ◌+◌, ◌*◌, ◌<◌, length};
ghost use Rattle.rules.specs.Parameters.{frames};
ghost use Rattle.rules.specs.Tables.{marks_length};
ghost use Rattle.rules.specs.Regions.{View, view_of};
ghost use Rattle.rules.specs.Marks.{marks_in, table_of};
ghost use Rattle.chip_marks.specs.Asked.{MarkAsked, WordsAsked};
ghost use Rattle.check_marks.specs.Shown.{OneBlock, OneFrame, Shows};
ghost use Rattle.start_found.specs.Found.{Found};
ghost use Rattle.start_marks.specs.SoFar.{EntryAsked, marks_to};

use rules::{Params, VBlock};

// Frame f of virtual block v of region r, whose block's bytes are lent, gets its mark if it is valid.
fn mark_frame(p: Params, blk: &[u8], ct: &[u16], marks: &mut [u64], r: usize, v: VBlock, f: usize)
    requires one_frame { OneFrame p blk.now ct.now v.0 f }
    requires mark_asked { MarkAsked p marks.old r v.0 f }
    ensures { (views : ℕ → View) → Shows p r v.0 blk.now ct.now (views r) → marks.old ≡ table_of p (marks_to p views (r * p.gamma + v.0) f) → marks.new ≡ table_of p (marks_to p views (r * p.gamma + v.0) (f + 1)) }
{
    let k = f / p.beta;
    if check_marks::is_valid(p, blk, ct, v, k, f) {
        chip_marks::set_mark(p, marks, r, v, f);
    }
}

// The same of every frame of it.
fn mark_block(p: Params, blk: &[u8], ct: &[u16], marks: &mut [u64], r: usize, v: VBlock)
    requires one_block { OneBlock p blk.now ct.now v.0 }
    requires words_asked { WordsAsked p marks.old r v.0 }
    ensures { (views : ℕ → View) → Shows p r v.0 blk.now ct.now (views r) → marks.old ≡ table_of p (marks_to p views (r * p.gamma + v.0) 0) → marks.new ≡ table_of p (marks_to p views (r * p.gamma + v.0) (frames p)) }
{
    for f in 0..chip_sizes::frames(p) {
        mark_frame(p, blk, ct, marks, r, v, f);
    }
}

// The same of the virtual block that entry i of BT is of, if it has a block.
fn mark_entry(p: Params, chip: &[u8], ct: &[u16], bt: &[u16], marks: &mut [u64], i: usize)
    requires { EntryAsked p chip.now ct.now bt.now marks.old i }
    ensures { marks.new ≡ table_of p (marks_to p (view_of p chip.now ct.now bt.now []) (i + 1) 0) }
{
    let Some(n) = chip_tables::entry_named(bt, i) else {
        return;
    };
    let r = i / p.gamma;
    let v = VBlock(i % p.gamma);
    mark_block(p, chip_blocks::block_of(p, chip, n), ct, marks, r, v);
}

// The same of every entry of BT.
fn mark_entries(p: Params, chip: &[u8], ct: &[u16], bt: &[u16], marks: &mut [u64])
    requires found { Found p chip.now bt.now }
    requires ct_len { length ct.now ≡ p.C }
    requires marks_value { marks.old ≡ table_of p (marks_to p (view_of p chip.now ct.now bt.now []) 0 0) }
    ensures { marks.new ≡ table_of p (marks_to p (view_of p chip.now ct.now bt.now []) (p.mu * p.gamma) 0) }
{
    for i in 0..bt.len() {
        mark_entry(p, chip, ct, bt, marks, i);
    }
}

// Every frame has its mark exactly if it is valid, whatever FST names.
pub fn fill_marks(p: Params, chip: &[u8], ct: &[u16], bt: &[u16], marks: &mut [u64])
    requires found { Found p chip.now bt.now }
    requires ct_len { length ct.now ≡ p.C }
    requires marks_len { length marks.old ≡ marks_length p }
    ensures { (fst : List ℕ) → marks.new ≡ table_of p (marks_in p (view_of p chip.now ct.now bt.now fst)) }
{
    chip_marks::clear_all(marks);
    mark_entries(p, chip, ct, bt, marks);
}
