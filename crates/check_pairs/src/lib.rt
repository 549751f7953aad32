// The second question of a start, of one region: which blocks name its virtual blocks. One pass over the chip's heads puts them into two rows, the full ones and
// those that are not full; a place that is taken already is refused. The row of full ones then becomes that of the blocks that are kept.
#![tactic(auto)]

ghost use Rattle.std.specs.Prelude.{◌≡◌, false, true, ℕ, ◌+◌, ◌≤◌, ◌<◌, eqb, get_or, length, replicate, set};
ghost use Rattle.lists.specs.Below.{count_below};
ghost use Rattle.rules.specs.Tables.{none};
ghost use Rattle.rules.specs.Start.{names_full, names_open};
ghost use Rattle.check_pairs.specs.Rows.{Asked, Entered, Filled, Kept, Row, kept_of, open_of};

use rules::{PBlock, Params, VBlock};

// Block n takes the place of virtual block v in a row. False if another has it.
fn put(row: &mut [u16], v: VBlock, n: PBlock) -> bool
    requires v_in_bounds { v.0 < length row.old }
    requires n_bound { n.0 < 65536 }
    ensures value { result ≡ eqb (get_or row.old v.0 none) none }
    ensures row_after { result ≡ true → row.new ≡ set row.old v.0 n.0 }
{
    let i = v.0;
    if row[i] as usize != rules::NONE {
        return false;
    }
    row[i] = n.0 as u16;
    true
}

// Block n takes its place, if it names a virtual block of region r. False if another of its kind has it.
fn place(p: Params, chip: &[u8], r: usize, full: &mut [u16], part: &mut [u16], n: PBlock) -> bool
    requires asked { Asked p chip.now }
    requires n_lt_n { n.0 < p.N }
    requires row { Row p (names_full p chip.now r) n.0 full.old }
    requires row_2 { Row p (names_open p chip.now r) n.0 part.old }
    ensures { Entered p chip.now r n.0 result full.new part.new }
{
    let Some(h) = chip_heads::head_of(p, chip, n) else {
        return true;
    };
    if h.region != r {
        return true;
    }
    if h.full {
        return put(full, h.vblock, n);
    }
    put(part, h.vblock, n)
}

// The same. Most blocks are of another region, and that is seen first, in one page.
fn enter(p: Params, chip: &[u8], r: usize, full: &mut [u16], part: &mut [u16], n: PBlock) -> bool
    requires asked { Asked p chip.now }
    requires n_lt_n { n.0 < p.N }
    requires row { Row p (names_full p chip.now r) n.0 full.old }
    requires row_2 { Row p (names_open p chip.now r) n.0 part.old }
    ensures { Entered p chip.now r n.0 result full.new part.new }
{
    if chip_heads::elsewhere(p, chip, r, n) {
        return true;
    }
    place(p, chip, r, full, part, n)
}

// Every block takes its place. False if two of a kind name one virtual block.
fn fill(p: Params, chip: &[u8], r: usize, full: &mut [u16], part: &mut [u16]) -> bool
    requires asked { Asked p chip.now }
    requires full_value { full.old ≡ replicate 16 none }
    requires part_value { part.old ≡ replicate 16 none }
    ensures { Filled p chip.now r result full.new part.new }
{
    for n in 0..p.N {
        if !enter(p, chip, r, full, part, PBlock(n)) {
            return false;
        }
    }
    true
}

// The block that is kept of a full one and one that is not: the full one, if there is one.
fn kept_of(full: u16, part: u16) -> u16
    ensures { result ≡ kept_of full part }
{
    if full as usize == rules::NONE {
        return part;
    }
    full
}

// True if that is one that is not full.
fn open_of(full: u16, part: u16) -> bool
    ensures { result ≡ open_of full part }
{
    if full as usize == rules::NONE {
        return part as usize != rules::NONE;
    }
    false
}

// The same of virtual block v in both rows.
fn keeps_open(full: &[u16], part: &[u16], v: usize) -> bool
    requires v_in_bounds { v < length full.now }
    requires v_in_bounds_2 { v < length part.now }
    ensures { result ≡ open_of (get_or full.now v none) (get_or part.now v none) }
{
    open_of(full[v], part[v])
}

// How many virtual blocks keep a block that is not full.
fn count_open(p: Params, full: &[u16], part: &[u16]) -> usize
    requires gamma_in_bounds { p.gamma ≤ length full.now }
    requires gamma_in_bounds_2 { p.gamma ≤ length part.now }
    ensures { result ≡ count_below p.gamma (λ v. open_of (get_or full.now v none) (get_or part.now v none)) }
{
    (0..p.gamma).filter(|v| keeps_open(full, part, *v)).count()
}

// The row of full blocks becomes that of the kept ones.
fn keep(p: Params, full: &mut [u16], part: &[u16])
    requires gamma_in_bounds { p.gamma ≤ length full.old }
    requires gamma_in_bounds_2 { p.gamma ≤ length part.now }
    ensures by_index { (v : ℕ) → v < p.gamma → get_or full.new v none ≡ kept_of (get_or full.old v none) (get_or part.now v none) }
    ensures full_len_unchanged { length full.new ≡ length full.old }
{
    for v in 0..p.gamma {
        full[v] = kept_of(full[v], part[v]);
    }
}

// True if no virtual block of region r is named by two blocks of a kind, and at most one keeps a block that is not full. Then the first row has the kept blocks.
pub fn kept_blocks(p: Params, chip: &[u8], r: usize, full: &mut [u16], part: &mut [u16]) -> bool
    requires asked { Asked p chip.now }
    requires full_value { full.old ≡ replicate 16 none }
    requires part_value { part.old ≡ replicate 16 none }
    ensures { Kept p chip.now r result full.new }
{
    if !fill(p, chip, r, full, part) {
        return false;
    }
    if count_open(p, full, part) > 1 {
        return false;
    }
    keep(p, full, part);
    true
}
