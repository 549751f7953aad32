// The bench program's input: a line, cut out of a stream of bytes, and what it asks.
#![tactic(auto)]

ghost use Rattle.std.specs.Prelude.{◌≡◌, ◌<◌, ◌≤◌, ◌↔◌, true, false, IsTrue, IsFalse, MatchOption, List, [], ◌∷◌, ◌++◌, ℕ, ltb, length};
ghost use Rattle.lists.specs.Parts.{same_list};
ghost use Rattle.demo_lines.specs.Grammar.{fields, field_at, Found, is_write, is_read, write_in, read_in, AskedAs, line_of};
ghost use Rattle.demo_lines.specs.Held.{Holds};

use std::marker::Model;

// What a line asks: a write of a count of sectors from an LBA on, all bytes of one value; a read; or nothing that is known.
#[derive(Clone, Copy)]
pub enum Line {
    Write(u32, u32, u8),
    Read(u32, u32),
    Other,
}

// The bytes of a line that has come in part: at most 64.
#[derive(Clone, Copy)]
pub struct Begun {
    bytes: [u8; 64],
    len: usize,
}

impl Model for Begun {
    ghost use Rattle.std.specs.Prelude.{◌≡◌, ◌≤◌, ◌++◌, length, take, drop};
    ghost use Rattle.std.proofs.Common.{arith, take-append-drop, length-take-le};
    ghost use Rattle.demo_lines.specs.Held.{Begun as Bytes};

    ghost Value = { Bytes };

    ghost view = { λ h. record { items = take h.len h.bytes; spare = drop h.len h.bytes } };

    ghost invariant = { λ h. (h.len ≤ 64) × (length h.bytes ≡ 64) };

    ghost inverse = { λ h. record { bytes = h.items ++ h.spare; len = length h.items } };

    ghost inverse_ok = { λ h k i. record {
      bytes = take-append-drop h.len h.bytes i;
      len = length-take-le h.len h.bytes (omega (arith, k.0, k.1)) i;
    } };
}

impl Begun {
    // No byte.
    pub fn new() -> Self
        ensures { result.items ≡ [] }
    {
        Begun {
            bytes: [0; 64],
            len: 0,
        }
    }

    // Takes one byte more, and says whether it fitted.
    pub fn push(&mut self, b: u8) -> bool
        ensures fits { IsTrue result ↔ (length self.old.items < 64) }
        ensures taken { IsTrue result → self.new.items ≡ self.old.items ++ b ∷ [] }
        ensures full { IsFalse result → self.new ≡ self.old }
    {
        if self.len == 64 {
            return false;
        }
        self.bytes[self.len] = b;
        self.len += 1;
        true
    }

    // Whether there is no byte.
    pub fn is_empty(&self) -> bool
        ensures { IsTrue result ↔ (self.now.items ≡ []) }
    {
        self.len == 0
    }

    // The bytes, in the order in which they came.
    pub fn as_slice(&self) -> &[u8]
        ensures items { result.now ≡ self.now.items }
        ensures few { length result.now ≤ 64 }
    {
        &self.bytes[..self.len]
    }
}

// The line that is being read: its bytes, which are let go once there are more than 64.
pub type Held = Option<Begun>;

// How many fields a line has.
fn count(s: &[u8]) -> usize
    ensures { result ≡ length (fields s.now) }
{
    s.split(|b| *b == b'\t').count()
}

// Field n of a line, empty if it has no such field.
fn field(s: &[u8], n: usize) -> &[u8]
    ensures { result.now ≡ field_at s.now n }
{
    s.split(|b| *b == b'\t').nth(n).unwrap_or(&[])
}

// Whether a field is the one character c.
fn is(f: &[u8], c: u8) -> bool
    ensures { result ≡ same_list f.now (c ∷ []) }
{
    f == [c].as_slice()
}

// A field as a number of at most `most`, if it is one.
fn decimal_in(f: &[u8], most: u32) -> Option<u32>
    ensures { Found most f.now result }
{
    if !(1..=10).contains(&f.len()) {
        return None;
    }
    let mut v: u64 = 0;
    for b in f {
        if !b.is_ascii_digit() {
            return None;
        }
        v = v * 10 + u64::from(*b - b'0');
    }
    if v <= u64::from(most) {
        Some(v as u32)
    } else {
        None
    }
}

// The write that a line asks, if it asks one.
fn write_of(s: &[u8]) -> Option<Line>
    ensures { AskedAs (is_write s.now) (write_in s.now) result }
{
    if count(s) != 4 || !is(field(s, 0), b'W') {
        return None;
    }
    let lba = decimal_in(field(s, 1), 4294967295)?;
    let sectors = decimal_in(field(s, 2), 4294967295)?;
    let value = decimal_in(field(s, 3), 255)?;
    Some(Line::Write(lba, sectors, value as u8))
}

// The read that a line asks, if it asks one.
fn read_of(s: &[u8]) -> Option<Line>
    ensures { AskedAs (is_read s.now) (read_in s.now) result }
{
    if count(s) != 3 || !is(field(s, 0), b'R') {
        return None;
    }
    let lba = decimal_in(field(s, 1), 4294967295)?;
    let sectors = decimal_in(field(s, 2), 4294967295)?;
    Some(Line::Read(lba, sectors))
}

// What a line asks.
pub fn parse(s: &[u8]) -> Line
    ensures { result ≡ line_of s.now }
{
    write_of(s).or(read_of(s)).unwrap_or(Line::Other)
}

// A line of which no byte has come yet.
pub fn none() -> Held
    ensures { Holds result [] }
{
    Some(Begun::new())
}

// A line with one byte more.
pub fn push(held: Held, b: u8) -> Held
    ensures { (l : List ℕ) → Holds held l → Holds result (l ++ (b ∷ [])) }
{
    let mut kept = held?;
    if kept.push(b) { Some(kept) } else { None }
}

// Whether a byte of a line has come.
pub fn is_begun(held: &Held) -> bool
    ensures { (l : List ℕ) → Holds held.now l → result ≡ ltb 0 (length l) }
{
    match held {
        Some(kept) => !kept.is_empty(),
        None => true,
    }
}

// What a line asks, once all of it has come. One that is longer than 64 bytes is of no known form.
pub fn asked(held: &Held) -> Line
    ensures { (l : List ℕ) → Holds held.now l → result ≡ line_of l }
{
    match held {
        Some(kept) => parse(kept.as_slice()),
        None => Line::Other,
    }
}
