// Board T as the bench program has it: its parameters, its blank chip, the chip and the tables lent as one, and the bytes that a line lends.
#![tactic(auto)]

ghost use Rattle.std.specs.Prelude.{◌≡◌, ◌*◌, min, replicate};
ghost use Rattle.cases.specs.BoardT.{board_t};
ghost use Rattle.rules.specs.Lent.{board_seen};
ghost use Rattle.demo_board.specs.Store.{store_board};

use rules::{Params, Seen};

// The chip and the tables, lent as one.
#[derive(Drop)]
pub struct Store<'a> {
    pub chip: &'a mut [u8],
    pub ct: &'a mut [u16],
    pub bt: &'a mut [u16],
    pub fst: &'a mut [u16],
    pub bst: &'a mut [u8],
    pub wear: &'a mut [u32],
    pub marks: &'a mut [u64],
    pub stamps: &'a mut [u32],
}

impl Store<'_> {
    // The same, to be read.
    pub fn seen(&self) -> Seen<'_>
        ensures { board_seen result ≡ store_board self.now }
    {
        Seen {
            chip: self.chip,
            ct: self.ct,
            bt: self.bt,
            fst: self.fst,
            bst: self.bst,
            wear: self.wear,
            marks: self.marks,
            stamps: self.stamps,
        }
    }
}

// Board T.
pub fn board() -> Params
    ensures { result ≡ board_t }
{
    Params {
        s: 16,
        alpha: 2,
        beta: 1,
        d: 2,
        mu: 2,
        gamma: 2,
        C: 6,
        N: 5,
        E: 1000000,
    }
}

// A chip of 5 blocks, all 255: 4 pages of 32 bytes a block.
pub fn blank_chip() -> [u8; 640]
    ensures { result ≡ replicate 640 255 }
{
    [255; 640]
}

// A cluster's bytes, each of one value.
pub fn filled(value: u8) -> [u8; 32]
    ensures { result ≡ replicate 32 value }
{
    [value; 32]
}

// How many bytes go with a call: those of `count` sectors, and no more than a cluster has.
pub fn lent(count: u32) -> usize
    ensures { result ≡ min count 2 * 16 }
{
    count.min(2) as usize * 16
}
