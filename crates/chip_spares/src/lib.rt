// The spare bytes of a page: what a program writes there, and what those of a frame say.
#![tactic(auto)]

ghost use Rattle.std.specs.Prelude.{◌≡◌, true, ℕ, ◌-◌, ◌<◌, length, drop, take};
ghost use Rattle.lists.specs.Parts.{same_list};
ghost use Rattle.rules.specs.Parameters.{allowed, frame_bytes};
ghost use Rattle.chip_words.specs.Words.{le};
ghost use Rattle.rules.specs.Pages.{le32, spare, spare_bytes, held, programmed, stamp_of, vblock_in, whole};

use rules::{Cluster, Label, Params};

// The spare bytes of a programmed page: its cluster, low byte first, and the sector's place in it; byte 5 stays 255, byte 6 is zero; then the stamp, low byte
// first, and the virtual block.
pub fn spare_bytes(of: Label, place: u8) -> [u8; rules::SPARE_BYTES]
    ensures { result ≡ spare_bytes of.cluster.0 place of.stamp of.vblock }
{
    let c = of.cluster.0;
    let t = of.stamp;
    [
        (c % 256) as u8,
        (c / 256 % 256) as u8,
        (c / 65536 % 256) as u8,
        (c / 16777216 % 256) as u8,
        place,
        255,
        0,
        (t % 256) as u8,
        (t / 256 % 256) as u8,
        (t / 65536 % 256) as u8,
        (t / 16777216 % 256) as u8,
        of.vblock,
        255,
        255,
        255,
        255,
    ]
}

// Bytes 0 to 7 of these spare bytes as one number, low byte first: so many pages are compared with them that they are not written out as bytes there.
fn first_word(of: Label, place: usize) -> usize
    requires { place < 256 }
    ensures { result ≡ le (take 8 (spare_bytes of.cluster.0 place of.stamp of.vblock)) }
{
    of.cluster.0 % 4294967296 + 4294967296 * (place + 65280 + 16777216 * (of.stamp % 256) as usize)
}

// Bytes 8 to 15, which are the same for every place.
fn second_word(of: Label) -> usize
    ensures by_index { (c j : ℕ) → result ≡ le (take 8 (drop 8 (spare_bytes c j of.stamp of.vblock))) }
    ensures vblock_bound { of.vblock < 256 }
{
    (of.stamp / 256) as usize + 16777216 * of.vblock as usize + 18446744069414584320
}

// The cluster that a frame's first page names.
pub fn cluster_in(p: Params, frame: &[u8]) -> Cluster
    requires p_value { allowed p ≡ true }
    requires frame_len { length frame.now ≡ frame_bytes p }
    ensures result_value { result.0 ≡ held p frame.now }
    ensures result_bound { result.0 < 4294967296 }
{
    let n = chip_words::half(frame, p.s);
    Cluster(n)
}

// The stamp that a frame's first page has.
pub fn stamp_in(p: Params, frame: &[u8]) -> u32
    requires p_value { allowed p ≡ true }
    requires frame_len { length frame.now ≡ frame_bytes p }
    ensures { result ≡ stamp_of p frame.now }
{
    chip_words::half(frame, p.s + 7) as u32
}

// The virtual block that a frame's first page names.
pub fn vblock_in(p: Params, frame: &[u8]) -> u8
    requires p_value { allowed p ≡ true }
    requires frame_len { length frame.now ≡ frame_bytes p }
    ensures { result ≡ vblock_in p frame.now }
{
    let a = p.s + 11;
    frame[a]
}

// True if a frame is programmed.
pub fn is_programmed(p: Params, frame: &[u8]) -> bool
    requires p_value { allowed p ≡ true }
    requires frame_len { length frame.now ≡ frame_bytes p }
    ensures { result ≡ programmed p frame.now }
{
    let a = p.s + 6;
    frame[a] == 0
}

// The cluster that a frame's last page names. Its spare area is the end of the frame.
pub fn last_cluster(p: Params, frame: &[u8]) -> Cluster
    requires p_value { allowed p ≡ true }
    requires frame_len { length frame.now ≡ frame_bytes p }
    ensures { result.0 ≡ le32 (spare p frame.now (p.alpha - 1)) }
{
    let a = frame.len() - rules::SPARE_BYTES;
    let n = chip_words::half(frame, a);
    Cluster(n)
}

// True if a frame is whole: its last page is programmed.
pub fn is_whole(p: Params, frame: &[u8]) -> bool
    requires p_value { allowed p ≡ true }
    requires frame_len { length frame.now ≡ frame_bytes p }
    ensures { result ≡ whole p frame.now }
{
    let a = frame.len() - rules::SPARE_BYTES + 6;
    frame[a] == 0
}

// True if page j of a frame has the spare bytes that the label says.
pub fn spare_right(p: Params, frame: &[u8], of: Label, j: usize) -> bool
    requires p_value { allowed p ≡ true }
    requires frame_len { length frame.now ≡ frame_bytes p }
    requires j_lt_alpha { j < p.alpha }
    ensures { result ≡ same_list (spare p frame.now j) (spare_bytes of.cluster.0 j of.stamp of.vblock) }
{
    let w = chip_sizes::page_bytes(p);
    let a = j * w + p.s;
    (chip_words::word(frame, a) == first_word(of, j))
        & (chip_words::word(frame, a + 8) == second_word(of))
}
