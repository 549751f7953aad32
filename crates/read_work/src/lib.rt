// Document 01, "Read", on a state that is known to be orderly: the lookup of a cluster's valid frame, and the sectors read from it.
#![tactic(auto)]

ghost use Rattle.std.specs.Prelude.{◌≡◌, List, ℕ, ◌+◌, is_some};
ghost use Rattle.lists.specs.Below.{join_below};
ghost use Rattle.lists.specs.Parts.{put_part};
ghost use Rattle.rules.specs.Numbers.{cluster_of};
ghost use Rattle.rules.specs.Tables.{board_of};
ghost use Rattle.rules.specs.Calls.{read_bytes};
ghost use Rattle.read_work.specs.Lookup.{Looked, Lookup, Stands, Within, spot_frame, spot_vblock, spot_inner};
ghost use Rattle.rules.specs.Requests.{request_of};
ghost use Rattle.read_work.specs.Sectors.{sector_from, SectorAsked, PlaceAsked, RunAsked, ReadAsked};

use rules::{Cluster, Params, VBlock};

// Where a cluster that is kept stands: its valid frame, counted over the chip, its virtual block, and the frame within that.
#[derive(Clone, Copy)]
pub struct Spot {
    pub frame: usize,
    pub vblock: VBlock,
    pub inner: usize,
}

// Where a cluster stands, if it is kept at all, and how many spare areas were looked at until it was found.
#[derive(Clone, Copy)]
pub struct Found {
    pub spot: Option<Spot>,
    pub looks: u32,
}

// The valid frame of a cluster: the last in the segment that CT names, in the block that BT has for it.
pub fn find_frame(p: Params, chip: &[u8], ct: &[u16], bt: &[u16], c: Cluster) -> Found
    requires { Lookup p chip.now ct.now bt.now c.0 }
    ensures stands { Stands p chip.now ct.now bt.now c.0 (is_some result.spot) (spot_frame result.spot) }
    ensures within { Within p chip.now ct.now bt.now c.0 (is_some result.spot) (spot_vblock result.spot) (spot_inner result.spot) }
    ensures looked { Looked p chip.now ct.now bt.now c.0 result.looks }
{
    let Some(sg) = chip_tables::segment_named(ct, c) else {
        return Found {
            spot: None,
            looks: 0,
        };
    };
    let r = rules::region_of(p, c);
    let v = rules::vblock_of(p, sg);
    let n = chip_tables::bt_at(p, bt, r, v);
    let k = rules::place_of(p, sg);
    let s = chip_blocks::last_in(p, chip_blocks::block_of(p, chip, n), k, c);
    // It is always found, since the segment that CT names holds the cluster.
    let Some(f) = s.frame else { unreachable!() };
    let spot = Spot {
        frame: chip_frames::frame_at(p, n, f),
        vblock: v,
        inner: f,
    };
    Found {
        spot: Some(spot),
        looks: s.looks,
    }
}

// Where a cluster stands once room was made: where it was found before, or, if a block was erased, since its frame may have been copied, where it is now.
pub fn find_again(
    p: Params,
    chip: &[u8],
    ct: &[u16],
    bt: &[u16],
    c: Cluster,
    at: Option<Spot>,
    erases: u32,
) -> Option<Spot>
    requires lookup { Lookup p chip.now ct.now bt.now c.0 }
    requires stands { erases ≡ 0 → Stands p chip.now ct.now bt.now c.0 (is_some at) (spot_frame at) }
    requires within { erases ≡ 0 → Within p chip.now ct.now bt.now c.0 (is_some at) (spot_vblock at) (spot_inner at) }
    ensures stands_2 { Stands p chip.now ct.now bt.now c.0 (is_some result) (spot_frame result) }
    ensures within_2 { Within p chip.now ct.now bt.now c.0 (is_some result) (spot_vblock result) (spot_inner result) }
{
    if erases != 0 {
        return find_frame(p, chip, ct, bt, c).spot;
    }
    at
}

// Sector j of a cluster that stands there.
fn read_sector(p: Params, chip: &[u8], at: Option<Spot>, j: usize, sector: &mut [u8])
    requires { SectorAsked p chip.now (is_some at) (spot_frame at) j sector.old }
    ensures { sector.new ≡ sector_from p chip.now (is_some at) (spot_frame at) j }
{
    let Some(spot) = at else {
        chip_pages::blank(sector);
        return;
    };
    let w = chip_sizes::page_bytes(p);
    let a = (spot.frame * p.alpha + j) * w;
    let b = a + p.s;
    chip_pages::put(sector, &chip[a..b]);
}

// Sector j + i goes to place i of the data.
fn place_sector(p: Params, chip: &[u8], at: Option<Spot>, j: usize, i: usize, bytes: &mut [u8])
    requires { PlaceAsked p chip.now (is_some at) (spot_frame at) j i bytes.old }
    ensures { bytes.new ≡ put_part p.s i (sector_from p chip.now (is_some at) (spot_frame at) (j + i)) bytes.old }
{
    let a = i * p.s;
    let b = a + p.s;
    read_sector(p, chip, at, j + i, &mut bytes[a..b]);
}

// The data becomes `count` sectors from sector j on, one after the other.
fn read_run(p: Params, chip: &[u8], at: Option<Spot>, j: usize, count: usize, bytes: &mut [u8])
    requires { RunAsked p chip.now (is_some at) (spot_frame at) j count bytes.old }
    ensures { bytes.new ≡ join_below count (λ i. sector_from p chip.now (is_some at) (spot_frame at) (j + i)) }
{
    for i in 0..count {
        place_sector(p, chip, at, j, i, bytes);
    }
}

// The sectors asked for, from the cluster's valid frame; 255 if CT has none. How many spare areas were looked at.
pub fn read_sectors(
    p: Params,
    chip: &[u8],
    ct: &[u16],
    bt: &[u16],
    lba: usize,
    count: usize,
    bytes: &mut [u8],
) -> u32
    requires { ReadAsked p chip.now ct.now bt.now lba count bytes.old }
    ensures bytes_after { (fst bst wear marks stamps : List ℕ) → bytes.new ≡ read_bytes p (board_of chip.now ct.now bt.now fst bst wear marks stamps)
        (request_of lba count bytes.old) }
    ensures looked { Looked p chip.now ct.now bt.now (cluster_of p lba) result }
{
    let c = rules::cluster_of(p, lba);
    let j = rules::sector_of(p, lba);
    let at = find_frame(p, chip, ct, bt, c);
    read_run(p, chip, at.spot, j, count, bytes);
    at.looks
}
