// Document 01, "Write", on a state that is known to be orderly: the cluster put in the room that a plan has made.
#![tactic(auto)]

ghost use Rattle.std.specs.Prelude.{◌≡◌, [], ◌≤◌, is_some};
ghost use Rattle.rules.specs.Numbers.{cluster_of, region_of};
ghost use Rattle.rules.specs.Tables.{board_of};
ghost use Rattle.read_work.specs.Lookup.{Stands, spot_frame};
ghost use Rattle.rules.specs.Requests.{request_of};
ghost use Rattle.write_cluster.specs.Clusters.{Standing, PagesAsked, PagesPut, ClusterPut};

use read_work::Spot;
use rules::{Cluster, Label, Params, VBlock};

// The frame where a cluster stands, 0 where it is not kept.
fn frame_at(spot: Option<Spot>) -> usize
    ensures { result ≡ spot_frame spot }
{
    match spot {
        Some(s) => s.frame,
        None => 0,
    }
}

// The first m pages of the new cluster, which is c of region r, go to frame f of virtual block v, with its region's next stamp, its old sectors read where the old one now stands:
// all of them, or fewer at a cut.
pub fn put_pages(
    p: Params,
    chip: &mut [u8],
    bt: &[u16],
    stamps: &mut [u32],
    c: Cluster,
    r: usize,
    lba: usize,
    count: usize,
    bytes: &[u8],
    old: Option<Spot>,
    v: VBlock,
    f: usize,
    m: usize,
)
    requires c_value { c.0 ≡ cluster_of p lba }
    requires r_value { r ≡ region_of p c.0 }
    requires pages_asked { PagesAsked p chip.old bt.now stamps.old (request_of lba count bytes.now) v.0 f (is_some old) (spot_frame old) }
    requires m_le_alpha { m ≤ p.alpha }
    ensures { PagesPut p chip.old bt.now stamps.old (request_of lba count bytes.now) v.0 f (is_some old) (spot_frame old) m
        chip.new stamps.new }
{
    let n = chip_tables::bt_at(p, bt, r, v);
    let to = chip_frames::frame_at(p, n, f);
    let off = rules::sector_of(p, lba);
    let of = Label {
        cluster: c,
        stamp: chip_tables::take_stamp(stamps, r),
        vblock: v.0 as u8,
    };
    let kept = old.is_some();
    let from = frame_at(old);
    chip_frames::host_pages(chip, p.s, p.alpha, to, kept, from, off, count, bytes, of, m);
}

// The new cluster goes to frame f of virtual block v with its region's next stamp, its old sectors read where the old one now stands; CT and FST name its
// segment.
pub fn put_cluster(
    p: Params,
    chip: &mut [u8],
    ct: &mut [u16],
    bt: &[u16],
    fst: &mut [u16],
    stamps: &mut [u32],
    lba: usize,
    count: usize,
    bytes: &[u8],
    old: Option<Spot>,
    v: VBlock,
    f: usize,
)
    requires standing { Standing p (board_of chip.old ct.old bt.now fst.old [] [] [] stamps.old) (request_of lba count bytes.now) v.0 f }
    requires stands { Stands p chip.old ct.old bt.now (cluster_of p lba) (is_some old) (spot_frame old) }
    ensures { ClusterPut p (board_of chip.old ct.old bt.now fst.old [] [] [] stamps.old) (request_of lba count bytes.now)
        v.0 f chip.new ct.new fst.new stamps.new }
{
    let c = rules::cluster_of(p, lba);
    let r = rules::region_of(p, c);
    let all = p.alpha;
    put_pages(p, chip, bt, stamps, c, r, lba, count, bytes, old, v, f, all);
    let sg = rules::segment_of(p, v, f);
    chip_tables::set_ct(ct, c, sg);
    chip_tables::set_fst(fst, r, sg);
}
