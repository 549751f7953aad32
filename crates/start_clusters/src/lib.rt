// Document 02, T-07, what a start rebuilds of each cluster and region: CT, by "the whole frame with the largest stamp", and the last stamps.
#![tactic(auto)]

ghost use Rattle.std.specs.Prelude.{◌≡◌, true, ◌||◌, ◌+◌, ◌<◌, eqb, ltb, length};
ghost use Rattle.lists.specs.Below.{list_below};
ghost use Rattle.rules.specs.Parameters.{allowed};
ghost use Rattle.rules.specs.Numbers.{region_of};
ghost use Rattle.rules.specs.Tables.{ct_at, none};
ghost use Rattle.rules.specs.Regions.{largest_stamp, region_frames, stamp_in};
ghost use Rattle.rules.specs.Start.{found_segment, found_view};
ghost use Rattle.start_found.specs.Found.{Found, HasFrame};
ghost use Rattle.start_clusters.specs.Newest.{FrameAsked, newest_frames, segment_at, stamp_to};

use rules::Params;

// The stamp of frame i of region r.
fn stamp_at(p: Params, chip: &[u8], bt: &[u16], r: usize, i: usize) -> u32
    requires found { Found p chip.now bt.now }
    requires has_frame { HasFrame p bt.now r i }
    ensures { result ≡ stamp_in p (found_view p chip.now bt.now r) i }
{
    chip_spares::stamp_in(p, start_found::frame_at(p, chip, bt, r, i))
}

// True if frame i of region r is newer than frame m, by its stamp, or m is none.
fn is_newer(p: Params, chip: &[u8], bt: &[u16], r: usize, i: usize, m: usize) -> bool
    requires found { Found p chip.now bt.now }
    requires has_frame { HasFrame p bt.now r i }
    requires has_frame_2 { (m ≡ none → ⊥) → HasFrame p bt.now r m }
    ensures { result ≡ eqb m none || ltb (stamp_in p (found_view p chip.now bt.now r) m) (stamp_in p (found_view p chip.now bt.now r) i) }
{
    if m == rules::NONE {
        return true;
    }
    stamp_at(p, chip, bt, r, m) < stamp_at(p, chip, bt, r, i)
}

// Frame i of region r, if it is whole, becomes its cluster's newest in CT, where CT has none or an older one.
fn take_frame(p: Params, chip: &[u8], bt: &[u16], ct: &mut [u16], r: usize, i: usize)
    requires { FrameAsked p chip.now bt.now ct.old r i }
    ensures { ct.new ≡ newest_frames p chip.now bt.now r (i + 1) }
{
    if !start_found::has_frame(p, bt, r, i) {
        return;
    }
    let fr = start_found::frame_at(p, chip, bt, r, i);
    if !chip_spares::is_whole(p, fr) {
        return;
    }
    let c = chip_spares::last_cluster(p, fr);
    let m = chip_tables::ct_at(ct, c);
    if is_newer(p, chip, bt, r, i, m.0) {
        let k = c.0;
        ct[k] = i as u16;
    }
}

// The same of every frame of region r.
fn take_region(p: Params, chip: &[u8], bt: &[u16], ct: &mut [u16], r: usize)
    requires found { Found p chip.now bt.now }
    requires r_lt_mu { r < p.mu }
    requires ct_value { ct.old ≡ newest_frames p chip.now bt.now r 0 }
    ensures { ct.new ≡ newest_frames p chip.now bt.now (r + 1) 0 }
{
    for i in 0..start_found::region_frames(p) {
        take_frame(p, chip, bt, ct, r, i);
    }
}

// The same of every region.
fn take_regions(p: Params, chip: &[u8], bt: &[u16], ct: &mut [u16])
    requires found { Found p chip.now bt.now }
    requires ct_value { ct.old ≡ newest_frames p chip.now bt.now 0 0 }
    ensures { ct.new ≡ newest_frames p chip.now bt.now p.mu 0 }
{
    for r in 0..p.mu {
        take_region(p, chip, bt, ct, r);
    }
}

// The segment of frame i of a region: there are d of β frames in each of its blocks.
fn segment_at(p: Params, i: u16) -> u16
    requires { allowed p ≡ true }
    ensures { result ≡ segment_at p i }
{
    if i as usize == rules::NONE {
        return i;
    }
    i / p.beta as u16
}

// CT names segments in place of frames.
fn to_segments(p: Params, ct: &mut [u16])
    requires { allowed p ≡ true }
    ensures { ct.new ≡ list_below (length ct.old) (λ c. segment_at p (ct_at ct.old c)) }
{
    for c in ct.iter_mut() {
        *c = segment_at(p, *c);
    }
}

// CT names for each cluster the segment of its newest whole frame, none if it has no whole frame.
pub fn fill_ct(p: Params, chip: &[u8], bt: &[u16], ct: &mut [u16])
    requires found { Found p chip.now bt.now }
    requires ct_len { length ct.old ≡ p.C }
    ensures { ct.new ≡ list_below p.C (λ c. found_segment p (found_view p chip.now bt.now (region_of p c)) c) }
{
    format_work::clear(ct);
    take_regions(p, chip, bt, ct);
    to_segments(p, ct);
}

// The largest stamp on the frames of region r so far, with that of frame i, begun or whole.
fn larger_stamp(p: Params, chip: &[u8], bt: &[u16], r: usize, i: usize, last: u32) -> u32
    requires found { Found p chip.now bt.now }
    requires r_lt_mu { r < p.mu }
    requires i_bound { i < region_frames p }
    requires last_value { last ≡ stamp_to p (found_view p chip.now bt.now r) i }
    ensures { result ≡ stamp_to p (found_view p chip.now bt.now r) (i + 1) }
{
    if !start_found::has_frame(p, bt, r, i) {
        return last;
    }
    let fr = start_found::frame_at(p, chip, bt, r, i);
    if !chip_spares::is_programmed(p, fr) {
        return last;
    }
    let t = chip_spares::stamp_in(p, fr);
    if t > last {
        return t;
    }
    last
}

// The largest stamp on the frames of region r, 0 if it has none.
fn last_stamp(p: Params, chip: &[u8], bt: &[u16], r: usize) -> u32
    requires found { Found p chip.now bt.now }
    requires r_lt_mu { r < p.mu }
    ensures { result ≡ largest_stamp p (found_view p chip.now bt.now r) }
{
    let mut last = 0;
    for i in 0..start_found::region_frames(p) {
        last = larger_stamp(p, chip, bt, r, i, last);
    }
    last
}

// The last stamp of every region is the largest on its frames.
pub fn fill_stamps(p: Params, chip: &[u8], bt: &[u16], stamps: &mut [u32])
    requires found { Found p chip.now bt.now }
    requires stamps_len { length stamps.old ≡ p.mu }
    ensures { stamps.new ≡ list_below p.mu (λ r. largest_stamp p (found_view p chip.now bt.now r)) }
{
    for r in 0..p.mu {
        stamps[r] = last_stamp(p, chip, bt, r);
    }
}
