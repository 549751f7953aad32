// The frames of a region as a start has found them, counted through its virtual blocks.
#![tactic(auto)]

ghost use Rattle.std.specs.Prelude.{◌≡◌, not, true, ◌*◌, ◌/◌, ◌<◌, eqb, length};
ghost use Rattle.rules.specs.Parameters.{allowed, frames, frame_bytes};
ghost use Rattle.rules.specs.Tables.{bt_at, none};
ghost use Rattle.rules.specs.Regions.{frame_in, region_frames};
ghost use Rattle.rules.specs.Start.{found_view};
ghost use Rattle.start_found.specs.Found.{Found, HasFrame};

use rules::{Params, VBlock};

// How many frames a region has.
pub fn region_frames(p: Params) -> usize
    requires { allowed p ≡ true }
    ensures { result ≡ region_frames p }
{
    p.gamma * chip_sizes::frames(p)
}

// True if the virtual block of frame i of region r has a block.
pub fn has_frame(p: Params, bt: &[u16], r: usize, i: usize) -> bool
    requires p_value { allowed p ≡ true }
    requires bt_len { length bt.now ≡ p.mu * p.gamma }
    requires r_lt_mu { r < p.mu }
    requires i_bound { i < region_frames p }
    ensures { result ≡ not (eqb (bt_at p bt.now r (i / frames p)) none) }
{
    let v = i / chip_sizes::frames(p);
    chip_tables::block_named(p, bt, r, VBlock(v)).is_some()
}

// Frame i of region r, where its virtual block has a block.
pub fn frame_at<'a>(p: Params, chip: &'a [u8], bt: &[u16], r: usize, i: usize) -> &'a [u8]
    requires found { Found p chip.now bt.now }
    requires has_frame { HasFrame p bt.now r i }
    ensures result_value { result.now ≡ frame_in p (found_view p chip.now bt.now r) i }
    ensures result_len { length result.now ≡ frame_bytes p }
{
    let f = chip_sizes::frames(p);
    let n = chip_tables::bt_at(p, bt, r, VBlock(i / f));
    chip_blocks::frame_of(p, chip_blocks::block_of(p, chip, n), i % f)
}
