// Whether a chip can be started from: document 02's T-07, reply 7 of a start. The chip alone is read, and nothing is stored.
#![tactic(auto)]

ghost use Rattle.std.specs.Prelude.{◌≡◌, true, ◌<◌, length, replicate};
ghost use Rattle.lists.specs.Below.{all_below};
ghost use Rattle.rules.specs.Parameters.{allowed, chip_bytes};
ghost use Rattle.rules.specs.Tables.{none};
ghost use Rattle.rules.specs.Start.{found_bt, region_starts, startable};
ghost use Rattle.check_pairs.specs.Rows.{Asked};

use rules::Params;

// True if region r can be started from, with two rows to hold its blocks.
fn region_starts(p: Params, chip: &[u8], r: usize, full: &mut [u16], part: &mut [u16]) -> bool
    requires asked { Asked p chip.now }
    requires r_lt_mu { r < p.mu }
    requires full_value { full.old ≡ replicate 16 none }
    requires part_value { part.old ≡ replicate 16 none }
    ensures { result ≡ region_starts p chip.now (found_bt p chip.now) r }
{
    if !check_pairs::kept_blocks(p, chip, r, full, part) {
        return false;
    }
    check_apart::stamps_apart(p, chip, full)
}

// The same: the rows are made here.
fn region_ok(p: Params, chip: &[u8], r: usize) -> bool
    requires asked { Asked p chip.now }
    requires r_lt_mu { r < p.mu }
    ensures { result ≡ region_starts p chip.now (found_bt p chip.now) r }
{
    let mut full = [rules::NONE as u16; 16];
    let mut part = [rules::NONE as u16; 16];
    region_starts(p, chip, r, &mut full, &mut part)
}

// True if every region can be started from.
fn regions_ok(p: Params, chip: &[u8]) -> bool
    requires { Asked p chip.now }
    ensures { result ≡ all_below p.mu (region_starts p chip.now (found_bt p chip.now)) }
{
    (0..p.mu).all(|r| region_ok(p, chip, r))
}

// True if the chip can be started from.
pub fn can_start(p: Params, chip: &[u8]) -> bool
    requires p_value { allowed p ≡ true }
    requires chip_len { length chip.now ≡ chip_bytes p }
    ensures { result ≡ startable p chip.now }
{
    if !check_sound::sounds_ok(p, chip) {
        return false;
    }
    regions_ok(p, chip)
}
