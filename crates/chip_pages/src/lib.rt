// One page and one block of the chip. A page is programmed through a lent part that is that page and no more, and only where it is all ones.
#![tactic(auto)]

ghost use Rattle.std.specs.Prelude.{◌≡◌, ◌++◌, ◌+◌, ◌*◌, ◌≤◌, length, take, drop, replicate};
ghost use Rattle.lists.specs.Parts.{part, put_part};
ghost use Rattle.rules.specs.Pages.{spare_bytes};
ghost use Rattle.chip_pages.specs.Asked.{Blank, CopyAsked};

use rules::{Label, PBlock};

// The bytes at the head of a lent part.
pub fn put(part: &mut [u8], bytes: &[u8])
    requires { length bytes.now ≤ length part.old }
    ensures { part.new ≡ bytes.now ++ drop (length bytes.now) part.old }
{
    part[..bytes.len()].copy_from_slice(bytes);
}

// An erased spare area gets the spare bytes of its page.
fn put_spare(spare: &mut [u8], of: Label, place: u8)
    requires { spare.old ≡ replicate 16 255 }
    ensures { spare.new ≡ spare_bytes of.cluster.0 place of.stamp of.vblock }
{
    let m = chip_spares::spare_bytes(of, place);
    put(spare, &m);
}

// An erased page is programmed with the bytes of a sector and its spare bytes.
pub fn program(page: &mut [u8], bytes: &[u8], of: Label, place: u8)
    requires { page.old ≡ replicate (length bytes.now + 16) 255 }
    ensures { page.new ≡ bytes.now ++ spare_bytes of.cluster.0 place of.stamp of.vblock }
{
    let s = bytes.len();
    put(page, bytes);
    put_spare(&mut page[s..], of, place);
}

// The same with s data bytes that are 255 throughout, which stand there already.
pub fn program_blank(page: &mut [u8], s: usize, of: Label, place: u8)
    requires { page.old ≡ replicate (s + 16) 255 }
    ensures { page.new ≡ replicate s 255 ++ spare_bytes of.cluster.0 place of.stamp of.vblock }
{
    put_spare(&mut page[s..], of, place);
}

// An erased page is programmed with the bytes of another, spare bytes and all.
pub fn program_copy(page: &mut [u8], bytes: &[u8])
    requires { page.old ≡ replicate (length bytes.now) 255 }
    ensures { page.new ≡ bytes.now }
{
    put(page, bytes);
}

// Every byte of a lent part becomes 255.
pub fn blank(part: &mut [u8])
    ensures { part.new ≡ replicate (length part.old) 255 }
{
    part.fill(255);
}

// Page q of the chip is programmed, with the bytes of a sector.
pub fn program_at(chip: &mut [u8], q: usize, bytes: &[u8], of: Label, place: u8)
    requires { Blank chip.old (length bytes.now + 16) q }
    ensures { chip.new ≡ put_part (length bytes.now + 16) q (bytes.now ++ spare_bytes of.cluster.0 place of.stamp of.vblock) chip.old }
{
    let w = bytes.len() + rules::SPARE_BYTES;
    let a = q * w;
    let b = a + w;
    program(&mut chip[a..b], bytes, of, place);
}

// Page q of the chip is programmed, with s data bytes that are 255 throughout.
pub fn program_blank_at(chip: &mut [u8], q: usize, s: usize, of: Label, place: u8)
    requires { Blank chip.old (s + 16) q }
    ensures { chip.new ≡ put_part (s + 16) q (replicate s 255 ++ spare_bytes of.cluster.0 place of.stamp of.vblock) chip.old }
{
    let w = s + rules::SPARE_BYTES;
    let a = q * w;
    let b = a + w;
    program_blank(&mut chip[a..b], s, of, place);
}

// Page `to` is programmed with the bytes of page `from`, both of w bytes.
pub fn copy_at(chip: &mut [u8], w: usize, from: usize, to: usize)
    requires { CopyAsked chip.old w from to }
    ensures { chip.new ≡ put_part w to (part w from chip.old) chip.old }
{
    let x = from * w;
    let y = x + w;
    let mut buf = [255u8; 528];
    put(&mut buf, &chip[x..y]);
    let a = to * w;
    let b = a + w;
    program_copy(&mut chip[a..b], &buf[..w]);
}

// Page `to` is programmed with the s data bytes of page `from`, both of s + 16 bytes, and with spare bytes of its own.
pub fn program_from(chip: &mut [u8], s: usize, from: usize, to: usize, of: Label, place: u8)
    requires { CopyAsked chip.old (s + 16) from to }
    ensures { chip.new ≡ put_part (s + 16) to (take s (part (s + 16) from chip.old) ++ spare_bytes of.cluster.0 place of.stamp of.vblock) chip.old }
{
    let x = from * (s + rules::SPARE_BYTES);
    let y = x + s;
    let mut buf = [255u8; 528];
    put(&mut buf, &chip[x..y]);
    program_at(chip, to, &buf[..s], of, place);
}

// Block n of the chip, of w bytes, is erased.
pub fn erase_at(chip: &mut [u8], w: usize, n: PBlock)
    requires { n.0 * w + w ≤ length chip.old }
    ensures { chip.new ≡ put_part w n.0 (replicate w 255) chip.old }
{
    let a = n.0 * w;
    let b = a + w;
    blank(&mut chip[a..b]);
}
