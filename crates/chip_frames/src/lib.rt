// A frame of the chip, page by page.
#![tactic(auto)]

ghost use Rattle.std.specs.Prelude.{◌≡◌, true, List, ◌++◌, ℕ, ◌+◌, ◌*◌, ◌<◌, ◌≤◌, length, take, drop, replicate};
ghost use Rattle.rules.specs.Parameters.{allowed, frames};
ghost use Rattle.chip_frames.specs.Frame.{FrameAsked, PageAsked, HostAsked, first_pages, host_page, page_sector, host_frame, sectors_of};
ghost use Rattle.lists.specs.Parts.{part, put_part};

use rules::{Label, PBlock, Params};

// Frame f of block n, counted over the chip.
pub fn frame_at(p: Params, n: PBlock, f: usize) -> usize
    requires p_value { allowed p ≡ true }
    requires n_lt_n { n.0 < p.N }
    requires f_bound { f < frames p }
    ensures { result ≡ n.0 * frames p + f }
{
    let m = chip_sizes::frames(p);
    n.0 * m + f
}

// Frame `to` is programmed with the first m of the n pages of frame `from`, one after the other: all of them, or fewer at a cut.
pub fn copy_pages(chip: &mut [u8], w: usize, n: usize, from: usize, to: usize, m: usize)
    requires frame_asked { FrameAsked chip.old w n from to }
    requires m_le_n { m ≤ n }
    ensures { chip.new ≡ first_pages w n to (part (n * w) from chip.old) chip.old m }
{
    let x = from * n;
    let y = to * n;
    for k in 0..m {
        chip_pages::copy_at(chip, w, x + k, y + k);
    }
}

// Page q is programmed with sector j of a cluster: one of the given sectors, which stand from `off` on, or that of page `old`, or 255 throughout.
fn host_page(
    chip: &mut [u8],
    s: usize,
    q: usize,
    kept: bool,
    old: usize,
    j: usize,
    off: usize,
    count: usize,
    bytes: &[u8],
    of: Label,
)
    requires { PageAsked chip.old s q kept old j off count bytes.now }
    ensures { chip.new ≡ put_part (s + 16) q (host_page s off count bytes.now (page_sector s kept old chip.old)
        of.cluster.0 j of.stamp of.vblock) chip.old }
{
    let end = off + count;
    let given = (off <= j) & (j < end);
    if given {
        let a = (j - off) * s;
        let b = a + s;
        chip_pages::program_at(chip, q, &bytes[a..b], of, (j % 256) as u8);
        return;
    }
    if kept {
        chip_pages::program_from(chip, s, old, q, of, (j % 256) as u8);
        return;
    }
    chip_pages::program_blank_at(chip, q, s, of, (j % 256) as u8);
}

// Frame `to` is programmed with the first m of the n pages of a cluster: the given sectors from `off` on, and for the others those of frame `old`, 255 where
// there is none.
pub fn host_pages(
    chip: &mut [u8],
    s: usize,
    n: usize,
    to: usize,
    kept: bool,
    old: usize,
    off: usize,
    count: usize,
    bytes: &[u8],
    of: Label,
    m: usize,
)
    requires host_asked { HostAsked chip.old s n to kept old off count bytes.now }
    requires m_le_n { m ≤ n }
    ensures { chip.new ≡ first_pages (s + 16) n to (host_frame s n off count bytes.now (sectors_of s n kept old chip.old)
        of.cluster.0 of.stamp of.vblock) chip.old m }
{
    let x = old * n;
    let y = to * n;
    for k in 0..m {
        host_page(chip, s, y + k, kept, x + k, k, off, count, bytes, of);
    }
}
