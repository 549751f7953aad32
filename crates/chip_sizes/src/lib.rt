// The sizes that follow from the parameters, and the two checks that look at numbers alone: replies 1 and 2.
#![tactic(auto)]

ghost use Rattle.std.specs.Prelude.{◌≡◌, true, ◌<◌, length};
ghost use Rattle.rules.specs.Parameters.{allowed, frames, pages, page_bytes, frame_bytes, block_bytes, within};
ghost use Rattle.rules.specs.Tables.{Board};
ghost use Rattle.rules.specs.Replies.{lengths_fit};
ghost use Rattle.chip_sizes.specs.Checks.{in_ranges, tied};

use rules::Params;

// The frames of a block.
pub fn frames(p: Params) -> usize
    requires { allowed p ≡ true }
    ensures { result ≡ frames p }
{
    p.beta * p.d
}

// The pages of a block.
pub fn pages(p: Params) -> usize
    requires { allowed p ≡ true }
    ensures { result ≡ pages p }
{
    let f = frames(p);
    p.alpha * f
}

// The bytes of a page.
pub fn page_bytes(p: Params) -> usize
    requires { allowed p ≡ true }
    ensures { result ≡ page_bytes p }
{
    p.s + rules::SPARE_BYTES
}

// The bytes of a frame.
pub fn frame_bytes(p: Params) -> usize
    requires { allowed p ≡ true }
    ensures { result ≡ frame_bytes p }
{
    p.alpha * page_bytes(p)
}

// The bytes of a block.
pub fn block_bytes(p: Params) -> usize
    requires { allowed p ≡ true }
    ensures { result ≡ block_bytes p }
{
    let f = frames(p);
    let w = frame_bytes(p);
    f * w
}

fn within(lo: usize, hi: usize, x: usize) -> bool
    ensures { result ≡ within lo hi x }
{
    if x < lo {
        return false;
    }
    x <= hi
}

// Each parameter is in its range.
fn in_ranges(p: Params) -> bool
    ensures { result ≡ in_ranges p }
{
    within(16, 512, p.s)
        & within(1, 16, p.alpha)
        & within(1, 16, p.beta)
        & within(1, 16, p.d)
        & within(1, 1024, p.mu)
        & within(1, 16, p.gamma)
        & within(1, 1048576, p.C)
        & within(1, 65535, p.N)
        & within(1, 1000000, p.E)
}

// P is at most 256, and C/μ rounded up at most γF − 1.
fn are_tied(p: Params) -> bool
    requires { in_ranges p ≡ true }
    ensures { result ≡ tied p }
{
    let f = p.beta * p.d;
    let pages = p.alpha * f;
    if 256 < pages {
        return false;
    }
    (p.C + (p.mu - 1)) / p.mu <= p.gamma * f - 1
}

// True if the parameters are allowed; reply 1 if not.
pub fn parameters_allowed(p: Params) -> bool
    ensures { result ≡ allowed p }
{
    if in_ranges(p) {
        return are_tied(p);
    }
    false
}

// True if the chip, in bytes, and each table, in entries, has the right length; reply 2 if not.
pub fn lengths_fit(
    p: Params,
    chip: usize,
    ct: usize,
    bt: usize,
    fst: usize,
    bst: usize,
    wear: usize,
    marks: usize,
    stamps: usize,
) -> bool
    requires { allowed p ≡ true }
    ensures { (b : Board) → length b.chip ≡ chip → length b.ct ≡ ct → length b.bt ≡ bt → length b.fst ≡ fst → length b.bst ≡ bst
        → length b.wear ≡ wear → length b.marks ≡ marks → length b.stamps ≡ stamps → result ≡ lengths_fit p b }
{
    let w = block_bytes(p);
    let all = p.N * w;
    let named = p.mu * p.gamma;
    (chip == all)
        & (ct == p.C)
        & (bt == named)
        & (fst == p.mu)
        & (bst == p.N)
        & (wear == p.N)
        & (marks == 4 * named)
        & (stamps == p.mu)
}
