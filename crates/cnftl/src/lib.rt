// The C interface: the calls of documents 01 and 02 with the parameters one by one, and the answer as one number. T-06's table of marks comes after the wear.
#![tactic(auto)]

ghost use Rattle.std.specs.Prelude.{◌≡◌, []};
ghost use Rattle.rules.specs.Tables.{board_of};
ghost use Rattle.rules.specs.Lent.{entry_board, exit_board, seen_board};
ghost use Rattle.rules.specs.Calls.{outcome_of};
ghost use Rattle.rules.specs.Cuts.{limited, step_outcome};
ghost use Rattle.rules.specs.Requests.{format, read, write, release, start, request_of};
ghost use Rattle.c_queue.specs.Flat.{flat_call, flat_outcome};
ghost use Rattle.c_queue_cut.specs.Cut.{flat_cut};
ghost use Rattle.c_answer.specs.Packed.{params_of};
ghost use Rattle.cnftl.specs.Packed.{Given};
ghost use Rattle.cnftl.specs.Listed.{Listed};

use rules::Seen;

// The number of this interface, which is in the name too: an object that was compiled with a header of another number does not link.
#[unsafe(no_mangle)]
pub extern "C" fn cnftl_api_3() -> u32
    ensures { result ≡ 3 }
{
    3
}

// Document 01's format.
#[unsafe(no_mangle)]
pub extern "C" fn cnftl_format(
    s: u32,
    alpha: u32,
    beta: u32,
    d: u32,
    mu: u32,
    gamma: u32,
    c: u32,
    n: u32,
    e: u32,
    chip: &mut [u8],
    ct: &mut [u16],
    bt: &mut [u16],
    fst: &mut [u16],
    bst: &mut [u8],
    wear: &mut [u32],
    marks: &mut [u64],
    stamps: &mut [u32],
) -> u64
    ensures { Given (outcome_of (params_of s alpha beta d mu gamma c n e) (entry_board chip ct bt fst bst wear marks stamps) format) result [] (exit_board chip ct bt fst bst wear marks stamps) }
{
    let p = c_answer::params(s, alpha, beta, d, mu, gamma, c, n, e);
    c_answer::pack(calls::format(p, chip, ct, bt, fst, bst, wear, marks, stamps))
}

// The same with a budget of erases.
#[unsafe(no_mangle)]
pub extern "C" fn cnftl_format_cut(
    s: u32,
    alpha: u32,
    beta: u32,
    d: u32,
    mu: u32,
    gamma: u32,
    c: u32,
    n: u32,
    e: u32,
    chip: &mut [u8],
    ct: &mut [u16],
    bt: &mut [u16],
    fst: &mut [u16],
    bst: &mut [u8],
    wear: &mut [u32],
    marks: &mut [u64],
    stamps: &mut [u32],
    budget: u64,
) -> u64
    ensures { Given (step_outcome (params_of s alpha beta d mu gamma c n e) (entry_board chip ct bt fst bst wear marks stamps) (limited budget format)) result [] (exit_board chip ct bt fst bst wear marks stamps) }
{
    let p = c_answer::params(s, alpha, beta, d, mu, gamma, c, n, e);
    c_answer::pack(calls::format_cut(p, chip, ct, bt, fst, bst, wear, marks, stamps, budget))
}

// Document 02's start.
#[unsafe(no_mangle)]
pub extern "C" fn cnftl_start(
    s: u32,
    alpha: u32,
    beta: u32,
    d: u32,
    mu: u32,
    gamma: u32,
    c: u32,
    n: u32,
    e: u32,
    chip: &mut [u8],
    ct: &mut [u16],
    bt: &mut [u16],
    fst: &mut [u16],
    bst: &mut [u8],
    wear: &mut [u32],
    marks: &mut [u64],
    stamps: &mut [u32],
) -> u64
    ensures { Given (outcome_of (params_of s alpha beta d mu gamma c n e) (entry_board chip ct bt fst bst wear marks stamps) start) result [] (exit_board chip ct bt fst bst wear marks stamps) }
{
    let p = c_answer::params(s, alpha, beta, d, mu, gamma, c, n, e);
    c_answer::pack(calls::start(p, chip, ct, bt, fst, bst, wear, marks, stamps))
}

// The same with a budget of erases.
#[unsafe(no_mangle)]
pub extern "C" fn cnftl_start_cut(
    s: u32,
    alpha: u32,
    beta: u32,
    d: u32,
    mu: u32,
    gamma: u32,
    c: u32,
    n: u32,
    e: u32,
    chip: &mut [u8],
    ct: &mut [u16],
    bt: &mut [u16],
    fst: &mut [u16],
    bst: &mut [u8],
    wear: &mut [u32],
    marks: &mut [u64],
    stamps: &mut [u32],
    budget: u64,
) -> u64
    ensures { Given (step_outcome (params_of s alpha beta d mu gamma c n e) (entry_board chip ct bt fst bst wear marks stamps) (limited budget start)) result [] (exit_board chip ct bt fst bst wear marks stamps) }
{
    let p = c_answer::params(s, alpha, beta, d, mu, gamma, c, n, e);
    c_answer::pack(calls::start_cut(p, chip, ct, bt, fst, bst, wear, marks, stamps, budget))
}

// Document 01's read.
#[unsafe(no_mangle)]
pub extern "C" fn cnftl_read(
    s: u32,
    alpha: u32,
    beta: u32,
    d: u32,
    mu: u32,
    gamma: u32,
    c: u32,
    n: u32,
    e: u32,
    chip: &[u8],
    ct: &[u16],
    bt: &[u16],
    fst: &[u16],
    bst: &[u8],
    wear: &[u32],
    marks: &[u64],
    stamps: &[u32],
    lba: u32,
    count: u32,
    bytes: &mut [u8],
) -> u64
    ensures { Given (outcome_of (params_of s alpha beta d mu gamma c n e) (seen_board chip ct bt fst bst wear marks stamps) (read (request_of lba count bytes.old)))
        result bytes.new (seen_board chip ct bt fst bst wear marks stamps) }
{
    let p = c_answer::params(s, alpha, beta, d, mu, gamma, c, n, e);
    c_answer::pack(calls::read(
        p,
        Seen {
            chip,
            ct,
            bt,
            fst,
            bst,
            wear,
            marks,
            stamps,
        },
        lba,
        count,
        bytes,
    ))
}

// Document 01's write.
#[unsafe(no_mangle)]
pub extern "C" fn cnftl_write(
    s: u32,
    alpha: u32,
    beta: u32,
    d: u32,
    mu: u32,
    gamma: u32,
    c: u32,
    n: u32,
    e: u32,
    chip: &mut [u8],
    ct: &mut [u16],
    bt: &mut [u16],
    fst: &mut [u16],
    bst: &mut [u8],
    wear: &mut [u32],
    marks: &mut [u64],
    stamps: &mut [u32],
    lba: u32,
    count: u32,
    bytes: &[u8],
) -> u64
    ensures { Given (outcome_of (params_of s alpha beta d mu gamma c n e) (entry_board chip ct bt fst bst wear marks stamps) (write (request_of lba count bytes.now)))
        result bytes.now (exit_board chip ct bt fst bst wear marks stamps) }
{
    let p = c_answer::params(s, alpha, beta, d, mu, gamma, c, n, e);
    c_answer::pack(calls::write(
        p, chip, ct, bt, fst, bst, wear, marks, stamps, lba, count, bytes,
    ))
}

// The same with a budget of programs and erases.
#[unsafe(no_mangle)]
pub extern "C" fn cnftl_write_cut(
    s: u32,
    alpha: u32,
    beta: u32,
    d: u32,
    mu: u32,
    gamma: u32,
    c: u32,
    n: u32,
    e: u32,
    chip: &mut [u8],
    ct: &mut [u16],
    bt: &mut [u16],
    fst: &mut [u16],
    bst: &mut [u8],
    wear: &mut [u32],
    marks: &mut [u64],
    stamps: &mut [u32],
    lba: u32,
    count: u32,
    bytes: &[u8],
    budget: u64,
) -> u64
    ensures { Given (step_outcome (params_of s alpha beta d mu gamma c n e) (entry_board chip ct bt fst bst wear marks stamps) (limited budget (write (request_of lba count bytes.now))))
        result bytes.now (exit_board chip ct bt fst bst wear marks stamps) }
{
    let p = c_answer::params(s, alpha, beta, d, mu, gamma, c, n, e);
    c_answer::pack(calls::write_cut(
        p, chip, ct, bt, fst, bst, wear, marks, stamps, lba, count, bytes, budget,
    ))
}

// Document 02's queue of writes, from flat lists.
#[unsafe(no_mangle)]
pub extern "C" fn cnftl_queue(
    s: u32,
    alpha: u32,
    beta: u32,
    d: u32,
    mu: u32,
    gamma: u32,
    c: u32,
    n: u32,
    e: u32,
    chip: &mut [u8],
    ct: &mut [u16],
    bt: &mut [u16],
    fst: &mut [u16],
    bst: &mut [u8],
    wear: &mut [u32],
    marks: &mut [u64],
    stamps: &mut [u32],
    requests: &[u32],
    bytes: &[u8],
    answers: &mut [u64],
) -> u64
    ensures { flat_outcome result answers.new (exit_board chip ct bt fst bst wear marks stamps) ≡ flat_call (params_of s alpha beta d mu gamma c n e)
        (entry_board chip ct bt fst bst wear marks stamps) requests.now bytes.now answers.old }
{
    let p = c_answer::params(s, alpha, beta, d, mu, gamma, c, n, e);
    c_queue::queue(
        p, chip, ct, bt, fst, bst, wear, marks, stamps, requests, bytes, answers,
    )
}

// The same with a budget of programs and erases.
#[unsafe(no_mangle)]
pub extern "C" fn cnftl_queue_cut(
    s: u32,
    alpha: u32,
    beta: u32,
    d: u32,
    mu: u32,
    gamma: u32,
    c: u32,
    n: u32,
    e: u32,
    chip: &mut [u8],
    ct: &mut [u16],
    bt: &mut [u16],
    fst: &mut [u16],
    bst: &mut [u8],
    wear: &mut [u32],
    marks: &mut [u64],
    stamps: &mut [u32],
    requests: &[u32],
    bytes: &[u8],
    answers: &mut [u64],
    budget: u64,
) -> u64
    ensures { flat_outcome result answers.new (exit_board chip ct bt fst bst wear marks stamps) ≡ flat_cut (params_of s alpha beta d mu gamma c n e)
        (entry_board chip ct bt fst bst wear marks stamps) budget requests.now bytes.now answers.old }
{
    let p = c_answer::params(s, alpha, beta, d, mu, gamma, c, n, e);
    c_queue_cut::queue_cut(
        p, chip, ct, bt, fst, bst, wear, marks, stamps, requests, bytes, answers, budget,
    )
}

// Document 02's release of one cluster.
#[unsafe(no_mangle)]
pub extern "C" fn cnftl_release(
    s: u32,
    alpha: u32,
    beta: u32,
    d: u32,
    mu: u32,
    gamma: u32,
    c: u32,
    n: u32,
    e: u32,
    chip: &[u8],
    ct: &mut [u16],
    bt: &[u16],
    fst: &[u16],
    bst: &[u8],
    wear: &[u32],
    marks: &mut [u64],
    stamps: &mut [u32],
    cluster: u32,
) -> u64
    ensures { Given (outcome_of (params_of s alpha beta d mu gamma c n e) (board_of chip.now ct.old bt.now fst.now bst.now wear.now marks.old stamps.old) (release cluster)) result [] (board_of chip.now ct.new bt.now fst.now bst.now wear.now marks.new stamps.new) }
{
    let p = c_answer::params(s, alpha, beta, d, mu, gamma, c, n, e);
    c_answer::pack(calls::release(p, chip, ct, bt, fst, bst, wear, marks, stamps, cluster))
}

// Document 02's question why a sector reads so, and what a write of it would do.
#[unsafe(no_mangle)]
pub extern "C" fn cnftl_why(
    s: u32,
    alpha: u32,
    beta: u32,
    d: u32,
    mu: u32,
    gamma: u32,
    c: u32,
    n: u32,
    e: u32,
    chip: &[u8],
    ct: &[u16],
    bt: &[u16],
    fst: &[u16],
    bst: &[u8],
    wear: &[u32],
    marks: &[u64],
    stamps: &[u32],
    lba: u32,
    list: &mut [u32],
) -> u64
    ensures { Listed (params_of s alpha beta d mu gamma c n e) (seen_board chip ct bt fst bst wear marks stamps) lba list.old result list.new }
{
    let p = c_answer::params(s, alpha, beta, d, mu, gamma, c, n, e);
    if list.len() != c_why::WHY_NUMBERS {
        if chip_sizes::parameters_allowed(p) {
            return 2;
        }
        return 1;
    }
    c_why::tell(
        call_why::explain(
            p,
            Seen {
                chip,
                ct,
                bt,
                fst,
                bst,
                wear,
                marks,
                stamps,
            },
            lba,
        ),
        list,
    )
}
