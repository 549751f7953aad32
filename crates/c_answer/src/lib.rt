// What C passes and gets as plain numbers: the parameters one by one, and an answer as one number, also in its place of a list.
#![tactic(auto)]

ghost use Rattle.std.specs.Prelude.{◌≡◌, length, set, ◌<◌};
ghost use Rattle.c_answer.specs.Packed.{packed, params_of};

use rules::{Answer, Params};

// The parameters as one.
pub fn params(
    s: u32,
    alpha: u32,
    beta: u32,
    d: u32,
    mu: u32,
    gamma: u32,
    c: u32,
    n: u32,
    e: u32,
) -> Params
    ensures { result ≡ params_of s alpha beta d mu gamma c n e }
{
    Params {
        s: s as usize,
        alpha: alpha as usize,
        beta: beta as usize,
        d: d as usize,
        mu: mu as usize,
        gamma: gamma as usize,
        C: c as usize,
        N: n as usize,
        E: e as usize,
    }
}

// The answer as one number: reply + 65,536 × programs + 4,294,967,296 × erases.
pub fn pack(a: Answer) -> u64
    requires { a.programs < 65536 }
    ensures { result ≡ packed a }
{
    let reply = a.reply;
    u32::from(reply) as u64 + 65536 * (a.programs as u64) + 4294967296 * (a.erases as u64)
}

// An answer, packed, in its place;
// the others stay.
pub fn put(answers: &mut [u64], i: usize, a: Answer)
    requires programs_bound { a.programs < 65536 }
    requires i_in_bounds { i < length answers.old }
    ensures { answers.new ≡ set answers.old i (packed a) }
{
    answers[i] = pack(a);
}
