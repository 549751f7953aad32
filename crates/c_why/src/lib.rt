// The answer of why as thirteen numbers, as C gets it: in the lent list where it is told, and its reply.
#![tactic(auto)]

ghost use Rattle.std.specs.Prelude.{◌≡◌, cond, get_or, length};
ghost use Rattle.call_why.specs.Why.{Small, forecast_numbers, numbers_of};
ghost use Rattle.c_why.specs.Told.{tells};

use call_why::{Forecast, Why};

// How many numbers the answer of why has.
pub const WHY_NUMBERS: usize = 13;

// The numbers of a forecast, for the end of the list.
fn forecast_numbers(fc: Forecast) -> [u32; 4]
    requires { Small (forecast_numbers fc) }
    ensures { result ≡ forecast_numbers fc }
{
    match fc {
        Forecast::Continues(v, f) => [1, v.0 as u32, f as u32, 0],
        Forecast::Opens(v) => [2, v.0 as u32, 0, 0],
        Forecast::Reclaims(v, n) => [3, v.0 as u32, n as u32, n as u32],
        Forecast::NoStamp => [9, 0, 0, 0],
        Forecast::NoBlock => [10, 0, 0, 0],
    }
}

// The numbers of an answer, in the order of the list.
fn why_numbers(w: Why) -> [u32; WHY_NUMBERS]
    requires { Small (numbers_of w) }
    ensures { result ≡ numbers_of w }
{
    match w {
        Why::Refused(r) => [u32::from(r), 0, 0, 0, 0, 0, 0, 0, 0, 0, 0, 0, 0],
        Why::Disordered(k) => [7, u32::from(k), 0, 0, 0, 0, 0, 0, 0, 0, 0, 0, 0],
        Why::Empty(fc) => {
            let f = forecast_numbers(fc);
            [0, 0, 0, 0, 0, 0, 0, 0, f[0], f[1], f[2], f[3], 0]
        }
        Why::Held(at, fc, looks) => {
            let f = forecast_numbers(fc);
            [
                0,
                0,
                1,
                at.region as u32,
                at.segment.0 as u32,
                at.vblock.0 as u32,
                at.pblock.0 as u32,
                at.frame as u32,
                f[0],
                f[1],
                f[2],
                f[3],
                looks,
            ]
        }
    }
}

// An answer in the lent list, where its reply is 0 or 7. The reply.
pub fn tell(w: Why, list: &mut [u32]) -> u64
    requires small { Small (numbers_of w) }
    requires list_len { length list.old ≡ 13 }
    ensures value { result ≡ get_or (numbers_of w) 0 0 }
    ensures list_after { list.new ≡ cond (tells (get_or (numbers_of w) 0 0)) (numbers_of w) list.old }
{
    let ns = why_numbers(w);
    let reply = ns[0];
    if (reply == 0) | (reply == 7) {
        list.copy_from_slice(&ns);
        return reply as u64;
    }
    reply as u64
}
