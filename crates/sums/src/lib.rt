// Exact sums of many signed words, whatever a partial sum does: a total of holds is judged before anything is written (code 7 of document 01).
#![tactic(auto)]

ghost use Rattle.std.specs.Prelude.{◌≡◌, ◌≤◌, ◌<◌, pos};
ghost use Rattle.words.specs.Words.{int};
ghost use Rattle.sums.specs.Sums as P;

// The upper and the lower halves of the words, each raised by 2^63, summed apart: 2^31 of them do not fill 64 bits.
#[derive(Clone, Copy)]
pub struct Sum {
    pub high: u64,
    pub low: u64,
}

const BASE: u64 = 4_294_967_296;

const HALF: u64 = 2_147_483_648;

pub fn nothing() -> Sum
    ensures { P.Sums 0 (pos 0) result }
{
    Sum { high: 0, low: 0 }
}

// One word more.
pub fn add(s: Sum, w: u64) -> Sum
    requires { P.HasRoom s }
    ensures { P.Adds s (int w) result }
{
    let u = words::raised(w);
    Sum {
        high: s.high + u / BASE,
        low: s.low + u % BASE,
    }
}

// Whether the sum of `count` words fits 64 bits signed.
pub fn is_fit(s: Sum, count: u64) -> bool
    requires { P.Small count s }
    ensures { P.Judges count s result }
{
    let top = s.high + s.low / BASE;
    if count * HALF <= top + HALF {
        return top < (count + 1) * HALF;
    }
    false
}
