// Pre-trade risk (crates/gateway/src/exchange.rs): the collar of near_market, and the throttle of take_token as RFC 2697's meter.
// Prices are words, `int w`.
#![tactic(auto)]

ghost use Rattle.std.specs.Prelude.{◌≡◌, ◌-◌, ◌≤◌};
ghost use Rattle.words.specs.Words.{int};
ghost use Rattle.risk.specs.Collar as C;
ghost use Rattle.risk.specs.Meter as M;
ghost use Rattle.risk.specs.Throttle as T;
ghost use Rattle.risk.specs.Claims.{Claims};

use words::Signed128;

// |price - mark| * 100 <= mark * percent, exact and signed.
pub fn near(price: u64, mark: u64, percent: u64) -> bool
    ensures { result ≡ C.near (int price) (int mark) percent }
{
    let apart = Signed128 {
        neg: false,
        size: words::wide_mul(words::distance(price, mark), 100),
    };
    words::at_most(apart, words::signed_mul(mark, percent))
}

// A message, in billionths of one; also a second, in nanoseconds.
const TOKEN: u64 = 1000000000;

// An account's token bucket, and when it was last filled.
#[derive(Clone, Copy)]
pub struct Bucket {
    pub tokens: u64,
    pub refilled: u64,
}

#[derive(Clone, Copy)]
pub struct Taken {
    pub passed: bool,
    pub bucket: Bucket,
}

// A second fills the bucket, so that the sum fits.
fn filled(tokens: u64, rate: u32, elapsed: u64) -> u64
    ensures { result ≡ T.filled rate elapsed tokens }
{
    let burst = rate as u64 * TOKEN;
    if elapsed >= TOKEN {
        return burst;
    }
    if tokens >= burst {
        return burst;
    }
    let sum = tokens + rate as u64 * elapsed;
    sum.min(burst)
}

// Whether a message passes.
fn green(tokens: u64) -> bool
    ensures { result ≡ M.green T.message tokens }
{
    TOKEN <= tokens
}

impl Bucket {
    // Full at time 0, as in AccountState::new.
    pub fn full(rate: u32) -> Bucket
        ensures { result ≡ T.full rate }
    {
        Bucket {
            tokens: rate as u64 * TOKEN,
            refilled: 0,
        }
    }

    fn update(self, rate: u32, now: u64) -> Bucket
        ensures { result ≡ T.update rate now self }
    {
        // A clock that goes back adds nothing.
        let elapsed = now.saturating_sub(self.refilled);
        Bucket {
            tokens: filled(self.tokens, rate, elapsed),
            refilled: self.refilled + elapsed,
        }
    }

    fn less(self) -> Bucket
        requires { T.message ≤ self.tokens }
        ensures { result ≡ T.less self }
    {
        Bucket {
            tokens: self.tokens - TOKEN,
            refilled: self.refilled,
        }
    }
}

// Takes one message from the bucket, if it holds one.
pub fn take_token(bucket: Bucket, rate: u32, now: u64) -> Taken
    ensures { result ≡ T.take_token rate now bucket }
{
    let updated = bucket.update(rate, now);
    if green(updated.tokens) {
        Taken {
            passed: true,
            bucket: updated.less(),
        }
    } else {
        Taken {
            passed: false,
            bucket: updated,
        }
    }
}

// What is claimed of the throttle holds. Nothing calls this: it is here for its proof.
pub fn claims()
    ensures { Claims }
{}
