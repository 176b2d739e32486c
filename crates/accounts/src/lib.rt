// What set-up is given: accounts and funds (crates/gateway/src/accounts.rs), and the timing of sessions (exchange.rs).
#![tactic(auto)]

ghost use Rattle.std.specs.Prelude.{◌≡◌};

// An account: its id, which is also its owner id in the book, its secret, and its limits.
#[derive(Clone, Copy)]
pub struct Account {
    pub id: u32,
    pub token: u64,
    pub max_open_orders: u32,
    pub messages_per_second: u32,
    pub funds: Option<Funds>,
}

#[derive(Clone, Copy)]
pub struct Funds {
    pub cash: i64,
    pub position: i64,
}

// Timing of sessions, in nanoseconds.
#[derive(Clone, Copy)]
pub struct Timing {
    pub heartbeat: u64,
    pub idle_timeout: u64,
}

impl Timing {
    pub const HEARTBEAT: u64 = 1_000_000_000;

    pub const IDLE_TIMEOUT: u64 = 5_000_000_000;
}

impl Default for Timing {
    fn default() -> Self
        ensures { result ≡ record { heartbeat = 1000000000; idle_timeout = 5000000000 } }
    {
        Self {
            heartbeat: Self::HEARTBEAT,
            idle_timeout: Self::IDLE_TIMEOUT,
        }
    }
}
