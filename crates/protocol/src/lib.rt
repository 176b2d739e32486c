// The message values of crates/protocol/src/lib.rs, with the Rust's names, cases and order. The wire form is left out.
#![tactic(auto)]

ghost use Rattle.std.specs.Prelude.{◌≡◌, ok_or};
ghost use Rattle.protocol.specs.Codes.{logout_of};

use orderbook::codes::UnknownCode;
use orderbook::{CancelReason, Phase, RejectReason, Side, TimeInForce};

// The protocol version, sent in `Login`.
pub const VERSION: u16 = 1;

// A message from a client.
#[derive(Clone, Copy)]
pub enum Inbound {
    Login {
        version: u16,
        account: u32,
        token: u64,
    },
    Logout,
    Heartbeat,
    NewOrder(NewOrder),
    Cancel {
        order_id: u64,
    },
    // qty is the new total, filled part included.
    Modify {
        order_id: u64,
        price: i64,
        qty: u64,
    },
    MassCancel,
    Subscribe,
}

#[derive(Clone, Copy)]
pub struct NewOrder {
    pub client_ref: u64,
    pub side: Side,
    pub qty: u64,
    pub kind: OrderKind,
}

#[derive(Clone, Copy)]
pub enum OrderKind {
    Limit {
        price: i64,
        tif: TimeInForce,
        display: Option<u64>,
    },
    Market,
    Stop {
        trigger: i64,
        limit: Option<i64>,
    },
}

// A message to a client.
#[derive(Clone, Copy)]
pub enum Outbound {
    LoginAccepted { account: u32, last_seq: u64 },
    LoginRejected { reason: LoginError },
    Heartbeat,
    Logout { reason: LogoutReason },
    Reject { reason: RejectCode, client_ref: u64 },
    Report(Report),
    BookSnapshot { seq: u64, levels: u32 },
    LevelUpdate(LevelUpdate),
    TradeTick(TradeTick),
    Balance(Balance),
}

// An account's money and position.
#[derive(Clone, Copy)]
pub struct Balance {
    pub cash: i64,
    pub position: i64,
    pub cash_held: i64,
    pub position_held: i64,
}

// A price level, in market data; a level with no orders is gone.
#[derive(Clone, Copy)]
pub struct LevelUpdate {
    pub seq: u64,
    pub side: Side,
    pub price: i64,
    pub qty: u64,
    pub orders: u32,
}

// A trade, in market data.
#[derive(Clone, Copy)]
pub struct TradeTick {
    pub seq: u64,
    pub trade_id: u64,
    pub side: Side,
    pub price: i64,
    pub qty: u64,
}

#[derive(Clone, Copy, Debug, PartialEq, Eq)]
pub enum LoginError {
    UnsupportedVersion = 1,
    BadCredentials,
    AlreadyLoggedIn,
    AlreadyInSession,
}

#[derive(Clone, Copy, Debug, PartialEq, Eq)]
pub enum LogoutReason {
    Requested = 1,
    Idle,
    ProtocolError,
    SlowConsumer,
    Shutdown,
}

impl TryFrom<u8> for LogoutReason {
    type Error = UnknownCode;

    ghost try_from_gives = { λ code r. r ≡ ok_or (logout_of code) (record { 0 = code }) };

    fn try_from(code: u8) -> Result<Self, UnknownCode> {
        match code {
            1 => Ok(LogoutReason::Requested),
            2 => Ok(LogoutReason::Idle),
            3 => Ok(LogoutReason::ProtocolError),
            4 => Ok(LogoutReason::SlowConsumer),
            5 => Ok(LogoutReason::Shutdown),
            _ => Err(UnknownCode(code)),
        }
    }
}

// Why the gateway refused a message.
#[derive(Clone, Copy, Debug, PartialEq, Eq)]
pub enum RejectCode {
    TooManyOrders = 1,
    Throttled,
    Unavailable,
    InsufficientFunds,
    NotAllowed,
    OffMarket,
}

// An event of the book, as reported to a client.
#[derive(Clone, Copy)]
pub struct Report {
    pub seq: u64,
    pub order_id: u64,
    pub client_ref: u64,
    pub kind: ReportKind,
}

#[derive(Clone, Copy)]
pub enum ReportKind {
    Accepted,
    Rejected(RejectReason),
    Fill {
        trade_id: u64,
        side: Side,
        price: i64,
        qty: u64,
        leaves: u64,
    },
    Rested {
        side: Side,
        price: i64,
        qty: u64,
        visible: u64,
    },
    Replenished {
        side: Side,
        price: i64,
        visible: u64,
    },
    Cancelled {
        qty: u64,
        reason: CancelReason,
    },
    Modified {
        price: i64,
        qty: u64,
        leaves: u64,
    },
    StopPlaced {
        side: Side,
        trigger: i64,
        limit: Option<i64>,
        qty: u64,
    },
    Triggered,
    MassCancelled {
        count: u32,
    },
    PhaseChanged(Phase),
}
