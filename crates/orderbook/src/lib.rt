// The values of crates/orderbook/src/types.rs that the gateway speaks of, with the Rust's names, cases and order.
// Left out: SelfTradePolicy and EventSink, which belong to matching. The number of a case without data is its wire code (crates/protocol/src/lib.rs).
#![tactic(auto)]

pub mod codes;

ghost use Rattle.std.specs.Prelude.{◌≡◌};
ghost use Rattle.orderbook.specs.Types.{opposite_of};

pub type OrderId = u64;

pub type OwnerId = u32;

pub type TradeId = u64;

pub type Price = i64;

pub type Qty = u64;

// Side of an order.
#[derive(Clone, Copy, Debug, PartialEq, Eq)]
pub enum Side {
    Buy,
    Sell,
}

impl Side {
    // The side this side trades against.
    pub fn opposite(self) -> Side
        ensures { result ≡ opposite_of self }
    {
        match self {
            Side::Buy => Side::Sell,
            Side::Sell => Side::Buy,
        }
    }
}

// An instruction to the matching engine.
#[derive(Clone, Copy)]
pub enum Command {
    Limit {
        id: OrderId,
        owner: OwnerId,
        side: Side,
        price: Price,
        qty: Qty,
        tif: TimeInForce,
        display: Option<Qty>,
    },
    Market {
        id: OrderId,
        owner: OwnerId,
        side: Side,
        qty: Qty,
    },
    Cancel {
        id: OrderId,
        owner: OwnerId,
    },
    // qty is the new total, filled part included.
    Modify {
        id: OrderId,
        owner: OwnerId,
        price: Price,
        qty: Qty,
    },
    Stop {
        id: OrderId,
        owner: OwnerId,
        side: Side,
        trigger: Price,
        limit: Option<Price>,
        qty: Qty,
    },
    CancelAll {
        owner: OwnerId,
    },
    SetPhase {
        phase: Phase,
    },
}

// How long a limit order works, and whether it may take liquidity.
#[derive(Clone, Copy, Debug, PartialEq, Eq)]
pub enum TimeInForce {
    Gtc,
    Ioc,
    Fok,
    PostOnly,
}

// The book's trading phase.
#[derive(Clone, Copy, Debug, PartialEq, Eq)]
pub enum Phase {
    Continuous,
    Auction,
    Halted,
    Closed,
}

// Output of the matching engine. Leaves is the open quantity still working; zero means that the order is done.
#[derive(Clone, Copy)]
pub enum Event {
    Accepted {
        id: OrderId,
    },
    Rejected {
        id: OrderId,
        reason: RejectReason,
    },
    Trade {
        trade_id: TradeId,
        taker: OrderId,
        maker: OrderId,
        taker_side: Side,
        price: Price,
        qty: Qty,
        taker_leaves: Qty,
        maker_leaves: Qty,
    },
    Rested {
        id: OrderId,
        side: Side,
        price: Price,
        qty: Qty,
        visible: Qty,
    },
    Replenished {
        id: OrderId,
        side: Side,
        price: Price,
        visible: Qty,
    },
    Cancelled {
        id: OrderId,
        qty: Qty,
        reason: CancelReason,
    },
    Modified {
        id: OrderId,
        price: Price,
        qty: Qty,
        leaves: Qty,
    },
    StopPlaced {
        id: OrderId,
        side: Side,
        trigger: Price,
        limit: Option<Price>,
        qty: Qty,
    },
    Triggered {
        id: OrderId,
    },
    MassCancelled {
        owner: OwnerId,
        count: u32,
    },
    PhaseChanged {
        phase: Phase,
    },
}

// Why a command was refused.
#[derive(Clone, Copy, Debug, PartialEq, Eq)]
pub enum RejectReason {
    InvalidQuantity = 1,
    PriceOutOfRange,
    PriceOutsideProtection,
    DuplicateOrderId,
    UnknownOrder,
    BookFull,
    InvalidOwner,
    PostOnlyWouldCross,
    InvalidDisplay,
    PriceOutsideBand,
    StopWouldTrigger,
    PendingStop,
    AuctionCall,
    TradingHalted,
    MarketClosed,
}

// Why open quantity left the book without trading.
#[derive(Clone, Copy, Debug, PartialEq, Eq)]
pub enum CancelReason {
    Requested = 1,
    NoLiquidity,
    PriceProtection,
    SelfTrade,
    MassCancel,
    ImmediateOrCancel,
    FillOrKill,
    PriceBand,
    TradingPhase,
}

// A book listing, which stands for the book: its resting orders and its stops. A hidden part is in `leaves` and not in `visible`.
#[derive(Clone, Copy)]
pub enum Listed {
    Order {
        id: OrderId,
        owner: OwnerId,
        side: Side,
        price: Price,
        leaves: Qty,
        visible: Qty,
    },
    Stop {
        id: OrderId,
        owner: OwnerId,
        side: Side,
        limit: Option<Price>,
        qty: Qty,
    },
}
