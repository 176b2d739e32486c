// The cells of each block by name, as in specs/Cells.antt.

// one row: the numbers of the whole gateway, and how many rows of the other blocks are in use
pub const LAST: usize = 0;

pub const DELIVERED: usize = 1;

pub const PUBLISHED: usize = 2;

pub const CLOCK: usize = 3;

pub const MARKED: usize = 4;

pub const MARK: usize = 5;

pub const COLLAR: usize = 6;

pub const OWNER_LIMIT: usize = 7;

pub const HEARTBEAT: usize = 8;

pub const IDLE_TIMEOUT: usize = 9;

pub const FLYING: usize = 10;

pub const WAITING: usize = 11;

pub const ORDER_ROWS: usize = 12;

pub const LIVE_ORDERS: usize = 13;

pub const RESTING_ORDERS: usize = 14;

pub const BID_ROWS: usize = 15;

pub const ASK_ROWS: usize = 16;

pub const TRADE_ROWS: usize = 17;

pub const NOTICE_ROWS: usize = 18;

pub const CHANGED_ROWS: usize = 19;

pub const BID_LEVELS: usize = 20;

pub const ASK_LEVELS: usize = 21;

pub const FEE: usize = 22;

// by account number
pub const ACCOUNT_EXISTS: usize = 0;

pub const ACCOUNT_TOKEN: usize = 1;

pub const ACCOUNT_MAX_OPEN: usize = 2;

pub const ACCOUNT_RATE: usize = 3;

pub const ACCOUNT_FUNDED: usize = 4;

pub const ACCOUNT_FUNDS_CASH: usize = 5;

pub const ACCOUNT_FUNDS_POSITION: usize = 6;

pub const ACCOUNT_CASH: usize = 7;

pub const ACCOUNT_POSITION: usize = 8;

pub const ACCOUNT_CASH_HELD: usize = 9;

pub const ACCOUNT_POSITION_HELD: usize = 10;

pub const ACCOUNT_OPEN_ORDERS: usize = 11;

pub const ACCOUNT_TOKENS: usize = 12;

pub const ACCOUNT_REFILLED: usize = 13;

pub const ACCOUNT_SESSION: usize = 14;

// by session number
pub const SESSION_CONNECTED: usize = 0;

pub const SESSION_ACCOUNT: usize = 1;

pub const SESSION_LAST_RECEIVED: usize = 2;

pub const SESSION_LAST_SENT: usize = 3;

pub const SESSION_CLOSING: usize = 4;

pub const SESSION_SUBSCRIBED: usize = 5;

// by command number modulo 256
pub const FLIGHT_SENDER: usize = 0;

pub const FLIGHT_OWNER: usize = 1;

pub const FLIGHT_PLACES: usize = 2;

// commands not yet handed over
pub const COMMAND_KIND: usize = 0;

pub const COMMAND_ID: usize = 1;

pub const COMMAND_OWNER: usize = 2;

pub const COMMAND_SIDE: usize = 3;

pub const COMMAND_PRICE: usize = 4;

pub const COMMAND_QTY: usize = 5;

pub const COMMAND_TIF: usize = 6;

pub const COMMAND_DISPLAYED: usize = 7;

pub const COMMAND_DISPLAY: usize = 8;

pub const COMMAND_TRIGGER: usize = 9;

pub const COMMAND_LIMITED: usize = 10;

pub const COMMAND_LIMIT: usize = 11;

// ascending by number; an order is live, resting, both, or gone
pub const ORDER_NUMBER: usize = 0;

pub const ORDER_LIVE: usize = 1;

pub const ORDER_RESTING: usize = 2;

pub const ORDER_KEPT: usize = 3;

pub const ORDER_ACCOUNT: usize = 4;

pub const ORDER_CLIENT_REF: usize = 5;

pub const ORDER_SIDE: usize = 6;

pub const ORDER_PRICED: usize = 7;

pub const ORDER_PRICE: usize = 8;

pub const ORDER_LEAVES: usize = 9;

pub const ORDER_HOLD: usize = 10;

pub const ORDER_REST_SIDE: usize = 11;

pub const ORDER_REST_PRICE: usize = 12;

pub const ORDER_VISIBLE: usize = 13;

pub const ORDER_REST_LEAVES: usize = 14;

// the place of its level when it came to rest; it may be wrong
pub const ORDER_LEVEL: usize = 15;

// ascending by price; a level without orders is gone
pub const LEVEL_PRICE: usize = 0;

pub const LEVEL_QTY: usize = 1;

pub const LEVEL_ORDERS: usize = 2;

// ascending by price

// not yet published
pub const TRADE_SEQ: usize = 0;

pub const TRADE_TRADE_ID: usize = 1;

pub const TRADE_SIDE: usize = 2;

pub const TRADE_PRICE: usize = 3;

pub const TRADE_QTY: usize = 4;

// accounts whose wallets changed since the last publishing
pub const NOTICE_ACCOUNT: usize = 0;

// levels changed since the last publishing
pub const CHANGED_SIDE: usize = 0;

pub const CHANGED_PRICE: usize = 1;

// one more than the last row before it of the same slot
pub const CHANGED_LINK: usize = 2;

// rows of orders, by number modulo 16,384, four in a cell of 16 bits each; a hint may be wrong
pub const HINT_FOUR: usize = 0;

// by a changed level's slot: one more than the newest row of the slot, or 0
pub const TOP_ROW: usize = 0;

// a bit for each of 64 rows of bids, of asks or of orders: 1 where it is a level, or is kept
pub const MAP_BITS: usize = 0;
