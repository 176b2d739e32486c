// The limits of document 01, each once; gateway/specs/Limits.antt has them for the definitions.
pub const OWNER_SLOTS: usize = 256;

pub const SESSION_SLOTS: usize = 64;

pub const MOST_ORDERS: u64 = 1_024;

pub const MOST_IN_FLIGHT: u64 = 256;

pub const MOST_IN_BATCH: u64 = 256;

pub const MOST_LEVELS: usize = 512;

pub const MOST_TRADES: u64 = 256;

pub const MOST_NOTICES: u64 = 2_048;

pub const MOST_CHANGED: u64 = 1_024;

// The greatest number, and the greatest quantity of a level.
pub const GREATEST: u64 = 18_446_744_073_709_551_615;
