// What the entry points take and answer in numbers: options and reasons, and the records of their answers.
#![tactic(auto)]

ghost use Rattle.std.specs.Prelude.{◌≡◌, is_some};
ghost use Rattle.protocol.specs.Codes.{logout_of};
ghost use Rattle.store.specs.View as View;
ghost use Rattle.outcome.specs.Refusals.{code_of, rows_of};
ghost use Rattle.numbers.specs.Numbers as P;

use outcome::Refusal;
use protocol::{Balance, LogoutReason};

// A code, and how many rows (of a checkpoint: bytes) were written.
#[repr(C)]
#[derive(Clone, Copy)]
pub struct Reply {
    pub code: u64,
    pub count: usize,
}

// A code, and a number.
#[repr(C)]
#[derive(Clone, Copy)]
pub struct Number {
    pub code: u64,
    pub number: u64,
}

// A code; whether there is an account, and which.
#[repr(C)]
#[derive(Clone, Copy)]
pub struct Account {
    pub code: u64,
    pub there: u64,
    pub account: u64,
}

// A code; whether there is a wallet, and what is in it and held.
#[repr(C)]
#[derive(Clone, Copy)]
pub struct Wallet {
    pub code: u64,
    pub there: u64,
    pub cash: i64,
    pub position: i64,
    pub cash_held: i64,
    pub position_held: i64,
}

// ---- what is taken

pub fn percent_of(there: u64, percent: u32) -> Option<u32>
    ensures { result ≡ View.maybe there percent }
{
    (there != 0).then_some(percent)
}

pub fn is_reason(why: u8) -> bool
    ensures { result ≡ is_some (logout_of why) }
{
    LogoutReason::try_from(why).is_ok()
}

pub fn reason(why: u8) -> LogoutReason
    ensures { result ≡ P.reason_or (logout_of why) }
{
    LogoutReason::try_from(why).unwrap_or(LogoutReason::Requested)
}

// ---- what is answered

impl From<Result<usize, Refusal>> for Reply {
    ghost from_gives = { λ r x. x ≡ record { code = code_of r; count = rows_of r } };

    fn from(r: Result<usize, Refusal>) -> Reply {
        match r {
            Ok(count) => Reply { code: 0, count },
            Err(why) => Reply {
                code: why as u64,
                count: 0,
            },
        }
    }
}

// The code of a call without rows.
pub fn code_of(r: Result<(), Refusal>) -> u64
    ensures { result ≡ code_of r }
{
    match r {
        Ok(()) => 0,
        Err(why) => why as u64,
    }
}

pub fn wallet_of(b: Option<Balance>) -> Wallet
    ensures { result ≡ P.wallet_row b }
{
    match b {
        Some(x) => Wallet {
            code: 0,
            there: 1,
            cash: x.cash,
            position: x.position,
            cash_held: x.cash_held,
            position_held: x.position_held,
        },
        None => no_wallet(0),
    }
}

pub fn no_wallet(code: u64) -> Wallet
    ensures { result ≡ P.no_wallet code }
{
    Wallet {
        code,
        there: 0,
        cash: 0,
        position: 0,
        cash_held: 0,
        position_held: 0,
    }
}

pub fn account_of(a: Option<u32>) -> Account
    ensures { result ≡ P.account_row a }
{
    match a {
        Some(id) => Account {
            code: 0,
            there: 1,
            account: id as u64,
        },
        None => Account {
            code: 0,
            there: 0,
            account: 0,
        },
    }
}
