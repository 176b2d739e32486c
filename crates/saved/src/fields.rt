// The rows of a checkpoint: fields of fixed widths, one behind the other.
ghost use Rattle.std.specs.Prelude.{◌≡◌, ◌+◌, ◌/◌, ◌%◌, ◌≤◌, eqb, length};
ghost use Rattle.le.specs.Row.{gets};
ghost use Rattle.gateway.specs.Bytes.{wallet_widths, order_widths, price_ok, side_from, row_wallet, row_order};
ghost use Rattle.store.specs.View.{flag, side};
ghost use Rattle.saved.specs.Contents as S;

use crate::Purse;
use orders::Live;

// An order's flags: bit 0, and the bits above it, which say 1 where there is a price and 0 where there is none.
#[derive(Clone, Copy)]
pub struct Flags {
    pub buy: u8,
    pub priced: u8,
}

pub fn unpack(flags: u8) -> Flags
    ensures { result ≡ record { buy = flags % 2; priced = flags / 2 } }
{
    Flags {
        buy: flags & 1,
        priced: flags >> 1,
    }
}

// Whether no other bit of a price's flag is set, and an absent price is 0.
pub fn price_fits(flag: u8, price: u64) -> bool
    ensures { result ≡ price_ok flag price }
{
    if flag == 1 {
        return true;
    }
    if flag == 0 {
        return price == 0;
    }
    false
}

// ---- words

// 1 for a flag that is set.
pub fn code_of(priced: u8) -> u64
    ensures { flag result ≡ eqb priced 1 }
{
    if priced == 1 { 1 } else { 0 }
}

// The code of a side: 0 for a buy.
fn side_of(buy: u8) -> u64
    ensures { side result ≡ side_from buy }
{
    if buy == 1 { 0 } else { 1 }
}

// ---- rows

pub fn wallet_row(xs: &[u8], at: usize) -> Purse
    requires { at + 20 ≤ length xs.now }
    ensures { S.wallet_of result ≡ row_wallet (gets wallet_widths xs.now at) }
{
    let account = le::get_u32(xs, at);
    let cash = le::get_u64(xs, at + 4);
    let position = le::get_u64(xs, at + 12);
    Purse {
        account,
        cash,
        position,
    }
}

pub fn order_row(xs: &[u8], at: usize) -> Live
    requires { at + 37 ≤ length xs.now }
    ensures { S.Reads (row_order (gets order_widths xs.now at)) result }
{
    let account = le::get_u32(xs, at + 8);
    let client_ref = le::get_u64(xs, at + 12);
    let flags = unpack(le::get_u8(xs, at + 20));
    let price = le::get_u64(xs, at + 21);
    let leaves = le::get_u64(xs, at + 29);
    let side = side_of(flags.buy);
    let priced = code_of(flags.priced);
    Live {
        account: account as u64,
        client_ref,
        side,
        priced,
        price,
        leaves,
        hold: 0,
    }
}
