// The gateway's state in one lent slice of bytes: blocks of rows of 64-bit cells. docs/STATE.md has the layout.
#![tactic(auto)]

pub mod cells;
pub mod limits;

ghost use Rattle.std.specs.Prelude.{◌≡◌, ◌+◌, ◌<◌, length};
ghost use Rattle.store.specs.View.{fill, listed, Is, zeros, side};
ghost use Rattle.store.specs.Layout.{blocks, cells, start, width, spot, cell, Cell, Cells, Holds, Set};

use orderbook::Side;

pub const HEADER: usize = 0;

pub const ACCOUNTS: usize = 1;

pub const SESSIONS: usize = 2;

pub const FLIGHTS: usize = 3;

pub const BATCH: usize = 4;

pub const ORDERS: usize = 5;

pub const BIDS: usize = 6;

pub const ASKS: usize = 7;

pub const TRADES: usize = 8;

pub const NOTICES: usize = 9;

pub const CHANGED: usize = 10;

pub const HINTS: usize = 11;

pub const TOPS: usize = 12;

pub const BID_MAP: usize = 13;

pub const ASK_MAP: usize = 14;

pub const ORDER_MAP: usize = 15;

// The bytes of a state.
pub const SIZE: usize = 467_592;

// The first bytes of the blocks whose rows move.
pub const ORDERS_AT: usize = 69_888;

pub const BIDS_AT: usize = 332_032;

pub const ASKS_AT: usize = 348_416;

fn start_of(b: usize) -> usize
    requires { b < blocks }
    ensures { result ≡ start b }
{
    let starts = [
        0, 32, 4128, 4640, 5664, 8736, 41504, 43552, 45600, 47136, 49185, 52257, 56353, 58401,
        58409, 58417, 58449,
    ];
    starts[b]
}

fn width_of(b: usize) -> usize
    requires { b < blocks }
    ensures { result ≡ width b }
{
    let widths = [32, 16, 8, 4, 12, 16, 4, 4, 6, 1, 3, 1, 1, 1, 1, 1];
    widths[b]
}

// Where the cell k of the row i of the block b stands. With a constant b it is a constant and a multiple of i.
fn spot_of(b: usize, i: usize, k: usize) -> usize
    requires { Cell b i k }
    ensures { (result ≡ spot b i k) × (result < cells) }
{
    start_of(b) + (width_of(b) * i + k)
}

pub fn get(m: &[u8], b: usize, i: usize, k: usize) -> u64
    requires { Holds m.now × Cell b i k }
    ensures { result ≡ cell m.now b i k }
{
    le::get_u64(m, 8 * spot_of(b, i, k))
}

pub fn set(m: &mut [u8], b: usize, i: usize, k: usize, v: u64)
    requires { Holds m.old × Cell b i k }
    ensures { Set m.old m.new b i k v }
{
    le::put_u64(m, 8 * spot_of(b, i, k), v);
}

// The numbers vs in the cells of a row, from k on.
pub fn fill(m: &mut [u8], b: usize, i: usize, k: usize, vs: &[u64])
    requires { Holds m.old × Cells b i k (length vs.now) }
    ensures { Is m.new (fill b i k vs.now (cell m.old)) }
{
    for (j, v) in vs.iter().enumerate() {
        set(m, b, i, k + j, *v);
    }
}

// The cells of a row from k on, as many as there is room for in vs.
pub fn read(m: &[u8], b: usize, i: usize, k: usize, vs: &mut [u64])
    requires { Holds m.now × Cells b i k (length vs.old) }
    ensures { vs.new ≡ listed (λ j. cell m.now b i (k + j)) (length vs.old) }
{
    for (j, v) in vs.iter_mut().enumerate() {
        *v = get(m, b, i, k + j);
    }
}

// Every cell 0: a gateway with no accounts and no orders.
pub fn clear(m: &mut [u8])
    requires { Holds m.old }
    ensures { Is m.new zeros }
{
    for i in 0..58449 {
        le::put_u64(m, 8 * i, 0);
    }
}

// The side of a code: 0 for a buy.
pub fn side_of(code: u64) -> Side
    ensures { result ≡ side code }
{
    if code == 0 { Side::Buy } else { Side::Sell }
}
