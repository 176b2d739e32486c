// The levels of both sides by value: row 0 the bids, row 1 the asks, each best price first.
ghost use Rattle.std.specs.Prelude.{◌≡◌, ◌<◌};
ghost use Rattle.store.specs.Layout.{cell};
ghost use Rattle.levels.specs.Levels as L;
ghost use Rattle.levels.specs.Listed as D;

use crate::Row;
use orderbook::Side;

// A level: its price, what its orders show, and how many there are.
#[derive(Clone, Copy)]
pub struct Level {
    pub price: i64,
    pub qty: u64,
    pub orders: u64,
}

fn index_of(side: Side) -> usize
    ensures { (result ≡ D.index side) × (result < 2) }
{
    match side {
        Side::Buy => 0,
        Side::Sell => 1,
    }
}

// The row i of n, counted from the best price.
pub fn nth(side: Side, n: usize, i: usize) -> usize
    requires { i < n }
    ensures { (result ≡ D.nth side n i) × (result < n) }
{
    match side {
        Side::Buy => n - 1 - i,
        Side::Sell => i,
    }
}

fn level_of(r: Row) -> Level
    ensures { result ≡ D.level_of r }
{
    Level {
        price: words::to_i64(words::lowered(r.key)),
        qty: r.qty,
        orders: r.orders,
    }
}

// The levels of a side, then zeros.
fn best_first(m: &[u8], side: Side) -> [Level; 512]
    requires { L.Table side m.now }
    ensures { D.Lists side (cell m.now) result }
{
    let n = crate::used(m, side);
    let mut row = [Level {
        price: 0,
        qty: 0,
        orders: 0,
    }; 512];
    let mut k: usize = 0;
    for i in 0..n {
        let r = crate::read_row(m, side, nth(side, n, i));
        if r.orders != 0 {
            row[k] = level_of(r);
            k += 1;
        }
    }
    row
}

// The levels of both sides.
pub fn listed(m: &[u8]) -> [[Level; 512]; 2]
    requires { (z : Side) → L.Table z m.now }
    ensures { (z : Side) → D.Lists z (cell m.now) (D.side_of result z) }
{
    let bids = best_first(m, Side::Buy);
    let asks = best_first(m, Side::Sell);
    [bids, asks]
}

// The levels of a side: the side chooses the row.
pub fn side_of(rows: [[Level; 512]; 2], side: Side) -> [Level; 512]
    ensures { result ≡ D.side_of rows side }
{
    rows[index_of(side)]
}
