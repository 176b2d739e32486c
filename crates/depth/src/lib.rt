// The price levels of a side, best price first, in a lent list: `depth_levels` of exchange.rs.
#![tactic(auto)]

ghost use Rattle.std.specs.Prelude.{◌≡◌, map, ◌+◌, ◌*◌, ◌/◌, ◌≤◌, length, take};
ghost use Rattle.gateway.specs.Limits.{most_levels};
ghost use Rattle.gateway.specs.Calls.{call, depth_levels};
ghost use Rattle.store.specs.Layout.{cell};
ghost use Rattle.store.specs.View.{gateway};
ghost use Rattle.levels.specs.Listed.{seen};
ghost use Rattle.rows.specs.Rows.{put_row, put_rows};
ghost use Rattle.outcome.specs.Between.{Between};
ghost use Rattle.outcome.specs.Answers.{Lists, level_row};

use levels::listed;
use levels::listed::Level;
use orderbook::Side;
use outcome::Refusal;

// The bytes of a level's row: price, quantity, number of orders.
pub const ROW: usize = 24;

// A level in place j.
fn put_level(l: Level, j: usize, out: &mut [u8])
    requires { 24 * j + 24 ≤ length out.old }
    ensures { out.new ≡ put_row out.old (24 * j) (level_row (seen l)) }
{
    let price = words::of_i64(l.price);
    rows::put(out, ROW * j, &[price, l.qty, l.orders]);
}

// The first n levels of a row.
fn put_levels(row: [Level; 512], n: usize, out: &mut [u8])
    requires { (n ≤ most_levels) × (n ≤ length out.old / 24) }
    ensures { out.new ≡ put_rows 24 0 (map level_row (map seen (take n row))) out.old }
{
    for i in 0..n {
        put_level(row[i], i, out);
    }
}

// The levels of a side, best price first.
pub fn levels(m: &[u8], side: Side, out: &mut [u8]) -> Result<usize, Refusal>
    requires { Between m.now }
    ensures { Lists 24 (call (gateway (cell m.now)) (depth_levels side (length out.old / 24))) result m.now m.now out.old out.new }
{
    let n = levels::size(m, side);
    if out.len() / ROW < n {
        return Err(Refusal::TooShort);
    }
    let rows = listed::listed(m);
    put_levels(listed::side_of(rows, side), n, out);
    Ok(n)
}
