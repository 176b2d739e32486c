// The depth: resting orders, their price levels, and the levels changed since the last publishing (`Depth` of marketdata/src/lib.rs).
// A row is handed on by value, so that it is neither searched nor read twice.
#![tactic(auto)]

ghost use Rattle.std.specs.Prelude.{◌≡◌, ◌≤◌};
ghost use Rattle.words.specs.Words.{int};
ghost use Rattle.table.specs.Live.{without, insert, replace};
ghost use Rattle.gateway.specs.Depth as D;
ghost use Rattle.gateway.specs.Ledger.{number_of};
ghost use Rattle.store.specs.Cells as C;
ghost use Rattle.store.specs.Layout.{cell};
ghost use Rattle.store.specs.View.{side, order, resting, depth, gateway, Ready};
ghost use Rattle.store.specs.View as View;
ghost use Rattle.orders.specs.Orders.{Sees, number_at, resting_of};
ghost use Rattle.pending.specs.Pending as Pending;
ghost use Rattle.sound.specs.Sound.{State, Becomes, InPlace};
ghost use Rattle.marketdata.specs.Marketdata as P;

use levels::Row;
use orders::Resting;
use store::cells;

// The place of the level of a side, a code, and a price, a word.
pub fn place_of(m: &[u8], side: u64, price: u64) -> usize
    requires { State m.now }
    ensures { P.Placed (View.side side) (int price) m.now result }
{
    levels::seek(m, store::side_of(side), words::raised(price))
}

// The level whose place is i: no quantity and no orders where there is none.
pub fn level_at(m: &[u8], side: u64, price: u64, i: usize) -> Row
    requires { State m.now × P.Placed (View.side side) (int price) m.now i }
    ensures { P.IsLevel (View.side side) (int price) (depth (cell m.now)) result }
{
    let z = store::side_of(side);
    let k = words::raised(price);
    if levels::is_at(m, z, i, k) {
        return levels::read_row(m, z, i);
    }
    Row {
        key: k,
        qty: 0,
        orders: 0,
    }
}

pub fn level_of(m: &[u8], side: u64, price: u64) -> Row
    requires { State m.now }
    ensures { P.IsLevel (View.side side) (int price) (depth (cell m.now)) result }
{
    let i = place_of(m, side, price);
    level_at(m, side, price, i)
}

// The level of that side, a code, and that price, a word, has changed.
fn remember(m: &mut [u8], side: u64, price: u64)
    requires { State m.old × P.Roomy (P.remembering (Pending.key side price) (depth (cell m.old))) }
    ensures { InPlace m.old m.new (P.with_depth (P.remembering (Pending.key side price)) (gateway (cell m.old))) }
{
    pending::changed::remember(m, side, price);
}

// The order leaves its level and its row.
fn strike(m: &mut [u8], i: usize, o: Resting)
    requires { State m.old × P.At i o (cell m.old) }
    ensures { InPlace m.old m.new (P.with_depth (P.with_resting (without D.resting_number (P.resting_at i (cell m.old)).number)) (gateway (cell m.old))) }
{
    let hint = orders::level_hint(m, i);
    levels::remove(
        m,
        store::side_of(o.side),
        words::raised(o.price),
        o.visible,
        hint,
    );
    orders::take_off(m, i);
}

// The order rests no more.
pub fn remove(m: &mut [u8], i: usize, o: Resting)
    requires { State m.old × P.At i o (cell m.old) × P.Roomy (D.take_off (P.resting_at i (cell m.old)) (depth (cell m.old))) }
    ensures { InPlace m.old m.new (P.with_depth (D.take_off (P.resting_at i (cell m.old))) (gateway (cell m.old))) }
{
    strike(m, i, o);
    remember(m, o.side, o.price);
}

// The order and its level show something else.
fn reshow(m: &mut [u8], i: usize, o: Resting, visible: u64, leaves: u64)
    requires { State m.old × P.At i o (cell m.old) × P.Fits o.visible (D.showing visible leaves (P.resting_at i (cell m.old))) (D.show (D.showing visible leaves (P.resting_at i (cell m.old))) (depth (cell m.old))) }
    ensures { InPlace m.old m.new (P.with_depth (P.with_resting (replace D.resting_number (D.showing visible leaves (P.resting_at i (cell m.old))))) (gateway (cell m.old))) }
{
    let hint = orders::level_hint(m, i);
    levels::show(
        m,
        store::side_of(o.side),
        words::raised(o.price),
        o.visible,
        visible,
        hint,
    );
    orders::show(m, i, visible, leaves);
}

// The order shows `visible`, and `leaves` are left of it.
pub fn show(m: &mut [u8], i: usize, o: Resting, visible: u64, leaves: u64)
    requires { State m.old × P.At i o (cell m.old) × P.CanShow o.visible (D.showing visible leaves (P.resting_at i (cell m.old))) (depth (cell m.old)) }
    ensures { InPlace m.old m.new (P.with_depth (D.show (D.showing visible leaves (P.resting_at i (cell m.old)))) (gateway (cell m.old))) }
{
    reshow(m, i, o, visible, leaves);
    remember(m, o.side, o.price);
}

// Whether the row i is in use and bears that number.
fn bears(m: &[u8], i: usize, number: u64) -> bool
    requires { Ready m.now }
    ensures { P.Bears i number (cell m.now) result }
{
    if store::get(m, store::HEADER, 0, cells::ORDER_ROWS) <= i as u64 {
        return false;
    }
    if store::get(m, store::ORDERS, i, cells::ORDER_NUMBER) == number {
        return true;
    }
    false
}

// A new row of that number, of which i rows are below: it has the place of the nearest tombstone, and those between move over that.
fn new_row(m: &mut [u8], number: u64, i: usize) -> usize
    requires { State m.old × P.CanOpen number (cell m.old) × P.Missing number (cell m.old) × P.Sought i number (cell m.old) }
    ensures { P.Opens m.old m.new number result }
{
    let d = orders::tombstone(m, i);
    let p = orders::new_place(d, i);
    orders::open_row(m, d, p, number);
    p
}

// The row of an order that is not live: a tombstone, or a new row.
fn dead_row(m: &mut [u8], number: u64) -> usize
    requires { State m.old × P.CanOpen number (cell m.old) }
    ensures { P.Opens m.old m.new number result }
{
    let i = orders::place_of(m, number);
    if bears(m, i, number) {
        return i;
    }
    new_row(m, number, i)
}

// A row in which that order can rest, which is at `at` where it is live.
fn row_for(m: &mut [u8], number: u64, at: Option<usize>) -> usize
    requires { State m.old × Sees C.order_live order number_of (cell m.old) number at × P.CanOpen number (cell m.old) }
    ensures { P.Opens m.old m.new number result }
{
    if let Some(i) = at {
        return i;
    }
    dead_row(m, number)
}

// The order joins its level, and rests in its row.
fn join(m: &mut [u8], i: usize, o: Resting, place: usize)
    requires { State m.old × P.Free i (number_at i (cell m.old)) (cell m.old) × P.Judged (D.add (resting_of (number_at i (cell m.old)) o) (depth (cell m.old))) }
    ensures { Becomes m.new (P.with_depth (P.with_resting (insert D.resting_number (resting_of (number_at i (cell m.old)) o))) (gateway (cell m.old))) }
{
    levels::add(
        m,
        store::side_of(o.side),
        words::raised(o.price),
        o.visible,
        place,
    );
    orders::rest(m, i, o, place);
}

// The order of that number rests, with these words; its level is not remembered.
pub fn rest(
    m: &mut [u8],
    number: u64,
    side: u64,
    price: u64,
    visible: u64,
    leaves: u64,
    at: Option<usize>,
    place: usize,
)
    requires { State m.old × Sees C.order_live order number_of (cell m.old) number at × P.CanAdd (resting_of number (P.words side price visible leaves)) (cell m.old) }
    ensures { Becomes m.new (P.with_depth (P.with_resting (insert D.resting_number (resting_of number (P.words side price visible leaves)))) (gateway (cell m.old))) }
{
    let i = row_for(m, number, at);
    join(
        m,
        i,
        Resting {
            side: side,
            price: price,
            visible: visible,
            leaves: leaves,
        },
        place,
    );
}

// The order of that number rests, and its level has changed.
pub fn add(m: &mut [u8], number: u64, o: Resting, at: Option<usize>, place: usize)
    requires { State m.old × Sees C.order_live order number_of (cell m.old) number at × P.CanAdd (resting_of number o) (cell m.old) }
    ensures { Becomes m.new (P.with_depth (D.add (resting_of number o)) (gateway (cell m.old))) }
{
    rest(m, number, o.side, o.price, o.visible, o.leaves, at, place);
    remember(m, o.side, o.price);
}

// A trade took `qty` of what the order shows, and `leaves` are left of it.
pub fn filled(m: &mut [u8], i: usize, o: Resting, qty: u64, leaves: u64)
    requires { State m.old × P.At i o (cell m.old) × (qty ≤ o.visible) × P.Roomy (D.filled qty leaves (P.resting_at i (cell m.old)) (depth (cell m.old))) }
    ensures { InPlace m.old m.new (P.with_depth (D.filled qty leaves (P.resting_at i (cell m.old))) (gateway (cell m.old))) }
{
    if leaves == 0 {
        remove(m, i, o);
        return;
    }
    show(m, i, o, o.visible - qty, leaves);
}

// An iceberg shows its next part.
pub fn replenished(m: &mut [u8], i: usize, o: Resting, visible: u64)
    requires { State m.old × P.At i o (cell m.old) × P.Judged (P.replenished visible (P.resting_at i (cell m.old)) (depth (cell m.old))) }
    ensures { InPlace m.old m.new (P.with_depth (P.replenished visible (P.resting_at i (cell m.old))) (gateway (cell m.old))) }
{
    show(m, i, o, visible, o.leaves);
}

// Whether a modify to that price and open quantity leaves the order in place.
fn stays(o: Resting, price: u64, leaves: u64) -> bool
    ensures { result ≡ P.stays (int price) leaves (int o.price) o.leaves }
{
    if leaves == 0 {
        return false;
    }
    if price == o.price {
        return leaves <= o.leaves;
    }
    false
}

// A modify left the order this price and this much open: it shrinks in place, or is taken off.
pub fn modified(m: &mut [u8], i: usize, o: Resting, price: u64, leaves: u64)
    requires { State m.old × P.At i o (cell m.old) × P.Roomy (D.modified (int price) leaves (P.resting_at i (cell m.old)) (depth (cell m.old))) }
    ensures { InPlace m.old m.new (P.with_depth (D.modified (int price) leaves (P.resting_at i (cell m.old))) (gateway (cell m.old))) }
{
    if stays(o, price, leaves) {
        show(m, i, o, o.visible.min(leaves), leaves);
        return;
    }
    remove(m, i, o);
}

// The order has left the book, where it rests.
pub fn on_cancelled(m: &mut [u8], number: u64, at: Option<usize>)
    requires { State m.old × Sees C.order_resting resting D.resting_number (cell m.old) number at × P.Roomy (D.where_resting number D.take_off (depth (cell m.old))) }
    ensures { InPlace m.old m.new (P.with_depth (D.where_resting number D.take_off) (gateway (cell m.old))) }
{
    if let Some(i) = at {
        let o = orders::resting_at(m, i);
        remove(m, i, o);
    }
}

// The order shows its next part, where it rests.
pub fn on_replenished(m: &mut [u8], number: u64, at: Option<usize>, visible: u64)
    requires { State m.old × Sees C.order_resting resting D.resting_number (cell m.old) number at × P.Judged (D.where_resting number (P.replenished visible) (depth (cell m.old))) }
    ensures { InPlace m.old m.new (P.with_depth (D.where_resting number (P.replenished visible)) (gateway (cell m.old))) }
{
    if let Some(i) = at {
        let o = orders::resting_at(m, i);
        replenished(m, i, o, visible);
    }
}

// A modify left the order that price and that much open, where it rests.
pub fn on_modified(m: &mut [u8], number: u64, at: Option<usize>, price: u64, leaves: u64)
    requires { State m.old × Sees C.order_resting resting D.resting_number (cell m.old) number at × P.Roomy (D.where_resting number (D.modified (int price) leaves) (depth (cell m.old))) }
    ensures { InPlace m.old m.new (P.with_depth (D.where_resting number (D.modified (int price) leaves)) (gateway (cell m.old))) }
{
    if let Some(i) = at {
        let o = orders::resting_at(m, i);
        modified(m, i, o, price, leaves);
    }
}

// A trade took `qty` of what the order shows, where it rests.
fn on_filled(m: &mut [u8], number: u64, at: Option<usize>, qty: u64, leaves: u64)
    requires { State m.old × Sees C.order_resting resting D.resting_number (cell m.old) number at × P.CanFill number qty leaves (depth (cell m.old)) }
    ensures { InPlace m.old m.new (P.with_depth (D.where_resting number (D.filled qty leaves)) (gateway (cell m.old))) }
{
    if let Some(i) = at {
        let o = orders::resting_at(m, i);
        filled(m, i, o, qty, leaves);
    }
}

// A trade of two orders, of which `taker_leaves` and `maker_leaves` are left. In an uncross both rest.
pub fn on_trade(
    m: &mut [u8],
    taker: u64,
    taker_at: Option<usize>,
    maker: u64,
    maker_at: Option<usize>,
    qty: u64,
    taker_leaves: u64,
    maker_leaves: u64,
)
    requires { State m.old × Sees C.order_resting resting D.resting_number (cell m.old) taker taker_at × Sees C.order_resting resting D.resting_number (cell m.old) maker maker_at × P.CanTrade taker maker qty taker_leaves maker_leaves (depth (cell m.old)) }
    ensures { InPlace m.old m.new (P.with_depth (P.traded taker maker qty taker_leaves maker_leaves) (gateway (cell m.old))) }
{
    on_filled(m, maker, maker_at, qty, maker_leaves);
    on_filled(m, taker, taker_at, qty, taker_leaves);
}
