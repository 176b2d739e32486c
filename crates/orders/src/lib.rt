// The table of orders: rows ascending by number, each with a live half and a resting half. docs/STATE.md has the cells.
#![tactic(auto)]

ghost use Rattle.std.specs.Prelude.{[], ◌∷◌, ◌≡◌, ◌+◌, ◌%◌, ◌≤◌, ◌<◌};
ghost use Rattle.table.specs.Table.{Between};
ghost use Rattle.gateway.specs.Depth.{resting_number};
ghost use Rattle.gateway.specs.Ledger.{number_of};
ghost use Rattle.bitmap.specs.Bitmap.{Nearest};
ghost use Rattle.store.specs.Cells as C;
ghost use Rattle.store.specs.Layout.{cell, Cell, Holds};
ghost use Rattle.store.specs.View.{word, fill, order, resting, order_room, Is, Ready};
ghost use Rattle.orders.specs.Orders.{Sorted, Marks, FindsRow, Sees, hint_of, set_hint, live_row, resting_row, set_leaves, revise, show, strike, retire, take_off, rest, append, hint, hint_rows, kept_at, map_row, remap, ones, map_words, set_bit, squeeze, make_room, new_place, MadeWay, rows_with, tombstone, open_row, number_at};

use store::cells::{
    HINT_FOUR, LIVE_ORDERS, MAP_BITS, ORDER_ACCOUNT, ORDER_CLIENT_REF, ORDER_HOLD, ORDER_KEPT,
    ORDER_LEAVES, ORDER_LEVEL, ORDER_LIVE, ORDER_NUMBER, ORDER_PRICE, ORDER_PRICED,
    ORDER_REST_LEAVES, ORDER_REST_PRICE, ORDER_REST_SIDE, ORDER_RESTING, ORDER_ROWS, ORDER_SIDE,
    ORDER_VISIBLE, RESTING_ORDERS,
};

// The live half of a row.
#[derive(Clone, Copy)]
pub struct Live {
    pub account: u64,
    pub client_ref: u64,
    pub side: u64,
    pub priced: u64,
    pub price: u64,
    pub leaves: u64,
    pub hold: u64,
}

// The resting half of a row.
#[derive(Clone, Copy)]
pub struct Resting {
    pub side: u64,
    pub price: u64,
    pub visible: u64,
    pub leaves: u64,
}

// The bytes of a row.
const STRIDE: usize = 128;

// How many rows there are, and how many hints.
const ROOM: u64 = 2_048;

const HINT_SLOTS: u64 = 16_384;

// The hint of a number: one of four in a cell, 16 bits each.
fn hint_of(m: &[u8], number: u64) -> usize
    requires { Holds m.now }
    ensures { result ≡ hint_of number (cell m.now) }
{
    let k = number % HINT_SLOTS;
    let w = store::get(m, store::HINTS, (k / 4) as usize, HINT_FOUR);
    ((w >> (16 * (k % 4))) % 65_536) as usize
}

fn set_hint(m: &mut [u8], number: u64, i: u64)
    requires { Holds m.old }
    ensures { Is m.new (set_hint number i (cell m.old)) }
{
    let k = number % HINT_SLOTS;
    let w = store::get(m, store::HINTS, (k / 4) as usize, HINT_FOUR);
    let s = 16 * (k % 4);
    let mask = 65_535 << s;
    let rest = (w | mask) ^ mask;
    store::set(
        m,
        store::HINTS,
        (k / 4) as usize,
        HINT_FOUR,
        rest | (i << s),
    );
}

// The row of a number whose flag stands in the cell k: the one that the hint says, where it bears the number.
fn find(m: &[u8], k: usize, number: u64) -> Option<usize>
    requires { Ready m.now × Sorted (cell m.now) × Marks k (cell m.now) }
    ensures { FindsRow k (cell m.now) number result }
{
    let n = store::get(m, store::HEADER, 0, ORDER_ROWS);
    let first = hint_of(m, number);
    table::find_hinted(
        m,
        store::ORDERS_AT,
        STRIDE,
        8 * k,
        n as usize,
        number,
        first,
    )
}

pub fn find_live(m: &[u8], number: u64) -> Option<usize>
    requires { Ready m.now × Sorted (cell m.now) }
    ensures { Sees C.order_live order number_of (cell m.now) number result }
{
    find(m, ORDER_LIVE, number)
}

// Where the two halves of an order stand.
#[derive(Clone, Copy)]
pub struct Places {
    pub live: Option<usize>,
    pub resting: Option<usize>,
}

// The row i where its flag in the cell k is set.
fn half(m: &[u8], i: usize, k: usize) -> Option<usize>
    requires { Ready m.now × Sorted (cell m.now) × (i < word (cell m.now) C.order_rows) × (k < 16) }
    ensures { FindsRow k (cell m.now) (number_at i (cell m.now)) result }
{
    if store::get(m, store::ORDERS, i, k) == 0 {
        return None;
    }
    Some(i)
}

// Both halves by one search.
pub fn look(m: &[u8], number: u64) -> Places
    requires { Ready m.now × Sorted (cell m.now) }
    ensures { Sees C.order_live order number_of (cell m.now) number result.live × Sees C.order_resting resting resting_number (cell m.now) number result.resting }
{
    if let Some(i) = find(m, ORDER_KEPT, number) {
        let live = half(m, i, ORDER_LIVE);
        let resting = half(m, i, ORDER_RESTING);
        return Places { live, resting };
    }
    Places {
        live: None,
        resting: None,
    }
}

pub fn live_at(m: &[u8], i: usize) -> Live
    requires { Holds m.now × (i < order_room) }
    ensures { result ≡ live_row (cell m.now C.orders i) }
{
    Live {
        account: store::get(m, store::ORDERS, i, ORDER_ACCOUNT),
        client_ref: store::get(m, store::ORDERS, i, ORDER_CLIENT_REF),
        side: store::get(m, store::ORDERS, i, ORDER_SIDE),
        priced: store::get(m, store::ORDERS, i, ORDER_PRICED),
        price: store::get(m, store::ORDERS, i, ORDER_PRICE),
        leaves: store::get(m, store::ORDERS, i, ORDER_LEAVES),
        hold: store::get(m, store::ORDERS, i, ORDER_HOLD),
    }
}

pub fn resting_at(m: &[u8], i: usize) -> Resting
    requires { Holds m.now × (i < order_room) }
    ensures { result ≡ resting_row (cell m.now C.orders i) }
{
    Resting {
        side: store::get(m, store::ORDERS, i, ORDER_REST_SIDE),
        price: store::get(m, store::ORDERS, i, ORDER_REST_PRICE),
        visible: store::get(m, store::ORDERS, i, ORDER_VISIBLE),
        leaves: store::get(m, store::ORDERS, i, ORDER_REST_LEAVES),
    }
}

// The row where the order's level may be.
pub fn level_hint(m: &[u8], i: usize) -> usize
    requires { Holds m.now × (i < order_room) }
    ensures { result ≡ cell m.now C.orders i C.order_level }
{
    store::get(m, store::ORDERS, i, ORDER_LEVEL) as usize
}

// Two cells of a row, from k on.
fn set_two(m: &mut [u8], b: usize, i: usize, k: usize, v: u64, w: u64)
    requires { Holds m.old × Cell b i (k + 1) × (k < 32) }
    ensures { Is m.new (fill b i k (v ∷ w ∷ []) (cell m.old)) }
{
    store::set(m, b, i, k, v);
    store::set(m, b, i, k + 1, w);
}

// Four cells of an order's row, from k on.
fn set_four(m: &mut [u8], i: usize, k: usize, u: u64, v: u64, w: u64, x: u64)
    requires { Holds m.old × (i < order_room) × (k < 13) }
    ensures { Is m.new (fill C.orders i k (u ∷ v ∷ w ∷ x ∷ []) (cell m.old)) }
{
    let l = k + 1 + 1;
    set_two(m, store::ORDERS, i, k, u, v);
    set_two(m, store::ORDERS, i, l, w, x);
}

pub fn set_leaves(m: &mut [u8], i: usize, leaves: u64, hold: u64)
    requires { Holds m.old × (i < order_room) }
    ensures { Is m.new (set_leaves i leaves hold (cell m.old)) }
{
    set_two(m, store::ORDERS, i, ORDER_LEAVES, leaves, hold);
}

// The order has this price, this much open, and holds this much.
pub fn revise(m: &mut [u8], i: usize, priced: u64, price: u64, leaves: u64, hold: u64)
    requires { Holds m.old × (i < order_room) }
    ensures { Is m.new (revise i priced price leaves hold (cell m.old)) }
{
    set_four(m, i, ORDER_PRICED, priced, price, leaves, hold);
}

pub fn show(m: &mut [u8], i: usize, visible: u64, leaves: u64)
    requires { Holds m.old × (i < order_room) }
    ensures { Is m.new (show i visible leaves (cell m.old)) }
{
    set_two(m, store::ORDERS, i, ORDER_VISIBLE, visible, leaves);
}

// The flag in the cell k goes; `count` has how many rows bear it.
fn strike(m: &mut [u8], k: usize, other: usize, count: usize, i: usize)
    requires { Holds m.old × (i < order_room) × (k < 16) × (other < 16) × (count < 32) × (0 < word (cell m.old) count) × (cell m.old C.orders i other ≤ 1) }
    ensures { Is m.new (strike k other count i (cell m.old)) }
{
    let kept = store::get(m, store::ORDERS, i, other);
    let n = store::get(m, store::HEADER, 0, count);
    store::set(m, store::ORDERS, i, k, 0);
    store::set(m, store::ORDERS, i, ORDER_KEPT, kept);
    store::set(m, store::HEADER, 0, count, n - 1);
    bitmap::put(m, store::ORDER_MAP, i, kept);
}

// The order is live no more.
pub fn retire(m: &mut [u8], i: usize)
    requires { Holds m.old × (i < order_room) × (0 < word (cell m.old) C.live_orders) × (cell m.old C.orders i C.order_resting ≤ 1) }
    ensures { Is m.new (retire i (cell m.old)) }
{
    strike(m, ORDER_LIVE, ORDER_RESTING, LIVE_ORDERS, i);
}

// The order rests no more.
pub fn take_off(m: &mut [u8], i: usize)
    requires { Holds m.old × (i < order_room) × (0 < word (cell m.old) C.resting_orders) × (cell m.old C.orders i C.order_live ≤ 1) }
    ensures { Is m.new (take_off i (cell m.old)) }
{
    strike(m, ORDER_RESTING, ORDER_LIVE, RESTING_ORDERS, i);
}

// An order of the table rests. Its level may be in the row `level`.
pub fn rest(m: &mut [u8], i: usize, o: Resting, level: usize)
    requires { Holds m.old × (i < order_room) × (word (cell m.old) C.resting_orders < order_room) }
    ensures { Is m.new (rest i o level (cell m.old)) }
{
    let n = store::get(m, store::HEADER, 0, RESTING_ORDERS);
    set_four(m, i, ORDER_REST_SIDE, o.side, o.price, o.visible, o.leaves);
    store::set(m, store::ORDERS, i, ORDER_LEVEL, level as u64);
    set_two(m, store::ORDERS, i, ORDER_RESTING, 1, 1);
    store::set(m, store::HEADER, 0, RESTING_ORDERS, n + 1);
    bitmap::put(m, store::ORDER_MAP, i, 1);
}

// A row for a live order that does not rest.
fn put_row(m: &mut [u8], i: usize, number: u64, o: Live)
    requires { Holds m.old × (i < order_room) }
    ensures { Is m.new (fill C.orders i C.order_number (number ∷ 1 ∷ 0 ∷ 1 ∷ o.account ∷ o.client_ref ∷ o.side ∷ o.priced ∷ o.price ∷ o.leaves ∷ o.hold ∷ []) (cell m.old)) }
{
    set_four(m, i, ORDER_NUMBER, number, 1, 0, 1);
    set_four(
        m,
        i,
        ORDER_ACCOUNT,
        o.account,
        o.client_ref,
        o.side,
        o.priced,
    );
    set_two(m, store::ORDERS, i, ORDER_PRICE, o.price, o.leaves);
    store::set(m, store::ORDERS, i, ORDER_HOLD, o.hold);
}

// An order comes, with a number above those in the table.
pub fn append(m: &mut [u8], number: u64, o: Live)
    requires { Holds m.old × (word (cell m.old) C.order_rows < order_room) × (word (cell m.old) C.live_orders < order_room) }
    ensures { Is m.new (append number o (cell m.old)) }
{
    let i = store::get(m, store::HEADER, 0, ORDER_ROWS);
    let n = store::get(m, store::HEADER, 0, LIVE_ORDERS);
    put_row(m, i as usize, number, o);
    set_two(m, store::HEADER, 0, ORDER_ROWS, i + 1, n + 1);
    set_hint(m, number, i);
    bitmap::put(m, store::ORDER_MAP, i as usize, 1);
}

fn hint(m: &mut [u8], i: usize)
    requires { Holds m.old × (i < order_room) }
    ensures { Is m.new (hint i (cell m.old)) }
{
    let number = store::get(m, store::ORDERS, i, ORDER_NUMBER);
    set_hint(m, number, i as u64);
}

fn hint_rows(m: &mut [u8], n: usize)
    requires { Holds m.old × (n ≤ order_room) }
    ensures { Is m.new (hint_rows n (cell m.old)) }
{
    for i in 0..n {
        hint(m, i);
    }
}

// Whether the row i is in use and kept.
fn kept_at(m: &[u8], i: usize) -> u64
    requires { Holds m.now × (i < order_room) }
    ensures { result ≡ kept_at (cell m.now) i }
{
    if store::get(m, store::HEADER, 0, ORDER_ROWS) <= i as u64 {
        return 0;
    }
    store::get(m, store::ORDERS, i, ORDER_KEPT)
}

// The map has the bit of the row i.
fn map_row(m: &mut [u8], i: usize)
    requires { Holds m.old × (i < order_room) }
    ensures { Is m.new (map_row i (cell m.old)) }
{
    let kept = kept_at(m, i);
    bitmap::put(m, store::ORDER_MAP, i, kept % 2);
}

// The map is made anew.
pub fn remap(m: &mut [u8])
    requires { Holds m.old }
    ensures { Is m.new (remap (cell m.old)) }
{
    for i in 0..ROOM as usize {
        map_row(m, i);
    }
}

// The word g of a map whose first n bits are 1.
fn ones(n: usize, g: usize) -> u64
    requires { g < 32 }
    ensures { result ≡ ones n g }
{
    if n <= 64 * g {
        return 0;
    }
    let k = n - 64 * g;
    if k < 64 {
        return (1 << k) - 1;
    }
    u64::MAX
}

// The map of a table whose first n rows are kept, and no others in use.
fn map_words(m: &mut [u8], n: usize)
    requires { Holds m.old }
    ensures { Is m.new (map_words 32 n (cell m.old)) }
{
    for g in 0..32 {
        store::set(m, store::ORDER_MAP, g, MAP_BITS, ones(n, g));
    }
}

// The tombstones are squeezed out.
fn squeeze(m: &mut [u8])
    requires { Ready m.old × Sorted (cell m.old) }
    ensures { Is m.new (squeeze (cell m.old)) }
{
    let n = store::get(m, store::HEADER, 0, ORDER_ROWS);
    let w = table::compact(m, store::ORDERS_AT, STRIDE, 8 * ORDER_KEPT, n as usize);
    store::set(m, store::HEADER, 0, ORDER_ROWS, w as u64);
    hint_rows(m, w);
    map_words(m, w);
}

// Room for one row more, where not all rows are kept.
pub fn make_room(m: &mut [u8])
    requires { Ready m.old × Sorted (cell m.old) }
    ensures { Is m.new (make_room (cell m.old)) }
{
    if store::get(m, store::HEADER, 0, ORDER_ROWS) < ROOM {
        return;
    }
    squeeze(m);
}

// The first row whose number is not below `number`.
pub fn place_of(m: &[u8], number: u64) -> usize
    requires { Ready m.now × Sorted (cell m.now) }
    ensures { Between (λ j. cell m.now C.orders j C.order_number) (word (cell m.now) C.order_rows) number result result }
{
    let n = store::get(m, store::HEADER, 0, ORDER_ROWS);
    table::lower_bound(m, store::ORDERS_AT, STRIDE, n as usize, number)
}

// The nearest tombstone to the row i, or the row behind those in use; 2,048 where there is none.
pub fn tombstone(m: &[u8], i: usize) -> usize
    requires { Holds m.now × (i ≤ order_room) }
    ensures { Nearest C.order_map (cell m.now) order_room i result }
{
    bitmap::nearest(m, store::ORDER_MAP, ROOM as usize, i)
}

// Where a new row is to stand that i rows are below: one place lower where the tombstone d, which it takes, is one of them.
pub fn new_place(d: usize, i: usize) -> usize
    ensures { result ≡ new_place d i }
{
    if d < i { i - 1 } else { i }
}

// The rows between the tombstone d and the place p move one place, over d. The row p is still to be written.
fn make_way(m: &mut [u8], d: usize, p: usize)
    requires { Holds m.old × (d < order_room) × (p < order_room) }
    ensures { Holds m.new × MadeWay d p (cell m.old) (cell m.new) }
{
    if d < p {
        table::close_at(m, store::ORDERS_AT, STRIDE, p + 1, d);
        return;
    }
    table::open_at(m, store::ORDERS_AT, STRIDE, d, p);
}

// How many rows are in use with the row d, which is one of n in use or the one behind them.
fn rows_with(d: usize, n: u64) -> u64
    requires { d < order_room }
    ensures { result ≡ rows_with d n }
{
    if (d as u64) < n { n } else { d as u64 + 1 }
}

// A row of zeros, but for its number.
fn put_tombstone(m: &mut [u8], p: usize, number: u64)
    requires { Holds m.old × (p < order_room) }
    ensures { Is m.new (fill C.orders p C.order_number (tombstone number) (cell m.old)) }
{
    set_four(m, p, ORDER_NUMBER, number, 0, 0, 0);
    set_four(m, p, ORDER_ACCOUNT, 0, 0, 0, 0);
    set_four(m, p, ORDER_PRICE, 0, 0, 0, 0);
    set_four(m, p, ORDER_REST_PRICE, 0, 0, 0, 0);
}

// A kept row has moved to d, and p has the new tombstone. Where d is p, its bit stays 0.
fn swap_bits(m: &mut [u8], d: usize, p: usize)
    requires { Holds m.old × (d < order_room) × (p < order_room) }
    ensures { Is m.new (set_bit p 0 (set_bit d 1 (cell m.old))) }
{
    bitmap::put(m, store::ORDER_MAP, d, 1);
    bitmap::put(m, store::ORDER_MAP, p, 0);
}

// A tombstone of that number at p for the tombstone d, so that an order that the table does not have can rest there.
pub fn open_row(m: &mut [u8], d: usize, p: usize, number: u64)
    requires { Ready m.old × (d < order_room) × (p < order_room) }
    ensures { Is m.new (open_row d p number (cell m.old)) }
{
    let n = store::get(m, store::HEADER, 0, ORDER_ROWS);
    make_way(m, d, p);
    put_tombstone(m, p, number);
    store::set(m, store::HEADER, 0, ORDER_ROWS, rows_with(d, n));
    swap_bits(m, d, p);
    set_hint(m, number, p as u64);
}
