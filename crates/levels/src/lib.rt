// The price levels of a side in their block: rows ascending by price, raised by 2^63. A level whose last order has gone leaves its row, dead: it
// comes back in it, or another price takes it. So rows seldom move.
#![tactic(auto)]

pub mod listed;

ghost use Rattle.std.specs.Prelude.{◌≡◌, ◌+◌, ◌*◌, ◌≤◌, ◌<◌};
ghost use Rattle.le.specs.Row.{puts};
ghost use Rattle.gateway.specs.Limits.{most_levels};
ghost use Rattle.table.specs.Live.{look, insert, replace, without};
ghost use Rattle.store.specs.Cells as C;
ghost use Rattle.store.specs.Layout.{first_byte, cell, Holds};
ghost use Rattle.levels.specs.Levels as L;
ghost use Rattle.levels.specs.Rows.{widths, values};

use orderbook::Side;
use store::{cells, limits};

// A level: its price raised by 2^63, what its orders show, and how many there are.
#[derive(Clone, Copy)]
pub struct Row {
    pub key: u64,
    pub qty: u64,
    pub orders: u64,
}

fn base_of(side: Side) -> usize
    ensures { (result ≡ L.base side) × (result ≤ first_byte C.asks) }
{
    match side {
        Side::Buy => store::BIDS_AT,
        Side::Sell => store::ASKS_AT,
    }
}

fn used_cell(side: Side) -> usize
    ensures { (result ≡ L.used_cell side) × (result < 32) }
{
    match side {
        Side::Buy => cells::BID_ROWS,
        Side::Sell => cells::ASK_ROWS,
    }
}

fn size_cell(side: Side) -> usize
    ensures { (result ≡ L.size_cell side) × (result < 32) }
{
    match side {
        Side::Buy => cells::BID_LEVELS,
        Side::Sell => cells::ASK_LEVELS,
    }
}

fn map_of(side: Side) -> usize
    ensures { result ≡ L.map_block side }
{
    match side {
        Side::Buy => store::BID_MAP,
        Side::Sell => store::ASK_MAP,
    }
}

// How many rows are in use.
pub fn used(m: &[u8], side: Side) -> usize
    requires { Holds m.now }
    ensures { result ≡ L.used side (cell m.now) }
{
    store::get(m, store::HEADER, 0, used_cell(side)) as usize
}

// How many levels there are.
pub fn size(m: &[u8], side: Side) -> usize
    requires { Holds m.now }
    ensures { result ≡ L.size side (cell m.now) }
{
    store::get(m, store::HEADER, 0, size_cell(side)) as usize
}

// The counts are these, and the bit of the row d is v.
fn recount(m: &mut [u8], side: Side, rows: usize, levels: usize, d: usize, v: u64)
    requires { Holds m.old × (d < most_levels) × (v ≤ 1) }
    ensures { L.Recounted side m.old m.new rows levels d v }
{
    store::set(m, store::HEADER, 0, used_cell(side), rows as u64);
    store::set(m, store::HEADER, 0, size_cell(side), levels as u64);
    bitmap::put(m, map_of(side), d, v);
}

pub fn read_row(m: &[u8], side: Side, i: usize) -> Row
    requires { Holds m.now × (i < most_levels) }
    ensures { result ≡ L.row side (cell m.now) i }
{
    let o = base_of(side) + 32 * i;
    let o1 = o + 8;
    let o2 = o1 + 8;
    Row {
        key: le::get_u64(m, o),
        qty: le::get_u64(m, o1),
        orders: le::get_u64(m, o2),
    }
}

fn write_row(m: &mut [u8], side: Side, i: usize, r: Row)
    requires { Holds m.old × (i < most_levels) }
    ensures { m.new ≡ puts widths m.old (L.base side + 32 * i) (values r) }
{
    let o = base_of(side) + 32 * i;
    let o1 = o + 8;
    let o2 = o1 + 8;
    le::put_u64(m, o, r.key);
    le::put_u64(m, o1, r.qty);
    le::put_u64(m, o2, r.orders);
}

// Whether the row i is the first one whose key is not below `key`.
fn is_first(m: &[u8], side: Side, i: usize, key: u64) -> bool
    requires { L.Table side m.now }
    ensures { L.IsFirst side m.now key i result }
{
    let n = used(m, side);
    if n < i {
        return false;
    }
    if i < n {
        if read_row(m, side, i).key < key {
            return false;
        }
    }
    if i == 0 {
        return true;
    }
    read_row(m, side, i - 1).key < key
}

// As `seek`, where the row `hint` is tried first.
fn seek_near(m: &[u8], side: Side, key: u64, hint: usize) -> usize
    requires { L.Table side m.now }
    ensures { L.Sought side m.now key result }
{
    if is_first(m, side, hint, key) {
        return hint;
    }
    seek(m, side, key)
}

// As `seek`, of a key that the row `hint` may bear.
fn seek_at(m: &[u8], side: Side, key: u64, hint: usize) -> usize
    requires { L.Table side m.now }
    ensures { L.Sought side m.now key result }
{
    if hint < used(m, side) {
        if read_row(m, side, hint).key == key {
            return hint;
        }
    }
    seek(m, side, key)
}

// The first row whose key is not below `key`.
pub fn seek(m: &[u8], side: Side, key: u64) -> usize
    requires { L.Table side m.now }
    ensures { L.Sought side m.now key result }
{
    let n = used(m, side);
    table::bound_by(m, base_of(side), 32, n, key, 3)
}

// Whether the row i is the level of that key.
pub fn is_at(m: &[u8], side: Side, i: usize, key: u64) -> bool
    requires { L.Table side m.now × L.Sought side m.now key i }
    ensures { L.IsAt side m.now i key result }
{
    if used(m, side) <= i {
        return false;
    }
    let r = read_row(m, side, i);
    if r.key == key {
        return r.orders != 0;
    }
    false
}

// The level of that key.
pub fn find(m: &[u8], side: Side, key: u64) -> Option<usize>
    requires { L.Table side m.now }
    ensures { L.Finds side m.now key result }
{
    let i = seek(m, side, key);
    if is_at(m, side, i, key) {
        return Some(i);
    }
    None
}

// One order more at the level in the row i.
fn join(m: &mut [u8], side: Side, i: usize, visible: u64)
    requires { L.Table side m.old × (i < L.used side (cell m.old)) × (0 < (L.row side (cell m.old) i).orders) × L.Joins visible (L.row side (cell m.old) i) }
    ensures { L.Did side m.old m.new (replace L.key (L.one_more visible (L.row side (cell m.old) i)) (L.entries side (cell m.old))) }
{
    let r = read_row(m, side, i);
    write_row(
        m,
        side,
        i,
        Row {
            key: r.key,
            qty: r.qty + visible,
            orders: r.orders + 1,
        },
    );
}

// The nearest dead row to i, or the number of rows in use where one more fits. The map has it: no row is looked at.
fn nearest(m: &[u8], side: Side, i: usize) -> usize
    requires { L.Table side m.now × (i ≤ L.used side (cell m.now)) × (L.size side (cell m.now) < most_levels) }
    ensures { L.Free side m.now i result }
{
    bitmap::nearest(m, map_of(side), limits::MOST_LEVELS, i)
}

fn grown(n: usize, d: usize) -> usize
    requires { d < most_levels }
    ensures { result ≡ L.grown n d }
{
    if d < n { n } else { d + 1 }
}

// A level with one order, whose place is i: the rows from there on move up, over the dead row d or behind the last one.
fn put_up(m: &mut [u8], side: Side, i: usize, d: usize, key: u64, visible: u64)
    requires { L.Place side m.old key i × L.Free side m.old i d × (i ≤ d) }
    ensures { L.Did side m.old m.new (insert L.key (L.opened key visible) (L.entries side (cell m.old))) }
{
    let n = used(m, side);
    let k = size(m, side);
    table::open_at(m, base_of(side), 32, d, i);
    write_row(
        m,
        side,
        i,
        Row {
            key: key,
            qty: visible,
            orders: 1,
        },
    );
    recount(m, side, grown(n, d), k + 1, d, 1);
}

// The same where the rows before it move down, over the dead row d.
fn put_down(m: &mut [u8], side: Side, i: usize, d: usize, key: u64, visible: u64)
    requires { L.Place side m.old key i × L.Free side m.old i d × (d < i) }
    ensures { L.Did side m.old m.new (insert L.key (L.opened key visible) (L.entries side (cell m.old))) }
{
    let n = used(m, side);
    let k = size(m, side);
    table::close_at(m, base_of(side), 32, i, d);
    write_row(
        m,
        side,
        i - 1,
        Row {
            key: key,
            qty: visible,
            orders: 1,
        },
    );
    recount(m, side, n, k + 1, d, 1);
}

fn put_in(m: &mut [u8], side: Side, i: usize, key: u64, visible: u64)
    requires { L.Place side m.old key i }
    ensures { L.Did side m.old m.new (insert L.key (L.opened key visible) (L.entries side (cell m.old))) }
{
    let d = nearest(m, side, i);
    if d < i {
        put_down(m, side, i, d, key, visible);
        return;
    }
    put_up(m, side, i, d, key, visible);
}

// An order that shows `visible` comes. Its level's place is tried at `hint` first.
pub fn add(m: &mut [u8], side: Side, key: u64, visible: u64, hint: usize)
    requires { L.Table side m.old × L.CanAdd (L.size side (cell m.old)) visible (look L.key key (L.entries side (cell m.old))) }
    ensures { L.Did side m.old m.new (L.added key visible (L.entries side (cell m.old))) }
{
    let i = seek_near(m, side, key, hint);
    if is_at(m, side, i, key) {
        join(m, side, i, visible);
        return;
    }
    put_in(m, side, i, key, visible);
}

// An order that showed `before` shows `after`. Its level may be in the row `hint`.
pub fn show(m: &mut [u8], side: Side, key: u64, before: u64, after: u64, hint: usize)
    requires { L.Table side m.old × L.CanShow before after (look L.key key (L.entries side (cell m.old))) }
    ensures { L.Did side m.old m.new (L.shown key before after (L.entries side (cell m.old))) }
{
    let i = seek_at(m, side, key, hint);
    let r = read_row(m, side, i);
    write_row(
        m,
        side,
        i,
        Row {
            key: r.key,
            qty: r.qty - before + after,
            orders: r.orders,
        },
    );
}

// The level in the row i goes: the row is dead.
fn take_out(m: &mut [u8], side: Side, i: usize, key: u64)
    requires { L.Table side m.old × (i < L.used side (cell m.old)) × (0 < (L.row side (cell m.old) i).orders) × (key ≡ (L.row side (cell m.old) i).key) }
    ensures { L.Did side m.old m.new (without L.key key (L.entries side (cell m.old))) }
{
    let n = used(m, side);
    let k = size(m, side);
    write_row(
        m,
        side,
        i,
        Row {
            key: key,
            qty: 0,
            orders: 0,
        },
    );
    recount(m, side, n, k - 1, i, 0);
}

// An order that showed `visible` goes. Its level may be in the row `hint`.
pub fn remove(m: &mut [u8], side: Side, key: u64, visible: u64, hint: usize)
    requires { L.Table side m.old × L.CanRemove visible (look L.key key (L.entries side (cell m.old))) }
    ensures { L.Did side m.old m.new (L.removed key visible (L.entries side (cell m.old))) }
{
    let i = seek_at(m, side, key, hint);
    let r = read_row(m, side, i);
    if r.orders == 1 {
        take_out(m, side, i, key);
        return;
    }
    write_row(
        m,
        side,
        i,
        Row {
            key: r.key,
            qty: r.qty - visible,
            orders: r.orders - 1,
        },
    );
}
