// Calls for the comparison with the standard library's maps: the live orders and the price levels in a lent state.
// Bytes that have not a state's length and a side above 1 get 11, and a refused call changes nothing. What the caller has to see to is document
// 01's premise alone (`Lent`): the bytes are what the last call left, from `tables_clear` on.
#![tactic(auto)]

ghost use Rattle.std.specs.Prelude.{◌≡◌, true, ◌<◌, leb};
ghost use Rattle.gateway.specs.Basics.{option};
ghost use Rattle.gateway.specs.Ledger.{number_of};
ghost use Rattle.table.specs.Live.{look};
ghost use Rattle.store.specs.Layout.{cell};
ghost use Rattle.store.specs.View.{side, ledger, zeros, Is};
ghost use Rattle.orders.specs.Orders.{append, make_room, set_leaves, retire};
ghost use Rattle.levels.specs.Levels as L;
ghost use Rattle.maps.specs.Tables as P;

use orderbook::Side;
use orders::Live;
use store::{cells, limits};

const SEQUENCE: u64 = 4;

const FULL: u64 = 5;

const OUTSIDE: u64 = 7;

const INCONSISTENT: u64 = 8;

const MALFORMED: u64 = 11;

// Room for twice the orders that may be in the table.
const ORDER_ROOM: u64 = 2 * limits::MOST_ORDERS;

// A code, and a number: 0 where the call is refused.
#[repr(C)]
#[derive(Clone, Copy)]
pub struct Answer {
    pub code: u64,
    pub number: u64,
}

// Whether the bytes have a state's length, and what is lent beside them is well formed.
fn is_whole(m: &[u8], ok: bool) -> bool
    ensures { result ≡ P.whole ok m.now }
{
    if ok {
        return m.len() == store::SIZE;
    }
    false
}

#[unsafe(no_mangle)]
pub extern "C" fn tables_clear(m: &mut [u8]) -> u64
    ensures { P.Ends (P.judged true m.old 0) (Is m.new zeros) (m.new ≡ m.old) result m.new }
{
    if is_whole(m, true) {
        store::clear(m);
        return 0;
    }
    MALFORMED
}

// ---- orders

// The leaves of a live order, 0 where there is none.
fn leaves_of(m: &[u8], number: u64) -> u64
    requires { P.Stands m.now }
    ensures { result ≡ option 0 (λ o. o.leaves) (look number_of number (ledger (cell m.now)).orders) }
{
    match orders::find_live(m, number) {
        Some(i) => orders::live_at(m, i).leaves,
        None => 0,
    }
}

#[unsafe(no_mangle)]
pub extern "C" fn tables_orders_find(m: &[u8], number: u64) -> Answer
    requires { P.Lent m.now }
    ensures { result ≡ P.answer (P.judged true m.now 0) (option 0 (λ o. o.leaves) (look number_of number (ledger (cell m.now)).orders)) }
{
    if is_whole(m, true) {
        return Answer {
            code: 0,
            number: leaves_of(m, number),
        };
    }
    Answer {
        code: MALFORMED,
        number: 0,
    }
}

// Whether a number is above that of the last row in use.
fn is_above(m: &[u8], number: u64) -> bool
    requires { P.Stands m.now }
    ensures { result ≡ P.above number (P.order_rows m.now) (cell m.now) }
{
    let n = store::get(m, store::HEADER, 0, cells::ORDER_ROWS) as usize;
    if 0 < n {
        return store::get(m, store::ORDERS, n - 1, cells::ORDER_NUMBER) < number;
    }
    true
}

// Whether a row is free for one more order.
fn is_room(m: &[u8]) -> bool
    requires { P.Stands m.now }
    ensures { result ≡ P.room (cell m.now) }
{
    let live = store::get(m, store::HEADER, 0, cells::LIVE_ORDERS);
    let resting = store::get(m, store::HEADER, 0, cells::RESTING_ORDERS);
    if live < ORDER_ROOM {
        return resting < ORDER_ROOM - live;
    }
    false
}

fn append_code(m: &[u8], number: u64) -> u64
    requires { P.Stands m.now }
    ensures { result ≡ P.append_code number (cell m.now) }
{
    if is_above(m, number) {
        return if is_room(m) { 0 } else { FULL };
    }
    SEQUENCE
}

fn append(m: &mut [u8], number: u64, o: Live) -> u64
    requires { P.Stands m.old }
    ensures { P.Ends (P.append_code number (cell m.old)) (Is m.new (append number o (make_room (cell m.old)))) (m.new ≡ m.old) result m.new }
{
    let code = append_code(m, number);
    if code == 0 {
        orders::make_room(m);
        orders::append(m, number, o);
    }
    code
}

// An order comes, with a number above those in the table.
#[unsafe(no_mangle)]
pub extern "C" fn tables_orders_add(
    m: &mut [u8],
    number: u64,
    account: u64,
    client_ref: u64,
    side: u64,
    price: u64,
    leaves: u64,
    hold: u64,
) -> u64
    requires { P.Lent m.old }
    ensures { P.Ends (P.judged (leb side 1) m.old (P.append_code number (cell m.old))) (Is m.new (append number (record { account = account; client_ref = client_ref; side = side; priced = 1; price = price; leaves = leaves; hold = hold }) (make_room (cell m.old)))) (m.new ≡ m.old) result m.new }
{
    if is_whole(m, side <= 1) {
        let o = Live {
            account,
            client_ref,
            side,
            priced: 1,
            price,
            leaves,
            hold,
        };
        return append(m, number, o);
    }
    MALFORMED
}

// One more than the row of a live order, which has these leaves and this hold now; 0 where there is none.
fn change(m: &mut [u8], number: u64, leaves: u64, hold: u64) -> u64
    requires { P.Stands m.old }
    ensures { P.Done (λ i. set_leaves i leaves hold) m.old m.new number result × P.Lent m.new }
{
    match orders::find_live(m, number) {
        Some(i) => {
            orders::set_leaves(m, i, leaves, hold);
            i as u64 + 1
        }
        None => 0,
    }
}

#[unsafe(no_mangle)]
pub extern "C" fn tables_orders_change(m: &mut [u8], number: u64, leaves: u64, hold: u64) -> Answer
    requires { P.Lent m.old }
    ensures { P.Changes (λ i. set_leaves i leaves hold) m.old m.new number result }
{
    if is_whole(m, true) {
        return Answer {
            code: 0,
            number: change(m, number, leaves, hold),
        };
    }
    Answer {
        code: MALFORMED,
        number: 0,
    }
}

fn remove(m: &mut [u8], number: u64) -> u64
    requires { P.Stands m.old }
    ensures { P.Done retire m.old m.new number result × P.Lent m.new }
{
    match orders::find_live(m, number) {
        Some(i) => {
            orders::retire(m, i);
            i as u64 + 1
        }
        None => 0,
    }
}

#[unsafe(no_mangle)]
pub extern "C" fn tables_orders_remove(m: &mut [u8], number: u64) -> Answer
    requires { P.Lent m.old }
    ensures { P.Changes retire m.old m.new number result }
{
    if is_whole(m, true) {
        return Answer {
            code: 0,
            number: remove(m, number),
        };
    }
    Answer {
        code: MALFORMED,
        number: 0,
    }
}

// ---- levels: the place of a price is sought once, and handed on as a hint

// What the orders of a level show, 0 where there is none.
fn shown(m: &[u8], s: Side, key: u64) -> u64
    requires { L.Table s m.now }
    ensures { result ≡ option 0 (λ l. l.qty) (P.level_of s key m.now) }
{
    match levels::find(m, s, key) {
        Some(i) => levels::read_row(m, s, i).qty,
        None => 0,
    }
}

#[unsafe(no_mangle)]
pub extern "C" fn tables_levels_find(m: &[u8], code: u64, key: u64) -> Answer
    requires { P.Lent m.now }
    ensures { result ≡ P.answer (P.judged (leb code 1) m.now 0) (option 0 (λ l. l.qty) (P.level_of (side code) key m.now)) }
{
    if is_whole(m, code <= 1) {
        return Answer {
            code: 0,
            number: shown(m, store::side_of(code), key),
        };
    }
    Answer {
        code: MALFORMED,
        number: 0,
    }
}

// The key's place is i.
fn join_code(m: &[u8], s: Side, key: u64, i: usize, visible: u64) -> u64
    requires { L.Table s m.now × L.Sought s m.now key i }
    ensures { result ≡ P.join_code (L.size s (cell m.now)) visible (P.level_of s key m.now) }
{
    if levels::is_at(m, s, i, key) {
        let r = levels::read_row(m, s, i);
        if visible <= limits::GREATEST - r.qty {
            return if r.orders < limits::GREATEST {
                0
            } else {
                OUTSIDE
            };
        }
        return OUTSIDE;
    }
    if levels::size(m, s) < limits::MOST_LEVELS {
        0
    } else {
        FULL
    }
}

fn join(m: &mut [u8], s: Side, key: u64, visible: u64) -> u64
    requires { P.Stands m.old }
    ensures { P.Levels (P.join_code (L.size s (cell m.old)) visible (P.level_of s key m.old)) (L.added key visible) s result m.old m.new }
{
    let i = levels::seek(m, s, key);
    let code = join_code(m, s, key, i, visible);
    if code == 0 {
        levels::add(m, s, key, visible, i);
    }
    code
}

// An order that shows `visible` comes.
#[unsafe(no_mangle)]
pub extern "C" fn tables_levels_add(m: &mut [u8], code: u64, key: u64, visible: u64) -> u64
    requires { P.Lent m.old }
    ensures { P.Levels (P.judged (leb code 1) m.old (P.join_code (L.size (side code) (cell m.old)) visible (P.level_of (side code) key m.old))) (L.added key visible) (side code) result m.old m.new }
{
    if is_whole(m, code <= 1) {
        return join(m, store::side_of(code), key, visible);
    }
    MALFORMED
}

fn show_code(m: &[u8], s: Side, key: u64, i: usize, before: u64, after: u64) -> u64
    requires { L.Table s m.now × L.Sought s m.now key i }
    ensures { result ≡ P.show_code before after (P.level_of s key m.now) }
{
    if levels::is_at(m, s, i, key) {
        let r = levels::read_row(m, s, i);
        if before <= r.qty {
            return if after <= limits::GREATEST - (r.qty - before) {
                0
            } else {
                OUTSIDE
            };
        }
    }
    INCONSISTENT
}

fn show(m: &mut [u8], s: Side, key: u64, before: u64, after: u64) -> u64
    requires { P.Stands m.old }
    ensures { P.Levels (P.show_code before after (P.level_of s key m.old)) (L.shown key before after) s result m.old m.new }
{
    let i = levels::seek(m, s, key);
    let code = show_code(m, s, key, i, before, after);
    if code == 0 {
        levels::show(m, s, key, before, after, i);
    }
    code
}

// An order that showed `before` shows `after`.
#[unsafe(no_mangle)]
pub extern "C" fn tables_levels_show(
    m: &mut [u8],
    code: u64,
    key: u64,
    before: u64,
    after: u64,
) -> u64
    requires { P.Lent m.old }
    ensures { P.Levels (P.judged (leb code 1) m.old (P.show_code before after (P.level_of (side code) key m.old))) (L.shown key before after) (side code) result m.old m.new }
{
    if is_whole(m, code <= 1) {
        return show(m, store::side_of(code), key, before, after);
    }
    MALFORMED
}

fn leave_code(m: &[u8], s: Side, key: u64, i: usize, visible: u64) -> u64
    requires { L.Table s m.now × L.Sought s m.now key i }
    ensures { (result ≡ P.leave_code visible (P.level_of s key m.now)) × (result ≡ 0 → L.CanRemove visible (P.level_of s key m.now)) }
{
    if levels::is_at(m, s, i, key) {
        if visible <= levels::read_row(m, s, i).qty {
            return 0;
        }
    }
    INCONSISTENT
}

fn leave(m: &mut [u8], s: Side, key: u64, visible: u64) -> u64
    requires { P.Stands m.old }
    ensures { P.Levels (P.leave_code visible (P.level_of s key m.old)) (L.removed key visible) s result m.old m.new }
{
    let i = levels::seek(m, s, key);
    let code = leave_code(m, s, key, i, visible);
    if code == 0 {
        levels::remove(m, s, key, visible, i);
    }
    code
}

// An order that showed `visible` goes.
#[unsafe(no_mangle)]
pub extern "C" fn tables_levels_remove(m: &mut [u8], code: u64, key: u64, visible: u64) -> u64
    requires { P.Lent m.old }
    ensures { P.Levels (P.judged (leb code 1) m.old (P.leave_code visible (P.level_of (side code) key m.old))) (L.removed key visible) (side code) result m.old m.new }
{
    if is_whole(m, code <= 1) {
        return leave(m, store::side_of(code), key, visible);
    }
    MALFORMED
}
