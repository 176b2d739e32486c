// Live orders, and what they hold of their accounts' wallets: `place`, `set_leaves`, `traded` and `retire` of exchange.rs.
// A row is read where it is changed: handed on in memory, it would be read again right after it was written, which makes the processor wait.
#![tactic(auto)]

ghost use Rattle.std.specs.Prelude.{◌≡◌, cond, ◌+◌, ◌≤◌, ◌<◌, length, ◌+ℤ◌, ◌-ℤ◌, is_some};
ghost use Rattle.words.specs.Words.{int, amount};
ghost use Rattle.gateway.specs.Limits.{owner_slots, most_notices};
ghost use Rattle.gateway.specs.Ledger as Ledger;
ghost use Rattle.store.specs.Cells as C;
ghost use Rattle.store.specs.Layout.{cell, Holds};
ghost use Rattle.store.specs.View.{word, side, order_room, gateway, Is};
ghost use Rattle.orders.specs.Orders.{number_at};
ghost use Rattle.sound.specs.Sound.{held_cell, State, Becomes, InPlace};
ghost use Rattle.live.specs.Live as P;

use orderbook::Side;
use orders::Live;
use store::cells;

// The cell of an account's row with what its orders of a side hold.
fn held_cell(side: Side) -> usize
    ensures { (result ≡ held_cell side) × (result < 16) }
{
    match side {
        Side::Buy => cells::ACCOUNT_CASH_HELD,
        Side::Sell => cells::ACCOUNT_POSITION_HELD,
    }
}

// One of two numbers. Whether an account has a wallet cannot be foreseen, so nothing jumps on it.
pub fn choose(b: bool, x: u64, y: u64) -> u64
    ensures { result ≡ cond b x y }
{
    if b { x } else { y }
}

// The fee for a seat.
pub fn fee_of(m: &[u8]) -> u64
    requires { Holds m.now }
    ensures { result ≡ word (cell m.now) C.fee }
{
    pending::header::word_at(m, cells::FEE)
}

// What an order with these words holds: nothing without a price.
pub fn hold_of(fee: u64, side: u64, priced: u64, price: u64, leaves: u64) -> u64
    ensures { result ≡ P.hold_word fee side priced price leaves }
{
    wallet::held(fee, store::side_of(side), priced != 0, price, leaves)
}

// What the account's orders of a side hold.
pub fn held_at(m: &[u8], account: usize, side: Side) -> u64
    requires { Holds m.now × (account < owner_slots) }
    ensures { result ≡ cell m.now C.accounts account (held_cell side) }
{
    store::get(m, store::ACCOUNTS, account, held_cell(side))
}

// Code 7 for what the account's orders of a side hold, where a part of it goes from `old` to `new`.
pub fn total_fits(m: &[u8], account: usize, side: Side, old: u64, new: u64) -> bool
    requires { Holds m.now × (account < owner_slots) }
    ensures { result ≡ Ledger.fits (int (cell m.now C.accounts account (held_cell side)) -ℤ int old +ℤ int new) }
{
    let held = held_at(m, account, side);
    words::total(held, old, new).is_some()
}

// And where two parts of it change.
pub fn two_fit(
    m: &[u8],
    account: usize,
    side: Side,
    old: u64,
    new: u64,
    old2: u64,
    new2: u64,
) -> bool
    requires { Holds m.now × (account < owner_slots) }
    ensures { result ≡ Ledger.fits (int (cell m.now C.accounts account (held_cell side)) -ℤ int old +ℤ int new -ℤ int old2 +ℤ int new2) }
{
    let held = held_at(m, account, side);
    words::total_of_two(held, old, new, old2, new2).is_some()
}

fn shift(m: &mut [u8], account: usize, side: Side, old: u64, new: u64)
    requires { Holds m.old × (account < owner_slots) }
    ensures { Is m.new (P.shift account side old new (cell m.old)) }
{
    let k = held_cell(side);
    let before = store::get(m, store::ACCOUNTS, account, k);
    let total = words::shifted(before, old, new);
    store::set(m, store::ACCOUNTS, account, k, total);
}

// The order has this price and this much open, and holds accordingly: what it holds then is given.
fn revise(m: &mut [u8], i: usize, o: Live, priced: u64, price: u64, leaves: u64, hold: u64)
    requires { Holds m.old × (i < order_room) × (o.account < owner_slots) × (hold ≡ P.hold_word (word (cell m.old) C.fee) o.side priced price leaves) }
    ensures { Is m.new (P.revise i o priced price leaves (cell m.old)) }
{
    orders::revise(m, i, priced, price, leaves, hold);
    shift(m, o.account as usize, store::side_of(o.side), o.hold, hold);
}

// The order's open quantity is now `leaves`: what it holds follows.
pub fn set_leaves(m: &mut [u8], i: usize, leaves: u64, hold: u64)
    requires { State m.old × P.At i (cell m.old) × (hold ≡ P.hold_left (word (cell m.old) C.fee) leaves (cell m.old C.orders i)) }
    ensures { InPlace m.old m.new (P.with_ledger (Ledger.change (Ledger.set_leaves (number_at i (cell m.old)) leaves)) (gateway (cell m.old))) }
{
    let o = orders::live_at(m, i);
    revise(m, i, o, o.priced, o.price, leaves, hold);
}

// The order ends: what it held goes back, and its account has one order less.
fn end(m: &mut [u8], i: usize, o: Live)
    requires { Holds m.old × (i < order_room) × (o.account < owner_slots) × (0 < word (cell m.old) C.live_orders) × (0 < cell m.old C.accounts o.account C.account_open_orders) × (cell m.old C.orders i C.order_resting ≤ 1) }
    ensures { Is m.new (P.retire i o (cell m.old)) }
{
    let a = o.account as usize;
    let open = store::get(m, store::ACCOUNTS, a, cells::ACCOUNT_OPEN_ORDERS);
    orders::retire(m, i);
    store::set(m, store::ACCOUNTS, a, cells::ACCOUNT_OPEN_ORDERS, open - 1);
    shift(m, a, store::side_of(o.side), o.hold, 0);
}

// The order has left the book.
pub fn retire(m: &mut [u8], i: usize)
    requires { State m.old × P.At i (cell m.old) }
    ensures { InPlace m.old m.new (P.with_ledger (Ledger.change (Ledger.retire (number_at i (cell m.old)))) (gateway (cell m.old))) }
{
    let o = orders::live_at(m, i);
    end(m, i, o);
}

// An order with nothing left is done.
fn leave(m: &mut [u8], i: usize, o: Live, priced: u64, price: u64, leaves: u64, hold: u64)
    requires { Holds m.old × (i < order_room) × (o.account < owner_slots) × (0 < word (cell m.old) C.live_orders) × (0 < cell m.old C.accounts o.account C.account_open_orders) × (cell m.old C.orders i C.order_resting ≤ 1) × (hold ≡ P.hold_word (word (cell m.old) C.fee) o.side priced price leaves) }
    ensures { Is m.new (P.left i o priced price leaves (cell m.old)) }
{
    if leaves == 0 {
        end(m, i, o);
        return;
    }
    revise(m, i, o, priced, price, leaves, hold);
}

// A modify changed its price and its open quantity.
pub fn reprice(m: &mut [u8], i: usize, price: u64, leaves: u64, hold: u64)
    requires { State m.old × P.At i (cell m.old) × (hold ≡ P.hold_repriced (word (cell m.old) C.fee) price leaves (cell m.old C.orders i)) }
    ensures { InPlace m.old m.new (P.with_ledger (Ledger.change (Ledger.reprice (number_at i (cell m.old)) (int price) leaves)) (gateway (cell m.old))) }
{
    let o = orders::live_at(m, i);
    leave(m, i, o, 1, price, leaves, hold);
}

// The account pays or is paid, where it has a wallet; else its cells keep what they have.
fn pay(m: &mut [u8], account: usize, side: Side, price: u64, qty: u64)
    requires { Holds m.old × (account < owner_slots) }
    ensures { Is m.new (P.pay account side price qty (cell m.old)) }
{
    let funded = clients::is_funded(m, account);
    let before = clients::wallet_at(m, account);
    let fee = fee_of(m);
    let after = before.settle(fee, side, price, qty);
    let cash = choose(funded, after.cash, before.cash);
    let position = choose(funded, after.position, before.position);
    clients::set_money(m, account, cash, position);
}

// The order traded `qty` at `price`, and has `leaves` open.
pub fn traded(m: &mut [u8], i: usize, price: u64, qty: u64, leaves: u64, hold: u64)
    requires { State m.old × P.At i (cell m.old) × (hold ≡ P.hold_left (word (cell m.old) C.fee) leaves (cell m.old C.orders i)) }
    ensures { InPlace m.old m.new (P.with_ledger (Ledger.change (Ledger.fill (number_at i (cell m.old)) (int price) qty leaves)) (gateway (cell m.old))) }
{
    let o = orders::live_at(m, i);
    pay(m, o.account as usize, store::side_of(o.side), price, qty);
    leave(m, i, o, o.priced, o.price, leaves, hold);
}

// A row for a new order, numbered above those of the table; its hold is not read but found.
fn put(m: &mut [u8], number: u64, o: Live)
    requires { State m.old × P.CanPlace number o (cell m.old) }
    ensures { Is m.new (P.place number o (cell m.old)) }
{
    let a = o.account as usize;
    let hold = hold_of(fee_of(m), o.side, o.priced, o.price, o.leaves);
    let open = store::get(m, store::ACCOUNTS, a, cells::ACCOUNT_OPEN_ORDERS);
    orders::make_room(m);
    orders::append(
        m,
        number,
        Live {
            account: o.account,
            client_ref: o.client_ref,
            side: o.side,
            priced: o.priced,
            price: o.price,
            leaves: o.leaves,
            hold: hold,
        },
    );
    store::set(m, store::ACCOUNTS, a, cells::ACCOUNT_OPEN_ORDERS, open + 1);
    shift(m, a, store::side_of(o.side), 0, hold);
}

// A new order.
pub fn place(m: &mut [u8], number: u64, o: Live)
    requires { State m.old × P.CanPlace number o (cell m.old) }
    ensures { Becomes m.new (P.with_ledger (P.placing number o) (gateway (cell m.old))) }
{
    put(m, number, o);
}

// An order of a list that ascends by number, for a state that begins: the next one's number need only be above this one's.
pub fn seed(m: &mut [u8], number: u64, o: Live)
    requires { State m.old × P.CanPlace number o (cell m.old) }
    ensures { P.Seeds number o m.old m.new }
{
    put(m, number, o);
}

// A notice of the account, or none.
fn notice_where(m: &mut [u8], account: u64, noticed: bool)
    requires { State m.old × (length (P.notice_where account noticed) + word (cell m.old) C.notice_rows ≤ most_notices) }
    ensures { InPlace m.old m.new (P.with_notices (P.notice_where account noticed) (gateway (cell m.old))) }
{
    pending::push_notices(m, account, choose(noticed, 1, 0));
}

// A notice that the account's wallet changed, where it has one.
pub fn notice(m: &mut [u8], account: u64)
    requires { State m.old × (account < owner_slots) × (length (P.wallet_notice account (cell m.old)) + word (cell m.old) C.notice_rows ≤ most_notices) }
    ensures { InPlace m.old m.new (P.with_notices (P.wallet_notice account (cell m.old)) (gateway (cell m.old))) }
{
    let funded = clients::is_funded(m, account as usize);
    notice_where(m, account, funded);
}

// A notice that what the account's order holds went from `old` to `new`.
pub fn notice_hold(m: &mut [u8], account: u64, old: u64, new: u64)
    requires { State m.old × (account < owner_slots) × (length (P.hold_notice account (int old) (int new) (cell m.old)) + word (cell m.old) C.notice_rows ≤ most_notices) }
    ensures { InPlace m.old m.new (P.with_notices (P.hold_notice account (int old) (int new) (cell m.old)) (gateway (cell m.old))) }
{
    let funded = clients::is_funded(m, account as usize);
    notice_where(m, account, funded & (old != new));
}
