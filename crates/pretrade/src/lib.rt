// Pre-trade risk: the tests of an order-entry message, in 01's order, on the state as it is (`take_token` and `enter` of exchange.rs).
#![tactic(auto)]

pub mod collar;

ghost use Rattle.std.specs.Prelude.{◌≡◌, true, false, [], ◌∷◌, ◌+◌, ◌<◌, length, ltb, leb, is_some};
ghost use Rattle.words.specs.Words.{int};
ghost use Rattle.risk.specs.Collar.{near_market};
ghost use Rattle.gateway.specs.Basics.{option};
ghost use Rattle.gateway.specs.Limits.{owner_slots, most_notices};
ghost use Rattle.gateway.specs.Ledger.{open_of};
ghost use Rattle.gateway.specs.Core.{account_at};
ghost use Rattle.gateway.specs.Rest.{at_time};
ghost use Rattle.gateway.specs.Entry.{taken, most_open, wallet_at, price_of};
ghost use Rattle.store.specs.Cells as C;
ghost use Rattle.store.specs.Layout.{cell};
ghost use Rattle.store.specs.View.{word, gateway};
ghost use Rattle.sound.specs.Sound.{State};
ghost use Rattle.live.specs.Live.{hold_notice};
ghost use Rattle.outcome.specs.Parts.{rest_of};
ghost use Rattle.pretrade.specs.Pretrade as P;

use orderbook::Side;
use orders::Live;
use protocol::{NewOrder, OrderKind, RejectCode};
use risk::Taken;
use store::{cells, limits};
use wallet::Wallet;

// Of several tests the first that fails says why.

// The token is taken first, and stays taken whatever reject follows.
pub fn take_token(m: &[u8], a: usize, time: u64) -> Taken
    requires { P.Exists a m.now }
    ensures { result ≡ taken a (gateway (cell m.now)).core (at_time time (rest_of m.now)) }
{
    let rate = clients::rate(m, a);
    let bucket = clients::bucket_at(m, a);
    risk::take_token(bucket, rate, time)
}

// ---- a command that places nothing

pub fn judge_other(m: &[u8], passed: bool, allowed: bool) -> Option<RejectCode>
    requires { State m.now }
    ensures { result ≡ P.first (P.other_tests passed allowed (gateway (cell m.now))) }
{
    let throttled = (!passed).then_some(RejectCode::Throttled);
    let foreign = (!allowed).then_some(RejectCode::NotAllowed);
    let full = (!commands::can_number(m)).then_some(RejectCode::Unavailable);
    throttled.or(foreign).or(full)
}

// ---- what a new order is asked

fn few_open(m: &[u8], a: usize) -> bool
    requires { P.Exists a m.now }
    ensures { result ≡ ltb (open_of a (gateway (cell m.now)).core.ledger.orders) (most_open (account_at a (gateway (cell m.now)).core)) }
{
    clients::open_orders(m, a) < clients::max_open(m, a)
}

// The collar: no percent or no mark, near.
fn is_near(m: &[u8], price: u64) -> bool
    requires { State m.now }
    ensures { result ≡ near_market (int price) (rest_of m.now).collar ((gateway (cell m.now)).core.ledger.mark) }
{
    let collar = pending::header::word_at(m, cells::COLLAR);
    if collar == 0 {
        return true;
    }
    let marked = pending::header::word_at(m, cells::MARKED);
    if marked == 0 {
        return true;
    }
    let mark = pending::header::word_at(m, cells::MARK);
    risk::near(price, mark, collar - 1)
}

// Not negative, and the free part of the wallet covers it.
fn is_free(m: &[u8], a: usize, side: Side, hold: u64) -> bool
    requires { P.Exists a m.now × (is_some (wallet_at a (gateway (cell m.now)).core) ≡ true) }
    ensures { result ≡ option false (P.is_free (int hold) side a (gateway (cell m.now)).core) (wallet_at a (gateway (cell m.now)).core) }
{
    words::not_negative(hold) && clients::wallet_at(m, a).covers(side, hold)
}

fn is_covered(m: &[u8], a: usize, side: Side, price: u64, qty: u64) -> bool
    requires { P.Exists a m.now × (is_some (wallet_at a (gateway (cell m.now)).core) ≡ true) }
    ensures { result ≡ option false (P.is_covered side (int price) qty a (gateway (cell m.now)).core) (wallet_at a (gateway (cell m.now)).core) }
{
    match Wallet::hold_of(live::fee_of(m), side, price, qty) {
        Some(hold) => is_free(m, a, side, hold),
        None => false,
    }
}

// A wallet's account places limit orders near the market that it can pay for in full.
fn judge_limit(m: &[u8], a: usize, side: Side, price: u64, qty: u64) -> Option<RejectCode>
    requires { P.Exists a m.now × (is_some (wallet_at a (gateway (cell m.now)).core) ≡ true) }
    ensures { result ≡ P.first (P.limit_tests side (int price) qty a (gateway (cell m.now))) }
{
    let far = (!is_near(m, price)).then_some(RejectCode::OffMarket);
    let short = (!is_covered(m, a, side, price, qty)).then_some(RejectCode::InsufficientFunds);
    far.or(short)
}

fn judge_kind(m: &[u8], a: usize, side: Side, qty: u64, kind: OrderKind) -> Option<RejectCode>
    requires { P.Exists a m.now × (is_some (wallet_at a (gateway (cell m.now)).core) ≡ true) }
    ensures { result ≡ P.first (P.paper a side qty kind (gateway (cell m.now))) }
{
    match kind {
        OrderKind::Limit { price, .. } => judge_limit(m, a, side, words::of_i64(price), qty),
        OrderKind::Market => Some(RejectCode::NotAllowed),
        OrderKind::Stop { .. } => Some(RejectCode::NotAllowed),
    }
}

fn judge_paper(m: &[u8], a: usize, order: NewOrder) -> Option<RejectCode>
    requires { P.Exists a m.now }
    ensures { result ≡ P.first (P.paper a order.side order.qty order.kind (gateway (cell m.now))) }
{
    if clients::is_funded(m, a) {
        let side = order.side;
        let kind = order.kind;
        return judge_kind(m, a, side, order.qty, kind);
    }
    None
}

// ---- the words of a new order

fn price_of(kind: OrderKind) -> Option<i64>
    ensures { result ≡ price_of kind }
{
    match kind {
        OrderKind::Limit { price, .. } => Some(price),
        OrderKind::Market => None,
        OrderKind::Stop { trigger: _, limit } => limit,
    }
}

// The row that the order will have; its hold is found when it is placed.
pub fn live_of(a: usize, order: NewOrder) -> Live
    ensures { P.Stands a order result }
{
    let side = order.side;
    let kind = order.kind;
    let price = price_of(kind);
    let code = side as u64;
    Live {
        account: a as u64,
        client_ref: order.client_ref,
        side: code,
        priced: pending::batch::price_flag(price),
        price: pending::batch::price_word(price),
        leaves: order.qty,
        hold: 0,
    }
}

// ---- room for a new order

// For the notice of what it holds.
fn notice_room(m: &[u8], a: usize, hold: u64) -> bool
    requires { State m.now × (a < owner_slots) }
    ensures { result ≡ leb (length (hold_notice a (int 0) (int hold) (cell m.now)) + word (cell m.now) C.notice_rows) most_notices }
{
    let n = pending::header::word_at(m, cells::NOTICE_ROWS);
    if hold == 0 {
        return n <= limits::MOST_NOTICES;
    }
    if clients::is_funded(m, a) {
        return n < limits::MOST_NOTICES;
    }
    n <= limits::MOST_NOTICES
}

// The total that the account's orders of this side hold stays in range.
fn hold_fits(m: &[u8], a: usize, side: Side, hold: u64) -> bool
    requires { P.Exists a m.now }
    ensures { result ≡ P.hold_fits a side (int hold) (gateway (cell m.now)) }
{
    !clients::is_funded(m, a) || live::total_fits(m, a, side, 0, hold)
}

// For the order, its notice and what it holds.
fn has_place(m: &[u8], a: usize, order: NewOrder, o: Live) -> bool
    requires { P.Exists a m.now × P.Stands a order o }
    ensures { result ≡ P.has_place a order (gateway (cell m.now)) }
{
    let side = order.side;
    let hold = live::hold_of(live::fee_of(m), o.side, o.priced, o.price, o.leaves);
    let live = pending::header::word_at(m, cells::LIVE_ORDERS);
    live < limits::MOST_ORDERS && notice_room(m, a, hold) && hold_fits(m, a, side, hold)
}

fn has_room(m: &[u8], a: usize, order: NewOrder, o: Live) -> bool
    requires { P.Exists a m.now × P.Stands a order o }
    ensures { result ≡ P.has_room a order (gateway (cell m.now)) }
{
    commands::can_number(m) && has_place(m, a, order, o)
}

// The tests in the definitions' order.
pub fn judge_new(m: &[u8], a: usize, passed: bool, order: NewOrder, o: Live) -> Option<RejectCode>
    requires { P.Exists a m.now × P.Stands a order o }
    ensures { result ≡ P.first (P.new_order_tests a order passed (gateway (cell m.now))) }
{
    let throttled = (!passed).then_some(RejectCode::Throttled);
    let many = (!few_open(m, a)).then_some(RejectCode::TooManyOrders);
    let paper = judge_paper(m, a, order);
    let full = (!has_room(m, a, order, o)).then_some(RejectCode::Unavailable);
    throttled.or(many).or(paper).or(full)
}
