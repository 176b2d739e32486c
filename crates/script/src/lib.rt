// Messages, events, commands and accounts in rows of little-endian words, each with a test of whether a row is one. The readers take any row;
// the entry points test it first. A message and an event have 16 words: the kind, then the fields in their order.
#![tactic(auto)]

pub mod records;
pub mod strict;

ghost use Rattle.std.specs.Prelude.{◌≡◌, ◌+◌, ◌*◌, ◌%◌, ◌≤◌, length};
ghost use Rattle.store.specs.View.{side, maybe_price, maybe_qty};
ghost use Rattle.script.specs.Script as P;
ghost use Rattle.script.specs.Script.{word_at, small_at, code_at, price_at, message_of, event_of};

use orderbook::{CancelReason, Event, Phase, RejectReason, Side, TimeInForce};
use protocol::{Inbound, NewOrder, OrderKind};

const TWO_32: u64 = 4_294_967_296;

pub fn word(row: &[u8], i: usize) -> u64
    requires { 8 * i + 8 ≤ length row.now }
    ensures { result ≡ word_at row.now i }
{
    le::get_u64(row, 8 * i)
}

pub fn small(row: &[u8], i: usize) -> u32
    requires { 8 * i + 8 ≤ length row.now }
    ensures { result ≡ small_at row.now i }
{
    (word(row, i) % TWO_32) as u32
}

fn code(row: &[u8], i: usize) -> u8
    requires { 8 * i + 8 ≤ length row.now }
    ensures { result ≡ code_at row.now i }
{
    (word(row, i) % 256) as u8
}

pub fn side(row: &[u8], i: usize) -> Side
    requires { 8 * i + 8 ≤ length row.now }
    ensures { result ≡ side (word_at row.now i) }
{
    store::side_of(word(row, i))
}

pub fn price(row: &[u8], i: usize) -> i64
    requires { 8 * i + 8 ≤ length row.now }
    ensures { result ≡ price_at row.now i }
{
    words::to_i64(word(row, i))
}

pub fn maybe_price(row: &[u8], i: usize) -> Option<i64>
    requires { 8 * i + 16 ≤ length row.now }
    ensures { result ≡ maybe_price (word_at row.now i) (word_at row.now (i + 1)) }
{
    if word(row, i) == 0 {
        return None;
    }
    Some(price(row, i + 1))
}

fn maybe_qty(row: &[u8], i: usize) -> Option<u64>
    requires { 8 * i + 16 ≤ length row.now }
    ensures { result ≡ maybe_qty (word_at row.now i) (word_at row.now (i + 1)) }
{
    if word(row, i) == 0 {
        return None;
    }
    Some(word(row, i + 1))
}

// ---- messages

fn tif(row: &[u8]) -> TimeInForce
    requires { 56 ≤ length row.now }
    ensures { result ≡ P.tif_at row.now }
{
    TimeInForce::try_from(code(row, 6)).unwrap_or(TimeInForce::Gtc)
}

fn limit(row: &[u8]) -> OrderKind
    requires { length row.now ≡ 128 }
    ensures { result ≡ P.limit row.now }
{
    let tif = tif(row);
    let display = maybe_qty(row, 7);
    OrderKind::Limit {
        price: price(row, 5),
        tif,
        display,
    }
}

fn stop(row: &[u8]) -> OrderKind
    requires { length row.now ≡ 128 }
    ensures { result ≡ P.stop row.now }
{
    let limit = maybe_price(row, 6);
    OrderKind::Stop {
        trigger: price(row, 5),
        limit,
    }
}

fn order_kind(row: &[u8]) -> OrderKind
    requires { length row.now ≡ 128 }
    ensures { result ≡ P.order_kind row.now }
{
    match word(row, 4) {
        0 => limit(row),
        1 => OrderKind::Market,
        _ => stop(row),
    }
}

fn new_order(row: &[u8]) -> NewOrder
    requires { length row.now ≡ 128 }
    ensures { result ≡ P.new_order row.now }
{
    let side = side(row, 2);
    let kind = order_kind(row);
    NewOrder {
        client_ref: word(row, 1),
        side,
        qty: word(row, 3),
        kind,
    }
}

fn login(row: &[u8]) -> Inbound
    requires { length row.now ≡ 128 }
    ensures { result ≡ P.login row.now }
{
    Inbound::Login {
        version: (word(row, 1) % 65536) as u16,
        account: small(row, 2),
        token: word(row, 3),
    }
}

fn modify(row: &[u8]) -> Inbound
    requires { length row.now ≡ 128 }
    ensures { result ≡ P.modify row.now }
{
    Inbound::Modify {
        order_id: word(row, 1),
        price: price(row, 2),
        qty: word(row, 3),
    }
}

pub fn message(row: &[u8]) -> Inbound
    requires { length row.now ≡ 128 }
    ensures { result ≡ message_of row.now }
{
    match word(row, 0) {
        0 => login(row),
        1 => Inbound::Logout,
        2 => Inbound::Heartbeat,
        3 => Inbound::NewOrder(new_order(row)),
        4 => Inbound::Cancel {
            order_id: word(row, 1),
        },
        5 => modify(row),
        6 => Inbound::MassCancel,
        _ => Inbound::Subscribe,
    }
}

// ---- events

pub fn reject_reason(row: &[u8]) -> RejectReason
    requires { length row.now ≡ 128 }
    ensures { result ≡ P.reject_at row.now }
{
    RejectReason::try_from(code(row, 2)).unwrap_or(RejectReason::InvalidQuantity)
}

pub fn cancel_reason(row: &[u8]) -> CancelReason
    requires { length row.now ≡ 128 }
    ensures { result ≡ P.cancel_at row.now }
{
    CancelReason::try_from(code(row, 3)).unwrap_or(CancelReason::Requested)
}

pub fn phase(row: &[u8], i: usize) -> Phase
    requires { 8 * i + 8 ≤ length row.now }
    ensures { result ≡ P.phase_at row.now i }
{
    Phase::try_from(code(row, i)).unwrap_or(Phase::Continuous)
}

fn traded(row: &[u8]) -> Event
    requires { length row.now ≡ 128 }
    ensures { result ≡ P.traded row.now }
{
    let taker_side = side(row, 4);
    Event::Trade {
        trade_id: word(row, 1),
        taker: word(row, 2),
        maker: word(row, 3),
        taker_side,
        price: price(row, 5),
        qty: word(row, 6),
        taker_leaves: word(row, 7),
        maker_leaves: word(row, 8),
    }
}

fn rested(row: &[u8]) -> Event
    requires { length row.now ≡ 128 }
    ensures { result ≡ P.rested row.now }
{
    let side = side(row, 2);
    Event::Rested {
        id: word(row, 1),
        side,
        price: price(row, 3),
        qty: word(row, 4),
        visible: word(row, 5),
    }
}

fn replenished(row: &[u8]) -> Event
    requires { length row.now ≡ 128 }
    ensures { result ≡ P.replenished row.now }
{
    let side = side(row, 2);
    Event::Replenished {
        id: word(row, 1),
        side,
        price: price(row, 3),
        visible: word(row, 4),
    }
}

fn stop_placed(row: &[u8]) -> Event
    requires { length row.now ≡ 128 }
    ensures { result ≡ P.stop_placed row.now }
{
    let side = side(row, 2);
    let limit = maybe_price(row, 4);
    Event::StopPlaced {
        id: word(row, 1),
        side,
        trigger: price(row, 3),
        limit,
        qty: word(row, 6),
    }
}

fn cancelled(row: &[u8]) -> Event
    requires { length row.now ≡ 128 }
    ensures { result ≡ P.cancelled row.now }
{
    let reason = cancel_reason(row);
    Event::Cancelled {
        id: word(row, 1),
        qty: word(row, 2),
        reason,
    }
}

fn modified(row: &[u8]) -> Event
    requires { length row.now ≡ 128 }
    ensures { result ≡ P.modified row.now }
{
    Event::Modified {
        id: word(row, 1),
        price: price(row, 2),
        qty: word(row, 3),
        leaves: word(row, 4),
    }
}

pub fn event(row: &[u8]) -> Event
    requires { length row.now ≡ 128 }
    ensures { result ≡ event_of row.now }
{
    match word(row, 0) {
        0 => Event::Accepted { id: word(row, 1) },
        1 => Event::Rejected {
            id: word(row, 1),
            reason: reject_reason(row),
        },
        2 => traded(row),
        3 => rested(row),
        4 => replenished(row),
        5 => cancelled(row),
        6 => modified(row),
        7 => stop_placed(row),
        8 => Event::Triggered { id: word(row, 1) },
        9 => Event::MassCancelled {
            owner: small(row, 1),
            count: small(row, 2),
        },
        _ => Event::PhaseChanged {
            phase: phase(row, 1),
        },
    }
}
