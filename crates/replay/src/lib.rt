// A command of the record is taken again: `replay_command` of exchange.rs. No session may be connected; nothing is sent, and nothing waits in the batch.
#![tactic(auto)]

ghost use Rattle.std.specs.Prelude.{◌≡◌, eqb};
ghost use Rattle.orderbook.specs.declared.Command as K;
ghost use Rattle.gateway.specs.Ledger.{holds_fit};
ghost use Rattle.gateway.specs.Rest.{no_session};
ghost use Rattle.gateway.specs.Entry.{nothing, next};
ghost use Rattle.gateway.specs.Calls.{call, replay_command};
ghost use Rattle.store.specs.Layout.{cell, Holds};
ghost use Rattle.store.specs.View.{ledger, gateway};
ghost use Rattle.sound.specs.Sound.{State, Becomes};
ghost use Rattle.live.specs.Live.{placing};
ghost use Rattle.outcome.specs.Between.{Between};
ghost use Rattle.outcome.specs.Parts.{rest_of};
ghost use Rattle.outcome.specs.Refusals.{code_of};
ghost use Rattle.outcome.specs.Answers.{verdict, Says};
ghost use Rattle.replay.specs.Replay as P;

use orderbook::{Command, Side};
use orders::Live;
use outcome::Refusal;
use store::{cells, limits};

// ---- what every replay asks

// No session is connected, closing or not.
pub fn is_alone(m: &[u8]) -> bool
    requires { Holds m.now }
    ensures { result ≡ no_session (rest_of m.now).sessions }
{
    for s in 0..limits::SESSION_SLOTS {
        let x = clients::session_at(m, s);
        if x.connected != 0 {
            return false;
        }
    }
    true
}

// ---- what a command says

// In words: whether an order that it places bears its number, whether it has an owner, and the row of the order, where `places` is 1.
// The row's account is the owner, also of a command that places nothing; 0 for one without an owner.
#[derive(Clone, Copy)]
pub struct Terms {
    pub own: bool,
    pub owned: bool,
    pub places: u64,
    pub order: Live,
}

// The order's hold is found when it is placed.
fn order_terms(n: u64, id: u64, owner: u32, side: Side, price: Option<i64>, qty: u64) -> Terms
    ensures { (k : K.Command) → P.Places id owner side price qty k → P.Reads n k result }
{
    let code = side as u64;
    let flag = pending::batch::price_flag(price);
    let word = pending::batch::price_word(price);
    let order = Live {
        account: owner as u64,
        client_ref: 0,
        side: code,
        priced: flag,
        price: word,
        leaves: qty,
        hold: 0,
    };
    Terms {
        own: id == n,
        owned: true,
        places: 1,
        order,
    }
}

fn plain_terms(n: u64, owner: u64, owned: bool) -> Terms
    ensures { (k : K.Command) → P.Plain owner owned k → P.Reads n k result }
{
    let order = Live {
        account: owner,
        client_ref: 0,
        side: 0,
        priced: 0,
        price: 0,
        leaves: 0,
        hold: 0,
    };
    Terms {
        own: true,
        owned,
        places: 0,
        order,
    }
}

fn terms_of(n: u64, k: Command) -> Terms
    ensures { P.Reads n k result }
{
    match k {
        Command::Limit {
            id,
            owner,
            side,
            price,
            qty,
            ..
        } => order_terms(n, id, owner, side, Some(price), qty),
        Command::Market {
            id,
            owner,
            side,
            qty,
        } => order_terms(n, id, owner, side, None, qty),
        Command::Cancel { owner, .. } => plain_terms(n, owner as u64, true),
        Command::Modify { owner, .. } => plain_terms(n, owner as u64, true),
        Command::Stop {
            id,
            owner,
            side,
            limit,
            qty,
            ..
        } => order_terms(n, id, owner, side, limit, qty),
        Command::CancelAll { owner } => plain_terms(n, owner as u64, true),
        Command::SetPhase { .. } => plain_terms(n, 0, false),
    }
}

// ---- judged

// Whether each test passes, in the order of the definitions.
#[derive(Clone, Copy)]
pub struct Tests {
    pub alone: bool,
    pub next: bool,
    pub own: bool,
    pub below: bool,
    pub flights: bool,
    pub orders: bool,
    pub holds: bool,
}

// The refusal of the first test that fails.
fn decide(t: Tests) -> Result<(), Refusal>
    ensures { code_of result ≡ verdict (P.tests t) }
{
    delivery::check(t.alone, Refusal::Sequence)?;
    delivery::check(t.next, Refusal::Sequence)?;
    delivery::check(t.own, Refusal::Inconsistent)?;
    delivery::check(t.below, Refusal::OutOfRange)?;
    delivery::check(t.flights, Refusal::Full)?;
    delivery::check(t.orders, Refusal::Full)?;
    delivery::check(t.holds, Refusal::Outside)
}

// One more than the last number; 0 never is.
fn is_next(m: &[u8], n: u64) -> bool
    requires { State m.now }
    ensures { result ≡ eqb n (next (gateway (cell m.now)).core) }
{
    if n == 0 {
        return false;
    }
    n - 1 == pending::header::word_at(m, cells::LAST)
}

fn is_below(m: &[u8], t: Terms) -> bool
    requires { State m.now }
    ensures { result ≡ P.below t (gateway (cell m.now)) }
{
    if t.owned {
        return delivery::is_owner(m, t.order.account);
    }
    true
}

fn has_room(m: &[u8], t: Terms) -> bool
    requires { State m.now }
    ensures { result ≡ P.has_room t (gateway (cell m.now)) }
{
    if t.places == 0 {
        return true;
    }
    pending::header::word_at(m, cells::LIVE_ORDERS) < limits::MOST_ORDERS
}

// Code 7 for an order of any account: one without a wallet always passes.
fn order_fits(m: &[u8], n: u64, o: Live) -> bool
    requires { Between m.now }
    ensures { result ≡ holds_fit (placing n o (ledger (cell m.now))) }
{
    let a = o.account as usize;
    if a < limits::OWNER_SLOTS {
        if clients::is_funded(m, a) {
            let hold = live::hold_of(live::fee_of(m), o.side, o.priced, o.price, o.leaves);
            return live::total_fits(m, a, store::side_of(o.side), 0, hold);
        }
    }
    true
}

fn holds_fit(m: &[u8], n: u64, t: Terms) -> bool
    requires { Between m.now }
    ensures { result ≡ holds_fit (P.enter n t (ledger (cell m.now))) }
{
    if t.places == 0 {
        return true;
    }
    let order = t.order;
    order_fits(m, n, order)
}

fn judge(m: &[u8], n: u64, t: Terms) -> Result<(), Refusal>
    requires { Between m.now }
    ensures { code_of result ≡ verdict (P.tests (P.command_tests n t (gateway (cell m.now)))) }
{
    let alone = is_alone(m);
    let next = is_next(m, n);
    let below = is_below(m, t);
    let flying = pending::header::word_at(m, cells::FLYING);
    let orders = has_room(m, t);
    let holds = holds_fit(m, n, t);
    decide(Tests {
        alone,
        next,
        own: t.own,
        below,
        flights: flying < limits::MOST_IN_FLIGHT,
        orders,
        holds,
    })
}

// ---- applied

fn apply(m: &mut [u8], n: u64, t: Terms)
    requires { State m.old × P.CanTake n t (gateway (cell m.old)) }
    ensures { Becomes m.new (P.taken n t (gateway (cell m.old))) }
{
    commands::take_off(m, 0, t.order.account, t.places);
    if t.places != 0 {
        let order = t.order;
        live::place(m, n, order);
    }
}

pub fn replay_command(m: &mut [u8], n: u64, k: Command) -> Result<(), Refusal>
    requires { Between m.old }
    ensures { Says nothing (call (gateway (cell m.old)) (replay_command n k)) (code_of result) m.old m.new }
{
    let t = terms_of(n, k);
    judge(m, n, t)?;
    apply(m, n, t);
    Ok(())
}
