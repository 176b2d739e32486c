// A checkpoint's contents go into a state that begins: the orders, the reference price, the wallets, and the notices of what the orders hold
// (`restore` of document 01).
#![tactic(auto)]

ghost use Rattle.std.specs.Prelude.{◌≡◌, true, ◌<◌, length, is_some, None};
ghost use Rattle.gateway.specs.Bytes.{decode};
ghost use Rattle.gateway.specs.Ledger.{with_orders};
ghost use Rattle.gateway.specs.Limits.{owner_slots, most_notices};
ghost use Rattle.gateway.specs.Start.{hold_notice_of};
ghost use Rattle.store.specs.Layout.{cell};
ghost use Rattle.store.specs.View.{maybe_price, gateway};
ghost use Rattle.sound.specs.Sound.{State, Becomes};
ghost use Rattle.live.specs.Live.{with_ledger, with_notices};
ghost use Rattle.saved.specs.Contents.{saved_of, wallet_of, wallet_at, order_at};
ghost use Rattle.refill.specs.Refill as P;

use saved::{Purse, Reference};

// ---- the orders

// The order j takes its place behind the others, and its account holds what it holds.
fn place_at(m: &mut [u8], bytes: &[u8], j: usize)
    requires { State m.old × (is_some (decode bytes.now) ≡ true) × (j < length (saved_of bytes.now).orders) × P.HasRoom (order_at bytes.now j) (cell m.old) }
    ensures { P.Places (order_at bytes.now j) m.old m.new }
{
    let number = saved::number(bytes, j);
    let o = saved::order(bytes, j);
    live::seed(m, number, o);
}

// Each order in turn, ascending by number.
fn place_all(m: &mut [u8], bytes: &[u8])
    requires { P.Empty (saved_of bytes.now) m.old × (is_some (decode bytes.now) ≡ true) × P.Fits (saved_of bytes.now) }
    ensures { Becomes m.new (with_ledger (with_orders (saved_of bytes.now).orders) (gateway (cell m.old))) }
{
    let n = saved::orders(bytes);
    for j in 0..n {
        place_at(m, bytes, j);
    }
}

// ---- the reference price

fn mark(m: &mut [u8], r: Reference)
    requires { State m.old × ((gateway (cell m.old)).core.ledger.mark ≡ None) }
    ensures { Becomes m.new (with_ledger (P.with_mark (maybe_price r.marked r.price)) (gateway (cell m.old))) }
{
    if r.marked != 0 {
        pending::header::set_mark(m, r.price);
    }
}

// ---- the wallets

// The account owns what the bytes say, where it has a wallet.
fn own(m: &mut [u8], w: Purse)
    requires { State m.old × (w.account < owner_slots) }
    ensures { Becomes m.new (with_ledger (P.own (wallet_of w)) (gateway (cell m.old))) }
{
    let a = w.account as usize;
    if clients::is_funded(m, a) {
        clients::set_money(m, a, w.cash, w.position);
    }
}

fn own_at(m: &mut [u8], bytes: &[u8], j: usize)
    requires { State m.old × (is_some (decode bytes.now) ≡ true) × P.Fits (saved_of bytes.now) × (j < length (saved_of bytes.now).wallets) }
    ensures { Becomes m.new (with_ledger (P.own (wallet_at bytes.now j)) (gateway (cell m.old))) }
{
    let w = saved::wallet(bytes, j);
    own(m, w);
}

fn own_all(m: &mut [u8], bytes: &[u8])
    requires { State m.old × (is_some (decode bytes.now) ≡ true) × P.Fits (saved_of bytes.now) }
    ensures { Becomes m.new (with_ledger (P.own_all (saved_of bytes.now).wallets) (gateway (cell m.old))) }
{
    let n = saved::wallets(bytes);
    for j in 0..n {
        own_at(m, bytes, j);
    }
}

// ---- the notices

// The account of the order j is told what it holds, where it has a wallet and that is not 0.
fn notice_at(m: &mut [u8], bytes: &[u8], j: usize)
    requires { State m.old × (is_some (decode bytes.now) ≡ true) × P.Fits (saved_of bytes.now) × (j < length (saved_of bytes.now).orders) × (length (gateway (cell m.old)).rest.notices < most_notices) }
    ensures { Becomes m.new (with_notices (hold_notice_of (gateway (cell m.old)).core.ledger.fee (gateway (cell m.old)).core.ledger.wallets (order_at bytes.now j)) (gateway (cell m.old))) }
{
    let o = saved::order(bytes, j);
    let hold = live::hold_of(live::fee_of(m), o.side, o.priced, o.price, o.leaves);
    live::notice_hold(m, o.account, 0, hold);
}

fn notice_all(m: &mut [u8], bytes: &[u8])
    requires { State m.old × (is_some (decode bytes.now) ≡ true) × P.Fits (saved_of bytes.now) × (length (gateway (cell m.old)).rest.notices ≡ 0) }
    ensures { Becomes m.new (P.noticed (saved_of bytes.now).orders (gateway (cell m.old))) }
{
    let n = saved::orders(bytes);
    for j in 0..n {
        notice_at(m, bytes, j);
    }
}

// ---- the whole

// The contents, into a state with the accounts and the last number and nothing else.
pub fn refill(m: &mut [u8], bytes: &[u8])
    requires { P.Empty (saved_of bytes.now) m.old × (is_some (decode bytes.now) ≡ true) × P.Fits (saved_of bytes.now) }
    ensures { Becomes m.new (P.refilled (saved_of bytes.now) (gateway (cell m.old))) }
{
    place_all(m, bytes);
    let r = saved::mark(bytes);
    mark(m, r);
    own_all(m, bytes);
    notice_all(m, bytes);
}
