// Code 7 at set-up and restore: what the orders of each wallet hold, judged exactly before anything is written (`hold_of` of exchange.rs).
#![tactic(auto)]

ghost use Rattle.std.specs.Prelude.{◌≡◌, ◌≤◌, ◌<◌, length, get_or};
ghost use Rattle.words.specs.Words.{int};
ghost use Rattle.gateway.specs.Limits.{most_orders};
ghost use Rattle.gateway.specs.Ledger as Ledger;
ghost use Rattle.gateway.specs.Start.{funds_in};
ghost use Rattle.store.specs.View as View;
ghost use Rattle.orders.specs.Orders.{order_of};
ghost use Rattle.listing.specs.Rows as Rows;
ghost use Rattle.listing.specs.Rows.{listing};
ghost use Rattle.saved.specs.Contents.{Reads, no_order};
ghost use Rattle.totals.specs.declared.Source.TheVariants.{Listing};
ghost use Rattle.totals.specs.Totals as P;

use accounts::Account;
use orders::Live;
use roster::Roster;
use store::limits;

// Where orders come from: a book listing, or a checkpoint's bytes.
#[derive(Clone, Copy)]
pub enum Source {
    Listing,
    Saved,
}

// ---- one order

// A listed order always has a price.
fn priced(kind: u64, limited: u64) -> u64
    ensures { result ≡ P.priced kind limited }
{
    if kind == 0 { 1 } else { limited }
}

// The order that row j of a listing becomes.
pub fn listed(list: &[u8], j: usize) -> Live
    requires { j < Rows.rows list.now }
    ensures { Reads (get_or (P.orders_in Listing list.now) j no_order) result }
{
    let e = listing::entry_at(list, j);
    Live {
        account: e.owner,
        client_ref: 0,
        side: e.side,
        priced: priced(e.kind, e.priced),
        price: e.price,
        leaves: e.leaves,
        hold: 0,
    }
}

fn order_at(from: Source, list: &[u8], j: usize) -> Live
    requires { P.Readable from list.now × (j < length (P.orders_in from list.now)) }
    ensures { Reads (get_or (P.orders_in from list.now) j no_order) result }
{
    match from {
        Source::Listing => listed(list, j),
        Source::Saved => saved::order(list, j),
    }
}

fn count(from: Source, list: &[u8]) -> usize
    requires { P.Readable from list.now }
    ensures { (result ≡ length (P.orders_in from list.now)) × (result ≤ most_orders) }
{
    match from {
        Source::Listing => listing::rows(list),
        Source::Saved => saved::orders(list),
    }
}

// Whether the order is the account's, and of that side, a code.
fn is_of(o: Live, account: u64, side: u64) -> bool
    ensures { result ≡ P.is_of account (View.side side) (order_of 0 o) }
{
    if o.account == account {
        return pending::changed::same_side(side, o.side);
    }
    false
}

// What the order holds of the account's wallet on a side.
fn held_by(fee: u64, o: Live, account: u64, side: u64) -> u64
    ensures { int result ≡ Ledger.held_by (int fee) account (View.side side) (order_of 0 o) }
{
    if is_of(o, account, side) {
        return live::hold_of(fee, o.side, o.priced, o.price, o.leaves);
    }
    0
}

// ---- one total: cash for the buys, seats for the sells

const BUY: u64 = 0;

const SELL: u64 = 1;

fn total_fits(fee: u64, from: Source, list: &[u8], account: u64, side: u64) -> bool
    requires { P.Readable from list.now }
    ensures { result ≡ Ledger.fits (Ledger.held (int fee) account (View.side side) (P.orders_in from list.now)) }
{
    let n = count(from, list);
    let mut s = sums::nothing();
    for j in (0..n).rev() {
        let o = order_at(from, list, j);
        s = sums::add(s, held_by(fee, o, account, side));
    }
    sums::is_fit(s, n as u64)
}

// ---- every wallet

// What an account's orders hold, on both sides.
fn both_fit(fee: u64, from: Source, list: &[u8], account: u64) -> bool
    requires { P.Readable from list.now }
    ensures { result ≡ P.both_fit (int fee) account (P.orders_in from list.now) }
{
    if total_fits(fee, from, list, account, BUY) {
        return total_fits(fee, from, list, account, SELL);
    }
    false
}

// The wallet of a slot's account, where there is one and has one.
fn slot_fits(fee: u64, from: Source, list: &[u8], s: Option<Account>, account: u64) -> bool
    requires { P.Readable from list.now }
    ensures { result ≡ Ledger.wallet_fits (int fee) account (funds_in s) (P.orders_in from list.now) }
{
    if roster::is_funded(s) {
        return both_fit(fee, from, list, account);
    }
    true
}

// Every wallet.
pub fn all_fit(fee: u64, from: Source, list: &[u8], accounts: Roster) -> bool
    requires { P.Readable from list.now }
    ensures { result ≡ P.wallets_fit (int fee) accounts 0 (P.orders_in from list.now) }
{
    for i in (0..limits::OWNER_SLOTS).rev() {
        if !slot_fits(fee, from, list, accounts.slots[i], i as u64) {
            return false;
        }
    }
    true
}
