// The rows of accounts and sessions. docs/STATE.md has the cells.
#![tactic(auto)]

ghost use Rattle.std.specs.Prelude.{true, ◌≡◌, ◌<◌, ◌≤◌, is_some};
ghost use Rattle.words.specs.Words.{int, word_of};
ghost use Rattle.gateway.specs.Fits.{FundsFit, MaybeFundsFit, AccountFits};
ghost use Rattle.gateway.specs.Limits.{owner_slots, session_slots};
ghost use Rattle.gateway.specs.Rest.{session_at, account_of, is_open, is_present, is_subscribed};
ghost use Rattle.store.specs.Cells as C;
ghost use Rattle.store.specs.Layout.{cell, Cell, Holds};
ghost use Rattle.store.specs.View.{flag, optional, account, wallet, bucket, write, gateway, Is};
ghost use Rattle.clients.specs.Clients as P;

use accounts::{Account, Funds};
use risk::Bucket;
use store::{cells, limits};
use wallet::Wallet;

// ---- accounts

// Whether a cell is set.
fn is_set(m: &[u8], b: usize, i: usize, k: usize) -> bool
    requires { Holds m.now × Cell b i k }
    ensures { result ≡ flag (cell m.now b i k) }
{
    store::get(m, b, i, k) != 0
}

pub fn has_account(m: &[u8], i: usize) -> bool
    requires { Holds m.now × (i < owner_slots) }
    ensures { result ≡ is_some (account i (cell m.now C.accounts i)) }
{
    is_set(m, store::ACCOUNTS, i, cells::ACCOUNT_EXISTS)
}

// Whether the account has a wallet.
pub fn is_funded(m: &[u8], i: usize) -> bool
    requires { Holds m.now × (i < owner_slots) }
    ensures { result ≡ is_some (wallet (cell m.now C.accounts i)) }
{
    is_set(m, store::ACCOUNTS, i, cells::ACCOUNT_FUNDED)
}

pub fn max_open(m: &[u8], i: usize) -> u64
    requires { Holds m.now × (i < owner_slots) }
    ensures { result ≡ cell m.now C.accounts i C.account_max_open }
{
    store::get(m, store::ACCOUNTS, i, cells::ACCOUNT_MAX_OPEN)
}

// How many messages a second the account may send.
pub fn rate(m: &[u8], i: usize) -> u32
    requires { Holds m.now × (i < owner_slots) × P.LimitsFit (cell m.now C.accounts i) }
    ensures { result ≡ cell m.now C.accounts i C.account_rate }
{
    store::get(m, store::ACCOUNTS, i, cells::ACCOUNT_RATE) as u32
}

pub fn open_orders(m: &[u8], i: usize) -> u64
    requires { Holds m.now × (i < owner_slots) }
    ensures { result ≡ cell m.now C.accounts i C.account_open_orders }
{
    store::get(m, store::ACCOUNTS, i, cells::ACCOUNT_OPEN_ORDERS)
}

fn funds_of(cash: u64, position: u64) -> Funds
    ensures { result ≡ record { cash = int cash; position = int position } }
{
    Funds {
        cash: words::to_i64(cash),
        position: words::to_i64(position),
    }
}

fn funds_at(m: &[u8], i: usize) -> Option<Funds>
    requires { Holds m.now × (i < owner_slots) }
    ensures { result ≡ P.funds (cell m.now C.accounts i) }
{
    if is_set(m, store::ACCOUNTS, i, cells::ACCOUNT_FUNDED) {
        let cash = store::get(m, store::ACCOUNTS, i, cells::ACCOUNT_FUNDS_CASH);
        let position = store::get(m, store::ACCOUNTS, i, cells::ACCOUNT_FUNDS_POSITION);
        Some(funds_of(cash, position))
    } else {
        None
    }
}

fn account_row(m: &[u8], i: usize) -> Account
    requires { Holds m.now × (i < owner_slots) × P.LimitsFit (cell m.now C.accounts i) × (flag (cell m.now C.accounts i C.account_exists) ≡ true) }
    ensures { Some result ≡ account i (cell m.now C.accounts i) }
{
    let token = store::get(m, store::ACCOUNTS, i, cells::ACCOUNT_TOKEN);
    let max_open = store::get(m, store::ACCOUNTS, i, cells::ACCOUNT_MAX_OPEN);
    let rate = store::get(m, store::ACCOUNTS, i, cells::ACCOUNT_RATE);
    let funds = funds_at(m, i);
    Account {
        id: i as u32,
        token,
        max_open_orders: max_open as u32,
        messages_per_second: rate as u32,
        funds,
    }
}

pub fn account_at(m: &[u8], i: usize) -> Option<Account>
    requires { Holds m.now × (i < owner_slots) × P.LimitsFit (cell m.now C.accounts i) }
    ensures { result ≡ account i (cell m.now C.accounts i) }
{
    if is_set(m, store::ACCOUNTS, i, cells::ACCOUNT_EXISTS) {
        Some(account_row(m, i))
    } else {
        None
    }
}

pub fn wallet_at(m: &[u8], i: usize) -> Wallet
    requires { Holds m.now × (i < owner_slots) }
    ensures { result ≡ P.wallet_words (cell m.now C.accounts i) }
{
    Wallet {
        cash: store::get(m, store::ACCOUNTS, i, cells::ACCOUNT_CASH),
        position: store::get(m, store::ACCOUNTS, i, cells::ACCOUNT_POSITION),
        cash_held: store::get(m, store::ACCOUNTS, i, cells::ACCOUNT_CASH_HELD),
        position_held: store::get(m, store::ACCOUNTS, i, cells::ACCOUNT_POSITION_HELD),
    }
}

pub fn bucket_at(m: &[u8], i: usize) -> Bucket
    requires { Holds m.now × (i < owner_slots) }
    ensures { result ≡ bucket (cell m.now C.accounts i) }
{
    Bucket {
        tokens: store::get(m, store::ACCOUNTS, i, cells::ACCOUNT_TOKENS),
        refilled: store::get(m, store::ACCOUNTS, i, cells::ACCOUNT_REFILLED),
    }
}

// One cell.
fn set_cell(m: &mut [u8], b: usize, i: usize, k: usize, v: u64)
    requires { Holds m.old × Cell b i k }
    ensures { Is m.new (write b i k v (cell m.old)) }
{
    store::set(m, b, i, k, v);
}

// What a wallet owns; what it holds follows the live orders.
pub fn set_money(m: &mut [u8], i: usize, cash: u64, position: u64)
    requires { Holds m.old × (i < owner_slots) }
    ensures { Is m.new (P.set_money i cash position (cell m.old)) }
{
    store::set(m, store::ACCOUNTS, i, cells::ACCOUNT_CASH, cash);
    store::set(m, store::ACCOUNTS, i, cells::ACCOUNT_POSITION, position);
}

pub fn set_bucket(m: &mut [u8], i: usize, b: Bucket)
    requires { Holds m.old × (i < owner_slots) }
    ensures { Is m.new (P.set_bucket i b (cell m.old)) }
{
    store::set(m, store::ACCOUNTS, i, cells::ACCOUNT_TOKENS, b.tokens);
    store::set(m, store::ACCOUNTS, i, cells::ACCOUNT_REFILLED, b.refilled);
}

fn set_limits(m: &mut [u8], i: usize, a: Account)
    requires { Holds m.old × (i < owner_slots) }
    ensures { Is m.new (P.set_limits i a (cell m.old)) }
{
    store::set(m, store::ACCOUNTS, i, cells::ACCOUNT_EXISTS, 1);
    store::set(m, store::ACCOUNTS, i, cells::ACCOUNT_TOKEN, a.token);
    store::set(
        m,
        store::ACCOUNTS,
        i,
        cells::ACCOUNT_MAX_OPEN,
        a.max_open_orders as u64,
    );
    store::set(
        m,
        store::ACCOUNTS,
        i,
        cells::ACCOUNT_RATE,
        a.messages_per_second as u64,
    );
}

// Funds to start with, which the account owns at first.
fn write_funds(m: &mut [u8], i: usize, cash: u64, position: u64)
    requires { Holds m.old × (i < owner_slots) }
    ensures { Is m.new (P.fund i cash position (cell m.old)) }
{
    store::set(m, store::ACCOUNTS, i, cells::ACCOUNT_FUNDED, 1);
    store::set(m, store::ACCOUNTS, i, cells::ACCOUNT_FUNDS_CASH, cash);
    store::set(
        m,
        store::ACCOUNTS,
        i,
        cells::ACCOUNT_FUNDS_POSITION,
        position,
    );
    set_money(m, i, cash, position);
}

fn fund(m: &mut [u8], i: usize, f: Funds)
    requires { Holds m.old × (i < owner_slots) }
    ensures { Is m.new (P.fund i (word_of f.cash) (word_of f.position) (cell m.old)) × FundsFit f }
{
    let cash = words::of_i64(f.cash);
    let position = words::of_i64(f.position);
    write_funds(m, i, cash, position);
}

fn set_funds(m: &mut [u8], i: usize, f: Option<Funds>)
    requires { Holds m.old × (i < owner_slots) }
    ensures { Is m.new (P.set_funds i f (cell m.old)) × MaybeFundsFit f }
{
    match f {
        None => {
            store::set(m, store::ACCOUNTS, i, cells::ACCOUNT_FUNDED, 0);
        }
        Some(x) => {
            fund(m, i, x);
        }
    }
}

// The row of a new account. It has no live orders and no session, so those cells are 0 already. That its funds fit comes of their type.
pub fn add_account(m: &mut [u8], a: Account)
    requires { Holds m.old × (a.id < owner_slots) }
    ensures { Is m.new (P.add_account a (cell m.old)) × AccountFits a }
{
    let i = a.id as usize;
    let funds = a.funds;
    set_limits(m, i, a);
    set_funds(m, i, funds);
    set_bucket(m, i, Bucket::full(a.messages_per_second));
}

// ---- sessions

// The row of a session, as words. The account is plus one, 0 for none.
#[derive(Clone, Copy)]
pub struct Session {
    pub connected: u64,
    pub account: u64,
    pub last_received: u64,
    pub last_sent: u64,
    pub closing: u64,
    pub subscribed: u64,
}

impl Session {
    fn nobody() -> Session
        ensures { P.session_in result ≡ None }
    {
        Session {
            connected: 0,
            account: 0,
            last_received: 0,
            last_sent: 0,
            closing: 0,
            subscribed: 0,
        }
    }

    // There and not closing.
    pub fn is_present(self) -> bool
        ensures { result ≡ is_present (P.session_in self) }
    {
        if self.connected == 0 {
            false
        } else {
            self.closing == 0
        }
    }

    pub fn is_subscribed(self) -> bool
        ensures { result ≡ is_subscribed (P.session_in self) }
    {
        if self.connected == 0 {
            false
        } else {
            self.subscribed != 0
        }
    }

    // The account that it is logged in for, plus one; 0 for none.
    pub fn account_of(self) -> u64
        ensures { P.AccountOf self result }
    {
        if self.connected == 0 { 0 } else { self.account }
    }

    // Logged in and not closing.
    pub fn is_open(self) -> bool
        ensures { result ≡ is_open (P.session_in self) }
    {
        if self.account_of() == 0 {
            false
        } else {
            self.is_present()
        }
    }
}

pub fn session_at(m: &[u8], s: usize) -> Session
    requires { Holds m.now × (s < session_slots) }
    ensures { result ≡ P.session_words (cell m.now C.sessions s) }
{
    Session {
        connected: store::get(m, store::SESSIONS, s, cells::SESSION_CONNECTED),
        account: store::get(m, store::SESSIONS, s, cells::SESSION_ACCOUNT),
        last_received: store::get(m, store::SESSIONS, s, cells::SESSION_LAST_RECEIVED),
        last_sent: store::get(m, store::SESSIONS, s, cells::SESSION_LAST_SENT),
        closing: store::get(m, store::SESSIONS, s, cells::SESSION_CLOSING),
        subscribed: store::get(m, store::SESSIONS, s, cells::SESSION_SUBSCRIBED),
    }
}

// The session of any number: nobody past the slots.
pub fn find_session(m: &[u8], s: usize) -> Session
    requires { Holds m.now }
    ensures { P.session_in result ≡ session_at s (gateway (cell m.now)).rest }
{
    if s < limits::SESSION_SLOTS {
        session_at(m, s)
    } else {
        Session::nobody()
    }
}

pub fn is_open(m: &[u8], s: usize) -> bool
    requires { Holds m.now }
    ensures { result ≡ is_open (session_at s (gateway (cell m.now)).rest) }
{
    find_session(m, s).is_open()
}

pub fn is_present(m: &[u8], s: usize) -> bool
    requires { Holds m.now }
    ensures { result ≡ is_present (session_at s (gateway (cell m.now)).rest) }
{
    find_session(m, s).is_present()
}

pub fn is_subscribed(m: &[u8], s: usize) -> bool
    requires { Holds m.now }
    ensures { result ≡ is_subscribed (session_at s (gateway (cell m.now)).rest) }
{
    find_session(m, s).is_subscribed()
}

// A number of a cell that has it plus one, 0 for none.
fn minus_one(w: u64) -> Option<usize>
    ensures { result ≡ optional w }
{
    (w as usize).checked_sub(1)
}

// The account that a session is logged in for.
pub fn account_of(m: &[u8], s: usize) -> Option<usize>
    requires { Holds m.now }
    ensures { result ≡ account_of (session_at s (gateway (cell m.now)).rest) }
{
    minus_one(find_session(m, s).account_of())
}

// The session logged in for an account.
pub fn session_of(m: &[u8], a: usize) -> Option<usize>
    requires { Holds m.now × (a < owner_slots) }
    ensures { result ≡ optional (cell m.now C.accounts a C.account_session) }
{
    minus_one(store::get(m, store::ACCOUNTS, a, cells::ACCOUNT_SESSION))
}

pub fn is_closing(m: &[u8], s: usize) -> bool
    requires { Holds m.now × (s < session_slots) }
    ensures { result ≡ flag (cell m.now C.sessions s C.session_closing) }
{
    is_set(m, store::SESSIONS, s, cells::SESSION_CLOSING)
}

pub fn connect(m: &mut [u8], s: usize, at: u64)
    requires { Holds m.old × (s < session_slots) }
    ensures { Is m.new (P.connect s at (cell m.old)) }
{
    store::set(m, store::SESSIONS, s, cells::SESSION_CONNECTED, 1);
    store::set(m, store::SESSIONS, s, cells::SESSION_ACCOUNT, 0);
    store::set(m, store::SESSIONS, s, cells::SESSION_LAST_RECEIVED, at);
    store::set(m, store::SESSIONS, s, cells::SESSION_LAST_SENT, at);
    store::set(m, store::SESSIONS, s, cells::SESSION_CLOSING, 0);
    store::set(m, store::SESSIONS, s, cells::SESSION_SUBSCRIBED, 0);
}

pub fn set_received(m: &mut [u8], s: usize, at: u64)
    requires { Holds m.old × (s < session_slots) }
    ensures { Is m.new (P.set_received s at (cell m.old)) }
{
    set_cell(m, store::SESSIONS, s, cells::SESSION_LAST_RECEIVED, at);
}

pub fn set_sent(m: &mut [u8], s: usize, at: u64)
    requires { Holds m.old × (s < session_slots) }
    ensures { Is m.new (P.set_sent s at (cell m.old)) }
{
    set_cell(m, store::SESSIONS, s, cells::SESSION_LAST_SENT, at);
}

pub fn set_closing(m: &mut [u8], s: usize)
    requires { Holds m.old × (s < session_slots) }
    ensures { Is m.new (P.set_closing s (cell m.old)) }
{
    set_cell(m, store::SESSIONS, s, cells::SESSION_CLOSING, 1);
}

pub fn set_subscribed(m: &mut [u8], s: usize)
    requires { Holds m.old × (s < session_slots) }
    ensures { Is m.new (P.set_subscribed s (cell m.old)) }
{
    set_cell(m, store::SESSIONS, s, cells::SESSION_SUBSCRIBED, 1);
}

// The session and the account name each other.
pub fn log_in(m: &mut [u8], s: usize, account: usize)
    requires { Holds m.old × (s < session_slots) × (account < owner_slots) }
    ensures { Is m.new (P.log_in s account (cell m.old)) }
{
    set_cell(
        m,
        store::SESSIONS,
        s,
        cells::SESSION_ACCOUNT,
        account as u64 + 1,
    );
    store::set(
        m,
        store::ACCOUNTS,
        account,
        cells::ACCOUNT_SESSION,
        s as u64 + 1,
    );
}

// An account, plus one, has no session any more; 0 is nobody.
fn leave(m: &mut [u8], a: u64)
    requires { Holds m.old × (a ≤ owner_slots) }
    ensures { Is m.new (P.leave a (cell m.old)) }
{
    if a == 0 {
        return;
    }
    store::set(
        m,
        store::ACCOUNTS,
        (a - 1) as usize,
        cells::ACCOUNT_SESSION,
        0,
    );
}

// The connection is gone, and with it the login.
pub fn forget(m: &mut [u8], s: usize)
    requires { Holds m.old × (s < session_slots) × P.Linked (cell m.old) }
    ensures { Is m.new (P.forget s (cell m.old)) }
{
    let a = session_at(m, s).account_of();
    leave(m, a);
    set_cell(m, store::SESSIONS, s, cells::SESSION_CONNECTED, 0);
}
