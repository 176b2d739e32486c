// The checkpoint's bytes in a lent slice: document 01's call `checkpoint`, which the Rust does not have.
#![tactic(auto)]

mod fields;

ghost use Rattle.std.specs.Prelude.{◌≡◌, ◌+◌, ◌*◌, ◌≤◌, ◌<◌, length};
ghost use Rattle.gateway.specs.Limits.{owner_slots, most_orders};
ghost use Rattle.gateway.specs.Bytes.{encode};
ghost use Rattle.gateway.specs.Calls as Calls;
ghost use Rattle.gateway.specs.Calls.{call};
ghost use Rattle.store.specs.Cells as C;
ghost use Rattle.store.specs.Layout.{cell, Holds};
ghost use Rattle.store.specs.View.{word, gateway};
ghost use Rattle.sound.specs.Sound.{State};
ghost use Rattle.outcome.specs.Between.{Between};
ghost use Rattle.checkpoint.specs.Put as P;
ghost use Rattle.checkpoint.specs.Written.{Writes};

use outcome::Refusal;
use store::{cells, limits};

// Whether no command waits and every event was delivered.
fn is_quiet(m: &[u8]) -> bool
    requires { State m.now }
    ensures { result ≡ P.quiet (gateway (cell m.now)) }
{
    if pending::header::word_at(m, cells::WAITING) != 0 {
        return false;
    }
    let delivered = pending::header::word_at(m, cells::DELIVERED);
    delivered == pending::header::word_at(m, cells::LAST)
}

// ---- counting

// 1 for an account with a wallet.
fn wallets_at(m: &[u8], a: usize) -> usize
    requires { Holds m.now × (a < owner_slots) }
    ensures { (20 * result ≡ length (P.slot_bytes (cell m.now) a)) × (result ≤ 1) }
{
    if clients::is_funded(m, a) {
        return 1;
    }
    0
}

fn wallets(m: &[u8]) -> usize
    requires { State m.now }
    ensures { (result ≡ length (P.saved_in m.now).wallets) × (result ≤ owner_slots) }
{
    let mut n: usize = 0;
    for a in 0..limits::OWNER_SLOTS {
        n += wallets_at(m, a);
    }
    n
}

fn orders(m: &[u8]) -> usize
    requires { State m.now }
    ensures { (result ≡ length (P.saved_in m.now).orders) × (result ≤ most_orders) }
{
    pending::header::word_at(m, cells::LIVE_ORDERS) as usize
}

// ---- writing

fn put_head(m: &[u8], out: &mut [u8])
    requires { State m.now × (17 ≤ length out.old) }
    ensures { out.new ≡ P.put_bytes 0 (P.head_bytes (P.saved_in m.now).last (P.saved_in m.now).mark) out.old }
{
    let last = pending::header::word_at(m, cells::LAST);
    let marked = pending::header::word_at(m, cells::MARKED);
    let mark = pending::header::word_at(m, cells::MARK);
    fields::put_head(out, last, marked, mark);
}

// The wallet of account a, if it has one, from o on; the place behind it.
fn put_slot(m: &[u8], out: &mut [u8], o: usize, a: usize) -> usize
    requires { Holds m.now × (a < owner_slots) × (o + length (P.slot_bytes (cell m.now) a) ≤ length out.old) }
    ensures { P.Puts o (P.slot_bytes (cell m.now) a) result out.old out.new }
{
    if clients::is_funded(m, a) {
        let cash = store::get(m, store::ACCOUNTS, a, cells::ACCOUNT_CASH);
        let position = store::get(m, store::ACCOUNTS, a, cells::ACCOUNT_POSITION);
        fields::put_wallet(out, o, a as u32, cash, position);
        return o + 20;
    }
    o
}

fn put_wallets(m: &[u8], out: &mut [u8], o: usize) -> usize
    requires { State m.now × (o + length (P.wallets_bytes (P.saved_in m.now)) ≤ length out.old) }
    ensures { P.Puts o (P.wallets_bytes (P.saved_in m.now)) result out.old out.new }
{
    let mut n = o;
    for a in 0..limits::OWNER_SLOTS {
        n = put_slot(m, out, n, a);
    }
    n
}

// The order of the row j, if it is live, from o on; the place behind it.
fn put_live(m: &[u8], out: &mut [u8], o: usize, j: usize) -> usize
    requires { State m.now × (j < word (cell m.now) C.order_rows) × (o + length (P.live_bytes (cell m.now) j) ≤ length out.old) }
    ensures { P.Puts o (P.live_bytes (cell m.now) j) result out.old out.new }
{
    if store::get(m, store::ORDERS, j, cells::ORDER_LIVE) == 0 {
        return o;
    }
    let order = orders::live_at(m, j);
    let number = store::get(m, store::ORDERS, j, cells::ORDER_NUMBER);
    fields::put_order(out, o, number, order);
    o + 37
}

fn put_orders(m: &[u8], out: &mut [u8], o: usize) -> usize
    requires { State m.now × (o + length (P.orders_bytes (P.saved_in m.now)) ≤ length out.old) }
    ensures { P.Puts o (P.orders_bytes (P.saved_in m.now)) result out.old out.new }
{
    let size = pending::header::word_at(m, cells::ORDER_ROWS) as usize;
    let mut n = o;
    for j in 0..size {
        n = put_live(m, out, n, j);
    }
    n
}

// The two tables, each behind its count.
fn put_wallet_section(m: &[u8], w: usize, out: &mut [u8]) -> usize
    requires { State m.now × (w ≡ length (P.saved_in m.now).wallets) × (w ≤ owner_slots) × (21 + 20 * w ≤ length out.old) }
    ensures { P.Puts 17 (P.wallet_section (P.saved_in m.now)) result out.old out.new }
{
    le::put_u32(out, 17, w as u32);
    put_wallets(m, out, 21)
}

fn put_order_section(m: &[u8], n: usize, out: &mut [u8], o: usize) -> usize
    requires { State m.now × (n ≡ length (P.saved_in m.now).orders) × (n ≤ most_orders) × (o + 4 + 37 * n ≤ length out.old) }
    ensures { P.Puts o (P.order_section (P.saved_in m.now)) result out.old out.new }
{
    let at = o + 4;
    le::put_u32(out, o, n as u32);
    put_orders(m, out, at)
}

fn put(m: &[u8], w: usize, n: usize, out: &mut [u8])
    requires { State m.now × (w ≡ length (P.saved_in m.now).wallets) × (n ≡ length (P.saved_in m.now).orders) × (w ≤ owner_slots) × (n ≤ most_orders) × (25 + 20 * w + 37 * n ≤ length out.old) }
    ensures { out.new ≡ P.put_bytes 0 (encode (P.saved_in m.now)) out.old }
{
    put_head(m, out);
    let o = put_wallet_section(m, w, out);
    put_order_section(m, n, out, o);
}

// ---- the call

// The bytes of a checkpoint, at the front of `out`.
pub fn checkpoint(m: &[u8], out: &mut [u8]) -> Result<usize, Refusal>
    requires { Between m.now }
    ensures { Writes (call (gateway (cell m.now)) (Calls.checkpoint (length out.old))) result m.now m.now out.old out.new }
{
    if !is_quiet(m) {
        return Err(Refusal::NotQuiet);
    }
    let w = wallets(m);
    let n = orders(m);
    let size = 25 + 20 * w + 37 * n;
    if out.len() < size {
        return Err(Refusal::TooShort);
    }
    put(m, w, n, out);
    Ok(size)
}
