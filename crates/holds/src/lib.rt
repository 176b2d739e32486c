// What an event does to a live order that it names: judged on the state as it is, then applied (`deliver` of exchange.rs).
#![tactic(auto)]

ghost use Rattle.std.specs.Prelude.{◌≡◌, cond, ◌+◌, ◌≤◌, ◌<◌, length, leb};
ghost use Rattle.gateway.specs.Limits.{owner_slots, most_notices};
ghost use Rattle.gateway.specs.Ledger.{number_of, change};
ghost use Rattle.gateway.specs.Deliver.{change_notices};
ghost use Rattle.store.specs.Cells as C;
ghost use Rattle.store.specs.Layout.{cell};
ghost use Rattle.store.specs.View.{word, order, ledger, gateway};
ghost use Rattle.orders.specs.Orders.{Sees, number_at};
ghost use Rattle.sound.specs.Sound.{State, InPlace};
ghost use Rattle.live.specs.Live.{At, with_ledger};
ghost use Rattle.outcome.specs.Between.{Between};
ghost use Rattle.holds.specs.declared.Move.{Move};
ghost use Rattle.holds.specs.declared.Move.TheVariants.{Fill, Leaves, Reprice, Retire};
ghost use Rattle.holds.specs.Holds as P;

use orders::Live;
use store::{cells, limits};

// What happens to the order. Prices are words, in two's complement.
#[derive(Clone, Copy)]
pub enum Move {
    Fill { price: u64, qty: u64, leaves: u64 },
    Leaves { leaves: u64 },
    Reprice { price: u64, leaves: u64 },
    Retire,
}

// Of a live order: what it holds before and after, and, where its account has a wallet, how many notices there are. Of no live order all is 0.
#[derive(Clone, Copy)]
pub struct Shift {
    pub account: u64,
    pub side: u64,
    pub old: u64,
    pub new: u64,
    pub notices: u64,
    pub funded: bool,
}

// What the order `id`, which is at `at`, holds with this much open: where `repriced`, at this price, else at its own. Of no live order 0.
pub fn left(m: &[u8], id: u64, at: Option<usize>, repriced: bool, price: u64, leaves: u64) -> u64
    requires { State m.now × Sees C.order_live order number_of (cell m.now) id at }
    ensures { P.NewHold id (P.leaving repriced price leaves) result (ledger (cell m.now)) }
{
    if let Some(i) = at {
        let o = orders::live_at(m, i);
        let flag = live::choose(repriced, 1, o.priced);
        let p = live::choose(repriced, price, o.price);
        return live::hold_of(live::fee_of(m), o.side, flag, p, leaves);
    }
    0
}

// After x: a fill leaves the order its own price.
fn after(m: &[u8], id: u64, at: Option<usize>, x: Move) -> u64
    requires { State m.now × Sees C.order_live order number_of (cell m.now) id at }
    ensures { P.NewHold id x result (ledger (cell m.now)) }
{
    match x {
        Move::Fill { leaves, .. } => left(m, id, at, false, 0, leaves),
        Move::Leaves { leaves } => left(m, id, at, false, 0, leaves),
        Move::Reprice { price, leaves } => left(m, id, at, true, price, leaves),
        Move::Retire => 0,
    }
}

// Whether money moves, as 0 or 1.
fn settles(x: Move) -> u64
    ensures { result ≡ P.settles x }
{
    match x {
        Move::Fill { .. } => 1,
        Move::Leaves { .. } => 0,
        Move::Reprice { .. } => 0,
        Move::Retire => 0,
    }
}

// A wallet's notices: one where money moves, one where what is held changes.
fn count_notices(funded: bool, settles: u64, old: u64, new: u64) -> u64
    requires { settles ≤ 1 }
    ensures { result ≡ cond funded (P.notice_count settles old new) 0 }
{
    let notices = if old == new { settles } else { settles + 1 };
    if funded { notices } else { 0 }
}

fn nothing() -> Shift
    ensures { result ≡ P.nothing }
{
    Shift {
        account: 0,
        side: 0,
        old: 0,
        new: 0,
        notices: 0,
        funded: false,
    }
}

fn shift_of(m: &[u8], o: Live, settles: u64, new: u64) -> Shift
    requires { State m.now × (o.account < owner_slots) × (settles ≤ 1) }
    ensures { result ≡ P.shift_of settles new o (cell m.now) }
{
    let funded = clients::is_funded(m, o.account as usize);
    let notices = count_notices(funded, settles, o.hold, new);
    Shift {
        account: o.account,
        side: o.side,
        old: o.hold,
        new,
        notices,
        funded,
    }
}

// What a change would do to the order `id`, which is at `at`: it holds `new` then, and money moves where `settles` is 1.
pub fn weigh(m: &[u8], id: u64, at: Option<usize>, settles: u64, new: u64) -> Shift
    requires { State m.now × Sees C.order_live order number_of (cell m.now) id at × (settles ≤ 1) }
    ensures { (x : Move) → P.settles x ≡ settles → P.NewHold id x new (ledger (cell m.now)) → P.Weighs id x result (gateway (cell m.now)) }
{
    if let Some(i) = at {
        let o = orders::live_at(m, i);
        return shift_of(m, o, settles, new);
    }
    nothing()
}

// Code 7: the total that the order is a part of. It is computed without a wallet too, where it does not count: a jump on that cannot be foreseen.
pub fn fits(m: &[u8], s: Shift) -> bool
    requires { Between m.now × P.Owned s (ledger (cell m.now)) }
    ensures { result ≡ P.shift_fits s (ledger (cell m.now)) }
{
    let side = store::side_of(s.side);
    let ok = live::total_fits(m, s.account as usize, side, s.old, s.new);
    !s.funded | ok
}

// Both are parts of one total. No jump here either.
fn is_one(s: Shift, t: Shift) -> bool
    ensures { result ≡ P.is_one s t }
{
    let same_side = pending::changed::same_side(s.side, t.side);
    s.funded & t.funded & (s.account == t.account) & same_side
}

// Code 7 for two orders: one total that both are parts of is judged once, whatever either change alone gives.
pub fn pair_fits(m: &[u8], s: Shift, t: Shift) -> bool
    requires { Between m.now × P.Owned s (ledger (cell m.now)) × P.Owned t (ledger (cell m.now)) }
    ensures { result ≡ P.pair_fits s t (ledger (cell m.now)) }
{
    if is_one(s, t) {
        let side = store::side_of(s.side);
        return live::two_fit(m, s.account as usize, side, s.old, s.new, t.old, t.new);
    }
    let first = fits(m, s);
    let second = fits(m, t);
    first && second
}

// Numbers below 2^61: whatever is added of five of them fits.
const SMALL: u64 = 2_305_843_009_213_693_952;

fn is_small(m: &[u8], s: Shift) -> bool
    requires { State m.now × (s.account < owner_slots) }
    ensures { result ≡ P.is_small s (cell m.now) }
{
    let held = live::held_at(m, s.account as usize, store::side_of(s.side));
    (held < SMALL) & (s.old < SMALL) & (s.new < SMALL)
}

// As `pair_fits`, for numbers that are small as a rule. The shifts are copied where they are not, so that only then they stand in memory.
pub fn both_fit(m: &[u8], s: Shift, t: Shift) -> bool
    requires { Between m.now × P.Owned s (ledger (cell m.now)) × P.Owned t (ledger (cell m.now)) }
    ensures { result ≡ P.pair_fits s t (ledger (cell m.now)) }
{
    if is_small(m, s) & is_small(m, t) {
        return true;
    }
    let a = s;
    let b = t;
    pair_fits(m, a, b)
}

// Code 5: there is room for this many notices.
pub fn few(m: &[u8], notices: u64) -> bool
    requires { State m.now × (notices ≤ 4) }
    ensures { result ≡ leb (notices + word (cell m.now) C.notice_rows) most_notices }
{
    let n = pending::header::word_at(m, cells::NOTICE_ROWS);
    notices + n <= limits::MOST_NOTICES
}

// ---- applied

// The order `id`, which is at `at`, traded `qty` at `price` and has `leaves` open: it holds `new` then. The change and its notices.
pub fn fill(m: &mut [u8], id: u64, at: Option<usize>, new: u64, price: u64, qty: u64, leaves: u64)
    requires { State m.old × Sees C.order_live order number_of (cell m.old) id at × P.NewHold id (Fill price qty leaves) new (ledger (cell m.old)) × (length (change_notices (P.change_of id (Fill price qty leaves)) (ledger (cell m.old))) + word (cell m.old) C.notice_rows ≤ most_notices) }
    ensures { InPlace m.old m.new (P.moved (P.change_of id (Fill price qty leaves)) (gateway (cell m.old))) }
{
    if let Some(i) = at {
        let o = orders::live_at(m, i);
        live::traded(m, i, price, qty, leaves, new);
        live::notice(m, o.account);
        live::notice_hold(m, o.account, o.hold, new);
    }
}

// It has `leaves` open.
pub fn set_leaves(m: &mut [u8], id: u64, at: Option<usize>, new: u64, leaves: u64)
    requires { State m.old × Sees C.order_live order number_of (cell m.old) id at × P.NewHold id (Leaves leaves) new (ledger (cell m.old)) × (length (change_notices (P.change_of id (Leaves leaves)) (ledger (cell m.old))) + word (cell m.old) C.notice_rows ≤ most_notices) }
    ensures { InPlace m.old m.new (P.moved (P.change_of id (Leaves leaves)) (gateway (cell m.old))) }
{
    if let Some(i) = at {
        let o = orders::live_at(m, i);
        live::set_leaves(m, i, leaves, new);
        live::notice_hold(m, o.account, o.hold, new);
    }
}

// A modify gave it this price, and `leaves` open.
pub fn reprice(m: &mut [u8], id: u64, at: Option<usize>, new: u64, price: u64, leaves: u64)
    requires { State m.old × Sees C.order_live order number_of (cell m.old) id at × P.NewHold id (Reprice price leaves) new (ledger (cell m.old)) × (length (change_notices (P.change_of id (Reprice price leaves)) (ledger (cell m.old))) + word (cell m.old) C.notice_rows ≤ most_notices) }
    ensures { InPlace m.old m.new (P.moved (P.change_of id (Reprice price leaves)) (gateway (cell m.old))) }
{
    if let Some(i) = at {
        let o = orders::live_at(m, i);
        live::reprice(m, i, price, leaves, new);
        live::notice_hold(m, o.account, o.hold, new);
    }
}

// It has left the book.
pub fn retire(m: &mut [u8], id: u64, at: Option<usize>)
    requires { State m.old × Sees C.order_live order number_of (cell m.old) id at × (length (change_notices (P.change_of id Retire) (ledger (cell m.old))) + word (cell m.old) C.notice_rows ≤ most_notices) }
    ensures { InPlace m.old m.new (P.moved (P.change_of id Retire) (gateway (cell m.old))) }
{
    if let Some(i) = at {
        let o = orders::live_at(m, i);
        live::retire(m, i);
        live::notice_hold(m, o.account, o.hold, 0);
    }
}

// ---- replayed

// What x would do to it.
pub fn weigh_move(m: &[u8], id: u64, at: Option<usize>, x: Move) -> Shift
    requires { State m.now × Sees C.order_live order number_of (cell m.now) id at }
    ensures { P.Weighs id x result (gateway (cell m.now)) }
{
    let new = after(m, id, at, x);
    weigh(m, id, at, settles(x), new)
}

fn change_row(m: &mut [u8], i: usize, x: Move, new: u64)
    requires { State m.old × At i (cell m.old) × (new ≡ P.hold_after_word (word (cell m.old) C.fee) x (cell m.old C.orders i)) }
    ensures { InPlace m.old m.new (with_ledger (change (P.change_of (number_at i (cell m.old)) x)) (gateway (cell m.old))) }
{
    match x {
        Move::Fill { price, qty, leaves } => live::traded(m, i, price, qty, leaves, new),
        Move::Leaves { leaves } => live::set_leaves(m, i, leaves, new),
        Move::Reprice { price, leaves } => live::reprice(m, i, price, leaves, new),
        Move::Retire => live::retire(m, i),
    }
}

// The change without its notices: a replay leaves none.
pub fn change(m: &mut [u8], id: u64, at: Option<usize>, x: Move)
    requires { State m.old × Sees C.order_live order number_of (cell m.old) id at }
    ensures { InPlace m.old m.new (with_ledger (change (P.change_of id x)) (gateway (cell m.old))) }
{
    let new = after(m, id, at, x);
    if let Some(i) = at {
        change_row(m, i, x, new);
    }
}
