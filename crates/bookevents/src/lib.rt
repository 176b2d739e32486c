// Events of one order that change the book, or what a live order holds, each judged in 01's order before a byte is written (`deliver` of exchange.rs).
#![tactic(auto)]

ghost use Rattle.std.specs.Prelude.{◌≡◌, ◌<◌, length};
ghost use Rattle.orderbook.specs.declared.Event.TheVariants.{Rested, Replenished, Cancelled, Modified};
ghost use Rattle.words.specs.Words.{int};
ghost use Rattle.gateway.specs.Depth as D;
ghost use Rattle.gateway.specs.Ledger.{number_of};
ghost use Rattle.gateway.specs.Calls.{call, deliver_event};
ghost use Rattle.store.specs.Cells as C;
ghost use Rattle.store.specs.Layout.{cell};
ghost use Rattle.store.specs.View.{order, resting, ledger, gateway};
ghost use Rattle.store.specs.View as View;
ghost use Rattle.orders.specs.Orders.{Sees, resting_of};
ghost use Rattle.sound.specs.Sound.{State, Becomes};
ghost use Rattle.mailbox.specs.Mailbox.{places};
ghost use Rattle.marketdata.specs.Marketdata.{Placed};
ghost use Rattle.outcome.specs.Between.{Between};
ghost use Rattle.outcome.specs.Refusals.{code_of};
ghost use Rattle.outcome.specs.Answers.{verdict, Gives};
ghost use Rattle.delivery.specs.Delivery as Delivery;
ghost use Rattle.holds.specs.declared.Move.TheVariants.{Retire, Leaves, Reprice};
ghost use Rattle.holds.specs.Holds as Holds;
ghost use Rattle.bookevents.specs.BookEvents as P;

use delivery::Tests;
use holds::Shift;
use orderbook::{CancelReason, Side};
use orders::Resting;
use outcome::Refusal;
use protocol::ReportKind;
use reporting::Told;

// ---- a live order changes, and its level where it rests

// The hold and the notices are tested before: so this is short enough to stand where it is called.
fn judge_changed(
    m: &[u8],
    n: u64,
    id: u64,
    at: Option<usize>,
    fits: bool,
    few: bool,
    rows: usize,
    room: usize,
) -> Result<(), Refusal>
    requires { Between m.now × Sees C.order_resting resting D.resting_number (cell m.now) id at }
    ensures { code_of result ≡ verdict (Delivery.tests (P.changed_tests n id fits few rows room (gateway (cell m.now)))) }
{
    let flying = delivery::is_flying(m, n);
    let depth = shows::has_room(m, id, at);
    delivery::judge(Tests {
        flying,
        below: true,
        numbers: id <= n,
        agrees: true,
        holds: fits,
        levels: true,
        depth,
        trades: true,
        notices: few,
        room: rows <= room,
    })
}

fn apply_cancelled(m: &mut [u8], n: u64, id: u64, live: Option<usize>, resting: Option<usize>)
    requires { State m.old × Sees C.order_live order number_of (cell m.old) id live × Sees C.order_resting View.resting D.resting_number (cell m.old) id resting × P.CanChange n id Retire D.take_off (gateway (cell m.old)) }
    ensures { Becomes m.new (P.in_book n id Retire D.take_off (gateway (cell m.old))) }
{
    holds::retire(m, id, live);
    marketdata::on_cancelled(m, id, resting);
    delivery::land(m, n);
}

// Open quantity left the book without trading.
pub fn cancelled(
    m: &mut [u8],
    n: u64,
    id: u64,
    qty: u64,
    reason: CancelReason,
    out: &mut [u8],
) -> Result<usize, Refusal>
    requires { Between m.old }
    ensures { Gives (call (gateway (cell m.old)) (deliver_event n (Cancelled id qty reason) (places (length out.old)))) result m.old m.new out.old out.new }
{
    let at = orders::look(m, id);
    let live = at.live;
    let resting = at.resting;
    let h = holds::weigh(m, id, live, 0, 0);
    let t = reporting::owner(m, id, live);
    let k = reporting::rows(t);
    let fits = holds::fits(m, h);
    let few = holds::few(m, h.notices);
    judge_changed(m, n, id, resting, fits, few, k, mailbox::room(out))?;
    apply_cancelled(m, n, id, live, resting);
    reporting::report(m, out, 0, n, id, t, ReportKind::Cancelled { qty, reason });
    Ok(k)
}

// The price's word. That price and quantity fit comes of their types.
pub fn price_of(price: i64, leaves: u64) -> u64
    ensures { P.Repriced price leaves result }
{
    words::of_i64(price)
}

fn apply_modified(
    m: &mut [u8],
    n: u64,
    id: u64,
    live: Option<usize>,
    resting: Option<usize>,
    price: u64,
    leaves: u64,
    new: u64,
)
    requires { State m.old × Sees C.order_live order number_of (cell m.old) id live × Sees C.order_resting View.resting D.resting_number (cell m.old) id resting × Holds.NewHold id (Reprice price leaves) new (ledger (cell m.old)) × P.CanChange n id (Reprice price leaves) (D.modified (int price) leaves) (gateway (cell m.old)) }
    ensures { Becomes m.new (P.in_book n id (Reprice price leaves) (D.modified (int price) leaves) (gateway (cell m.old))) }
{
    holds::reprice(m, id, live, new, price, leaves);
    marketdata::on_modified(m, id, resting, price, leaves);
    delivery::land(m, n);
}

// A modify left the order this price and this much open.
pub fn modified(
    m: &mut [u8],
    n: u64,
    id: u64,
    price: i64,
    qty: u64,
    leaves: u64,
    out: &mut [u8],
) -> Result<usize, Refusal>
    requires { Between m.old }
    ensures { Gives (call (gateway (cell m.old)) (deliver_event n (Modified id price qty leaves) (places (length out.old)))) result m.old m.new out.old out.new }
{
    let p = price_of(price, leaves);
    let at = orders::look(m, id);
    let live = at.live;
    let resting = at.resting;
    let new = holds::left(m, id, live, true, p, leaves);
    let h = holds::weigh(m, id, live, 0, new);
    let t = reporting::owner(m, id, live);
    let k = reporting::rows(t);
    let fits = holds::fits(m, h);
    let few = holds::few(m, h.notices);
    judge_changed(m, n, id, resting, fits, few, k, mailbox::room(out))?;
    apply_modified(m, n, id, live, resting, p, leaves, h.new);
    reporting::report(
        m,
        out,
        0,
        n,
        id,
        t,
        ReportKind::Modified { price, qty, leaves },
    );
    Ok(k)
}

// ---- an iceberg shows its next part

fn judge_replenished(
    m: &[u8],
    n: u64,
    id: u64,
    at: Option<usize>,
    visible: u64,
    t: Told,
    room: usize,
) -> Result<(), Refusal>
    requires { Between m.now × Sees C.order_resting resting D.resting_number (cell m.now) id at }
    ensures { code_of result ≡ verdict (Delivery.tests (P.replenished_tests n id visible t room (gateway (cell m.now)))) }
{
    let flying = delivery::is_flying(m, n);
    let fits = shows::reshow_fits(m, id, at, visible);
    let depth = shows::has_room(m, id, at);
    let rows = reporting::rows(t);
    delivery::judge(Tests {
        flying,
        below: true,
        numbers: id <= n,
        agrees: true,
        holds: true,
        levels: fits,
        depth,
        trades: true,
        notices: true,
        room: rows <= room,
    })
}

fn apply_replenished(m: &mut [u8], n: u64, id: u64, resting: Option<usize>, visible: u64)
    requires { State m.old × Sees C.order_resting View.resting D.resting_number (cell m.old) id resting × P.CanReshow n id visible (gateway (cell m.old)) }
    ensures { Becomes m.new (P.reshown n id visible (gateway (cell m.old))) }
{
    marketdata::on_replenished(m, id, resting, visible);
    delivery::land(m, n);
}

pub fn replenished(
    m: &mut [u8],
    n: u64,
    id: u64,
    side: Side,
    price: i64,
    visible: u64,
    out: &mut [u8],
) -> Result<usize, Refusal>
    requires { Between m.old }
    ensures { Gives (call (gateway (cell m.old)) (deliver_event n (Replenished id side price visible) (places (length out.old)))) result m.old m.new out.old out.new }
{
    let at = orders::look(m, id);
    let live = at.live;
    let resting = at.resting;
    let t = reporting::owner(m, id, live);
    judge_replenished(m, n, id, resting, visible, t, mailbox::room(out))?;
    let k = reporting::rows(t);
    apply_replenished(m, n, id, resting, visible);
    reporting::report(
        m,
        out,
        0,
        n,
        id,
        t,
        ReportKind::Replenished {
            side,
            price,
            visible,
        },
    );
    Ok(k)
}

// ---- an order comes to rest

fn row_of(side: Side, price: i64, qty: u64, visible: u64) -> Resting
    ensures { P.Stands side price qty visible result }
{
    let s = side as u64;
    let p = words::of_i64(price);
    Resting {
        side: s,
        price: p,
        visible,
        leaves: qty,
    }
}

fn judge_rested(
    m: &[u8],
    n: u64,
    id: u64,
    at: Option<usize>,
    o: Resting,
    place: usize,
    h: Shift,
    t: Told,
    room: usize,
) -> Result<(), Refusal>
    requires { Between m.now × Sees C.order_resting resting D.resting_number (cell m.now) id at × Placed (View.side o.side) (int o.price) m.now place × Holds.Weighed h (ledger (cell m.now)) }
    ensures { code_of result ≡ verdict (Delivery.tests (P.rested_tests n (resting_of id o) h t room (gateway (cell m.now)))) }
{
    let flying = delivery::is_flying(m, n);
    let absent = shows::is_absent(m, id, at);
    let fits = holds::fits(m, h);
    let levels = shows::join_fits(m, id, o, place);
    let depth = shows::join_room(m, id, o);
    let few = holds::few(m, h.notices);
    let rows = reporting::rows(t);
    delivery::judge(Tests {
        flying,
        below: true,
        numbers: id <= n,
        agrees: absent,
        holds: fits,
        levels,
        depth,
        trades: true,
        notices: few,
        room: rows <= room,
    })
}

fn apply_rested(
    m: &mut [u8],
    n: u64,
    id: u64,
    live: Option<usize>,
    o: Resting,
    place: usize,
    new: u64,
)
    requires { State m.old × Sees C.order_live order number_of (cell m.old) id live × Holds.NewHold id (Leaves o.leaves) new (ledger (cell m.old)) × P.CanJoin n (Leaves o.leaves) (resting_of id o) (gateway (cell m.old)) }
    ensures { Becomes m.new (P.joined n (Leaves o.leaves) (resting_of id o) (gateway (cell m.old))) }
{
    holds::set_leaves(m, id, live, new, o.leaves);
    marketdata::add(m, id, o, live, place);
    delivery::land(m, n);
}

// What is left of the order rests in the book.
pub fn rested(
    m: &mut [u8],
    n: u64,
    id: u64,
    side: Side,
    price: i64,
    qty: u64,
    visible: u64,
    out: &mut [u8],
) -> Result<usize, Refusal>
    requires { Between m.old }
    ensures { Gives (call (gateway (cell m.old)) (deliver_event n (Rested id side price qty visible) (places (length out.old)))) result m.old m.new out.old out.new }
{
    let o = row_of(side, price, qty, visible);
    let at = orders::look(m, id);
    let live = at.live;
    let resting = at.resting;
    let place = marketdata::place_of(m, o.side, o.price);
    let new = holds::left(m, id, live, false, 0, qty);
    let h = holds::weigh(m, id, live, 0, new);
    let t = reporting::owner(m, id, live);
    judge_rested(m, n, id, resting, o, place, h, t, mailbox::room(out))?;
    let k = reporting::rows(t);
    apply_rested(m, n, id, live, o, place, h.new);
    reporting::report(
        m,
        out,
        0,
        n,
        id,
        t,
        ReportKind::Rested {
            side,
            price,
            qty,
            visible,
        },
    );
    Ok(k)
}
