// What the engine answers to a command, and to a stop: events of one order that leave the book as it is, each judged in 01's order before a byte is written (`deliver` of exchange.rs).
#![tactic(auto)]

ghost use Rattle.std.specs.Prelude.{◌≡◌, not, ◌&&◌, ◌<◌, leb, length};
ghost use Rattle.orderbook.specs.declared.Event.{Event};
ghost use Rattle.orderbook.specs.declared.Event.TheVariants.{Accepted, Rejected, StopPlaced, Triggered};
ghost use Rattle.gateway.specs.Ledger.{number_of};
ghost use Rattle.gateway.specs.Calls.{call, deliver_event};
ghost use Rattle.store.specs.Cells as C;
ghost use Rattle.store.specs.Layout.{cell};
ghost use Rattle.store.specs.View.{order, ledger, gateway};
ghost use Rattle.orders.specs.Orders.{Sees};
ghost use Rattle.sound.specs.Sound.{State, Becomes};
ghost use Rattle.mailbox.specs.Mailbox.{places};
ghost use Rattle.outcome.specs.Between.{Between};
ghost use Rattle.outcome.specs.Refusals.{code_of};
ghost use Rattle.outcome.specs.Answers.{verdict, Gives};
ghost use Rattle.delivery.specs.Delivery as Delivery;
ghost use Rattle.holds.specs.declared.Move.TheVariants.{Retire};
ghost use Rattle.holds.specs.Holds as Holds;
ghost use Rattle.acknowledgements.specs.Acknowledgements as P;

use delivery::Tests;
use holds::Shift;
use orderbook::{RejectReason, Side};
use outcome::Refusal;
use protocol::ReportKind;
use reporting::Told;

// ---- nothing but the run of numbers moves

fn judge_quiet(m: &[u8], n: u64, id: u64, t: Told, room: usize) -> Result<(), Refusal>
    requires { State m.now }
    ensures { code_of result ≡ verdict (Delivery.tests (P.quiet_tests n id t room (gateway (cell m.now)))) }
{
    let flying = delivery::is_flying(m, n);
    let rows = reporting::rows(t);
    delivery::judge(Tests {
        flying,
        below: true,
        numbers: id <= n,
        agrees: true,
        holds: true,
        levels: true,
        depth: true,
        trades: true,
        notices: true,
        room: rows <= room,
    })
}

fn quiet(m: &mut [u8], n: u64, id: u64, kind: ReportKind, out: &mut [u8]) -> Result<usize, Refusal>
    requires { Between m.old }
    ensures { (e : Event) → P.Still id kind e → Gives (call (gateway (cell m.old)) (deliver_event n e (places (length out.old)))) result m.old m.new out.old out.new }
{
    let live = orders::find_live(m, id);
    let t = reporting::owner(m, id, live);
    judge_quiet(m, n, id, t, mailbox::room(out))?;
    let k = reporting::rows(t);
    delivery::land(m, n);
    reporting::report(m, out, 0, n, id, t, kind);
    Ok(k)
}

// The order was taken.
pub fn accepted(m: &mut [u8], n: u64, id: u64, out: &mut [u8]) -> Result<usize, Refusal>
    requires { Between m.old }
    ensures { Gives (call (gateway (cell m.old)) (deliver_event n (Accepted id) (places (length out.old)))) result m.old m.new out.old out.new }
{
    quiet(m, n, id, ReportKind::Accepted, out)
}

// A stop's price was reached.
pub fn triggered(m: &mut [u8], n: u64, id: u64, out: &mut [u8]) -> Result<usize, Refusal>
    requires { Between m.old }
    ensures { Gives (call (gateway (cell m.old)) (deliver_event n (Triggered id) (places (length out.old)))) result m.old m.new out.old out.new }
{
    quiet(m, n, id, ReportKind::Triggered, out)
}

// A stop waits for its price.
pub fn stop_placed(
    m: &mut [u8],
    n: u64,
    id: u64,
    side: Side,
    trigger: i64,
    limit: Option<i64>,
    qty: u64,
    out: &mut [u8],
) -> Result<usize, Refusal>
    requires { Between m.old }
    ensures { Gives (call (gateway (cell m.old)) (deliver_event n (StopPlaced id side trigger limit qty) (places (length out.old)))) result m.old m.new out.old out.new }
{
    let kind = ReportKind::StopPlaced {
        side,
        trigger,
        limit,
        qty,
    };
    quiet(m, n, id, kind, out)
}

// ---- a command is refused

fn judge_order(m: &[u8], n: u64, h: Shift, t: Told, room: usize) -> Result<(), Refusal>
    requires { Between m.now × Holds.Weighed h (ledger (cell m.now)) }
    ensures { code_of result ≡ verdict (Delivery.tests (P.order_refused n h t room (gateway (cell m.now)))) }
{
    let flying = delivery::is_flying(m, n);
    let fits = holds::fits(m, h);
    let few = holds::few(m, h.notices);
    let rows = reporting::rows(t);
    delivery::judge(Tests {
        flying,
        below: true,
        numbers: true,
        agrees: true,
        holds: fits,
        levels: true,
        depth: true,
        trades: true,
        notices: few,
        room: rows <= room,
    })
}

fn retire(m: &mut [u8], n: u64, live: Option<usize>)
    requires { State m.old × Sees C.order_live order number_of (cell m.old) n live × P.CanRetire n (gateway (cell m.old)) }
    ensures { Becomes m.new (P.retired n (gateway (cell m.old))) }
{
    holds::retire(m, n, live);
    delivery::land(m, n);
}

// A new order is refused: it ends.
fn order_refused(
    m: &mut [u8],
    n: u64,
    reason: RejectReason,
    out: &mut [u8],
) -> Result<usize, Refusal>
    requires { Between m.old }
    ensures { Gives (call (gateway (cell m.old)) (deliver_event n (Rejected n reason) (places (length out.old)))) result m.old m.new out.old out.new }
{
    let live = orders::find_live(m, n);
    let h = holds::weigh(m, n, live, 0, 0);
    let t = reporting::sender(m, n, n, live);
    judge_order(m, n, h, t, mailbox::room(out))?;
    let k = reporting::rows(t);
    retire(m, n, live);
    reporting::report(m, out, 0, n, n, t, ReportKind::Rejected(reason));
    Ok(k)
}

// A refusal that names another order is not of a new one.
pub fn names_earlier(m: &[u8], n: u64, id: u64) -> bool
    requires { State m.now }
    ensures { result ≡ (leb id n && not (P.flight_places n (cell m.now))) }
{
    if id <= n {
        let f = pending::flight_at(m, n);
        return f.places == 0;
    }
    false
}

fn judge_command(m: &[u8], n: u64, id: u64, t: Told, room: usize) -> Result<(), Refusal>
    requires { State m.now }
    ensures { code_of result ≡ verdict (Delivery.tests (P.command_refused n id t room (cell m.now))) }
{
    let flying = delivery::is_flying(m, n);
    let numbers = names_earlier(m, n, id);
    let rows = reporting::rows(t);
    delivery::judge(Tests {
        flying,
        below: true,
        numbers,
        agrees: true,
        holds: true,
        levels: true,
        depth: true,
        trades: true,
        notices: true,
        room: rows <= room,
    })
}

// Another command is refused: nothing changes.
fn command_refused(
    m: &mut [u8],
    n: u64,
    id: u64,
    reason: RejectReason,
    out: &mut [u8],
) -> Result<usize, Refusal>
    requires { Between m.old × (id ≡ n → ⊥) }
    ensures { Gives (call (gateway (cell m.old)) (deliver_event n (Rejected id reason) (places (length out.old)))) result m.old m.new out.old out.new }
{
    let live = orders::find_live(m, id);
    let t = reporting::sender(m, n, id, live);
    judge_command(m, n, id, t, mailbox::room(out))?;
    let k = reporting::rows(t);
    delivery::land(m, n);
    reporting::report(m, out, 0, n, id, t, ReportKind::Rejected(reason));
    Ok(k)
}

pub fn rejected(
    m: &mut [u8],
    n: u64,
    id: u64,
    reason: RejectReason,
    out: &mut [u8],
) -> Result<usize, Refusal>
    requires { Between m.old }
    ensures { Gives (call (gateway (cell m.old)) (deliver_event n (Rejected id reason) (places (length out.old)))) result m.old m.new out.old out.new }
{
    if id == n {
        return order_refused(m, n, reason, out);
    }
    command_refused(m, n, id, reason, out)
}
