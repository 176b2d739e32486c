// Events that name no order, and the call: `deliver` of exchange.rs.
#![tactic(auto)]

ghost use Rattle.std.specs.Prelude.{◌≡◌, ◌+◌, ◌≤◌, ◌<◌, length};
ghost use Rattle.orderbook.specs.declared.Event.TheVariants.{MassCancelled, PhaseChanged};
ghost use Rattle.gateway.specs.Limits.{session_slots};
ghost use Rattle.gateway.specs.Calls.{call, deliver_event};
ghost use Rattle.store.specs.Layout.{cell};
ghost use Rattle.store.specs.View.{gateway};
ghost use Rattle.sound.specs.Sound.{State};
ghost use Rattle.mailbox.specs.Mailbox.{places};
ghost use Rattle.outcome.specs.Between.{Between};
ghost use Rattle.outcome.specs.Refusals.{code_of};
ghost use Rattle.outcome.specs.Answers.{verdict, Gives};
ghost use Rattle.outcome.specs.Parts.{Sends, Stepped};
ghost use Rattle.delivery.specs.Delivery as Delivery;
ghost use Rattle.script.specs.Script as Script;
ghost use Rattle.script.specs.Script.{event_of};
ghost use Rattle.deliver.specs.Delivering as P;

use delivery::Tests;
use orderbook::Phase;
use outcome::Refusal;
use protocol::{Outbound, Report, ReportKind};
use reporting::Told;
use store::limits;

fn judge(m: &[u8], n: u64, below: bool, rows: usize, room: usize) -> Result<(), Refusal>
    requires { State m.now }
    ensures { code_of result ≡ verdict (Delivery.tests (P.bare_tests n below rows room (gateway (cell m.now)))) }
{
    let flying = delivery::is_flying(m, n);
    delivery::judge(Tests {
        flying,
        below,
        numbers: true,
        agrees: true,
        holds: true,
        levels: true,
        depth: true,
        trades: true,
        notices: true,
        room: rows <= room,
    })
}

// ---- a mass cancel

// The open session of an account of any number.
fn listener(m: &[u8], owner: usize) -> Told
    requires { State m.now }
    ensures { P.TellsAccount owner result (gateway (cell m.now)) }
{
    if owner < limits::OWNER_SLOTS {
        let to = reporting::listener(m, owner);
        return Told { to, client_ref: 0 };
    }
    Told {
        to: None,
        client_ref: 0,
    }
}

fn mass_cancelled(
    m: &mut [u8],
    n: u64,
    owner: u32,
    count: u32,
    out: &mut [u8],
) -> Result<usize, Refusal>
    requires { Between m.old }
    ensures { Gives (call (gateway (cell m.old)) (deliver_event n (MassCancelled owner count) (places (length out.old)))) result m.old m.new out.old out.new }
{
    let below = delivery::is_owner(m, owner as u64);
    let t = listener(m, owner as usize);
    let k = reporting::rows(t);
    judge(m, n, below, k, mailbox::room(out))?;
    delivery::land(m, n);
    reporting::report(m, out, 0, n, 0, t, ReportKind::MassCancelled { count });
    Ok(k)
}

// ---- a phase change, to each open session

fn rows(m: &[u8], s: usize, n: u64, phase: Phase) -> usize
    requires { State m.now }
    ensures { (result ≡ length (P.phase_step n phase (gateway (cell m.now)) s)) × (result ≤ 1) }
{
    if clients::is_open(m, s) {
        return 1;
    }
    0
}

fn count(m: &[u8], n: u64, phase: Phase) -> usize
    requires { State m.now }
    ensures { result ≡ length (P.phase_mail n phase (gateway (cell m.now))) }
{
    let mut k: usize = 0;
    for s in 0..limits::SESSION_SLOTS {
        k += rows(m, s, n, phase);
    }
    k
}

// One session's turn; the place behind its mail.
fn visit(m: &mut [u8], out: &mut [u8], i: usize, s: usize, n: u64, phase: Phase) -> usize
    requires { State m.old × (s < session_slots) × (i + length (P.phase_step n phase (gateway (cell m.old)) s) ≤ places (length out.old)) }
    ensures { Stepped (P.phase_step n phase) i s result m.old m.new out.old out.new }
{
    if clients::is_open(m, s) {
        let r = Report {
            seq: n,
            order_id: 0,
            client_ref: 0,
            kind: ReportKind::PhaseChanged(phase),
        };
        outcome::send(m, out, i, s, Outbound::Report(r));
        return i + 1;
    }
    i
}

fn tell_all(m: &mut [u8], out: &mut [u8], n: u64, phase: Phase) -> usize
    requires { State m.old × (0 + length (P.phase_mail n phase (gateway (cell m.old))) ≤ places (length out.old)) }
    ensures { Stepped (λ g j. P.phase_mail n phase g) 0 0 result m.old m.new out.old out.new }
{
    let mut i: usize = 0;
    for s in 0..limits::SESSION_SLOTS {
        i = visit(m, out, i, s, n, phase);
    }
    i
}

fn phase_changed(m: &mut [u8], n: u64, phase: Phase, out: &mut [u8]) -> Result<usize, Refusal>
    requires { Between m.old }
    ensures { Gives (call (gateway (cell m.old)) (deliver_event n (PhaseChanged phase) (places (length out.old)))) result m.old m.new out.old out.new }
{
    let k = count(m, n, phase);
    judge(m, n, true, k, mailbox::room(out))?;
    delivery::land(m, n);
    tell_all(m, out, n, phase);
    Ok(k)
}

// ---- the call: an event's row is read by its kind, and no `Event` is made of it

fn trade(m: &mut [u8], n: u64, row: &[u8], out: &mut [u8]) -> Result<usize, Refusal>
    requires { Between m.old × (length row.now ≡ 128) }
    ensures { Gives (call (gateway (cell m.old)) (deliver_event n (Script.traded row.now) (places (length out.old)))) result m.old m.new out.old out.new }
{
    let side = script::side(row, 4);
    let price = script::price(row, 5);
    trades::trade(
        m,
        n,
        script::word(row, 1),
        script::word(row, 2),
        script::word(row, 3),
        side,
        price,
        script::word(row, 6),
        script::word(row, 7),
        script::word(row, 8),
        out,
    )
}

fn rested(m: &mut [u8], n: u64, row: &[u8], out: &mut [u8]) -> Result<usize, Refusal>
    requires { Between m.old × (length row.now ≡ 128) }
    ensures { Gives (call (gateway (cell m.old)) (deliver_event n (Script.rested row.now) (places (length out.old)))) result m.old m.new out.old out.new }
{
    let id = script::word(row, 1);
    let side = script::side(row, 2);
    let price = script::price(row, 3);
    bookevents::rested(
        m,
        n,
        id,
        side,
        price,
        script::word(row, 4),
        script::word(row, 5),
        out,
    )
}

fn replenished(m: &mut [u8], n: u64, row: &[u8], out: &mut [u8]) -> Result<usize, Refusal>
    requires { Between m.old × (length row.now ≡ 128) }
    ensures { Gives (call (gateway (cell m.old)) (deliver_event n (Script.replenished row.now) (places (length out.old)))) result m.old m.new out.old out.new }
{
    let id = script::word(row, 1);
    let side = script::side(row, 2);
    let price = script::price(row, 3);
    bookevents::replenished(m, n, id, side, price, script::word(row, 4), out)
}

fn cancelled(m: &mut [u8], n: u64, row: &[u8], out: &mut [u8]) -> Result<usize, Refusal>
    requires { Between m.old × (length row.now ≡ 128) }
    ensures { Gives (call (gateway (cell m.old)) (deliver_event n (Script.cancelled row.now) (places (length out.old)))) result m.old m.new out.old out.new }
{
    let id = script::word(row, 1);
    let qty = script::word(row, 2);
    let reason = script::cancel_reason(row);
    bookevents::cancelled(m, n, id, qty, reason, out)
}

fn modified(m: &mut [u8], n: u64, row: &[u8], out: &mut [u8]) -> Result<usize, Refusal>
    requires { Between m.old × (length row.now ≡ 128) }
    ensures { Gives (call (gateway (cell m.old)) (deliver_event n (Script.modified row.now) (places (length out.old)))) result m.old m.new out.old out.new }
{
    let id = script::word(row, 1);
    let price = script::price(row, 2);
    let qty = script::word(row, 3);
    bookevents::modified(m, n, id, price, qty, script::word(row, 4), out)
}

fn stop_placed(m: &mut [u8], n: u64, row: &[u8], out: &mut [u8]) -> Result<usize, Refusal>
    requires { Between m.old × (length row.now ≡ 128) }
    ensures { Gives (call (gateway (cell m.old)) (deliver_event n (Script.stop_placed row.now) (places (length out.old)))) result m.old m.new out.old out.new }
{
    let id = script::word(row, 1);
    let side = script::side(row, 2);
    let trigger = script::price(row, 3);
    let limit = script::maybe_price(row, 4);
    acknowledgements::stop_placed(m, n, id, side, trigger, limit, script::word(row, 6), out)
}

pub fn deliver(m: &mut [u8], n: u64, row: &[u8], out: &mut [u8]) -> Result<usize, Refusal>
    requires { Between m.old × (length row.now ≡ 128) }
    ensures { Gives (call (gateway (cell m.old)) (deliver_event n (event_of row.now) (places (length out.old)))) result m.old m.new out.old out.new }
{
    match script::word(row, 0) {
        0 => acknowledgements::accepted(m, n, script::word(row, 1), out),
        1 => acknowledgements::rejected(
            m,
            n,
            script::word(row, 1),
            script::reject_reason(row),
            out,
        ),
        2 => trade(m, n, row, out),
        3 => rested(m, n, row, out),
        4 => replenished(m, n, row, out),
        5 => cancelled(m, n, row, out),
        6 => modified(m, n, row, out),
        7 => stop_placed(m, n, row, out),
        8 => acknowledgements::triggered(m, n, script::word(row, 1), out),
        9 => mass_cancelled(m, n, script::small(row, 1), script::small(row, 2), out),
        _ => phase_changed(m, n, script::phase(row, 1), out),
    }
}
