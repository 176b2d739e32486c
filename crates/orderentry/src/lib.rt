// Order entry of a logged-in session: `enter` and `place` of exchange.rs.
// A message is judged on the state as it is (crate pretrade), and only then does anything change.
#![tactic(auto)]

ghost use Rattle.std.specs.Prelude.{◌≡◌, true, ◌+◌, ◌<◌, length};
ghost use Rattle.protocol.specs.declared.Inbound.TheVariants as In;
ghost use Rattle.gateway.specs.Limits.{owner_slots, session_slots};
ghost use Rattle.gateway.specs.Entry.{command_of, reject};
ghost use Rattle.gateway.specs.Calls.{call, receive_from};
ghost use Rattle.store.specs.Layout.{cell};
ghost use Rattle.store.specs.View.{gateway};
ghost use Rattle.sound.specs.Sound.{State, Becomes};
ghost use Rattle.mailbox.specs.Mailbox.{places};
ghost use Rattle.outcome.specs.Parts.{with_rest, rest_of, Speaks};
ghost use Rattle.outcome.specs.Answers.{Gives};
ghost use Rattle.commands.specs.Commands as Commands;
ghost use Rattle.pretrade.specs.Pretrade as Q;
ghost use Rattle.orderentry.specs.OrderEntry as P;

use orderbook::{Command, Side};
use orders::Live;
use outcome::Refusal;
use protocol::{NewOrder, OrderKind, Outbound, RejectCode};
use risk::Bucket;
use store::cells;

// ---- what every message shares

fn set_bucket(m: &mut [u8], a: usize, bucket: Bucket)
    requires { State m.old × (a < owner_slots) }
    ensures { Becomes m.new (with_rest (P.with_bucket a bucket) (gateway (cell m.old))) }
{
    clients::set_bucket(m, a, bucket);
}

// The session was heard, and the account's bucket is this.
fn begin(m: &mut [u8], s: usize, a: usize, bucket: Bucket, time: u64)
    requires { State m.old × (s < session_slots) × (a < owner_slots) }
    ensures { Becomes m.new (with_rest (P.after s a bucket time) (gateway (cell m.old))) }
{
    outcome::hear(m, s, time);
    set_bucket(m, a, bucket);
}

// The client is told why; code 6 where there is no place for that.
fn refuse(
    m: &mut [u8],
    s: usize,
    a: usize,
    bucket: Bucket,
    why: RejectCode,
    client_ref: u64,
    time: u64,
    out: &mut [u8],
) -> Result<usize, Refusal>
    requires { State m.old × (s < session_slots) × (a < owner_slots) }
    ensures { P.Does (reject s client_ref (P.after s a bucket time (rest_of m.old)) why) result m.old m.new out.old out.new }
{
    if mailbox::room(out) < 1 {
        return Err(Refusal::TooShort);
    }
    begin(m, s, a, bucket, time);
    outcome::send(
        m,
        out,
        0,
        s,
        Outbound::Reject {
            reason: why,
            client_ref,
        },
    );
    Ok(1)
}

// ---- commands that place nothing

// The command is numbered for the account, which the session is logged in for.
fn push(m: &mut [u8], s: usize, a: usize, bucket: Bucket, k: Command, time: u64)
    requires { State m.old × (s < session_slots) × (a < owner_slots) × (Commands.can_number (gateway (cell m.old)) ≡ true) × Commands.Plain a k }
    ensures { Becomes m.new (Commands.numbered (s + 1) k (with_rest (P.after s a bucket time) (gateway (cell m.old)))) }
{
    begin(m, s, a, bucket, time);
    commands::push(m, s as u64 + 1, a as u64, k);
}

// A command that places nothing; `allowed` is what it asks itself.
fn enter_other(
    m: &mut [u8],
    s: usize,
    a: usize,
    allowed: bool,
    k: Command,
    time: u64,
    out: &mut [u8],
) -> Result<usize, Refusal>
    requires { Speaks s (Some a) m.old × Commands.Plain a k }
    ensures { P.Does (P.other_plan s a allowed k time (gateway (cell m.old))) result m.old m.new out.old out.new }
{
    let t = pretrade::take_token(m, a, time);
    let bucket = t.bucket;
    let v = pretrade::judge_other(m, t.passed, allowed);
    match v {
        Some(why) => refuse(m, s, a, bucket, why, 0, time, out),
        None => {
            push(m, s, a, bucket, k, time);
            Ok(0)
        }
    }
}

pub fn cancel(
    m: &mut [u8],
    s: usize,
    a: usize,
    order_id: u64,
    time: u64,
    out: &mut [u8],
) -> Result<usize, Refusal>
    requires { Speaks s (Some a) m.old }
    ensures { Gives (call (gateway (cell m.old)) (receive_from s (In.Cancel order_id) time (places (length out.old)))) result m.old m.new out.old out.new }
{
    let k = Command::Cancel {
        id: order_id,
        owner: a as u32,
    };
    enter_other(m, s, a, true, k, time, out)
}

// A paper-trading account cancels and places again instead.
pub fn modify(
    m: &mut [u8],
    s: usize,
    a: usize,
    order_id: u64,
    price: i64,
    qty: u64,
    time: u64,
    out: &mut [u8],
) -> Result<usize, Refusal>
    requires { Speaks s (Some a) m.old }
    ensures { Gives (call (gateway (cell m.old)) (receive_from s (In.Modify order_id price qty) time (places (length out.old)))) result m.old m.new out.old out.new }
{
    let allowed = !clients::is_funded(m, a);
    let k = Command::Modify {
        id: order_id,
        owner: a as u32,
        price,
        qty,
    };
    enter_other(m, s, a, allowed, k, time, out)
}

pub fn mass_cancel(
    m: &mut [u8],
    s: usize,
    a: usize,
    time: u64,
    out: &mut [u8],
) -> Result<usize, Refusal>
    requires { Speaks s (Some a) m.old }
    ensures { Gives (call (gateway (cell m.old)) (receive_from s In.MassCancel time (places (length out.old)))) result m.old m.new out.old out.new }
{
    let k = Command::CancelAll { owner: a as u32 };
    enter_other(m, s, a, true, k, time, out)
}

// ---- a new order

fn command_of(id: u64, a: usize, side: Side, qty: u64, kind: OrderKind) -> Command
    requires { a < owner_slots }
    ensures { result ≡ command_of id a side qty kind }
{
    let owner = a as u32;
    match kind {
        OrderKind::Limit {
            price,
            tif,
            display,
        } => Command::Limit {
            id,
            owner,
            side,
            price,
            qty,
            tif,
            display,
        },
        OrderKind::Market => Command::Market {
            id,
            owner,
            side,
            qty,
        },
        OrderKind::Stop { trigger, limit } => Command::Stop {
            id,
            owner,
            side,
            trigger,
            limit,
            qty,
        },
    }
}

// It is numbered, placed and in the batch.
fn place(m: &mut [u8], s: usize, number: u64, o: Live, k: Command)
    requires { State m.old × (s < session_slots) × P.CanPlace number o k (gateway (cell m.old)) }
    ensures { Becomes m.new (P.in_book s number o k (gateway (cell m.old))) }
{
    commands::take_off(m, s as u64 + 1, o.account, 1);
    live::place(m, number, o);
    commands::queue(m, k);
}

// And its account is told what it holds.
fn place_new(m: &mut [u8], s: usize, a: usize, order: NewOrder, o: Live)
    requires { State m.old × (s < session_slots) × (a < owner_slots) × (Q.has_room a order (gateway (cell m.old)) ≡ true) × Q.Stands a order o }
    ensures { Becomes m.new (P.placed s a order (gateway (cell m.old))) }
{
    let number = pending::header::word_at(m, cells::LAST) + 1;
    let side = order.side;
    let kind = order.kind;
    let k = command_of(number, a, side, order.qty, kind);
    let hold = live::hold_of(live::fee_of(m), o.side, o.priced, o.price, o.leaves);
    place(m, s, number, o, k);
    live::notice_hold(m, o.account, 0, hold);
}

fn enter_new(m: &mut [u8], s: usize, a: usize, bucket: Bucket, order: NewOrder, o: Live, time: u64)
    requires { State m.old × (s < session_slots) × (a < owner_slots) × (Q.has_room a order (gateway (cell m.old)) ≡ true) × Q.Stands a order o }
    ensures { Becomes m.new (P.placed s a order (with_rest (P.after s a bucket time) (gateway (cell m.old)))) }
{
    begin(m, s, a, bucket, time);
    place_new(m, s, a, order, o);
}

pub fn new_order(
    m: &mut [u8],
    s: usize,
    a: usize,
    order: NewOrder,
    time: u64,
    out: &mut [u8],
) -> Result<usize, Refusal>
    requires { Speaks s (Some a) m.old }
    ensures { Gives (call (gateway (cell m.old)) (receive_from s (In.NewOrder order) time (places (length out.old)))) result m.old m.new out.old out.new }
{
    let o = pretrade::live_of(a, order);
    let t = pretrade::take_token(m, a, time);
    let bucket = t.bucket;
    let v = pretrade::judge_new(m, a, t.passed, order, o);
    match v {
        Some(why) => refuse(m, s, a, bucket, why, order.client_ref, time, out),
        None => {
            enter_new(m, s, a, bucket, order, o, time);
            Ok(0)
        }
    }
}
