// A client asks for the market's data: `subscribe` of exchange.rs.
#![tactic(auto)]

ghost use Rattle.std.specs.Prelude.{◌≡◌, ◌+◌, ◌≤◌, ◌<◌, length};
ghost use Rattle.protocol.specs.declared.Inbound.TheVariants as In;
ghost use Rattle.gateway.specs.Limits.{session_slots, most_orders};
ghost use Rattle.gateway.specs.Rest as Rest;
ghost use Rattle.gateway.specs.Rest.{update_session};
ghost use Rattle.gateway.specs.Entry.{update_of, level_to, snapshot};
ghost use Rattle.gateway.specs.Calls.{call, receive_from};
ghost use Rattle.store.specs.Layout.{cell};
ghost use Rattle.store.specs.View.{gateway};
ghost use Rattle.levels.specs.Levels as L;
ghost use Rattle.sound.specs.Sound.{State, Becomes};
ghost use Rattle.mailbox.specs.Mailbox.{places, put_mail};
ghost use Rattle.outcome.specs.Parts.{with_rest, rest_of, Sends, Speaks};
ghost use Rattle.outcome.specs.Answers.{Gives};
ghost use Rattle.balances.specs.Balances.{Exact};
ghost use Rattle.depth.specs.Levels.{side_levels};
ghost use Rattle.feed.specs.Feed.{Told};
ghost use Rattle.subscribe.specs.Subscribe as P;

use levels::Row;
use orderbook::Side;
use outcome::Refusal;
use protocol::{LevelUpdate, Outbound};
use store::cells;

// ---- the levels of a side

fn update_of(m: &[u8], side: Side, r: Row) -> LevelUpdate
    requires { State m.now × (r.orders ≤ most_orders) }
    ensures { result ≡ update_of (rest_of m.now).delivered side (L.level r) }
{
    let seq = pending::header::word_at(m, cells::DELIVERED);
    LevelUpdate {
        seq,
        side,
        price: words::to_i64(words::lowered(r.key)),
        qty: r.qty,
        orders: r.orders as u32,
    }
}

fn post_level(m: &[u8], out: &mut [u8], i: usize, s: usize, side: Side, r: Row)
    requires { State m.now × (r.orders ≤ most_orders) × (i < places (length out.old)) }
    ensures { out.new ≡ put_mail i (level_to s (rest_of m.now).delivered side (L.level r)) out.old }
{
    let u = update_of(m, side, r);
    mailbox::send(out, i, s, Outbound::LevelUpdate(u));
}

// The rows from the best price on, but for the dead ones, from place i on. The session was sent the message before them now.
fn post_side(m: &[u8], out: &mut [u8], i: usize, s: usize, side: Side) -> usize
    requires { State m.now × (i + length (side_levels side (rest_of m.now)) ≤ places (length out.old)) }
    ensures { P.Posts (P.levels_to s side) i result m.now out.old out.new }
{
    let n = levels::used(m, side);
    let mut k: usize = i;
    for j in 0..n {
        let r = levels::read_row(m, side, levels::listed::nth(side, n, j));
        if r.orders != 0 {
            post_level(m, out, k, s, side, r);
            k += 1;
        }
    }
    k
}

// ---- the snapshot

// How many levels there are.
fn levels_of(m: &[u8]) -> usize
    requires { State m.now }
    ensures { (result ≡ P.level_count (rest_of m.now)) × (result ≤ 1024) }
{
    levels::size(m, Side::Buy) + levels::size(m, Side::Sell)
}

fn send_first(m: &mut [u8], out: &mut [u8], i: usize, s: usize) -> usize
    requires { State m.old × (s < session_slots) × (i < places (length out.old)) }
    ensures { Told (P.first_to s) i result m.old m.new out.old out.new }
{
    let n = levels_of(m);
    let seq = pending::header::word_at(m, cells::DELIVERED);
    outcome::send(
        m,
        out,
        i,
        s,
        Outbound::BookSnapshot {
            seq,
            levels: n as u32,
        },
    );
    i + 1
}

fn send_snapshot(m: &mut [u8], out: &mut [u8], i: usize, s: usize)
    requires { State m.old × (s < session_slots) × (i + length (snapshot s (rest_of m.old)) ≤ places (length out.old)) }
    ensures { Sends i (snapshot s (rest_of m.old)) (λ x. x) m.old m.new out.old out.new }
{
    let n = send_first(m, out, i, s);
    let k = post_side(m, out, n, s, Side::Buy);
    post_side(m, out, k, s, Side::Sell);
}

fn set_subscribed(m: &mut [u8], s: usize)
    requires { State m.old × (s < session_slots) }
    ensures { Becomes m.new (with_rest (update_session s Rest.set_subscribed) (gateway (cell m.old))) }
{
    clients::set_subscribed(m, s);
}

// ---- the call

// How many rows of mail a subscription sends: what waits goes out first, to everybody.
fn count(m: &[u8], s: usize) -> usize
    requires { State m.now }
    ensures { result ≡ length (P.subscribe_mail s (gateway (cell m.now))) }
{
    feed::count(m) + 1 + levels_of(m)
}

fn apply(m: &mut [u8], out: &mut [u8], s: usize)
    requires { Exact m.old × (s < session_slots) × (length (P.subscribe_mail s (gateway (cell m.old))) ≤ places (length out.old)) }
    ensures { Sends 0 (P.subscribe_mail s (gateway (cell m.old))) (P.subscribed s) m.old m.new out.old out.new }
{
    let n = feed::send_all(m, out);
    send_snapshot(m, out, n, s);
    set_subscribed(m, s);
}

// A message of session s, logged in for account a.
pub fn subscribe(
    m: &mut [u8],
    s: usize,
    a: usize,
    time: u64,
    out: &mut [u8],
) -> Result<usize, Refusal>
    requires { Speaks s (Some a) m.old }
    ensures { Gives (call (gateway (cell m.old)) (receive_from s In.Subscribe time (places (length out.old)))) result m.old m.new out.old out.new }
{
    let n = count(m, s);
    if mailbox::room(out) < n {
        return Err(Refusal::TooShort);
    }
    outcome::hear(m, s, time);
    apply(m, out, s);
    Ok(n)
}
