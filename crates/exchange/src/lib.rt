// A message of a session: `receive` of exchange.rs.
#![tactic(auto)]

ghost use Rattle.std.specs.Prelude.{◌≡◌, true, ◌<◌, length};
ghost use Rattle.protocol.specs.declared.Inbound.TheVariants as In;
ghost use Rattle.gateway.specs.Rest.{session_at, is_present};
ghost use Rattle.gateway.specs.Calls.{call, receive_from};
ghost use Rattle.store.specs.Layout.{cell};
ghost use Rattle.store.specs.View.{gateway};
ghost use Rattle.mailbox.specs.Mailbox.{places};
ghost use Rattle.outcome.specs.Between.{Between};
ghost use Rattle.outcome.specs.Parts.{rest_of, Speaks};
ghost use Rattle.outcome.specs.Answers.{Gives};
ghost use Rattle.exchange.specs.Receive as P;

use outcome::Refusal;
use protocol::{Inbound, LoginError, LogoutReason, Outbound};

// ---- before a login

// Anything but a login ends the session.
fn protocol_error(
    m: &mut [u8],
    s: usize,
    message: Inbound,
    time: u64,
    out: &mut [u8],
) -> Result<usize, Refusal>
    requires { Speaks s None m.old × P.NoLogin message }
    ensures { Gives (call (gateway (cell m.old)) (receive_from s message time (places (length out.old)))) result m.old m.new out.old out.new }
{
    outcome::answer_last(
        m,
        s,
        time,
        Outbound::Logout {
            reason: LogoutReason::ProtocolError,
        },
        out,
    )
}

fn greet(
    m: &mut [u8],
    s: usize,
    message: Inbound,
    time: u64,
    out: &mut [u8],
) -> Result<usize, Refusal>
    requires { Speaks s None m.old }
    ensures { Gives (call (gateway (cell m.old)) (receive_from s message time (places (length out.old)))) result m.old m.new out.old out.new }
{
    match message {
        Inbound::Login {
            version,
            account,
            token,
        } => login::login(m, s, version, account, token, time, out),
        _ => protocol_error(m, s, message, time, out),
    }
}

// ---- after it

fn log_in_again(
    m: &mut [u8],
    s: usize,
    a: usize,
    message: Inbound,
    time: u64,
    out: &mut [u8],
) -> Result<usize, Refusal>
    requires { Speaks s (Some a) m.old × P.IsLogin message }
    ensures { Gives (call (gateway (cell m.old)) (receive_from s message time (places (length out.old)))) result m.old m.new out.old out.new }
{
    outcome::answer(
        m,
        s,
        time,
        Outbound::LoginRejected {
            reason: LoginError::AlreadyInSession,
        },
        out,
    )
}

fn log_out(m: &mut [u8], s: usize, a: usize, time: u64, out: &mut [u8]) -> Result<usize, Refusal>
    requires { Speaks s (Some a) m.old }
    ensures { Gives (call (gateway (cell m.old)) (receive_from s In.Logout time (places (length out.old)))) result m.old m.new out.old out.new }
{
    outcome::answer_last(
        m,
        s,
        time,
        Outbound::Logout {
            reason: LogoutReason::Requested,
        },
        out,
    )
}

fn beat(m: &mut [u8], s: usize, a: usize, time: u64, out: &mut [u8]) -> Result<usize, Refusal>
    requires { Speaks s (Some a) m.old }
    ensures { Gives (call (gateway (cell m.old)) (receive_from s In.Heartbeat time (places (length out.old)))) result m.old m.new out.old out.new }
{
    outcome::hear(m, s, time);
    Ok(0)
}

fn hear(
    m: &mut [u8],
    s: usize,
    a: usize,
    message: Inbound,
    time: u64,
    out: &mut [u8],
) -> Result<usize, Refusal>
    requires { Speaks s (Some a) m.old }
    ensures { Gives (call (gateway (cell m.old)) (receive_from s message time (places (length out.old)))) result m.old m.new out.old out.new }
{
    match message {
        Inbound::Login { .. } => log_in_again(m, s, a, message, time, out),
        Inbound::Logout => log_out(m, s, a, time, out),
        Inbound::Heartbeat => beat(m, s, a, time, out),
        Inbound::NewOrder(order) => orderentry::new_order(m, s, a, order, time, out),
        Inbound::Cancel { order_id } => orderentry::cancel(m, s, a, order_id, time, out),
        Inbound::Modify {
            order_id,
            price,
            qty,
        } => orderentry::modify(m, s, a, order_id, price, qty, time, out),
        Inbound::MassCancel => orderentry::mass_cancel(m, s, a, time, out),
        Inbound::Subscribe => subscribe::subscribe(m, s, a, time, out),
    }
}

// ---- the call

// A session that is there and not closing.
fn heed(
    m: &mut [u8],
    s: usize,
    message: Inbound,
    time: u64,
    out: &mut [u8],
) -> Result<usize, Refusal>
    requires { Between m.old × (is_present (session_at s (rest_of m.old)) ≡ true) }
    ensures { Gives (call (gateway (cell m.old)) (receive_from s message time (places (length out.old)))) result m.old m.new out.old out.new }
{
    match clients::account_of(m, s) {
        None => greet(m, s, message, time, out),
        Some(a) => hear(m, s, a, message, time, out),
    }
}

pub fn receive(
    m: &mut [u8],
    s: usize,
    message: Inbound,
    time: u64,
    out: &mut [u8],
) -> Result<usize, Refusal>
    requires { Between m.old }
    ensures { Gives (call (gateway (cell m.old)) (receive_from s message time (places (length out.old)))) result m.old m.new out.old out.new }
{
    if clients::is_present(m, s) {
        return heed(m, s, message, time, out);
    }
    outcome::set_clock(m, time);
    Ok(0)
}
