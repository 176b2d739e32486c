// The first message of a session, a login: `login` of exchange.rs.
#![tactic(auto)]

mod reports;

ghost use Rattle.std.specs.Prelude.{◌≡◌, ◌+◌, ◌≤◌, ◌<◌, length, is_some};
ghost use Rattle.protocol.specs.declared.Inbound.TheVariants as In;
ghost use Rattle.gateway.specs.Limits.{owner_slots};
ghost use Rattle.gateway.specs.Core.{account_at};
ghost use Rattle.gateway.specs.Rest.{session_of, update_session, set_account};
ghost use Rattle.gateway.specs.Entry.{token_is, balance, balance_to, login_tests};
ghost use Rattle.gateway.specs.Calls.{call, receive_from};
ghost use Rattle.store.specs.Cells as C;
ghost use Rattle.store.specs.Layout.{cell};
ghost use Rattle.store.specs.View.{word, gateway};
ghost use Rattle.sound.specs.Sound.{State, Becomes};
ghost use Rattle.mailbox.specs.Mailbox.{places, mailed};
ghost use Rattle.balances.specs.Balances.{Exact};
ghost use Rattle.outcome.specs.Parts.{with_rest, rest_of, Sends, Posts, Tries, Speaks};
ghost use Rattle.outcome.specs.Answers.{Gives, failed};
ghost use Rattle.login.specs.Login as P;

use outcome::Refusal;
use protocol::{LoginError, Outbound};
use store::cells;

// ---- judging

// Whether the account below the owner limit exists and has this token.
fn has_token(m: &[u8], a: usize, token: u64) -> bool
    requires { State m.now × (a < word (cell m.now) C.owner_limit) }
    ensures { result ≡ token_is token (account_at a (gateway (cell m.now)).core) }
{
    clients::has_account(m, a) && store::get(m, store::ACCOUNTS, a, cells::ACCOUNT_TOKEN) == token
}

fn is_known(m: &[u8], account: u32, token: u64) -> bool
    requires { State m.now }
    ensures { result ≡ token_is token (account_at account (gateway (cell m.now)).core) }
{
    (account as u64) < pending::header::word_at(m, cells::OWNER_LIMIT)
        && has_token(m, account as usize, token)
}

fn judge_session(m: &[u8], a: usize) -> Option<LoginError>
    requires { State m.now × (a < owner_slots) }
    ensures { result ≡ P.session_error (is_some (session_of a (rest_of m.now))) }
{
    clients::session_of(m, a)
        .is_some()
        .then_some(LoginError::AlreadyLoggedIn)
}

fn judge(m: &[u8], version: u16, account: u32, token: u64) -> Option<LoginError>
    requires { State m.now }
    ensures { result ≡ failed (login_tests version account token (gateway (cell m.now)).core (rest_of m.now)) }
{
    if version != protocol::VERSION {
        return Some(LoginError::UnsupportedVersion);
    }
    if is_known(m, account, token) {
        return judge_session(m, account as usize);
    }
    Some(LoginError::BadCredentials)
}

// ---- what a login is told

// Its balance, from place i on; the place behind it.
fn post_balance(m: &[u8], out: &mut [u8], i: usize, s: usize, a: usize) -> usize
    requires { Exact m.now × (a < owner_slots) × (i + length (balance_to s (balance a (gateway (cell m.now)).core)) ≤ places (length out.old)) }
    ensures { Posts i (balance_to s (balance a (gateway (cell m.now)).core)) result out.old out.new }
{
    let b = balances::balance_at(m, a);
    match b {
        None => i,
        Some(x) => {
            mailbox::send(out, i, s, Outbound::Balance(x));
            i + 1
        }
    }
}

fn balance_rows(m: &[u8], a: usize) -> usize
    requires { State m.now × (a < owner_slots) }
    ensures { (result ≡ P.balance_rows a (gateway (cell m.now)).core) × (result ≤ 1) }
{
    if clients::is_funded(m, a) {
        return 1;
    }
    0
}

fn count(m: &[u8], a: usize) -> usize
    requires { State m.now × (a < owner_slots) }
    ensures { result ≡ P.login_rows a (gateway (cell m.now)) }
{
    let told = reports::count(m, a as u64);
    1 + balance_rows(m, a) + told
}

fn post(m: &[u8], out: &mut [u8], s: usize, a: usize)
    requires { Exact m.now × (a < owner_slots) × (P.login_rows a (gateway (cell m.now)) ≤ places (length out.old)) }
    ensures { out.new ≡ mailed 0 (P.login_mail s a (gateway (cell m.now))) out.old }
{
    let last_seq = pending::header::word_at(m, cells::LAST);
    let account = a as u32;
    mailbox::send(out, 0, s, Outbound::LoginAccepted { account, last_seq });
    let n = post_balance(m, out, 1, s, a);
    reports::post(m, out, n, s, a as u64);
}

// ---- logging in

// The session and the account name each other.
fn link(m: &mut [u8], s: usize, a: usize)
    requires { P.Free s a m.old }
    ensures { Becomes m.new (with_rest (update_session s (set_account a)) (gateway (cell m.old))) }
{
    clients::log_in(m, s, a);
}

fn enter(m: &mut [u8], s: usize, a: usize, time: u64, out: &mut [u8])
    requires { Exact m.old × P.Free s a m.old × (P.login_rows a (gateway (cell m.old)) ≤ places (length out.old)) }
    ensures { Sends 0 (P.login_mail s a (gateway (cell m.old))) (P.logged s a time) m.old m.new out.old out.new }
{
    link(m, s, a);
    outcome::hear(m, s, time);
    post(m, out, s, a);
    outcome::stamp(m, s);
}

fn accept(m: &mut [u8], s: usize, a: usize, time: u64, out: &mut [u8]) -> Result<usize, Refusal>
    requires { Exact m.old × P.Free s a m.old }
    ensures { Tries (P.login_mail s a (gateway (cell m.old))) (P.logged s a time) result m.old m.new out.old out.new }
{
    let n = count(m, a);
    if mailbox::room(out) < n {
        return Err(Refusal::TooShort);
    }
    enter(m, s, a, time, out);
    Ok(n)
}

pub fn login(
    m: &mut [u8],
    s: usize,
    version: u16,
    account: u32,
    token: u64,
    time: u64,
    out: &mut [u8],
) -> Result<usize, Refusal>
    requires { Speaks s None m.old }
    ensures { Gives (call (gateway (cell m.old)) (receive_from s (In.Login version account token) time (places (length out.old)))) result m.old m.new out.old out.new }
{
    let why = judge(m, version, account, token);
    match why {
        None => accept(m, s, account as usize, time, out),
        Some(reason) => {
            outcome::answer_last(m, s, time, Outbound::LoginRejected { reason }, out)
        }
    }
}
