// The calls of sessions and entry in the rows of a stored file, made by the entry points: a row has the arguments, a copy of it is given the
// answer (compare/README.md).
#![tactic(auto)]

ghost use Rattle.std.specs.Prelude.{◌≡◌, true, ◌/◌, ◌≤◌, ◌<◌, leb, length, is_some};
ghost use Rattle.protocol.specs.Codes.{logout_of};
ghost use Rattle.gateway.specs.Calls as C;
ghost use Rattle.store.specs.View as View;
ghost use Rattle.mailbox.specs.Mailbox.{places};
ghost use Rattle.script.specs.Script.{message_of};
ghost use Rattle.script.specs.Strict.{is_message};
ghost use Rattle.numbers.specs.Numbers as P;
ghost use Rattle.stored.specs.Rows as R;
ghost use Rattle.edge.specs.Entering.{Lent};
ghost use Rattle.playing.specs.Steps as S;

use stored::{Difference, code, put, reply, small, tail, word};

// ---- the state, read and set

fn connect(m: &mut [u8], session: usize, time: u64, got: &mut [u8])
    requires { Lent m.old }
    ensures { S.Lone true (C.connect session time) m.old m.new got.old got.new }
{
    let code = edge::rowanchess_connect(m, session, time);
    put(got, 2, code);
}

fn set_paper_collar(m: &mut [u8], there: u64, percent: u32, got: &mut [u8])
    requires { Lent m.old }
    ensures { S.Lone (leb there 1) (C.set_paper_collar (View.maybe there percent)) m.old m.new got.old got.new }
{
    let code = edge::rowanchess_set_paper_collar(m, there, percent);
    put(got, 2, code);
}

// Two words from i on.
fn put_pair(got: &mut [u8], i: usize, cash: i64, position: i64)
    requires { i < 16 }
    ensures { got.new ≡ S.pair_told cash position i got.old }
{
    put(got, i, cash.cast_unsigned());
    put(got, i + 1, position.cast_unsigned());
}

fn wallet(m: &[u8], account: u32, got: &mut [u8])
    requires { Lent m.now }
    ensures { S.Lone true (C.wallet account) m.now m.now got.old got.new }
{
    let w = edge::rowanchess_wallet(m, account);
    put(got, 2, w.code);
    put(got, 5, w.there);
    put_pair(got, 6, w.cash, w.position);
    put_pair(got, 8, w.cash_held, w.position_held);
}

fn last_seq(m: &[u8], got: &mut [u8])
    requires { Lent m.now }
    ensures { S.Lone true C.last_seq m.now m.now got.old got.new }
{
    let last = edge::rowanchess_last_seq(m);
    put(got, 2, last.code);
    put(got, 4, last.number);
}

// The last number and an account's wallet.
fn standing(m: &[u8], account: u32) -> [u8; 128]
    requires { Lent m.now }
    ensures { result ≡ S.standing m.now account }
{
    let mut got = [0u8; 128];
    last_seq(m, &mut got);
    wallet(m, account, &mut got);
    got
}

// Whether two gateways have the last number and every account's wallet alike; if not, `at` has where.
pub fn are_alike(m: &[u8], s: &[u8], at: &mut Difference<'_>) -> bool
    requires { Lent m.now × Lent s.now }
    ensures { R.Tells result (S.Alike 256 m.now s.now) }
{
    for a in 0..256 {
        let first = standing(m, a);
        let second = standing(s, a);
        if !stored::agrees(b"second gateway", &first, &second, at) {
            return false;
        }
    }
    true
}

fn levels(m: &[u8], side: u64, got: &mut [u8], out: &mut [u8])
    requires { Lent m.now }
    ensures { S.Step (leb side 1) (C.depth_levels (View.side side) (length out.old / 24)) m.now m.now got.old got.new out.old out.new }
{
    let r = edge::rowanchess_levels(m, side, out);
    reply(got, r.code, r.count);
}

fn call_of_state(m: &mut [u8], row: &[u8], got: &mut [u8], out: &mut [u8])
    requires { Lent m.old × ((2 ≤ R.word_at row.now 0) × (R.word_at row.now 0 ≤ 6)) }
    ensures { S.TakesAlone row.now m.old m.new got.old got.new out.old out.new }
{
    match word(row, 0) {
        2 => connect(m, word(row, 4) as usize, word(row, 5), got),
        3 => set_paper_collar(m, word(row, 4), small(row, 5), got),
        4 => wallet(m, small(row, 4), got),
        5 => last_seq(m, got),
        _ => levels(m, word(row, 4), got, out),
    }
}

// ---- sessions

fn receive(m: &mut [u8], row: &[u8], got: &mut [u8], out: &mut [u8])
    requires { Lent m.old }
    ensures { S.Step (is_message (R.tail_of row.now 6)) (C.receive_from (R.word_at row.now 4) (message_of (R.tail_of row.now 6)) (R.word_at row.now 5) (places (length out.old))) m.old m.new got.old got.new out.old out.new }
{
    let message = tail(row, 6);
    let r = edge::rowanchess_receive(m, word(row, 4) as usize, &message, word(row, 5), out);
    reply(got, r.code, r.count);
}

fn tick(m: &mut [u8], time: u64, got: &mut [u8], out: &mut [u8])
    requires { Lent m.old }
    ensures { S.Step true (C.tick time (places (length out.old))) m.old m.new got.old got.new out.old out.new }
{
    let r = edge::rowanchess_tick(m, time, out);
    reply(got, r.code, r.count);
}

fn publish(m: &mut [u8], got: &mut [u8], out: &mut [u8])
    requires { Lent m.old }
    ensures { S.Step true (C.publish (places (length out.old))) m.old m.new got.old got.new out.old out.new }
{
    let r = edge::rowanchess_publish(m, out);
    reply(got, r.code, r.count);
}

fn end(m: &mut [u8], session: usize, why: u8, got: &mut [u8], out: &mut [u8])
    requires { Lent m.old }
    ensures { S.Step (is_some (logout_of why)) (C.end_session session (P.reason_or (logout_of why)) (places (length out.old))) m.old m.new got.old got.new out.old out.new }
{
    let r = edge::rowanchess_end(m, session, why, out);
    reply(got, r.code, r.count);
}

fn shut_down(m: &mut [u8], got: &mut [u8], out: &mut [u8])
    requires { Lent m.old }
    ensures { S.Step true (C.shut_down (places (length out.old))) m.old m.new got.old got.new out.old out.new }
{
    let r = edge::rowanchess_shut_down(m, out);
    reply(got, r.code, r.count);
}

fn call_of_sessions(m: &mut [u8], row: &[u8], got: &mut [u8], out: &mut [u8])
    requires { Lent m.old × ((7 ≤ R.word_at row.now 0) × (R.word_at row.now 0 ≤ 11)) }
    ensures { S.TakesAlone row.now m.old m.new got.old got.new out.old out.new }
{
    match word(row, 0) {
        7 => receive(m, row, got, out),
        8 => tick(m, word(row, 4), got, out),
        9 => publish(m, got, out),
        10 => end(m, word(row, 4) as usize, code(row, 5), got, out),
        _ => shut_down(m, got, out),
    }
}

// The calls numbered 2 to 11; `out` is lent to the call.
pub fn call(m: &mut [u8], row: &[u8], got: &mut [u8], out: &mut [u8])
    requires { Lent m.old × ((2 ≤ R.word_at row.now 0) × (R.word_at row.now 0 ≤ 11)) }
    ensures { S.TakesAlone row.now m.old m.new got.old got.new out.old out.new }
{
    if word(row, 0) < 7 {
        return call_of_state(m, row, got, out);
    }
    call_of_sessions(m, row, got, out)
}
