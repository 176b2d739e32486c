// The starts, and the calls of the engine and of restarts, in the rows of a stored file, made by the entry points (compare/README.md).
#![tactic(auto)]

ghost use Rattle.std.specs.Prelude.{◌≡◌, true, ◌≤◌, length, take};
ghost use Rattle.gateway.specs.Calls as C;
ghost use Rattle.mailbox.specs.Mailbox.{places};
ghost use Rattle.listing.specs.Rows.{listing};
ghost use Rattle.script.specs.Script.{event_of};
ghost use Rattle.script.specs.Strict.{is_event, is_command, is_account};
ghost use Rattle.script.specs.Records.{command_of, account_of};
ghost use Rattle.lists.specs.Lists.{is_listing};
ghost use Rattle.stored.specs.Rows as R;
ghost use Rattle.edge.specs.Entering.{Lent};
ghost use Rattle.playing.specs.Steps as S;
ghost use Rattle.replaying.specs.Opened.{Opens};

use outcome::Refusal;
use stored::{put, reply, tail, word};

// ---- a start

// `given` has the listing, or the checkpoint's bytes.
pub fn start(m: &mut [u8], row: &[u8], accounts: &[u8], given: &[u8]) -> u64
    requires { Lent m.old }
    ensures { Opens row.now accounts.now given.now result m.old m.new }
{
    let limit = word(row, 5);
    let last = word(row, 6);
    let heartbeat = word(row, 7);
    let idle = word(row, 8);
    let fee = word(row, 9);
    if word(row, 0) == 0 {
        return edge::rowanchess_set_up(m, fee, limit, last, heartbeat, idle, accounts, given);
    }
    edge::rowanchess_restore(m, fee, limit, heartbeat, idle, accounts, given)
}

// ---- the engine

fn add_account(m: &mut [u8], row: &[u8], got: &mut [u8])
    requires { Lent m.old }
    ensures { S.Lone (is_account (take 56 (R.tail_of row.now 4))) (C.add_account (account_of (take 56 (R.tail_of row.now 4)))) m.old m.new got.old got.new }
{
    let account = tail(row, 4);
    let code = edge::rowanchess_add_account(m, &account[..56]);
    put(got, 2, code);
}

fn disconnect(m: &mut [u8], session: usize, got: &mut [u8])
    requires { Lent m.old }
    ensures { S.Lone true (C.disconnect session) m.old m.new got.old got.new }
{
    let code = edge::rowanchess_disconnect(m, session);
    put(got, 2, code);
}

fn detach(m: &mut [u8], session: usize, got: &mut [u8])
    requires { Lent m.old }
    ensures { S.Lone true (C.detach session) m.old m.new got.old got.new }
{
    let a = edge::rowanchess_detach(m, session);
    put(got, 2, a.code);
    put(got, 5, a.there);
    put(got, 6, a.account);
}

fn take_batch(m: &mut [u8], got: &mut [u8], out: &mut [u8])
    requires { Lent m.old }
    ensures { S.Step true (C.take_batch (places (length out.old))) m.old m.new got.old got.new out.old out.new }
{
    let r = edge::rowanchess_take_batch(m, out);
    reply(got, r.code, r.count);
}

fn deliver(m: &mut [u8], row: &[u8], got: &mut [u8], out: &mut [u8])
    requires { Lent m.old }
    ensures { S.Step (is_event (R.tail_of row.now 5)) (C.deliver_event (R.word_at row.now 4) (event_of (R.tail_of row.now 5)) (places (length out.old))) m.old m.new got.old got.new out.old out.new }
{
    let event = tail(row, 5);
    let r = edge::rowanchess_deliver(m, word(row, 4), &event, out);
    reply(got, r.code, r.count);
}

// ---- restarts

fn replay_command(m: &mut [u8], n: u64, given: &[u8], got: &mut [u8])
    requires { Lent m.old }
    ensures { S.Lone (is_command given.now) (C.replay_command n (command_of given.now)) m.old m.new got.old got.new }
{
    let code = edge::rowanchess_replay_command(m, n, given);
    put(got, 2, code);
}

fn replay_event(m: &mut [u8], row: &[u8], got: &mut [u8])
    requires { Lent m.old }
    ensures { S.Lone (is_event (R.tail_of row.now 5)) (C.replay_event (R.word_at row.now 4) (event_of (R.tail_of row.now 5))) m.old m.new got.old got.new }
{
    let event = tail(row, 5);
    let code = edge::rowanchess_replay_event(m, word(row, 4), &event);
    put(got, 2, code);
}

fn finish(m: &mut [u8], given: &[u8], got: &mut [u8])
    requires { Lent m.old }
    ensures { S.Lone (is_listing given.now) (C.finish (listing given.now)) m.old m.new got.old got.new }
{
    let code = edge::rowanchess_finish(m, given);
    put(got, 2, code);
}

fn checkpoint(m: &[u8], got: &mut [u8], out: &mut [u8])
    requires { Lent m.now }
    ensures { S.Step true (C.checkpoint (length out.old)) m.now m.now got.old got.new out.old out.new }
{
    let r = edge::rowanchess_checkpoint(m, out);
    reply(got, r.code, r.count);
}

fn call_of_restart(m: &mut [u8], row: &[u8], given: &[u8], got: &mut [u8], out: &mut [u8])
    requires { Lent m.old × ((16 ≤ R.word_at row.now 0) × (R.word_at row.now 0 ≤ 19)) }
    ensures { S.Takes row.now given.now m.old m.new got.old got.new out.old out.new }
{
    match word(row, 0) {
        16 => replay_command(m, word(row, 4), given, got),
        17 => replay_event(m, row, got),
        18 => finish(m, given, got),
        _ => checkpoint(m, got, out),
    }
}

// ---- all calls

// A number that is no call is malformed.
fn none(got: &mut [u8])
    ensures { got.new ≡ R.put_at got.old 2 11 }
{
    put(got, 2, Refusal::Malformed as u64);
}

// 0 to 11
fn call_of_members(m: &mut [u8], row: &[u8], given: &[u8], got: &mut [u8], out: &mut [u8])
    requires { Lent m.old × (R.word_at row.now 0 ≤ 11) }
    ensures { S.Takes row.now given.now m.old m.new got.old got.new out.old out.new }
{
    match word(row, 0) {
        0 => none(got),
        1 => add_account(m, row, got),
        _ => playing::call(m, row, got, out),
    }
}

// 12 to 19
fn call_of_engine(m: &mut [u8], row: &[u8], given: &[u8], got: &mut [u8], out: &mut [u8])
    requires { Lent m.old × ((12 ≤ R.word_at row.now 0) × (R.word_at row.now 0 ≤ 19)) }
    ensures { S.Takes row.now given.now m.old m.new got.old got.new out.old out.new }
{
    match word(row, 0) {
        12 => disconnect(m, word(row, 4) as usize, got),
        13 => detach(m, word(row, 4) as usize, got),
        14 => take_batch(m, got, out),
        15 => deliver(m, row, got, out),
        _ => call_of_restart(m, row, given, got, out),
    }
}

// `given` has the rows that follow the call's, where these are arguments; `out` is lent to the call.
pub fn call(m: &mut [u8], row: &[u8], given: &[u8], got: &mut [u8], out: &mut [u8])
    requires { Lent m.old }
    ensures { S.Takes row.now given.now m.old m.new got.old got.new out.old out.new }
{
    let k = word(row, 0);
    if k < 12 {
        return call_of_members(m, row, given, got, out);
    }
    if k < 20 {
        return call_of_engine(m, row, given, got, out);
    }
    none(got)
}
