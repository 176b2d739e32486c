// Commands are numbered and handed over: `push`, `last_seq`, `take_batch`, `detach` and `disconnect` of exchange.rs.
#![tactic(auto)]

ghost use Rattle.std.specs.Prelude.{◌≡◌, true, [], map, ◌*◌, ◌≤◌, ◌<◌, length};
ghost use Rattle.gateway.specs.Limits.{owner_slots, most_in_batch};
ghost use Rattle.gateway.specs.Rest.{with_batch};
ghost use Rattle.gateway.specs.Entry.{nothing, account_was, number_is, queued};
ghost use Rattle.gateway.specs.Calls.{call, last_seq, take_batch, detach, disconnect, without_session};
ghost use Rattle.store.specs.Cells as C;
ghost use Rattle.store.specs.Layout.{cell};
ghost use Rattle.store.specs.View.{word, optional, command, gateway};
ghost use Rattle.pending.specs.Pending.{Batched, command_row};
ghost use Rattle.rows.specs.Rows.{put_row, put_rows};
ghost use Rattle.sound.specs.Sound.{State, Becomes};
ghost use Rattle.mailbox.specs.Mailbox.{places};
ghost use Rattle.outcome.specs.Between.{Between};
ghost use Rattle.outcome.specs.Parts.{with_rest, rest_of};
ghost use Rattle.outcome.specs.Refusals.{code_of};
ghost use Rattle.outcome.specs.Answers.{Says, Lists};
ghost use Rattle.commands.specs.Commands as P;

use orderbook::Command;
use outcome::Refusal;
use store::{cells, limits};

// ---- numbering

// The last number.
pub fn last_seq(m: &[u8]) -> u64
    requires { Between m.now }
    ensures { Says (number_is result) (call (gateway (cell m.now)) last_seq) 0 m.now m.now }
{
    pending::header::word_at(m, cells::LAST)
}

// Not 256 in flight, not 256 in the batch, a number left.
pub fn can_number(m: &[u8]) -> bool
    requires { State m.now }
    ensures { result ≡ P.can_number (gateway (cell m.now)) }
{
    let flying = pending::header::word_at(m, cells::FLYING);
    let waiting = pending::header::word_at(m, cells::WAITING);
    let last = pending::header::word_at(m, cells::LAST);
    flying < limits::MOST_IN_FLIGHT && waiting < limits::MOST_IN_BATCH && last < limits::GREATEST
}

// The next number is in flight, for an owner; the sender is a session plus one, 0 for SYSTEM, and `places` 1 where an order is placed.
pub fn take_off(m: &mut [u8], sender: u64, owner: u64, places: u64)
    requires { State m.old × P.CanFly (gateway (cell m.old)) }
    ensures { Becomes m.new (P.flying sender owner places (gateway (cell m.old))) × P.Unplaced m.new }
{
    pending::take_off(m, sender, owner, places);
}

// The command joins the batch.
pub fn queue(m: &mut [u8], command: Command)
    requires { State m.old × (length (rest_of m.old).batch < most_in_batch) × Batched command }
    ensures { Becomes m.new (with_rest (queued command) (gateway (cell m.old))) }
{
    pending::batch::push_command(m, command);
}

// Numbers a command that places nothing, and puts it into the batch.
pub fn push(m: &mut [u8], sender: u64, owner: u64, command: Command)
    requires { State m.old × (P.can_number (gateway (cell m.old)) ≡ true) × P.Plain owner command }
    ensures { Becomes m.new (P.numbered sender command (gateway (cell m.old))) }
{
    take_off(m, sender, owner, 0);
    queue(m, command);
}

// ---- handing over

// The row j of the batch, in place j.
fn put_command(m: &[u8], out: &mut [u8], j: usize)
    requires { State m.now × (j < word (cell m.now) C.waiting) × (j < places (length out.old)) }
    ensures { out.new ≡ put_row out.old (96 * j) (command_row (command (cell m.now C.batch j))) }
{
    let row = pending::batch::row_of(pending::batch::command_at(m, j));
    rows::put(out, mailbox::ROW * j, &row);
}

// The n rows of the batch.
fn put_batch(m: &[u8], out: &mut [u8], n: usize)
    requires { State m.now × (n ≡ word (cell m.now) C.waiting) × (n ≤ places (length out.old)) }
    ensures { out.new ≡ put_rows 96 0 (map command_row (rest_of m.now).batch) out.old }
{
    for j in 0..n {
        put_command(m, out, j);
    }
}

fn clear(m: &mut [u8])
    requires { State m.old }
    ensures { Becomes m.new (with_rest (with_batch []) (gateway (cell m.old))) }
{
    pending::batch::clear_batch(m);
}

// The commands not yet handed over, in order: 12 cells each.
pub fn take_batch(m: &mut [u8], out: &mut [u8]) -> Result<usize, Refusal>
    requires { Between m.old }
    ensures { Lists 96 (call (gateway (cell m.old)) (take_batch (places (length out.old)))) result m.old m.new out.old out.new }
{
    let n = pending::header::word_at(m, cells::WAITING) as usize;
    if mailbox::room(out) < n {
        return Err(Refusal::TooShort);
    }
    put_batch(m, out, n);
    clear(m);
    Ok(n)
}

// ---- connections that are gone

// The session of any number is gone, and with it the login.
fn forget(m: &mut [u8], s: usize)
    requires { State m.old }
    ensures { Becomes m.new (with_rest (without_session s) (gateway (cell m.old))) }
{
    if s < limits::SESSION_SLOTS {
        clients::forget(m, s);
    }
}

// The account that the session was logged in for.
pub fn detach(m: &mut [u8], s: usize) -> Option<u32>
    requires { Between m.old }
    ensures { Says (account_was result) (call (gateway (cell m.old)) (detach s)) 0 m.old m.new }
{
    let a = clients::account_of(m, s);
    forget(m, s);
    match a {
        None => None,
        Some(a) => Some(a as u32),
    }
}

// A logged-in account's orders are cancelled: a client that is gone cannot manage them.
pub fn disconnect(m: &mut [u8], s: usize) -> Result<(), Refusal>
    requires { Between m.old }
    ensures { Says nothing (call (gateway (cell m.old)) (disconnect s)) (code_of result) m.old m.new }
{
    match clients::account_of(m, s) {
        None => {
            forget(m, s);
            Ok(())
        }
        Some(a) => {
            if can_number(m) {
                forget(m, s);
                push(m, 0, a as u64, Command::CancelAll { owner: a as u32 });
                return Ok(());
            }
            Err(Refusal::Full)
        }
    }
}
