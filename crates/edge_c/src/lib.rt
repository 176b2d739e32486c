// The entry points of edge for programs that link an archive: the same symbols, arguments and clauses.
// A slice arrives as its address and its length.
#![tactic(auto)]

ghost use Rattle.std.specs.Prelude.{◌≡◌, true, ◌/◌, ◌-◌, leb, length, drop, is_some};
ghost use Rattle.words.specs.Words.{int};
ghost use Rattle.protocol.specs.Codes.{logout_of};
ghost use Rattle.gateway.specs.Entry.{nothing};
ghost use Rattle.gateway.specs.Calls as C;
ghost use Rattle.gateway.specs.Start.{set_up, restore};
ghost use Rattle.store.specs.View as View;
ghost use Rattle.mailbox.specs.Mailbox.{places};
ghost use Rattle.listing.specs.Rows.{listing};
ghost use Rattle.saved.specs.Contents.{order_section};
ghost use Rattle.script.specs.Script.{message_of, event_of};
ghost use Rattle.script.specs.Strict.{is_message, is_event, is_command, is_account, are_accounts};
ghost use Rattle.script.specs.Records.{command_of, account_of, accounts_in};
ghost use Rattle.opening.specs.Starts.{Starts};
ghost use Rattle.lists.specs.Lists.{is_listing, are_rows};
ghost use Rattle.numbers.specs.Numbers as P;
ghost use Rattle.edge.specs.Entering.{Lent, whole, begins, asked, Gives, Lists, Writes, Tells, Says};

use numbers::{Account, Number, Reply, Wallet};

// ---- the start

// `accounts` has rows of 7 words, and `list` is a book listing: the bytes become a state.
#[unsafe(no_mangle)]
pub extern "C" fn rowanchess_set_up(
    m: &mut [u8],
    fee: u64,
    limit: u64,
    last: u64,
    heartbeat: u64,
    idle_timeout: u64,
    accounts: &[u8],
    list: &[u8],
) -> u64
    ensures { Starts (begins (are_rows accounts.now list.now) m.old (set_up (int fee) limit last (accounts_in accounts.now) (listing list.now) (P.timing heartbeat idle_timeout))) result m.old m.new }
{
    edge::rowanchess_set_up(m, fee, limit, last, heartbeat, idle_timeout, accounts, list)
}

// `accounts` has rows of 7 words, and `bytes` is a checkpoint.
#[unsafe(no_mangle)]
pub extern "C" fn rowanchess_restore(
    m: &mut [u8],
    fee: u64,
    limit: u64,
    heartbeat: u64,
    idle_timeout: u64,
    accounts: &[u8],
    bytes: &[u8],
) -> u64
    ensures { Starts (begins (are_accounts accounts.now) m.old (restore (int fee) limit (accounts_in accounts.now) (P.timing heartbeat idle_timeout) bytes.now)) result m.old m.new }
{
    edge::rowanchess_restore(m, fee, limit, heartbeat, idle_timeout, accounts, bytes)
}

// ---- the state, read and set

#[unsafe(no_mangle)]
pub extern "C" fn rowanchess_last_seq(m: &[u8]) -> Number
    requires { Lent m.now }
    ensures { Tells P.number_of result (asked true m.now C.last_seq) result.code m.now m.now }
{
    edge::rowanchess_last_seq(m)
}

#[unsafe(no_mangle)]
pub extern "C" fn rowanchess_wallet(m: &[u8], account: u32) -> Wallet
    requires { Lent m.now }
    ensures { Tells P.wallet_of result (asked true m.now (C.wallet account)) result.code m.now m.now }
{
    edge::rowanchess_wallet(m, account)
}

// The levels of a side, best price first: rows of 3 words. A side is 0 for buy, 1 for sell.
#[unsafe(no_mangle)]
pub extern "C" fn rowanchess_levels(m: &[u8], side: u64, out: &mut [u8]) -> Reply
    requires { Lent m.now }
    ensures { Lists 24 (asked (leb side 1) m.now (C.depth_levels (View.side side) (length out.old / 24))) result m.now m.now out.old out.new }
{
    edge::rowanchess_levels(m, side, out)
}

// `there` is 0 for no collar, else 1.
#[unsafe(no_mangle)]
pub extern "C" fn rowanchess_set_paper_collar(m: &mut [u8], there: u64, percent: u32) -> u64
    requires { Lent m.old }
    ensures { Says nothing (asked (leb there 1) m.old (C.set_paper_collar (View.maybe there percent))) result m.old m.new }
{
    edge::rowanchess_set_paper_collar(m, there, percent)
}

// ---- sessions

#[unsafe(no_mangle)]
pub extern "C" fn rowanchess_connect(m: &mut [u8], session: usize, time: u64) -> u64
    requires { Lent m.old }
    ensures { Says nothing (asked true m.old (C.connect session time)) result m.old m.new }
{
    edge::rowanchess_connect(m, session, time)
}

// `row` is a message.
#[unsafe(no_mangle)]
pub extern "C" fn rowanchess_receive(
    m: &mut [u8],
    session: usize,
    row: &[u8],
    time: u64,
    out: &mut [u8],
) -> Reply
    requires { Lent m.old }
    ensures { Gives (asked (is_message row.now) m.old (C.receive_from session (message_of row.now) time (places (length out.old)))) result m.old m.new out.old out.new }
{
    edge::rowanchess_receive(m, session, row, time, out)
}

#[unsafe(no_mangle)]
pub extern "C" fn rowanchess_tick(m: &mut [u8], time: u64, out: &mut [u8]) -> Reply
    requires { Lent m.old }
    ensures { Gives (asked true m.old (C.tick time (places (length out.old)))) result m.old m.new out.old out.new }
{
    edge::rowanchess_tick(m, time, out)
}

#[unsafe(no_mangle)]
pub extern "C" fn rowanchess_publish(m: &mut [u8], out: &mut [u8]) -> Reply
    requires { Lent m.old }
    ensures { Gives (asked true m.old (C.publish (places (length out.old)))) result m.old m.new out.old out.new }
{
    edge::rowanchess_publish(m, out)
}

// `why` is the code of a reason to log out.
#[unsafe(no_mangle)]
pub extern "C" fn rowanchess_end(m: &mut [u8], session: usize, why: u8, out: &mut [u8]) -> Reply
    requires { Lent m.old }
    ensures { Gives (asked (is_some (logout_of why)) m.old (C.end_session session (P.reason_or (logout_of why)) (places (length out.old)))) result m.old m.new out.old out.new }
{
    edge::rowanchess_end(m, session, why, out)
}

#[unsafe(no_mangle)]
pub extern "C" fn rowanchess_shut_down(m: &mut [u8], out: &mut [u8]) -> Reply
    requires { Lent m.old }
    ensures { Gives (asked true m.old (C.shut_down (places (length out.old)))) result m.old m.new out.old out.new }
{
    edge::rowanchess_shut_down(m, out)
}

#[unsafe(no_mangle)]
pub extern "C" fn rowanchess_disconnect(m: &mut [u8], session: usize) -> u64
    requires { Lent m.old }
    ensures { Says nothing (asked true m.old (C.disconnect session)) result m.old m.new }
{
    edge::rowanchess_disconnect(m, session)
}

#[unsafe(no_mangle)]
pub extern "C" fn rowanchess_detach(m: &mut [u8], session: usize) -> Account
    requires { Lent m.old }
    ensures { Tells P.account_of result (asked true m.old (C.detach session)) result.code m.old m.new }
{
    edge::rowanchess_detach(m, session)
}

// ---- the engine

#[unsafe(no_mangle)]
pub extern "C" fn rowanchess_take_batch(m: &mut [u8], out: &mut [u8]) -> Reply
    requires { Lent m.old }
    ensures { Lists 96 (asked true m.old (C.take_batch (places (length out.old)))) result m.old m.new out.old out.new }
{
    edge::rowanchess_take_batch(m, out)
}

// `row` is an event of the command `n`.
#[unsafe(no_mangle)]
pub extern "C" fn rowanchess_deliver(m: &mut [u8], n: u64, row: &[u8], out: &mut [u8]) -> Reply
    requires { Lent m.old }
    ensures { Gives (asked (is_event row.now) m.old (C.deliver_event n (event_of row.now) (places (length out.old)))) result m.old m.new out.old out.new }
{
    edge::rowanchess_deliver(m, n, row, out)
}

// ---- restarting

// `row` is an account.
#[unsafe(no_mangle)]
pub extern "C" fn rowanchess_add_account(m: &mut [u8], row: &[u8]) -> u64
    requires { Lent m.old }
    ensures { Says nothing (asked (is_account row.now) m.old (C.add_account (account_of row.now))) result m.old m.new }
{
    edge::rowanchess_add_account(m, row)
}

// `row` is the command `n`.
#[unsafe(no_mangle)]
pub extern "C" fn rowanchess_replay_command(m: &mut [u8], n: u64, row: &[u8]) -> u64
    requires { Lent m.old }
    ensures { Says nothing (asked (is_command row.now) m.old (C.replay_command n (command_of row.now))) result m.old m.new }
{
    edge::rowanchess_replay_command(m, n, row)
}

// `row` is an event of the command `n`.
#[unsafe(no_mangle)]
pub extern "C" fn rowanchess_replay_event(m: &mut [u8], n: u64, row: &[u8]) -> u64
    requires { Lent m.old }
    ensures { Says nothing (asked (is_event row.now) m.old (C.replay_event n (event_of row.now))) result m.old m.new }
{
    edge::rowanchess_replay_event(m, n, row)
}

// `list` is a book listing: rows of 8 words.
#[unsafe(no_mangle)]
pub extern "C" fn rowanchess_finish(m: &mut [u8], list: &[u8]) -> u64
    requires { Lent m.old }
    ensures { Says nothing (asked (is_listing list.now) m.old (C.finish (listing list.now))) result m.old m.new }
{
    edge::rowanchess_finish(m, list)
}

// The bytes of a checkpoint, at the front of `out`.
#[unsafe(no_mangle)]
pub extern "C" fn rowanchess_checkpoint(m: &[u8], out: &mut [u8]) -> Reply
    requires { Lent m.now }
    ensures { Writes (asked true m.now (C.checkpoint (length out.old))) result m.now m.now out.old out.new }
{
    edge::rowanchess_checkpoint(m, out)
}

// Where the order section of a checkpoint's bytes starts; it goes to their end. The end itself where they are no checkpoint.
#[unsafe(no_mangle)]
pub extern "C" fn rowanchess_order_section(bytes: &[u8]) -> usize
    ensures { (result ≡ length bytes.now - length (order_section bytes.now)) × (drop result bytes.now ≡ order_section bytes.now) }
{
    edge::rowanchess_order_section(bytes)
}
