// The calls of document 01 for programs that link the archive of edge_c: the methods of `Exchange` of exchange.rs, on numbers and byte slices.
// A slice arrives as its address and its length. Bytes that have not a state's length, a row of another length than its own, and a number outside
// its enum or its integer type get 11 and change nothing. What the caller has to see to is document 01's premise alone (`Lent`).
#![tactic(auto)]

ghost use Rattle.std.specs.Prelude.{◌≡◌, true, ◌/◌, ◌-◌, leb, length, drop, is_some};
ghost use Rattle.words.specs.Words.{int};
ghost use Rattle.protocol.specs.Codes.{logout_of};
ghost use Rattle.gateway.specs.Entry.{nothing};
ghost use Rattle.gateway.specs.Calls as C;
ghost use Rattle.gateway.specs.Start.{set_up, restore};
ghost use Rattle.store.specs.View as View;
ghost use Rattle.mailbox.specs.Mailbox.{places};
ghost use Rattle.listing.specs.Rows.{listing};
ghost use Rattle.saved.specs.Contents.{order_section};
ghost use Rattle.script.specs.Script.{message_of, event_of};
ghost use Rattle.script.specs.Strict.{is_message, is_event, is_command, is_account, are_accounts};
ghost use Rattle.script.specs.Records.{command_of, account_of, accounts_in};
ghost use Rattle.opening.specs.Starts.{Starts};
ghost use Rattle.lists.specs.Lists.{is_listing, are_rows};
ghost use Rattle.numbers.specs.Numbers as P;
ghost use Rattle.edge.specs.Entering.{Lent, whole, begins, asked, Gives, Lists, Writes, Tells, Says};

use accounts::Timing;
use numbers::{Account, Number, Reply, Wallet};
use outcome::Refusal;
use script::{records, strict};

// Whether the bytes have a state's length, and what is lent beside them is well formed.
fn is_whole(m: &[u8], ok: bool) -> bool
    ensures { result ≡ whole ok m.now }
{
    if ok {
        return m.len() == store::SIZE;
    }
    false
}

// ---- the start

// `accounts` has rows of 7 words, and `list` is a book listing: the bytes become a state.
pub fn rowanchess_set_up(
    m: &mut [u8],
    fee: u64,
    limit: u64,
    last: u64,
    heartbeat: u64,
    idle_timeout: u64,
    accounts: &[u8],
    list: &[u8],
) -> u64
    ensures { Starts (begins (are_rows accounts.now list.now) m.old (set_up (int fee) limit last (accounts_in accounts.now) (listing list.now) (P.timing heartbeat idle_timeout))) result m.old m.new }
{
    if is_whole(m, lists::are_rows(accounts, list)) {
        let timing = Timing {
            heartbeat,
            idle_timeout,
        };
        let r = lists::gather(limit, accounts);
        return numbers::code_of(setup::set_up(m, fee, limit, last, timing, r, list));
    }
    Refusal::Malformed as u64
}

// `accounts` has rows of 7 words, and `bytes` is a checkpoint.
pub fn rowanchess_restore(
    m: &mut [u8],
    fee: u64,
    limit: u64,
    heartbeat: u64,
    idle_timeout: u64,
    accounts: &[u8],
    bytes: &[u8],
) -> u64
    ensures { Starts (begins (are_accounts accounts.now) m.old (restore (int fee) limit (accounts_in accounts.now) (P.timing heartbeat idle_timeout) bytes.now)) result m.old m.new }
{
    if is_whole(m, strict::are_accounts(accounts)) {
        let timing = Timing {
            heartbeat,
            idle_timeout,
        };
        let r = lists::gather(limit, accounts);
        return numbers::code_of(restore::restore(m, fee, limit, timing, r, bytes));
    }
    Refusal::Malformed as u64
}

// ---- the state, read and set

pub fn rowanchess_last_seq(m: &[u8]) -> Number
    requires { Lent m.now }
    ensures { Tells P.number_of result (asked true m.now C.last_seq) result.code m.now m.now }
{
    if m.len() == store::SIZE {
        return Number {
            code: 0,
            number: commands::last_seq(m),
        };
    }
    Number {
        code: Refusal::Malformed as u64,
        number: 0,
    }
}

pub fn rowanchess_wallet(m: &[u8], account: u32) -> Wallet
    requires { Lent m.now }
    ensures { Tells P.wallet_of result (asked true m.now (C.wallet account)) result.code m.now m.now }
{
    if m.len() == store::SIZE {
        let b = balances::wallet(m, account);
        return numbers::wallet_of(b);
    }
    numbers::no_wallet(Refusal::Malformed as u64)
}

// The levels of a side, best price first: rows of 3 words. A side is 0 for buy, 1 for sell.
pub fn rowanchess_levels(m: &[u8], side: u64, out: &mut [u8]) -> Reply
    requires { Lent m.now }
    ensures { Lists 24 (asked (leb side 1) m.now (C.depth_levels (View.side side) (length out.old / 24))) result m.now m.now out.old out.new }
{
    if is_whole(m, side <= 1) {
        let s = store::side_of(side);
        return Reply::from(depth::levels(m, s, out));
    }
    Reply::from(Err(Refusal::Malformed))
}

// `there` is 0 for no collar, else 1.
pub fn rowanchess_set_paper_collar(m: &mut [u8], there: u64, percent: u32) -> u64
    requires { Lent m.old }
    ensures { Says nothing (asked (leb there 1) m.old (C.set_paper_collar (View.maybe there percent))) result m.old m.new }
{
    if is_whole(m, there <= 1) {
        let p = numbers::percent_of(there, percent);
        pretrade::collar::set_paper_collar(m, p);
        return 0;
    }
    Refusal::Malformed as u64
}

// ---- sessions

pub fn rowanchess_connect(m: &mut [u8], session: usize, time: u64) -> u64
    requires { Lent m.old }
    ensures { Says nothing (asked true m.old (C.connect session time)) result m.old m.new }
{
    if m.len() == store::SIZE {
        return numbers::code_of(sessions::connect(m, session, time));
    }
    Refusal::Malformed as u64
}

// `row` is a message.
pub fn rowanchess_receive(
    m: &mut [u8],
    session: usize,
    row: &[u8],
    time: u64,
    out: &mut [u8],
) -> Reply
    requires { Lent m.old }
    ensures { Gives (asked (is_message row.now) m.old (C.receive_from session (message_of row.now) time (places (length out.old)))) result m.old m.new out.old out.new }
{
    if is_whole(m, strict::is_message(row)) {
        let message = script::message(row);
        return Reply::from(exchange::receive(m, session, message, time, out));
    }
    Reply::from(Err(Refusal::Malformed))
}

pub fn rowanchess_tick(m: &mut [u8], time: u64, out: &mut [u8]) -> Reply
    requires { Lent m.old }
    ensures { Gives (asked true m.old (C.tick time (places (length out.old)))) result m.old m.new out.old out.new }
{
    if m.len() == store::SIZE {
        return Reply::from(ticks::tick(m, time, out));
    }
    Reply::from(Err(Refusal::Malformed))
}

pub fn rowanchess_publish(m: &mut [u8], out: &mut [u8]) -> Reply
    requires { Lent m.old }
    ensures { Gives (asked true m.old (C.publish (places (length out.old)))) result m.old m.new out.old out.new }
{
    if m.len() == store::SIZE {
        return Reply::from(feed::publish(m, out));
    }
    Reply::from(Err(Refusal::Malformed))
}

// `why` is the code of a reason to log out.
pub fn rowanchess_end(m: &mut [u8], session: usize, why: u8, out: &mut [u8]) -> Reply
    requires { Lent m.old }
    ensures { Gives (asked (is_some (logout_of why)) m.old (C.end_session session (P.reason_or (logout_of why)) (places (length out.old)))) result m.old m.new out.old out.new }
{
    if is_whole(m, numbers::is_reason(why)) {
        let x = numbers::reason(why);
        return Reply::from(sessions::end(m, session, x, out));
    }
    Reply::from(Err(Refusal::Malformed))
}

pub fn rowanchess_shut_down(m: &mut [u8], out: &mut [u8]) -> Reply
    requires { Lent m.old }
    ensures { Gives (asked true m.old (C.shut_down (places (length out.old)))) result m.old m.new out.old out.new }
{
    if m.len() == store::SIZE {
        return Reply::from(sessions::shut_down(m, out));
    }
    Reply::from(Err(Refusal::Malformed))
}

pub fn rowanchess_disconnect(m: &mut [u8], session: usize) -> u64
    requires { Lent m.old }
    ensures { Says nothing (asked true m.old (C.disconnect session)) result m.old m.new }
{
    if m.len() == store::SIZE {
        return numbers::code_of(commands::disconnect(m, session));
    }
    Refusal::Malformed as u64
}

pub fn rowanchess_detach(m: &mut [u8], session: usize) -> Account
    requires { Lent m.old }
    ensures { Tells P.account_of result (asked true m.old (C.detach session)) result.code m.old m.new }
{
    if m.len() == store::SIZE {
        let a = commands::detach(m, session);
        return numbers::account_of(a);
    }
    Account {
        code: Refusal::Malformed as u64,
        there: 0,
        account: 0,
    }
}

// ---- the engine

pub fn rowanchess_take_batch(m: &mut [u8], out: &mut [u8]) -> Reply
    requires { Lent m.old }
    ensures { Lists 96 (asked true m.old (C.take_batch (places (length out.old)))) result m.old m.new out.old out.new }
{
    if m.len() == store::SIZE {
        return Reply::from(commands::take_batch(m, out));
    }
    Reply::from(Err(Refusal::Malformed))
}

// `row` is an event of the command `n`.
pub fn rowanchess_deliver(m: &mut [u8], n: u64, row: &[u8], out: &mut [u8]) -> Reply
    requires { Lent m.old }
    ensures { Gives (asked (is_event row.now) m.old (C.deliver_event n (event_of row.now) (places (length out.old)))) result m.old m.new out.old out.new }
{
    if is_whole(m, strict::is_event(row)) {
        return Reply::from(deliver::deliver(m, n, row, out));
    }
    Reply::from(Err(Refusal::Malformed))
}

// ---- restarting

// `row` is an account.
pub fn rowanchess_add_account(m: &mut [u8], row: &[u8]) -> u64
    requires { Lent m.old }
    ensures { Says nothing (asked (is_account row.now) m.old (C.add_account (account_of row.now))) result m.old m.new }
{
    if is_whole(m, strict::is_account(row)) {
        let a = records::account(row);
        return numbers::code_of(joining::add_account(m, a));
    }
    Refusal::Malformed as u64
}

// `row` is the command `n`.
pub fn rowanchess_replay_command(m: &mut [u8], n: u64, row: &[u8]) -> u64
    requires { Lent m.old }
    ensures { Says nothing (asked (is_command row.now) m.old (C.replay_command n (command_of row.now))) result m.old m.new }
{
    if is_whole(m, strict::is_command(row)) {
        let k = records::command(row);
        return numbers::code_of(replay::replay_command(m, n, k));
    }
    Refusal::Malformed as u64
}

// `row` is an event of the command `n`.
pub fn rowanchess_replay_event(m: &mut [u8], n: u64, row: &[u8]) -> u64
    requires { Lent m.old }
    ensures { Says nothing (asked (is_event row.now) m.old (C.replay_event n (event_of row.now))) result m.old m.new }
{
    if is_whole(m, strict::is_event(row)) {
        let e = script::event(row);
        return numbers::code_of(redelivery::replay_event(m, n, e));
    }
    Refusal::Malformed as u64
}

// `list` is a book listing: rows of 8 words.
pub fn rowanchess_finish(m: &mut [u8], list: &[u8]) -> u64
    requires { Lent m.old }
    ensures { Says nothing (asked (is_listing list.now) m.old (C.finish (listing list.now))) result m.old m.new }
{
    if is_whole(m, lists::is_listing(list)) {
        return numbers::code_of(finish::finish(m, list));
    }
    Refusal::Malformed as u64
}

// The bytes of a checkpoint, at the front of `out`.
pub fn rowanchess_checkpoint(m: &[u8], out: &mut [u8]) -> Reply
    requires { Lent m.now }
    ensures { Writes (asked true m.now (C.checkpoint (length out.old))) result m.now m.now out.old out.new }
{
    if m.len() == store::SIZE {
        return Reply::from(checkpoint::checkpoint(m, out));
    }
    Reply::from(Err(Refusal::Malformed))
}

// Where the order section of a checkpoint's bytes starts; it goes to their end. The end itself where they are no checkpoint.
pub fn rowanchess_order_section(bytes: &[u8]) -> usize
    ensures { (result ≡ length bytes.now - length (order_section bytes.now)) × (drop result bytes.now ≡ order_section bytes.now) }
{
    bytes.len() - saved::order_section(bytes).len()
}
