// A gateway starts from a checkpoint's bytes and the accounts of the moment (`restore` of document 01): everything is judged before a byte is written.
#![tactic(auto)]

ghost use Rattle.std.specs.Prelude.{◌≡◌, true, ◌≤◌, ◌<◌, length, is_some};
ghost use Rattle.words.specs.Words.{int};
ghost use Rattle.gateway.specs.Bytes.{decode};
ghost use Rattle.gateway.specs.Limits.{owner_slots};
ghost use Rattle.gateway.specs.Start.{wallets_below, order_tests, restore};
ghost use Rattle.store.specs.Layout.{Holds};
ghost use Rattle.outcome.specs.Refusals.{code_of};
ghost use Rattle.outcome.specs.Answers.{verdict};
ghost use Rattle.roster.specs.Rostered.{Numbered};
ghost use Rattle.opening.specs.Starts.{Begins};
ghost use Rattle.saved.specs.Contents.{saved_of, order_at};
ghost use Rattle.refill.specs.Refill.{Fits};
ghost use Rattle.restore.specs.Judging as P;

use accounts::Timing;
use outcome::Refusal;
use roster::Roster;
use store::limits;
use totals::Source;

// ---- judging

// Whether every wallet of the bytes is one of an account below the owner limit.
fn wallets_fit(limit: u64, bytes: &[u8]) -> bool
    requires { is_some (decode bytes.now) ≡ true }
    ensures { result ≡ wallets_below limit (saved_of bytes.now).wallets }
{
    let n = saved::wallets(bytes);
    for j in 0..n {
        let w = saved::wallet(bytes, j);
        if limit <= w.account as u64 {
            return false;
        }
    }
    true
}

// An order's number is at most the last, and its account is below the owner limit.
fn judge_numbers(limit: u64, last: u64, number: u64, account: u64) -> Result<(), Refusal>
    ensures { code_of result ≡ P.order_code limit last number account }
{
    if last < number {
        return Err(Refusal::Foreign);
    }
    if limit <= account {
        return Err(Refusal::OutOfRange);
    }
    Ok(())
}

fn judge_order(limit: u64, last: u64, bytes: &[u8], j: usize) -> Result<(), Refusal>
    requires { (is_some (decode bytes.now) ≡ true) × (j < length (saved_of bytes.now).orders) }
    ensures { code_of result ≡ P.code_at limit last (order_at bytes.now j) }
{
    let number = saved::number(bytes, j);
    let o = saved::order(bytes, j);
    judge_numbers(limit, last, number, o.account)
}

// The refusal of the first order's test that fails.
fn judge_orders(limit: u64, bytes: &[u8]) -> Result<(), Refusal>
    requires { is_some (decode bytes.now) ≡ true }
    ensures { code_of result ≡ verdict (order_tests limit (saved_of bytes.now).last (saved_of bytes.now).orders) }
{
    let last = saved::last(bytes);
    let n = saved::orders(bytes);
    for j in 0..n {
        judge_order(limit, last, bytes, j)?;
    }
    Ok(())
}

// Every test but the last; `below` is whether each account is below the owner limit.
fn judge_entries(limit: u64, below: bool, bytes: &[u8]) -> Result<(), Refusal>
    requires { is_some (decode bytes.now) ≡ true }
    ensures { code_of result ≡ verdict (P.entry_tests limit below (saved_of bytes.now)) }
{
    if (limits::OWNER_SLOTS as u64) < limit {
        return Err(Refusal::Full);
    }
    if !below {
        return Err(Refusal::OutOfRange);
    }
    if !wallets_fit(limit, bytes) {
        return Err(Refusal::OutOfRange);
    }
    judge_orders(limit, bytes)
}

// The refusal of the first test that fails.
fn judge(fee: u64, limit: u64, accounts: Roster, bytes: &[u8]) -> Result<(), Refusal>
    ensures { code_of result ≡ P.code_of (int fee) limit accounts bytes.now }
{
    if !saved::is_whole(bytes) {
        return Err(Refusal::Malformed);
    }
    judge_entries(limit, accounts.below, bytes)?;
    if !totals::all_fit(fee, Source::Saved, bytes, accounts) {
        return Err(Refusal::Outside);
    }
    Ok(())
}

// The fee first.
fn judge_all(fee: u64, limit: u64, accounts: Roster, bytes: &[u8]) -> Result<(), Refusal>
    ensures { code_of result ≡ P.all_code (int fee) limit accounts bytes.now }
{
    if words::not_negative(fee) {
        return judge(fee, limit, accounts, bytes);
    }
    Err(Refusal::BadFee)
}

// ---- starting

fn begin(m: &mut [u8], fee: u64, limit: u64, timing: Timing, accounts: Roster, bytes: &[u8])
    requires { Holds m.old × (limit ≤ owner_slots) × Numbered limit accounts × (is_some (decode bytes.now) ≡ true) × Fits (saved_of bytes.now) }
    ensures { P.Restored (int fee) limit timing accounts (saved_of bytes.now) m.new }
{
    let last = saved::last(bytes);
    opening::open(m, fee, limit, last, timing, accounts);
    refill::refill(m, bytes);
}

// m: any bytes of the state's length.
pub fn restore(
    m: &mut [u8],
    fee: u64,
    limit: u64,
    timing: Timing,
    accounts: Roster,
    bytes: &[u8],
) -> Result<(), Refusal>
    requires { Holds m.old × Numbered limit accounts }
    ensures { Begins limit accounts (λ l. restore (int fee) limit l timing bytes.now) (code_of result) m.old m.new }
{
    judge_all(fee, limit, accounts, bytes)?;
    begin(m, fee, limit, timing, accounts, bytes);
    Ok(())
}
