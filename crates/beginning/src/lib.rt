// Set-up and restore over the lent slice of account records (`Exchange::new` of exchange.rs): it is walked once (`roster::gather`), and what begins
// takes the accounts by value.
#![tactic(auto)]

ghost use Rattle.std.specs.Prelude.{[], ◌∷◌};
ghost use Rattle.words.specs.Words.{int};
ghost use Rattle.gateway.specs.Start.{set_up, restore};
ghost use Rattle.store.specs.Layout.{Holds};
ghost use Rattle.listing.specs.Rows.{listing};
ghost use Rattle.outcome.specs.Refusals.{code_of};
ghost use Rattle.opening.specs.Starts.{Starts};

use accounts::{Account, Timing};
use outcome::Refusal;

pub fn set_up(
    m: &mut [u8],
    fee: u64,
    limit: u64,
    last: u64,
    timing: Timing,
    accounts: &[Account],
    list: &[u8],
) -> Result<(), Refusal>
    requires { Holds m.old }
    ensures { Starts (set_up (int fee) limit last accounts.now (listing list.now) timing) (code_of result) m.old m.new }
{
    let r = roster::gather(limit, accounts);
    setup::set_up(m, fee, limit, last, timing, r, list)
}

pub fn restore(
    m: &mut [u8],
    fee: u64,
    limit: u64,
    timing: Timing,
    accounts: &[Account],
    bytes: &[u8],
) -> Result<(), Refusal>
    requires { Holds m.old }
    ensures { Starts (restore (int fee) limit accounts.now timing bytes.now) (code_of result) m.old m.new }
{
    let r = roster::gather(limit, accounts);
    restore::restore(m, fee, limit, timing, r, bytes)
}

// With one account.
pub fn set_up_one(
    m: &mut [u8],
    fee: u64,
    limit: u64,
    last: u64,
    timing: Timing,
    account: Account,
    list: &[u8],
) -> Result<(), Refusal>
    requires { Holds m.old }
    ensures { Starts (set_up (int fee) limit last (account ∷ []) (listing list.now) timing) (code_of result) m.old m.new }
{
    let accounts = [account];
    set_up(m, fee, limit, last, timing, &accounts, list)
}

pub fn restore_one(
    m: &mut [u8],
    fee: u64,
    limit: u64,
    timing: Timing,
    account: Account,
    bytes: &[u8],
) -> Result<(), Refusal>
    requires { Holds m.old }
    ensures { Starts (restore (int fee) limit (account ∷ []) timing bytes.now) (code_of result) m.old m.new }
{
    let accounts = [account];
    restore(m, fee, limit, timing, &accounts, bytes)
}
