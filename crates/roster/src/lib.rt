// The accounts that set-up and restore are given: a lent slice of records becomes a table by account number (`Exchange::new` of exchange.rs).
#![tactic(auto)]

ghost use Rattle.std.specs.Prelude.{◌≡◌, is_some};
ghost use Rattle.gateway.specs.Start.{funds_in};
ghost use Rattle.roster.specs.Rostered as P;

use accounts::Account;
use store::limits;

// The accounts by number, and whether each number was below the owner limit.
#[derive(Clone, Copy)]
pub struct Roster {
    pub below: bool,
    pub slots: [Option<Account>; 256],
}

// No account.
pub fn nobody() -> Roster
    ensures { result ≡ P.nobody }
{
    Roster {
        below: true,
        slots: [None; 256],
    }
}

// One account more; a repeated account's last entry wins.
pub fn enter(r: Roster, limit: u64, a: Account) -> Roster
    ensures { result ≡ P.enter limit r a }
{
    let i = a.id as usize;
    let mut slots = r.slots;
    if limit <= i as u64 {
        return Roster {
            below: false,
            slots,
        };
    }
    if limits::OWNER_SLOTS <= i {
        return r;
    }
    slots[i] = Some(a);
    Roster {
        below: r.below,
        slots,
    }
}

// Whether there is an account, with a wallet.
pub fn is_funded(account: Option<Account>) -> bool
    ensures { result ≡ is_some (funds_in account) }
{
    account.is_some_and(|a| a.funds.is_some())
}

// The roster of a lent list of accounts.
pub fn gather(limit: u64, accounts: &[Account]) -> Roster
    ensures { result ≡ P.entered limit P.nobody accounts.now }
{
    let mut r = nobody();
    for a in accounts {
        r = enter(r, limit, *a);
    }
    r
}
