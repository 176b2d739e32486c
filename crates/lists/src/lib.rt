// The lists that a start and `finish` are handed, in rows: whether each row is one, and the accounts gathered.
#![tactic(auto)]

ghost use Rattle.std.specs.Prelude.{◌≡◌, leb};
ghost use Rattle.listing.specs.Rows.{rows};
ghost use Rattle.script.specs.Strict.{all_fit};
ghost use Rattle.script.specs.Records.{accounts_in};
ghost use Rattle.roster.specs.Rostered.{nobody, entered};
ghost use Rattle.lists.specs.Lists as P;

use listing::Entry;
use roster::Roster;
use script::{records, strict};

// ---- a book listing: whole rows, and each kind, owner, side and flag in its range

fn at_most(w: u64, most: u64) -> bool
    ensures { result ≡ leb w most }
{
    w <= most
}

fn flags_fit(e: Entry) -> bool
    ensures { result ≡ P.flags_fit e }
{
    if at_most(e.side, 1) {
        return at_most(e.priced, 1);
    }
    false
}

fn owner_fits(e: Entry) -> bool
    ensures { result ≡ P.owner_fits e }
{
    if at_most(e.owner, strict::MOST_32) {
        return flags_fit(e);
    }
    false
}

fn entry_fits(e: Entry) -> bool
    ensures { result ≡ P.entry_fits e }
{
    if at_most(e.kind, 1) {
        return owner_fits(e);
    }
    false
}

fn entries_fit(list: &[u8]) -> bool
    ensures { result ≡ all_fit (P.entry_fits_at list.now) (rows list.now) }
{
    for j in (0..listing::rows(list)).rev() {
        let e = listing::entry_at(list, j);
        if !entry_fits(e) {
            return false;
        }
    }
    true
}

pub fn is_listing(list: &[u8]) -> bool
    ensures { result ≡ P.is_listing list.now }
{
    if list.len() % listing::ROW == 0 {
        return entries_fit(list);
    }
    false
}

// ---- what a start is handed

// The roster of the accounts in the rows.
pub fn gather(limit: u64, accounts: &[u8]) -> Roster
    ensures { result ≡ entered limit nobody (accounts_in accounts.now) }
{
    let n = records::account_rows(accounts);
    let mut r = roster::nobody();
    for j in 0..n {
        let a = records::account_at(accounts, j);
        r = roster::enter(r, limit, a);
    }
    r
}

pub fn are_rows(accounts: &[u8], list: &[u8]) -> bool
    ensures { result ≡ P.are_rows accounts.now list.now }
{
    if strict::are_accounts(accounts) {
        return is_listing(list);
    }
    false
}
