// What set-up and restore share: the state that begins, with the accounts of a roster (`Exchange::new` of exchange.rs).
#![tactic(auto)]

ghost use Rattle.std.specs.Prelude.{◌≡◌, ◌≤◌};
ghost use Rattle.words.specs.Words.{int};
ghost use Rattle.gateway.specs.Limits.{owner_slots};
ghost use Rattle.store.specs.Cells as C;
ghost use Rattle.store.specs.Layout.{cell, Holds};
ghost use Rattle.store.specs.View.{word};
ghost use Rattle.sound.specs.Sound.{State};
ghost use Rattle.roster.specs.Rostered.{Numbered};
ghost use Rattle.opening.specs.Opening as P;

use accounts::{Account, Timing};
use roster::Roster;

// The account of a slot is entered, where there is one.
fn enter(m: &mut [u8], account: Option<Account>)
    requires { State m.old × P.CanEnter account m.old }
    ensures { P.Enters account m.old m.new }
{
    if let Some(a) = account {
        start::enter(m, a);
    }
}

// The accounts of a roster, ascending by number.
fn enter_all(m: &mut [u8], accounts: Roster)
    requires { State m.old × Numbered (word (cell m.old) C.owner_limit) accounts }
    ensures { P.Admits (P.present accounts owner_slots) m.old m.new }
{
    for account in &accounts.slots {
        enter(m, *account);
    }
}

// The state that begins, with the accounts of a roster and no orders.
pub fn open(m: &mut [u8], fee: u64, limit: u64, last: u64, timing: Timing, accounts: Roster)
    requires { Holds m.old × (limit ≤ owner_slots) × Numbered limit accounts }
    ensures { P.Stands (int fee) limit last timing (P.present accounts owner_slots) m.new }
{
    start::start(m, fee, limit, last, timing);
    enter_all(m, accounts);
}
