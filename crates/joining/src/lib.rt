// An account is added: `add_account` of exchange.rs.
#![tactic(auto)]

ghost use Rattle.std.specs.Prelude.{◌≡◌};
ghost use Rattle.gateway.specs.Ledger.{account};
ghost use Rattle.gateway.specs.Core.{tests};
ghost use Rattle.gateway.specs.Entry.{nothing};
ghost use Rattle.gateway.specs.Calls.{call, add_account};
ghost use Rattle.store.specs.Layout.{cell};
ghost use Rattle.store.specs.View.{gateway};
ghost use Rattle.sound.specs.Sound.{State};
ghost use Rattle.outcome.specs.Between.{Between};
ghost use Rattle.outcome.specs.Refusals.{code_of};
ghost use Rattle.outcome.specs.Answers.{verdict, Says};

use accounts::Account;
use outcome::Refusal;
use store::cells;

// The first test that fails. Open orders are counted for every slot, also for one without an account.
fn judge(m: &[u8], a: Account) -> Result<(), Refusal>
    requires { State m.now }
    ensures { code_of result ≡ verdict (tests (account a) (gateway (cell m.now)).core) }
{
    let i = a.id as usize;
    if pending::header::word_at(m, cells::OWNER_LIMIT) <= a.id as u64 {
        return Err(Refusal::OutOfRange);
    }
    if clients::has_account(m, i) {
        return Err(Refusal::Exists);
    }
    if clients::open_orders(m, i) != 0 {
        return Err(Refusal::HasOrders);
    }
    Ok(())
}

pub fn add_account(m: &mut [u8], a: Account) -> Result<(), Refusal>
    requires { Between m.old }
    ensures { Says nothing (call (gateway (cell m.old)) (add_account a)) (code_of result) m.old m.new }
{
    judge(m, a)?;
    start::enter(m, a);
    Ok(())
}
