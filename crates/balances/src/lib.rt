// An account's balance: `Wallet::balance` of wallet.rs for the row of an account, and the call `wallet`.
#![tactic(auto)]

ghost use Rattle.std.specs.Prelude.{◌≡◌, true, ◌<◌, is_some};
ghost use Rattle.gateway.specs.Limits.{owner_slots};
ghost use Rattle.gateway.specs.Entry.{wallet_is, balance};
ghost use Rattle.gateway.specs.Calls as Calls;
ghost use Rattle.gateway.specs.Calls.{call};
ghost use Rattle.store.specs.Cells as C;
ghost use Rattle.store.specs.Layout.{cell};
ghost use Rattle.store.specs.View.{wallet, gateway};
ghost use Rattle.outcome.specs.Between.{Between};
ghost use Rattle.outcome.specs.Answers.{Says};
ghost use Rattle.balances.specs.Balances as P;

use protocol::Balance;
use store::limits;

// Of an account that has a wallet.
pub fn balance_of(m: &[u8], a: usize) -> Balance
    requires { P.Exact m.now × (a < owner_slots) × (is_some (wallet (cell m.now C.accounts a)) ≡ true) }
    ensures { Some result ≡ balance a (gateway (cell m.now)).core }
{
    clients::wallet_at(m, a).balance()
}

// None for an account without a wallet.
pub fn balance_at(m: &[u8], a: usize) -> Option<Balance>
    requires { P.Exact m.now × (a < owner_slots) }
    ensures { result ≡ balance a (gateway (cell m.now)).core }
{
    if clients::is_funded(m, a) {
        return Some(balance_of(m, a));
    }
    None
}

// What an account owns and what its orders hold; none without a wallet.
pub fn wallet(m: &[u8], account: u32) -> Option<Balance>
    requires { Between m.now }
    ensures { Says (wallet_is result) (call (gateway (cell m.now)) (Calls.wallet account)) 0 m.now m.now }
{
    let a = account as usize;
    if a < limits::OWNER_SLOTS {
        return balance_at(m, a);
    }
    None
}
