// The start without orders, and without a row of them: the fee, the last number, the owner limit and the timing; then the accounts, one by one.
#![tactic(auto)]

ghost use Rattle.std.specs.Prelude.{◌≡◌, [], ◌≤◌, ◌<◌};
ghost use Rattle.words.specs.Words.{int};
ghost use Rattle.gateway.specs.Fits.{AccountFits};
ghost use Rattle.gateway.specs.Limits.{owner_slots};
ghost use Rattle.store.specs.Cells as C;
ghost use Rattle.store.specs.Layout.{cell, Holds};
ghost use Rattle.store.specs.View.{word, gateway};
ghost use Rattle.sound.specs.Sound.{State, Becomes};
ghost use Rattle.start.specs.Start as P;

use accounts::{Account, Timing};
use store::cells;

pub fn start(m: &mut [u8], fee: u64, limit: u64, last: u64, timing: Timing)
    requires { Holds m.old × (limit ≤ owner_slots) }
    ensures { Becomes m.new (P.begun (int fee) limit last timing []) × (word (cell m.new) C.order_rows ≡ 0) }
{
    store::clear(m);
    store::fill(m, store::HEADER, 0, cells::LAST, &[last, last, last]);
    store::fill(
        m,
        store::HEADER,
        0,
        cells::OWNER_LIMIT,
        &[limit, timing.heartbeat, timing.idle_timeout],
    );
    store::fill(m, store::HEADER, 0, cells::FEE, &[fee]);
}

// An account is added; one that was there before is replaced. That its funds fit comes of their type.
pub fn enter(m: &mut [u8], a: Account)
    requires { State m.old × (a.id < word (cell m.old) C.owner_limit) }
    ensures { Becomes m.new (P.entering a (gateway (cell m.old))) × AccountFits a × (word (cell m.new) C.order_rows ≡ word (cell m.old) C.order_rows) }
{
    clients::add_account(m, a);
}
