// What the events of the book share: the tests of 01 in their order, and the run of numbers (`deliver` of exchange.rs).
#![tactic(auto)]

ghost use Rattle.std.specs.Prelude.{◌≡◌, true, ◌≤◌, ◌<◌, ltb, leb};
ghost use Rattle.gateway.specs.Core.{owner_limit, in_flight};
ghost use Rattle.store.specs.Layout.{cell};
ghost use Rattle.store.specs.View.{gateway};
ghost use Rattle.sound.specs.Sound.{State, Becomes};
ghost use Rattle.outcome.specs.Refusals.{code_of};
ghost use Rattle.outcome.specs.Answers.{verdict};
ghost use Rattle.delivery.specs.Delivery as P;

use outcome::Refusal;
use store::cells;

// Whether each test passes, in the order of the definitions: a test that an event does not have is true.
#[derive(Clone, Copy)]
pub struct Tests {
    pub flying: bool,
    pub below: bool,
    pub numbers: bool,
    pub agrees: bool,
    pub holds: bool,
    pub levels: bool,
    pub depth: bool,
    pub trades: bool,
    pub notices: bool,
    pub room: bool,
}

// One test: the refusal where it fails.
pub fn check(ok: bool, why: Refusal) -> Result<(), Refusal>
    ensures { result ≡ P.check ok why }
{
    if ok { Ok(()) } else { Err(why) }
}

// The refusal of the first test that fails.
pub fn judge(t: Tests) -> Result<(), Refusal>
    ensures { code_of result ≡ verdict (P.tests t) }
{
    check(t.flying, Refusal::Sequence)?;
    check(t.below, Refusal::OutOfRange)?;
    check(t.numbers, Refusal::Inconsistent)?;
    check(t.agrees, Refusal::Inconsistent)?;
    check(t.holds, Refusal::Outside)?;
    check(t.levels, Refusal::Outside)?;
    check(t.depth, Refusal::Full)?;
    check(t.trades, Refusal::Full)?;
    check(t.notices, Refusal::Full)?;
    check(t.room, Refusal::TooShort)
}

// A number below the owner limit.
pub fn is_owner(m: &[u8], owner: u64) -> bool
    requires { State m.now }
    ensures { result ≡ ltb owner (owner_limit (gateway (cell m.now)).core) }
{
    owner < pending::header::word_at(m, cells::OWNER_LIMIT)
}

pub fn is_flying(m: &[u8], n: u64) -> bool
    requires { State m.now }
    ensures { result ≡ in_flight n (gateway (cell m.now)).core }
{
    pending::in_flight(m, n)
}

// An event of command n: those below n have had theirs, and n is delivered.
pub fn land(m: &mut [u8], n: u64)
    requires { State m.old × (in_flight n (gateway (cell m.old)).core ≡ true) }
    ensures { Becomes m.new (P.landed n (gateway (cell m.old))) }
{
    pending::land(m, n);
    pending::header::set_delivered(m, n);
}
