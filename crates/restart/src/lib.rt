// What is claimed of the entry points, demand 3 of document 01 first. Nothing calls these functions: they are here for their proofs.
#![tactic(auto)]

ghost use Rattle.std.specs.Prelude.{[], ◌∷◌, length};
ghost use Rattle.words.specs.Words.{int};
ghost use Rattle.gateway.specs.Start.{set_up, restore};
ghost use Rattle.store.specs.Layout.{Holds};
ghost use Rattle.listing.specs.Rows.{listing};
ghost use Rattle.edge.specs.Entering.{Lent};
ghost use Rattle.playing.specs.Steps.{formed, asks};
ghost use Rattle.restart.specs.Chain.{Tries, Makes};
ghost use Rattle.restart.specs.Claims.{Claims};

use accounts::{Account, Timing};

// What specs/Claims.antt claims holds.
pub fn claims()
    ensures { Claims }
{}

// A call of the entry points, whichever a row asks for, is a step of a chain: by the contract of the function that makes all of them.
pub fn step(m: &mut [u8], row: &[u8], given: &[u8], got: &mut [u8], out: &mut [u8])
    requires { Lent m.old }
    ensures { Makes (record { formed = formed row.now given.now; for = asks row.now given.now (length out.old) }) m.old m.new }
{
    replaying::call(m, row, given, got, out);
}

// What `beginning` starts begins a chain, by its contracts.
pub fn set_up(
    m: &mut [u8],
    fee: u64,
    limit: u64,
    last: u64,
    timing: Timing,
    account: Account,
    list: &[u8],
) -> u64
    requires { Holds m.old }
    ensures { Tries (set_up (int fee) limit last (account ∷ []) (listing list.now) timing) result m.old m.new }
{
    numbers::code_of(beginning::set_up_one(m, fee, limit, last, timing, account, list))
}

pub fn restore(
    m: &mut [u8],
    fee: u64,
    limit: u64,
    timing: Timing,
    account: Account,
    bytes: &[u8],
) -> u64
    requires { Holds m.old }
    ensures { Tries (restore (int fee) limit (account ∷ []) timing bytes.now) result m.old m.new }
{
    numbers::code_of(beginning::restore_one(m, fee, limit, timing, account, bytes))
}
