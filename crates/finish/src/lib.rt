// A restart ends: the book's listing is compared with the live orders, and the depth is taken from it (`finish` of exchange.rs).
#![tactic(auto)]

ghost use Rattle.std.specs.Prelude.{◌≡◌, [], ◌≤◌, ◌<◌, Some};
ghost use Rattle.gateway.specs.Entry.{nothing};
ghost use Rattle.gateway.specs.Ledger.{find};
ghost use Rattle.gateway.specs.Listing.{entry_agrees, entries_agree, listing_agrees};
ghost use Rattle.gateway.specs.Calls.{call, finish, finished, finish_tests};
ghost use Rattle.store.specs.Cells as C;
ghost use Rattle.store.specs.Layout.{cell, Holds};
ghost use Rattle.store.specs.View.{order, order_room, ledger, gateway, Is, Ready};
ghost use Rattle.sound.specs.Sound.{State, Becomes};
ghost use Rattle.outcome.specs.Between.{Between};
ghost use Rattle.outcome.specs.Parts.{with_rest};
ghost use Rattle.outcome.specs.Refusals.{code_of};
ghost use Rattle.outcome.specs.Answers.{Says, verdict};
ghost use Rattle.listing.specs.Rows.{listed_as, rows, row, listing};
ghost use Rattle.finish.specs.Clearing as P;

use listing::Entry;
use outcome::Refusal;
use store::{cells, limits};

// ---- code 8

// The live order in the row i agrees with the entry of its number: of a resting order leaves and account, of a stop nothing more.
fn is_same(m: &[u8], i: usize, e: Entry) -> bool
    requires { Holds m.now × (i < order_room) }
    ensures { result ≡ entry_agrees (listed_as e) (Some (order (cell m.now C.orders i))) }
{
    if e.kind != 0 {
        return true;
    }
    let o = orders::live_at(m, i);
    if o.leaves == e.leaves {
        return o.account == e.owner;
    }
    false
}

// The entry's order is live and agrees.
fn is_live(m: &[u8], e: Entry) -> bool
    requires { State m.now }
    ensures { result ≡ entry_agrees (listed_as e) (find e.number (ledger (cell m.now)).orders) }
{
    if let Some(i) = orders::find_live(m, e.number) {
        return is_same(m, i, e);
    }
    false
}

fn row_agrees(m: &[u8], list: &[u8], j: usize) -> bool
    requires { State m.now × (j < rows list.now) }
    ensures { result ≡ P.agrees_once (listing list.now) (ledger (cell m.now)).orders (row list.now j) }
{
    let e = listing::entry_at(list, j);
    if is_live(m, e) {
        return listing::times(list, e.number) == 1;
    }
    false
}

fn rows_agree(m: &[u8], list: &[u8]) -> bool
    requires { State m.now }
    ensures { result ≡ entries_agree (listing list.now) (listing list.now) (ledger (cell m.now)).orders }
{
    for j in (0..listing::rows(list)).rev() {
        if !row_agrees(m, list, j) {
            return false;
        }
    }
    true
}

// The listing has the live orders. As many rows as orders are tested first, so that no more than 1,024 rows are read.
fn agrees(m: &[u8], list: &[u8]) -> bool
    requires { State m.now }
    ensures { result ≡ listing_agrees (listing list.now) (ledger (cell m.now)).orders }
{
    if listing::rows(list) as u64 == pending::header::word_at(m, cells::LIVE_ORDERS) {
        return rows_agree(m, list);
    }
    false
}

// The refusal of the first test that fails.
fn judge(m: &[u8], list: &[u8]) -> Result<(), Refusal>
    requires { State m.now }
    ensures { code_of result ≡ verdict (finish_tests (listing list.now) (gateway (cell m.now)).core) }
{
    if !agrees(m, list) {
        return Err(Refusal::Inconsistent);
    }
    if !listing::levels_few(list) {
        return Err(Refusal::Full);
    }
    if !listing::levels_fit(list) {
        return Err(Refusal::Outside);
    }
    Ok(())
}

// ---- the old depth goes

fn unrest(m: &mut [u8], i: usize)
    requires { Holds m.old × (i < order_room) }
    ensures { Is m.new (P.unrest i (cell m.old)) }
{
    let live = store::get(m, store::ORDERS, i, cells::ORDER_LIVE);
    store::set(m, store::ORDERS, i, cells::ORDER_RESTING, 0);
    store::set(m, store::ORDERS, i, cells::ORDER_KEPT, live);
}

fn unrest_rows(m: &mut [u8], n: usize)
    requires { Holds m.old × (n ≤ order_room) }
    ensures { Is m.new (P.unrested n (cell m.old)) }
{
    for i in 0..n {
        unrest(m, i);
    }
}

// No row is a level, and the map of orders follows its rows.
fn remake_maps(m: &mut [u8])
    requires { Holds m.old }
    ensures { Is m.new (P.remade_maps (cell m.old)) }
{
    bitmap::clear(m, store::BID_MAP, limits::MOST_LEVELS);
    bitmap::clear(m, store::ASK_MAP, limits::MOST_LEVELS);
    orders::remap(m);
}

// The eight counts from the resting orders to the levels are 0, and no changed level has a top.
fn clear(m: &mut [u8])
    requires { Ready m.old }
    ensures { Is m.new (P.cleared (cell m.old)) }
{
    let n = pending::header::word_at(m, cells::ORDER_ROWS);
    let last = pending::header::word_at(m, cells::LAST);
    let changed = pending::header::word_at(m, cells::CHANGED_ROWS);
    pending::changed::forget_tops(m, changed as usize);
    unrest_rows(m, n as usize);
    store::fill(
        m,
        store::HEADER,
        0,
        cells::RESTING_ORDERS,
        &[0, 0, 0, 0, 0, 0, 0, 0],
    );
    store::fill(m, store::HEADER, 0, cells::DELIVERED, &[last, last]);
    remake_maps(m);
}

fn reset(m: &mut [u8])
    requires { State m.old }
    ensures { Becomes m.new (with_rest (finished [] (gateway (cell m.old)).core) (gateway (cell m.old))) }
{
    clear(m);
}

// ---- the call

fn apply(m: &mut [u8], list: &[u8])
    requires { Between m.old × (0 ≡ verdict (finish_tests (listing list.now) (gateway (cell m.old)).core)) }
    ensures { Becomes m.new (with_rest (finished (listing list.now) (gateway (cell m.old)).core) (gateway (cell m.old))) }
{
    reset(m);
    listing::rest_all(m, list);
}

// The rows of the listing are those of crate `listing`.
pub fn finish(m: &mut [u8], list: &[u8]) -> Result<(), Refusal>
    requires { Between m.old }
    ensures { Says nothing (call (gateway (cell m.old)) (finish (listing list.now))) (code_of result) m.old m.new }
{
    judge(m, list)?;
    apply(m, list);
    Ok(())
}
