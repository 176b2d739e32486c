// A book listing in a lent list of rows, for set-up and `finish`: its entries, how often a number is listed, its price levels, and its resting
// orders as they come to stand in the depth (`Depth::of` of marketdata/src/lib.rs).
#![tactic(auto)]

ghost use Rattle.std.specs.Prelude.{◌≡◌, true, ◌+◌, ◌<◌, ◌≤◌, length};
ghost use Rattle.gateway.specs.Depth.{levels_few, levels_fit};
ghost use Rattle.gateway.specs.Listing.{listed_times, resting_in, listed_depth};
ghost use Rattle.store.specs.Layout.{cell};
ghost use Rattle.store.specs.View.{gateway};
ghost use Rattle.store.specs.View as View;
ghost use Rattle.pending.specs.Pending.{key};
ghost use Rattle.sound.specs.Sound.{State, Becomes};
ghost use Rattle.marketdata.specs.Marketdata.{with_depth};
ghost use Rattle.listing.specs.Rows as P;
ghost use Rattle.listing.specs.Rows.{listing, from};
ghost use Rattle.listing.specs.Rests as R;

use store::limits;

// The words of a row. `kind` is 0 for a resting order, else a stop. Of a stop, `priced` is 0 without a limit, `price` its limit, `leaves` its
// quantity, and `visible` is not read; of a resting order `priced` is not.
#[derive(Clone, Copy)]
pub struct Entry {
    pub kind: u64,
    pub number: u64,
    pub owner: u64,
    pub side: u64,
    pub priced: u64,
    pub price: u64,
    pub leaves: u64,
    pub visible: u64,
}

// The bytes of a row.
pub const ROW: usize = 64;

// ---- rows

pub fn rows(list: &[u8]) -> usize
    ensures { result ≡ P.rows list.now }
{
    list.len() / ROW
}

fn word(list: &[u8], j: usize, k: usize) -> u64
    requires { (j < P.rows list.now) × (k < 8) }
    ensures { result ≡ P.word_at list.now j k }
{
    le::get_u64(list, ROW * j + 8 * k)
}

pub fn entry_at(list: &[u8], j: usize) -> Entry
    requires { j < P.rows list.now }
    ensures { result ≡ P.entry list.now j }
{
    Entry {
        kind: word(list, j, 0),
        number: word(list, j, 1),
        owner: word(list, j, 2),
        side: word(list, j, 3),
        priced: word(list, j, 4),
        price: word(list, j, 5),
        leaves: word(list, j, 6),
        visible: word(list, j, 7),
    }
}

// ---- numbers

// 1 where the row bears that number, else 0.
fn bears(list: &[u8], j: usize, number: u64) -> usize
    requires { j < P.rows list.now }
    ensures { listed_times number (from j list.now) ≡ result + listed_times number (from (j + 1) list.now) }
{
    if word(list, j, 1) == number { 1 } else { 0 }
}

// How often a number is listed.
pub fn times(list: &[u8], number: u64) -> usize
    ensures { result ≡ listed_times number (listing list.now) }
{
    let mut n: usize = 0;
    for j in (0..rows(list)).rev() {
        n += bears(list, j, number);
    }
    n
}

// ---- price levels. A level is a side's code and a price's word.

fn is_at(e: Entry, side: u64, price: u64) -> bool
    ensures { result ≡ R.rests_at (key side price) (P.listed_as e) }
{
    if e.kind != 0 {
        return false;
    }
    if pending::changed::same_price(price, e.price) {
        return pending::changed::same_side(side, e.side);
    }
    false
}

// 1 where the row's order rests at that level, else 0.
fn counts(list: &[u8], j: usize, side: u64, price: u64) -> usize
    requires { j < P.rows list.now }
    ensures { (R.level_from (key side price) j list.now).orders ≡ result + (R.level_from (key side price) (j + 1) list.now).orders }
{
    let e = entry_at(list, j);
    if is_at(e, side, price) { 1 } else { 0 }
}

// How many orders of the rows from i on rest at that level.
fn orders_from(list: &[u8], i: usize, side: u64, price: u64) -> usize
    requires { i ≤ P.rows list.now }
    ensures { result ≡ (R.level_from (key side price) i list.now).orders }
{
    let mut n: usize = 0;
    for j in (i..rows(list)).rev() {
        n += counts(list, j, side, price);
    }
    n
}

// 1 where the row's order has a level of that side that no row behind it has, else 0.
fn opens(list: &[u8], j: usize, side: u64) -> usize
    requires { j < P.rows list.now }
    ensures { length (R.levels_from (View.side side) j list.now) ≡ result + length (R.levels_from (View.side side) (j + 1) list.now) }
{
    let e = entry_at(list, j);
    if is_at(e, side, e.price) {
        if orders_from(list, j + 1, side, e.price) == 0 {
            return 1;
        }
    }
    0
}

// How many levels a side has.
fn count_levels(list: &[u8], side: u64) -> usize
    ensures { result ≡ length (R.levels_from (View.side side) 0 list.now) }
{
    let mut n: usize = 0;
    for j in (0..rows(list)).rev() {
        n += opens(list, j, side);
    }
    n
}

// Code 5: at most 512 levels a side.
pub fn levels_few(list: &[u8]) -> bool
    ensures { result ≡ levels_few (resting_in (listing list.now)) }
{
    if count_levels(list, 0) <= limits::MOST_LEVELS {
        return count_levels(list, 1) <= limits::MOST_LEVELS;
    }
    false
}

// What the row's order shows at that level, else 0.
fn shows(list: &[u8], j: usize, side: u64, price: u64) -> u64
    requires { j < P.rows list.now }
    ensures { (R.level_from (key side price) j list.now).qty ≡ result + (R.level_from (key side price) (j + 1) list.now).qty }
{
    let e = entry_at(list, j);
    if is_at(e, side, price) { e.visible } else { 0 }
}

// What the orders of the rows from i on show at that level.
fn shown_from(list: &[u8], i: usize, side: u64, price: u64) -> u64
    requires { (i ≤ P.rows list.now) × (levels_fit (resting_in (from i list.now)) ≡ true) }
    ensures { result ≡ (R.level_from (key side price) i list.now).qty }
{
    let mut q: u64 = 0;
    for j in (i..rows(list)).rev() {
        q += shows(list, j, side, price);
    }
    q
}

// The levels of the rows from j on are in range, where those of the rows behind are.
fn row_fits(list: &[u8], j: usize) -> bool
    requires { (j < P.rows list.now) × (levels_fit (resting_in (from (j + 1) list.now)) ≡ true) }
    ensures { result ≡ levels_fit (resting_in (from j list.now)) }
{
    let e = entry_at(list, j);
    if e.kind != 0 {
        return true;
    }
    shown_from(list, j + 1, e.side, e.price) <= limits::GREATEST - e.visible
}

// Code 7: what each level shows is in range.
pub fn levels_fit(list: &[u8]) -> bool
    ensures { result ≡ levels_fit (resting_in (listing list.now)) }
{
    for j in (0..rows(list)).rev() {
        if !row_fits(list, j) {
            return false;
        }
    }
    true
}

// ---- the depth

// The row's order rests; a stop does not.
fn rest_row(m: &mut [u8], list: &[u8], j: usize)
    requires { State m.old × (j < P.rows list.now) × R.CanJoin (P.row list.now j) (cell m.old) }
    ensures { Becomes m.new (with_depth (R.rested (P.row list.now j)) (gateway (cell m.old))) }
{
    let e = entry_at(list, j);
    if e.kind == 0 {
        let at = orders::find_live(m, e.number);
        marketdata::rest(m, e.number, e.side, e.price, e.visible, e.leaves, at, 0);
    }
}

// The resting orders come to stand in the depth, which is empty.
pub fn rest_all(m: &mut [u8], list: &[u8])
    requires { State m.old × R.CanRest (listing list.now) (gateway (cell m.old)) }
    ensures { Becomes m.new (with_depth (λ _. listed_depth (listing list.now)) (gateway (cell m.old))) }
{
    for j in (0..rows(list)).rev() {
        rest_row(m, list, j);
    }
}
