// The tests of an event against the depth, which read only: what an order shows (code 8), a level's quantity (code 7), the room in the
// depth's tables (code 5). `at` is the place of the resting order `id`.
#![tactic(auto)]

ghost use Rattle.std.specs.Prelude.{◌≡◌, not, length, leb, is_some};
ghost use Rattle.words.specs.Words.{int};
ghost use Rattle.gateway.specs.Limits.{most_levels, most_changed};
ghost use Rattle.gateway.specs.Depth as D;
ghost use Rattle.store.specs.Cells as C;
ghost use Rattle.store.specs.Layout.{cell};
ghost use Rattle.store.specs.View.{resting, depth};
ghost use Rattle.store.specs.View as View;
ghost use Rattle.orders.specs.Orders.{Sees, resting_of};
ghost use Rattle.pending.specs.Pending as Pending;
ghost use Rattle.sound.specs.Sound.{State};
ghost use Rattle.marketdata.specs.Marketdata.{Placed, replenished};
ghost use Rattle.outcome.specs.Between.{Between};
ghost use Rattle.shows.specs.Shows as P;

use orders::Resting;
use store::{cells, limits};

// ---- code 8

// No order of that number rests.
pub fn is_absent(m: &[u8], id: u64, at: Option<usize>) -> bool
    requires { Between m.now × Sees C.order_resting resting D.resting_number (cell m.now) id at }
    ensures { result ≡ not (is_some (D.find_resting id (depth (cell m.now)).resting)) }
{
    at.is_none()
}

// A fill of `qty` is at most what the order shows.
pub fn covers(m: &[u8], id: u64, at: Option<usize>, qty: u64) -> bool
    requires { Between m.now × Sees C.order_resting resting D.resting_number (cell m.now) id at }
    ensures { result ≡ D.shows id qty (depth (cell m.now)).resting }
{
    if let Some(i) = at {
        let o = orders::resting_at(m, i);
        return qty <= o.visible;
    }
    true
}

// ---- code 5: the changed levels

// Room for the level of a side, a code, and a price, a word: it is listed once.
fn level_room(m: &[u8], side: u64, price: u64) -> bool
    requires { State m.now }
    ensures { result ≡ leb (length (D.remember (Pending.key side price) (depth (cell m.now)).changed)) most_changed }
{
    if pending::header::word_at(m, cells::CHANGED_ROWS) < limits::MOST_CHANGED {
        return true;
    }
    pending::changed::is_changed(m, side, price)
}

// Room for the level of an order that goes or shows something else.
pub fn has_room(m: &[u8], id: u64, at: Option<usize>) -> bool
    requires { Between m.now × Sees C.order_resting resting D.resting_number (cell m.now) id at }
    ensures { result ≡ P.touched_few id (depth (cell m.now)) }
{
    if let Some(i) = at {
        let o = orders::resting_at(m, i);
        return level_room(m, o.side, o.price);
    }
    true
}

// How many levels more are listed once this one is.
fn adds(m: &[u8], side: u64, price: u64) -> u64
    requires { State m.now }
    ensures { P.Adds (Pending.key side price) (depth (cell m.now)).changed result }
{
    if pending::changed::is_changed(m, side, price) {
        0
    } else {
        1
    }
}

fn same_level(o: Resting, p: Resting) -> bool
    ensures { result ≡ D.same_key (Pending.key o.side o.price) (Pending.key p.side p.price) }
{
    if pending::changed::same_price(o.price, p.price) {
        pending::changed::same_side(o.side, p.side)
    } else {
        false
    }
}

// Room for two levels.
fn levels_room(m: &[u8], o: Resting, p: Resting) -> bool
    requires { State m.now }
    ensures { result ≡ leb (length (D.remember (Pending.key p.side p.price) (D.remember (Pending.key o.side o.price) (depth (cell m.now)).changed))) most_changed }
{
    if same_level(p, o) {
        return level_room(m, o.side, o.price);
    }
    let n = pending::header::word_at(m, cells::CHANGED_ROWS);
    let k = n + adds(m, o.side, o.price);
    k + adds(m, p.side, p.price) <= limits::MOST_CHANGED
}

// Room for the level of o and that of an order, where it rests.
fn other_room(m: &[u8], o: Resting, id: u64, at: Option<usize>) -> bool
    requires { Between m.now × Sees C.order_resting resting D.resting_number (cell m.now) id at }
    ensures { result ≡ leb (length (P.touched id (depth (cell m.now)).resting (D.remember (Pending.key o.side o.price) (depth (cell m.now)).changed))) most_changed }
{
    if let Some(i) = at {
        let p = orders::resting_at(m, i);
        return levels_room(m, o, p);
    }
    level_room(m, o.side, o.price)
}

fn exact_room(
    m: &[u8],
    maker: u64,
    maker_at: Option<usize>,
    taker: u64,
    taker_at: Option<usize>,
) -> bool
    requires { Between m.now × Sees C.order_resting resting D.resting_number (cell m.now) maker maker_at × Sees C.order_resting resting D.resting_number (cell m.now) taker taker_at }
    ensures { result ≡ P.both_few maker taker (depth (cell m.now)) }
{
    if let Some(i) = maker_at {
        let o = orders::resting_at(m, i);
        return other_room(m, o, taker, taker_at);
    }
    has_room(m, taker, taker_at)
}

// Room for the levels of two orders.
pub fn pair_room(
    m: &[u8],
    maker: u64,
    maker_at: Option<usize>,
    taker: u64,
    taker_at: Option<usize>,
) -> bool
    requires { Between m.now × Sees C.order_resting resting D.resting_number (cell m.now) maker maker_at × Sees C.order_resting resting D.resting_number (cell m.now) taker taker_at }
    ensures { result ≡ P.both_few maker taker (depth (cell m.now)) }
{
    if pending::header::word_at(m, cells::CHANGED_ROWS) < limits::MOST_CHANGED - 1 {
        return true;
    }
    exact_room(m, maker, maker_at, taker, taker_at)
}

// ---- code 7

// The level of an order that shows its next part stays in range.
pub fn reshow_fits(m: &[u8], id: u64, at: Option<usize>, visible: u64) -> bool
    requires { Between m.now × Sees C.order_resting resting D.resting_number (cell m.now) id at }
    ensures { result ≡ D.levels_fit (D.where_resting id (replenished visible) (depth (cell m.now))).resting }
{
    if let Some(i) = at {
        let o = orders::resting_at(m, i);
        let l = marketdata::level_of(m, o.side, o.price);
        return l.qty - o.visible <= limits::GREATEST - visible;
    }
    true
}

// The level of an order that comes to rest, whose place is `place`, stays in range.
pub fn join_fits(m: &[u8], id: u64, o: Resting, place: usize) -> bool
    requires { Between m.now × Placed (View.side o.side) (int o.price) m.now place }
    ensures { result ≡ D.levels_fit (D.add (resting_of id o) (depth (cell m.now))).resting }
{
    let l = marketdata::level_at(m, o.side, o.price, place);
    l.qty <= limits::GREATEST - o.visible
}

// ---- code 5: an order that comes to rest

// The levels of its side.
fn side_room(m: &[u8], o: Resting) -> bool
    requires { Between m.now }
    ensures { result ≡ leb (length (D.joined (View.side o.side) (int o.price) o.visible (D.levels (View.side o.side) (depth (cell m.now)).resting))) most_levels }
{
    if levels::size(m, store::side_of(o.side)) < limits::MOST_LEVELS {
        return true;
    }
    let l = marketdata::level_of(m, o.side, o.price);
    l.orders != 0
}

// The resting orders, the levels of its side and the changed levels.
pub fn join_room(m: &[u8], id: u64, o: Resting) -> bool
    requires { Between m.now }
    ensures { result ≡ D.depth_few (D.add (resting_of id o) (depth (cell m.now))) }
{
    if limits::MOST_ORDERS <= pending::header::word_at(m, cells::RESTING_ORDERS) {
        return false;
    }
    if side_room(m, o) {
        return level_room(m, o.side, o.price);
    }
    false
}
