// The levels changed since the last publishing, each once, in order of first change. Those of one slot are chained from the newest on.
ghost use Rattle.std.specs.Prelude.{◌≡◌, ◌≤◌, ◌<◌, length};
ghost use Rattle.words.specs.Words.{int};
ghost use Rattle.gateway.specs.Depth as D;
ghost use Rattle.gateway.specs.Ledger.{same_side};
ghost use Rattle.gateway.specs.Limits.{most_changed};
ghost use Rattle.store.specs.Cells as C;
ghost use Rattle.store.specs.Layout.{cell, Holds};
ghost use Rattle.store.specs.View.{side, word, changed_key, depth, Is, Ready};
ghost use Rattle.pending.specs.Pending as P;

use store::cells;

// A level has the slot of its side and its price's word modulo this.
const SIDE_SLOTS: u64 = 1024;

pub fn same_side(a: u64, b: u64) -> bool
    ensures { result ≡ same_side (side a) (side b) }
{
    if a == 0 { b == 0 } else { b != 0 }
}

pub fn same_price(a: u64, b: u64) -> bool
    ensures { result ≡ D.same_price (int a) (int b) }
{
    a == b
}

// Whether the row i is that level.
fn is_at(m: &[u8], i: usize, side: u64, price: u64) -> bool
    requires { Holds m.now × (i < most_changed) }
    ensures { result ≡ D.same_key (P.key side price) (changed_key (cell m.now C.changed i)) }
{
    if same_price(
        price,
        store::get(m, store::CHANGED, i, cells::CHANGED_PRICE),
    ) {
        same_side(side, store::get(m, store::CHANGED, i, cells::CHANGED_SIDE))
    } else {
        false
    }
}

// The slot of a level.
fn slot(side: u64, price: u64) -> usize
    ensures { (result ≡ P.slot (P.key side price)) × (result < P.slots) }
{
    let i = price % SIDE_SLOTS;
    if side == 0 {
        i as usize
    } else {
        (SIDE_SLOTS + i) as usize
    }
}

// The slot of the row i.
fn slot_at(m: &[u8], i: usize) -> usize
    requires { Holds m.now × (i < most_changed) }
    ensures { result ≡ P.slot_at (cell m.now) i }
{
    let side = store::get(m, store::CHANGED, i, cells::CHANGED_SIDE);
    slot(side, store::get(m, store::CHANGED, i, cells::CHANGED_PRICE))
}

// One more than the newest row of the slot k, or 0.
fn top(m: &[u8], k: usize) -> usize
    requires { Holds m.now × (k < P.slots) }
    ensures { result ≡ P.top (cell m.now) k }
{
    store::get(m, store::TOPS, k, cells::TOP_ROW) as usize
}

// Whether that level is in the chain of its slot, whose top is t.
fn is_in(m: &[u8], t: usize, side: u64, price: u64) -> bool
    requires { Ready m.now × P.Chained (cell m.now) × (t ≡ P.top (cell m.now) (P.slot (P.key side price))) }
    ensures { result ≡ D.is_changed (P.key side price) (depth (cell m.now)).changed }
{
    let mut n = t;
    while 0 < n {
        n -= 1;
        if is_at(m, n, side, price) {
            return true;
        }
        n = store::get(m, store::CHANGED, n, cells::CHANGED_LINK) as usize;
    }
    false
}

pub fn is_changed(m: &[u8], side: u64, price: u64) -> bool
    requires { Ready m.now × P.Chained (cell m.now) }
    ensures { result ≡ D.is_changed (P.key side price) (depth (cell m.now)).changed }
{
    let t = top(m, slot(side, price));
    is_in(m, t, side, price)
}

// A level that is new: k is its slot, and t the slot's top.
fn push(m: &mut [u8], side: u64, price: u64, k: usize, t: usize)
    requires { Ready m.old × (word (cell m.old) C.changed_rows < most_changed) × (k ≡ P.slot (P.key side price)) × (t ≡ P.top (cell m.old) k) }
    ensures { Is m.new (P.push_level side price (cell m.old)) }
{
    let rows = store::get(m, store::HEADER, 0, cells::CHANGED_ROWS);
    let row = [side, price, t as u64];
    crate::push_row(m, store::CHANGED, cells::CHANGED_ROWS, &row);
    store::set(m, store::TOPS, k, cells::TOP_ROW, rows + 1);
}

// The level of that side, a code, and that price, a word, has changed.
pub fn remember(m: &mut [u8], side: u64, price: u64)
    requires { Ready m.old × P.Chained (cell m.old) × (length (D.remember (P.key side price) (depth (cell m.old)).changed) ≤ most_changed) }
    ensures { Is m.new (P.remember side price (cell m.old)) }
{
    let k = slot(side, price);
    let t = top(m, k);
    if is_in(m, t, side, price) {
        return;
    }
    push(m, side, price, k, t);
}

// The slots of the first n rows have no top any more.
pub fn forget_tops(m: &mut [u8], n: usize)
    requires { Holds m.old × (n ≤ most_changed) }
    ensures { Is m.new (P.forget_tops n (cell m.old)) }
{
    for i in 0..n {
        let k = slot_at(m, i);
        store::set(m, store::TOPS, k, cells::TOP_ROW, 0);
    }
}

// A changed level: its side a code, its price a word.
#[derive(Clone, Copy)]
pub struct Changed {
    pub side: u64,
    pub price: u64,
}

pub fn level_at(m: &[u8], i: usize) -> Changed
    requires { Holds m.now × (i < most_changed) }
    ensures { result ≡ P.changed_words (cell m.now C.changed i) }
{
    Changed {
        side: store::get(m, store::CHANGED, i, cells::CHANGED_SIDE),
        price: store::get(m, store::CHANGED, i, cells::CHANGED_PRICE),
    }
}
