// What waits to be published or handed over: wallet notices, trades, changed levels, the batch, commands in flight; and the words of the header.
#![tactic(auto)]

pub mod batch;
pub mod changed;
pub mod header;

ghost use Rattle.std.specs.Prelude.{◌≡◌, ◌+◌, ◌≤◌, ◌<◌, length};
ghost use Rattle.gateway.specs.Core.{in_flight};
ghost use Rattle.gateway.specs.Limits as Limits;
ghost use Rattle.gateway.specs.Limits.{most_in_flight, most_notices, most_trades};
ghost use Rattle.store.specs.Cells as C;
ghost use Rattle.store.specs.Layout.{cell, Cells, Holds};
ghost use Rattle.store.specs.View.{word, write, in_slot, gateway, Is, Ready};
ghost use Rattle.pending.specs.Pending as P;
ghost use Rattle.words.specs.Words.{modulus};

use store::cells;

// A command has the slot of its number modulo this.
const FLIGHT_SLOTS: u64 = 256;

// A word of the header.
fn set_word(m: &mut [u8], k: usize, v: u64)
    requires { Holds m.old × (k < 32) }
    ensures { Is m.new (write C.header 0 k v (cell m.old)) }
{
    store::set(m, store::HEADER, 0, k, v);
}

// A row behind the others of a block; the word k has how many there are.
fn push_row(m: &mut [u8], b: usize, k: usize, vs: &[u64])
    requires { Holds m.old × Cells b (word (cell m.old) k) 0 (length vs.now) × (k < 32) }
    ensures { Is m.new (P.push_row b k vs.now (cell m.old)) }
{
    let n = store::get(m, store::HEADER, 0, k);
    store::fill(m, b, n as usize, 0, vs);
    store::set(m, store::HEADER, 0, k, n + 1);
}

// The account is written behind the last notice, and counted as one or not: no jump hangs on it.
pub fn push_notices(m: &mut [u8], account: u64, count: u64)
    requires { Ready m.old × (count ≤ 1) × (count + word (cell m.old) C.notice_rows ≤ most_notices) }
    ensures { Is m.new (P.notices account count (cell m.old)) }
{
    let n = store::get(m, store::HEADER, 0, cells::NOTICE_ROWS);
    store::set(
        m,
        store::NOTICES,
        n as usize,
        cells::NOTICE_ACCOUNT,
        account,
    );
    store::set(m, store::HEADER, 0, cells::NOTICE_ROWS, n + count);
}

pub fn notice_at(m: &[u8], i: usize) -> u64
    requires { Holds m.now × (i < most_notices) }
    ensures { result ≡ cell m.now C.notices i C.notice_account }
{
    store::get(m, store::NOTICES, i, cells::NOTICE_ACCOUNT)
}

// The fields of a trade, its side a code and its price a word.
#[derive(Clone, Copy)]
pub struct Trade {
    pub seq: u64,
    pub trade_id: u64,
    pub side: u64,
    pub price: u64,
    pub qty: u64,
}

// A trade that the next publishing tells.
pub fn push_trade(m: &mut [u8], t: Trade)
    requires { Ready m.old × (word (cell m.old) C.trade_rows < most_trades) }
    ensures { Is m.new (P.trade t.seq t.trade_id t.side t.price t.qty (cell m.old)) }
{
    let row = [t.seq, t.trade_id, t.side, t.price, t.qty];
    push_row(m, store::TRADES, cells::TRADE_ROWS, &row);
}

pub fn trade_at(m: &[u8], i: usize) -> Trade
    requires { Holds m.now × (i < most_trades) }
    ensures { result ≡ P.trade_words (cell m.now C.trades i) }
{
    Trade {
        seq: store::get(m, store::TRADES, i, cells::TRADE_SEQ),
        trade_id: store::get(m, store::TRADES, i, cells::TRADE_TRADE_ID),
        side: store::get(m, store::TRADES, i, cells::TRADE_SIDE),
        price: store::get(m, store::TRADES, i, cells::TRADE_PRICE),
        qty: store::get(m, store::TRADES, i, cells::TRADE_QTY),
    }
}

// Nothing waits to be published any more.
pub fn set_published(m: &mut [u8])
    requires { Ready m.old }
    ensures { Is m.new (P.published (cell m.old)) }
{
    let delivered = store::get(m, store::HEADER, 0, cells::DELIVERED);
    let n = store::get(m, store::HEADER, 0, cells::CHANGED_ROWS);
    changed::forget_tops(m, n as usize);
    store::set(m, store::HEADER, 0, cells::TRADE_ROWS, 0);
    store::set(m, store::HEADER, 0, cells::NOTICE_ROWS, 0);
    store::set(m, store::HEADER, 0, cells::CHANGED_ROWS, 0);
    store::set(m, store::HEADER, 0, cells::PUBLISHED, delivered);
}

// The next command is numbered and in flight.
pub fn take_off(m: &mut [u8], sender: u64, owner: u64, places: u64)
    requires { Ready m.old × (word (cell m.old) C.last + 1 < modulus) × (word (cell m.old) C.flying < most_in_flight) }
    ensures { Is m.new (P.take_off sender owner places (cell m.old)) }
{
    let next = store::get(m, store::HEADER, 0, cells::LAST) + 1;
    let flying = store::get(m, store::HEADER, 0, cells::FLYING);
    let row = [sender, owner, places];
    store::fill(m, store::FLIGHTS, (next % FLIGHT_SLOTS) as usize, 0, &row);
    store::set(m, store::HEADER, 0, cells::LAST, next);
    store::set(m, store::HEADER, 0, cells::FLYING, flying + 1);
}

// Whether command n is in flight (`command`): the run ends at the last number.
pub fn in_flight(m: &[u8], n: u64) -> bool
    requires { Holds m.now × (word (cell m.now) C.flying ≤ word (cell m.now) C.last) }
    ensures { result ≡ in_flight n (gateway (cell m.now)).core }
{
    let last = store::get(m, store::HEADER, 0, cells::LAST);
    let flying = store::get(m, store::HEADER, 0, cells::FLYING);
    n <= last && last - n < flying
}

// A command in flight: its sender is one more than a session's number, or 0.
#[derive(Clone, Copy)]
pub struct Flight {
    pub sender: u64,
    pub owner: u64,
    pub places: u64,
}

pub fn flight_at(m: &[u8], n: u64) -> Flight
    requires { Holds m.now }
    ensures { P.in_flight_as n result ≡ in_slot (cell m.now) n }
{
    let i = (n % FLIGHT_SLOTS) as usize;
    Flight {
        sender: store::get(m, store::FLIGHTS, i, cells::FLIGHT_SENDER),
        owner: store::get(m, store::FLIGHTS, i, cells::FLIGHT_OWNER),
        places: store::get(m, store::FLIGHTS, i, cells::FLIGHT_PLACES),
    }
}

// An event of command n: those below n have had theirs.
pub fn land(m: &mut [u8], n: u64)
    requires { Ready m.old × (n ≤ word (cell m.old) C.last) × (0 < n) }
    ensures { Is m.new (P.land n (cell m.old)) }
{
    let last = store::get(m, store::HEADER, 0, cells::LAST);
    store::set(m, store::HEADER, 0, cells::FLYING, last - n + 1);
}
