// The open orders of an account, told as if they had just rested.
ghost use Rattle.std.specs.Prelude.{◌≡◌, cond, ◌&&◌, ◌+◌, ◌≤◌, ◌<◌, eqb, leb, length};
ghost use Rattle.protocol.specs.declared.ReportKind.TheVariants.{Rested};
ghost use Rattle.words.specs.Words.{int};
ghost use Rattle.store.specs.Cells as C;
ghost use Rattle.store.specs.Layout.{cell, Holds};
ghost use Rattle.store.specs.View.{flag, side, order_room, gateway};
ghost use Rattle.sound.specs.Sound.{State};
ghost use Rattle.mailbox.specs.Mailbox.{places};
ghost use Rattle.outcome.specs.Parts.{rest_of, Posts};
ghost use Rattle.login.specs.Login as P;

use orders::Live;
use protocol::{Outbound, Report, ReportKind};
use store::cells;

// Whether a live order with these words is told.
fn is_open(o: Live, number: u64, a: u64, delivered: u64) -> bool
    ensures { result ≡ (eqb o.account a && leb number delivered) && flag o.priced }
{
    o.account == a && number <= delivered && o.priced != 0
}

// Whether the row j holds a live order of account a that is told.
fn is_told(m: &[u8], j: usize, a: u64, delivered: u64) -> bool
    requires { Holds m.now × (j < order_room) }
    ensures { result ≡ P.row_told a delivered (cell m.now C.orders j) }
{
    if store::get(m, store::ORDERS, j, cells::ORDER_LIVE) == 0 {
        return false;
    }
    let o = orders::live_at(m, j);
    let number = store::get(m, store::ORDERS, j, cells::ORDER_NUMBER);
    is_open(o, number, a, delivered)
}

fn rows(m: &[u8], j: usize, a: u64, delivered: u64) -> usize
    requires { Holds m.now × (j < order_room) }
    ensures { (result ≡ cond (P.row_told a delivered (cell m.now C.orders j)) 1 0) × (result ≤ 1) }
{
    if is_told(m, j, a, delivered) {
        return 1;
    }
    0
}

// How many orders of account a are told.
pub fn count(m: &[u8], a: u64) -> usize
    requires { State m.now }
    ensures { (result ≡ P.told_rows a (rest_of m.now).delivered (gateway (cell m.now)).core.ledger.orders) × (result ≤ order_room) }
{
    let size = pending::header::word_at(m, cells::ORDER_ROWS) as usize;
    let delivered = pending::header::word_at(m, cells::DELIVERED);
    let mut n: usize = 0;
    for j in 0..size {
        n += rows(m, j, a, delivered);
    }
    n
}

// The report of a live order with these words.
fn report_of(o: Live, number: u64, last: u64) -> Report
    ensures { result ≡ record { seq = last; order_id = number; client_ref = o.client_ref; kind = Rested (side o.side) (int o.price) o.leaves o.leaves } }
{
    let side = store::side_of(o.side);
    Report {
        seq: last,
        order_id: number,
        client_ref: o.client_ref,
        kind: ReportKind::Rested {
            side,
            price: words::to_i64(o.price),
            qty: o.leaves,
            visible: o.leaves,
        },
    }
}

// The report of the order in the row j.
fn report_at(m: &[u8], j: usize, last: u64) -> Report
    requires { Holds m.now × (j < order_room) }
    ensures { result ≡ P.report_of last (cell m.now C.orders j) }
{
    let o = orders::live_at(m, j);
    let number = store::get(m, store::ORDERS, j, cells::ORDER_NUMBER);
    report_of(o, number, last)
}

// One row's turn; the place behind its report.
fn post_row(m: &[u8], out: &mut [u8], i: usize, s: usize, a: u64, j: usize) -> usize
    requires { Holds m.now × (j < order_room) × (i + length (P.row_mail s a (gateway (cell m.now)) (cell m.now C.orders j)) ≤ places (length out.old)) }
    ensures { Posts i (P.row_mail s a (gateway (cell m.now)) (cell m.now C.orders j)) result out.old out.new }
{
    let delivered = pending::header::word_at(m, cells::DELIVERED);
    let last = pending::header::word_at(m, cells::LAST);
    if is_told(m, j, a, delivered) {
        let r = report_at(m, j, last);
        mailbox::send(out, i, s, Outbound::Report(r));
        return i + 1;
    }
    i
}

// The reports, from place i on; the place behind them.
pub fn post(m: &[u8], out: &mut [u8], i: usize, s: usize, a: u64) -> usize
    requires { State m.now × (i + length (P.open_mail s a (gateway (cell m.now))) ≤ places (length out.old)) }
    ensures { Posts i (P.open_mail s a (gateway (cell m.now))) result out.old out.new }
{
    let size = pending::header::word_at(m, cells::ORDER_ROWS) as usize;
    let mut n = i;
    for j in 0..size {
        n = post_row(m, out, n, s, a, j);
    }
    n
}
