// The batch: commands not yet handed over.
ghost use Rattle.std.specs.Prelude.{◌≡◌, ◌<◌};
ghost use Rattle.gateway.specs.Bytes.{price_flag, price_word};
ghost use Rattle.gateway.specs.Limits.{most_in_batch};
ghost use Rattle.store.specs.Cells as C;
ghost use Rattle.store.specs.Layout.{cell, Holds};
ghost use Rattle.store.specs.View.{word, side, tif, maybe_price, maybe_qty, command, Is, Ready};
ghost use Rattle.pending.specs.Pending as P;

use orderbook::{Command, Side, TimeInForce};
use store::cells;

// ---- a command's cells

pub fn price_flag(p: Option<i64>) -> u64
    ensures { result ≡ price_flag p }
{
    p.is_some() as u64
}

pub fn price_word(p: Option<i64>) -> u64
    ensures { (result ≡ price_word p) × P.MaybeFits p }
{
    match p {
        None => 0,
        Some(n) => n.cast_unsigned(),
    }
}

// A cell that the kind does not have is 0. A phase change is never written.
pub fn row_of(c: Command) -> [u64; 12]
    ensures { (result ≡ P.command_row c) × P.Typed c }
{
    match c {
        Command::Limit {
            id,
            owner,
            side,
            price,
            qty,
            tif,
            display,
        } => [
            0,
            id,
            owner as u64,
            side as u64,
            price.cast_unsigned(),
            qty,
            tif as u64,
            display.is_some() as u64,
            display.unwrap_or(0),
            0,
            0,
            0,
        ],
        Command::Market {
            id,
            owner,
            side,
            qty,
        } => [1, id, owner as u64, side as u64, 0, qty, 0, 0, 0, 0, 0, 0],
        Command::Cancel { id, owner } => [2, id, owner as u64, 0, 0, 0, 0, 0, 0, 0, 0, 0],
        Command::Modify {
            id,
            owner,
            price,
            qty,
        } => [
            3,
            id,
            owner as u64,
            0,
            price.cast_unsigned(),
            qty,
            0,
            0,
            0,
            0,
            0,
            0,
        ],
        Command::Stop {
            id,
            owner,
            side,
            trigger,
            limit,
            qty,
        } => {
            let flag = price_flag(limit);
            let word = price_word(limit);
            [
                4,
                id,
                owner as u64,
                side as u64,
                0,
                qty,
                0,
                0,
                0,
                trigger.cast_unsigned(),
                flag,
                word,
            ]
        }
        Command::CancelAll { owner } => [5, 0, owner as u64, 0, 0, 0, 0, 0, 0, 0, 0, 0],
        Command::SetPhase { phase: _ } => [6, 0, 0, 0, 0, 0, 0, 0, 0, 0, 0, 0],
    }
}

// A command joins the batch.
pub fn push_command(m: &mut [u8], c: Command)
    requires { Ready m.old × (word (cell m.old) C.waiting < most_in_batch) × P.Batched c }
    ensures { Is m.new (P.command_push c (cell m.old)) × P.Typed c }
{
    let row = row_of(c);
    crate::push_row(m, store::BATCH, cells::WAITING, &row);
}

// The batch is handed over.
pub fn clear_batch(m: &mut [u8])
    requires { Holds m.old }
    ensures { Is m.new (P.clear_batch (cell m.old)) }
{
    crate::set_word(m, cells::WAITING, 0);
}

fn tif_of(n: u64) -> TimeInForce
    ensures { result ≡ tif n }
{
    match n {
        0 => TimeInForce::Gtc,
        1 => TimeInForce::Ioc,
        2 => TimeInForce::Fok,
        _ => TimeInForce::PostOnly,
    }
}

fn qty_of(there: u64, n: u64) -> Option<u64>
    ensures { result ≡ maybe_qty there n }
{
    if there == 0 { None } else { Some(n) }
}

fn price_of(there: u64, w: u64) -> Option<i64>
    ensures { result ≡ maybe_price there w }
{
    (there != 0).then_some(words::to_i64(w))
}

// A kind above 4 is a mass cancel.
fn command_of(r: [u64; 12]) -> Command
    requires { P.CommandFits (P.by_cell r) }
    ensures { result ≡ command (P.by_cell r) }
{
    let kind = r[cells::COMMAND_KIND];
    let id = r[cells::COMMAND_ID];
    let owner = r[cells::COMMAND_OWNER] as u32;
    let side = store::side_of(r[cells::COMMAND_SIDE]);
    let qty = r[cells::COMMAND_QTY];
    match kind {
        0 => Command::Limit {
            id,
            owner,
            side,
            price: words::to_i64(r[cells::COMMAND_PRICE]),
            qty,
            tif: tif_of(r[cells::COMMAND_TIF]),
            display: qty_of(r[cells::COMMAND_DISPLAYED], r[cells::COMMAND_DISPLAY]),
        },
        1 => Command::Market {
            id,
            owner,
            side,
            qty,
        },
        2 => Command::Cancel { id, owner },
        3 => Command::Modify {
            id,
            owner,
            price: words::to_i64(r[cells::COMMAND_PRICE]),
            qty,
        },
        4 => Command::Stop {
            id,
            owner,
            side,
            trigger: words::to_i64(r[cells::COMMAND_TRIGGER]),
            limit: price_of(r[cells::COMMAND_LIMITED], r[cells::COMMAND_LIMIT]),
            qty,
        },
        _ => Command::CancelAll { owner },
    }
}

// The command in the row i.
pub fn command_at(m: &[u8], i: usize) -> Command
    requires { Holds m.now × (i < most_in_batch) × P.CommandFits (cell m.now C.batch i) }
    ensures { result ≡ command (cell m.now C.batch i) }
{
    let mut row = [0; 12];
    store::read(m, store::BATCH, i, 0, &mut row);
    command_of(row)
}
