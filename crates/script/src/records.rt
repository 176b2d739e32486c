// A command by the 12 cells of its row in the batch; an account by 7 words: id, token, most open orders, messages a second, whether it has funds,
// cash, position.
ghost use Rattle.std.specs.Prelude.{◌≡◌, ◌<◌, length};
ghost use Rattle.script.specs.Script.{word_at};
ghost use Rattle.script.specs.Records as P;

use accounts::{Account, Funds};
use orderbook::Command;

// The bytes of an account's row.
pub const ACCOUNT: usize = 56;

fn limit(row: &[u8]) -> Command
    requires { length row.now ≡ 96 }
    ensures { result ≡ P.limit row.now }
{
    let side = crate::side(row, 3);
    let tif = crate::tif(row);
    let display = crate::maybe_qty(row, 7);
    Command::Limit {
        id: crate::word(row, 1),
        owner: crate::small(row, 2),
        side,
        price: crate::price(row, 4),
        qty: crate::word(row, 5),
        tif,
        display,
    }
}

fn market(row: &[u8]) -> Command
    requires { length row.now ≡ 96 }
    ensures { result ≡ P.market row.now }
{
    let side = crate::side(row, 3);
    Command::Market {
        id: crate::word(row, 1),
        owner: crate::small(row, 2),
        side,
        qty: crate::word(row, 5),
    }
}

fn modify(row: &[u8]) -> Command
    requires { length row.now ≡ 96 }
    ensures { result ≡ P.modify row.now }
{
    Command::Modify {
        id: crate::word(row, 1),
        owner: crate::small(row, 2),
        price: crate::price(row, 4),
        qty: crate::word(row, 5),
    }
}

fn stop(row: &[u8]) -> Command
    requires { length row.now ≡ 96 }
    ensures { result ≡ P.stop row.now }
{
    let side = crate::side(row, 3);
    let limit = crate::maybe_price(row, 10);
    Command::Stop {
        id: crate::word(row, 1),
        owner: crate::small(row, 2),
        side,
        trigger: crate::price(row, 9),
        limit,
        qty: crate::word(row, 5),
    }
}

// A phase change, which is never in the batch, has its phase in the cell of the side.
pub fn command(row: &[u8]) -> Command
    requires { length row.now ≡ 96 }
    ensures { result ≡ P.command_of row.now }
{
    match crate::word(row, 0) {
        0 => limit(row),
        1 => market(row),
        2 => Command::Cancel {
            id: crate::word(row, 1),
            owner: crate::small(row, 2),
        },
        3 => modify(row),
        4 => stop(row),
        5 => Command::CancelAll {
            owner: crate::small(row, 2),
        },
        _ => Command::SetPhase {
            phase: crate::phase(row, 3),
        },
    }
}

// ---- accounts

fn funds(row: &[u8]) -> Option<Funds>
    requires { length row.now ≡ 56 }
    ensures { result ≡ P.funds (word_at row.now 4) (word_at row.now 5) (word_at row.now 6) }
{
    if crate::word(row, 4) == 0 {
        return None;
    }
    Some(Funds {
        cash: crate::price(row, 5),
        position: crate::price(row, 6),
    })
}

pub fn account(row: &[u8]) -> Account
    requires { length row.now ≡ 56 }
    ensures { result ≡ P.account_of row.now }
{
    let funds = funds(row);
    Account {
        id: crate::small(row, 0),
        token: crate::word(row, 1),
        max_open_orders: crate::small(row, 2),
        messages_per_second: crate::small(row, 3),
        funds,
    }
}

// ---- a list of accounts

pub fn account_rows(list: &[u8]) -> usize
    ensures { result ≡ P.account_rows list.now }
{
    list.len() / ACCOUNT
}

pub fn account_row(list: &[u8], j: usize) -> &[u8]
    requires { j < P.account_rows list.now }
    ensures { result.now ≡ P.account_row list.now j }
{
    let at = ACCOUNT * j;
    let end = at + ACCOUNT;
    &list[at..end]
}

pub fn account_at(list: &[u8], j: usize) -> Account
    requires { j < P.account_rows list.now }
    ensures { result ≡ P.account_at list.now j }
{
    let row = account_row(list, j);
    account(row)
}
