// Plays the stored lists of calls on the proved entry points, and says the first difference from the stored answers, or how many calls agreed: the
// Rust's answers, and the written rule's for lists with a fee.
#![tactic(auto)]

ghost use Rattle.std.specs.Prelude.{◌≡◌, ◌*◌, ◌≤◌, length};
ghost use Rattle.store.specs.Layout.{Holds};
ghost use Rattle.edge.specs.Entering.{Lent};

use accounts::{Account, Timing};
use std::fs::File;
use std::{fs, io};
use stored::{Difference, Tally};

// ---- the file

// The first 7 words of a row of 16.
fn read_account(file: &mut File, to: &mut [u8]) -> io::Result<()> {
    let mut rest = [0u8; 72];
    stored::read_full(file, to)?;
    stored::read_full(file, &mut rest)?;
    Ok(())
}

// The rows of n accounts.
fn read_accounts(file: &mut File, rows: &mut [u8], n: usize) -> io::Result<()>
    requires { 56 * n ≤ length rows.old }
{
    for i in 0..n {
        let from = 56 * i;
        let to = from + 56;
        read_account(file, &mut rows[from..to])?;
    }
    Ok(())
}

// The rows that follow the call's, in whole words.
fn read_rows(file: &mut File, row: &[u8]) -> io::Result<[u8; 24576]> {
    let mut rows = [0xa5u8; 24576];
    let n = stored::given(row);
    let whole = 8 * ((n + 7) / 8);
    stored::read_full(file, &mut rows[..whole])?;
    Ok(rows)
}

// How many accounts' rows follow: only a start has them, before the others.
fn accounts_of(row: &[u8]) -> usize
    ensures { result ≤ 256 }
{
    if stored::is_start(row) {
        return stored::at_most(stored::word(row, 4), 256);
    }
    0
}

fn play_any(
    file: &mut File,
    m: &mut [u8],
    row: [u8; 128],
    at: &mut Difference<'_>,
) -> io::Result<bool>
    requires { Lent m.old }
    ensures { Lent m.new }
{
    let n = accounts_of(&row);
    let mut accounts = [0u8; 14336];
    read_accounts(file, &mut accounts, n)?;
    let rows = read_rows(file, &row)?;
    let end = 56 * n;
    Ok(conformance::play_any(m, row, &accounts[..end], rows, at))
}

// ---- two gateways

fn play_second(
    file: &mut File,
    m: &[u8],
    s: &mut [u8],
    row: [u8; 128],
    at: &mut Difference<'_>,
) -> io::Result<bool>
    requires { Lent m.now × Lent s.old }
    ensures { Lent s.new }
{
    let same = play_any(file, s, stored::plain(row), at)?;
    if same && stored::gateway_of(&row) == 2 {
        return Ok(playing::are_alike(m, s, at));
    }
    Ok(same)
}

fn play_both(
    file: &mut File,
    m: &mut [u8],
    s: &mut [u8],
    row: [u8; 128],
    at: &mut Difference<'_>,
) -> io::Result<bool>
    requires { Lent m.old × Lent s.old }
    ensures { Lent m.new × Lent s.new }
{
    if stored::gateway_of(&row) == 0 {
        return play_any(file, m, row, at);
    }
    play_second(file, m, s, row, at)
}

// ---- all rows

// Says where: what was compared, and then the words on the rest of the line, where whole ones differ.
fn say_difference(rt: &impl Print, at: &Difference<'_>) -> io::Result<()> {
    rt.write_all(at.text)?;
    match at.first {
        Some(d) => println!(rt; ", word {}: {} wanted, got {}", d.word, d.want, d.got),
        None => Ok(()),
    }
}

fn say_where(rt: &impl Print, t: Tally) -> io::Result<()> {
    println!(rt; " in list {}, row {}", t.lists, t.rows)
}

fn next_row(
    rt: &impl Print,
    file: &mut File,
    m: &mut [u8],
    s: &mut [u8],
    row: [u8; 128],
    t: Tally,
) -> io::Result<Tally>
    requires { Lent m.old × Lent s.old }
    ensures { Lent m.new × Lent s.new }
{
    let mut at = Difference {
        text: b"",
        first: None,
    };
    let more = play_both(file, m, s, row, &mut at)?;
    let after = stored::counted(row, t, more);
    if !more {
        say_difference(rt, &at)?;
        say_where(rt, after)?;
    }
    Ok(after)
}

fn next(rt: &impl Print, file: &mut File, m: &mut [u8], s: &mut [u8], t: Tally) -> io::Result<Tally>
    requires { Lent m.old × Lent s.old }
    ensures { Lent m.new × Lent s.new }
{
    let mut row = [0u8; 128];
    let got = stored::read_full(file, &mut row)?;
    if got != 128 {
        return stored::finish(rt, got, t);
    }
    next_row(rt, file, m, s, row, t)
}

fn play_all(rt: &impl Print, file: &mut File, m: &mut [u8], s: &mut [u8]) -> io::Result<()>
    requires { Lent m.old × Lent s.old }
{
    let mut t = Tally {
        lists: 0,
        rows: 0,
        calls: 0,
        more: true,
    };
    for _ in 0..u64::MAX {
        if !t.more {
            return Ok(());
        }
        t = next(rt, file, m, s, t)?;
    }
    Ok(())
}

// ---- the beginning

// The account that both gateways begin with: no list of calls sees it, for each begins with a start of its own.
fn first_account() -> Account
    ensures { result.id ≡ 0 }
{
    Account {
        id: 0,
        token: 0,
        max_open_orders: 0,
        messages_per_second: 0,
        funds: None,
    }
}

// Set-up with one account, no orders and the timing's defaults.
fn begin(m: &mut [u8]) -> u64
    requires { Holds m.old }
    ensures { Lent m.new }
{
    let list = [0u8; 8];
    let timing = Timing::default();
    let account = first_account();
    numbers::code_of(beginning::set_up_one(m, 0, 1, 0, timing, account, &list[..0]))
}

// The second from a checkpoint of the first.
fn begin_again(m: &[u8], s: &mut [u8]) -> u64
    requires { Lent m.now × Lent s.old × Holds s.old }
    ensures { Lent s.new }
{
    let mut bytes = [0u8; 64];
    let r = edge::rowanchess_checkpoint(m, &mut bytes);
    if r.code != 0 {
        return r.code;
    }
    let n = stored::at_most(r.count as u64, 64);
    let timing = Timing::default();
    let account = first_account();
    numbers::code_of(beginning::restore_one(s, 0, 1, timing, account, &bytes[..n]))
}

// Both are states, whatever the file has. 0, or the code of what was refused.
fn begin_both(m: &mut [u8], s: &mut [u8]) -> u64
    requires { Holds m.old × Holds s.old }
    ensures { Lent m.new × Lent s.new }
{
    let first = begin(m);
    let second = begin(s);
    if first != 0 {
        return first;
    }
    if second != 0 {
        return second;
    }
    begin_again(m, s)
}

fn run(
    rt: &impl Print,
    file: &mut File,
    m: &mut [u8; 467592],
    s: &mut [u8; 467592],
) -> io::Result<()> {
    let code = begin_both(m, s);
    if code != 0 {
        return println!(rt; "no start: {code}");
    }
    play_all(rt, file, m, s)
}

fn main(rt: HostRuntime) -> io::Result<()> {
    let mut file = fs::open(&rt, "calls")?;
    let mut m = [0u8; 467592];
    let mut s = [0u8; 467592];
    run(&rt, &mut file, &mut m, &mut s)
}
