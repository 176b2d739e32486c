// A small table over `table`, driven through each operation; the program prints the live rows after each.
#![tactic(auto)]

ghost use Rattle.std.specs.Prelude.{◌≡◌, [], ◌+◌, ◌*◌, ◌≤◌, ◌<◌, length};
ghost use Rattle.le.specs.Row.{puts};
ghost use Rattle.table.specs.Live.{without, look, insert};
ghost use Rattle.table_test.specs.Test.{widths, values, key, live_row, revalued, row_at, count, entries, Table, To, Did, IsAt, Place};

use std::io;

#[derive(Clone, Copy)]
pub struct Row {
    pub key: u64,
    pub value: u64,
    pub mark: u8,
}

fn read_row(m: &[u8], i: usize) -> Row
    requires { (200 ≤ length m.now) × (i < 8) }
    ensures { result ≡ row_at m.now i }
{
    let o = 8 + 24 * i;
    let o1 = o + 8;
    let o2 = o1 + 8;
    Row {
        key: le::get_u64(m, o),
        value: le::get_u64(m, o1),
        mark: le::get_u8(m, o2),
    }
}

fn write_row(m: &mut [u8], i: usize, r: Row)
    requires { (200 ≤ length m.old) × (i < 8) }
    ensures { m.new ≡ puts widths m.old (8 + 24 * i) (values r) }
{
    let o = 8 + 24 * i;
    let o1 = o + 8;
    let o2 = o1 + 8;
    le::put_u64(m, o, r.key);
    le::put_u64(m, o1, r.value);
    le::put_u8(m, o2, r.mark);
}

fn size(m: &[u8]) -> usize
    requires { Table m.now }
    ensures { result ≡ count m.now }
{
    le::get_u64(m, 0) as usize
}

fn clear(m: &mut [u8])
    requires { 200 ≤ length m.old }
    ensures { To m.new [] }
{
    le::put_u64(m, 0, 0);
}

// Whether the row i has the key k.
fn is_at(m: &[u8], n: usize, i: usize, k: u64) -> bool
    requires { Table m.now × (n ≡ count m.now) }
    ensures { IsAt m.now n i k result }
{
    if n <= i {
        return false;
    }
    if table::key_at(m, 8, 24, i) == k {
        return true;
    }
    false
}

fn put_in(m: &mut [u8], n: usize, i: usize, r: Row)
    requires { Place m.old n i r }
    ensures { To m.new (insert key r (entries m.old)) }
{
    table::open_at(m, 8, 24, n, i);
    write_row(m, i, r);
    le::put_u64(m, 0, n as u64 + 1);
}

fn add(m: &mut [u8], k: u64, v: u64) -> bool
    requires { Table m.old }
    ensures { Did m.old m.new (insert key (live_row k v) (entries m.old)) result }
{
    let n = size(m);
    if n == 8 {
        return false;
    }
    let i = table::lower_bound(m, 8, 24, n, k);
    if is_at(m, n, i, k) {
        return false;
    }
    put_in(
        m,
        n,
        i,
        Row {
            key: k,
            value: v,
            mark: 1,
        },
    );
    true
}

fn change(m: &mut [u8], k: u64, v: u64) -> bool
    requires { Table m.old }
    ensures { Did m.old m.new (revalued (look key k (entries m.old)) v (entries m.old)) result }
{
    let n = size(m);
    match table::find(m, 8, 24, 16, n, k) {
        Some(i) => {
            le::put_u64(m, 8 + 24 * i + 8, v);
            true
        }
        None => false,
    }
}

fn remove(m: &mut [u8], k: u64) -> bool
    requires { Table m.old }
    ensures { Did m.old m.new (without key k (entries m.old)) result }
{
    let n = size(m);
    match table::find(m, 8, 24, 16, n, k) {
        Some(i) => {
            table::strike(m, 8, 24, 16, i);
            true
        }
        None => false,
    }
}

// The row i goes at once.
fn cut(m: &mut [u8], i: usize) -> bool
    requires { Table m.old }
    ensures { Did m.old m.new (without key (row_at m.old i).key (entries m.old)) result }
{
    let n = size(m);
    if n <= i {
        return false;
    }
    table::close_at(m, 8, 24, n, i);
    le::put_u64(m, 0, n as u64 - 1);
    true
}

fn tidy(m: &mut [u8])
    requires { Table m.old }
    ensures { To m.new (entries m.old) × (count m.new ≡ length (entries m.old)) }
{
    let n = size(m);
    let w = table::compact(m, 8, 24, 16, n);
    le::put_u64(m, 0, w as u64);
}

// Every row, dead ones with a mark.
fn show(rt: &impl Print, m: &[u8]) -> io::Result<()>
    requires { Table m.now }
{
    let n = size(m);
    print!(rt; "{n}:")?;
    for i in 0..n {
        let r = read_row(m, i);
        if r.mark == 0 {
            print!(rt; " -{}={}", r.key, r.value)?;
        } else {
            print!(rt; " {}={}", r.key, r.value)?;
        }
    }
    println!(rt; "")
}

fn grow(rt: &impl Print, m: &mut [u8]) -> io::Result<()>
    requires { Table m.old }
    ensures { Table m.new }
{
    add(m, 30, 3);
    add(m, 10, 1);
    add(m, 20, 2);
    add(m, 40, 4);
    show(rt, m)?;
    add(m, 20, 9);
    change(m, 20, 7);
    change(m, 25, 7);
    show(rt, m)
}

fn shrink(rt: &impl Print, m: &mut [u8]) -> io::Result<()>
    requires { Table m.old }
    ensures { Table m.new }
{
    remove(m, 10);
    remove(m, 30);
    remove(m, 30);
    show(rt, m)?;
    change(m, 30, 8);
    add(m, 25, 5);
    show(rt, m)?;
    tidy(m);
    show(rt, m)
}

fn main(rt: HostRuntime) -> io::Result<()> {
    let mut space = [0u8; 200];
    let m: &mut [u8] = &mut space;
    clear(m);
    show(&rt, m)?;
    grow(&rt, m)?;
    shrink(&rt, m)?;
    add(m, 50, 6);
    add(m, 5, 0);
    show(&rt, m)?;
    cut(m, 1);
    cut(m, 9);
    show(&rt, m)
}
