// Replays the Rust's stored answers through the proved calls. The file has rows of 15 words: a function, eight arguments, six results, of which
// the first is the code (compare/README.md).
#![tactic(auto)]

ghost use Rattle.std.specs.Prelude.{◌≤◌, length};

use risk::Bucket;
use std::fs::File;
use std::{fs, io};

fn word(row: &[u8], at: usize) -> u64 {
    match le::load(row, at, 8) {
        Some(w) => w,
        None => 0,
    }
}

fn small(row: &[u8], at: usize) -> u32 {
    (word(row, at) % 4294967296) as u32
}

// The words of a row from the fourth argument on: two, or four.
fn copy_two(row: &[u8], out: &mut [u8]) {
    le::store(out, 0, 8, word(row, 32));
    le::store(out, 8, 8, word(row, 40));
}

fn copy_four(row: &[u8], out: &mut [u8]) {
    copy_two(row, out);
    le::store(out, 16, 8, word(row, 48));
    le::store(out, 24, 8, word(row, 56));
}

// Each call answers its code, and leaves the other results in `out`.
fn hold_of(row: &[u8], out: &mut [u8]) -> u32 {
    comparison::entry_hold_of(
        word(row, 32),
        small(row, 8),
        word(row, 16),
        word(row, 24),
        out,
    )
}

fn covers(row: &[u8], out: &mut [u8]) -> u32
    requires { 120 ≤ length row.now }
{
    comparison::entry_covers(small(row, 8), word(row, 16), &row[24..56], out)
}

fn hold(row: &[u8], out: &mut [u8]) -> u32 {
    copy_four(row, out);
    comparison::entry_hold(small(row, 8), word(row, 16), word(row, 24), out)
}

fn settle(row: &[u8], out: &mut [u8]) -> u32 {
    copy_four(row, out);
    comparison::entry_settle(
        word(row, 64),
        small(row, 8),
        word(row, 16),
        word(row, 24),
        out,
    )
}

fn near(row: &[u8], out: &mut [u8]) -> u32 {
    comparison::entry_near(word(row, 8), word(row, 16), small(row, 24), out)
}

// A fresh bucket is full at time 0.
fn start(row: &[u8], bucket: &mut [u8]) {
    if word(row, 8) == 0 {
        return;
    }
    let full = Bucket::full(small(row, 16));
    le::store(bucket, 0, 8, full.tokens);
    le::store(bucket, 8, 8, full.refilled);
}

fn take_token(row: &[u8], bucket: &mut [u8], out: &mut [u8]) -> u32 {
    start(row, bucket);
    comparison::entry_take_token(small(row, 16), word(row, 24), bucket, out)
}

fn load(row: &[u8], out: &mut [u8]) -> u32
    requires { 120 ≤ length row.now }
{
    le::store(out, 0, 8, 0xa5a5a5a5a5a5a5a5);
    comparison::entry_load(small(row, 8), word(row, 16), &row[24..40], out)
}

fn store(row: &[u8], out: &mut [u8]) -> u32 {
    copy_two(row, out);
    comparison::entry_store(small(row, 8), word(row, 16), word(row, 24), out)
}

fn call(row: &[u8], bucket: &mut [u8], out: &mut [u8]) -> u32
    requires { (120 ≤ length row.now) × (40 ≤ length out.old) }
{
    match word(row, 0) {
        1 => hold_of(row, out),
        2 => covers(row, out),
        3 => hold(row, &mut out[..32]),
        4 => settle(row, &mut out[..32]),
        5 => near(row, out),
        6 => take_token(row, bucket, out),
        7 => load(row, out),
        8 => store(row, &mut out[..16]),
        _ => u32::MAX,
    }
}

fn same(row: &[u8], code: u32, out: &[u8; 40]) -> bool
    requires { 120 ≤ length row.now }
{
    word(row, 72) == code as u64 && out.as_slice() == &row[80..]
}

// Whether a row's results come again.
fn replay(row: &[u8], bucket: &mut [u8]) -> bool
    requires { 120 ≤ length row.now }
{
    let mut out = [0u8; 40];
    let code = call(row, bucket, &mut out);
    same(row, code, &out)
}

fn replay_all(rt: &impl Print, file: &mut File) -> io::Result<()> {
    let mut bucket = [0u8; 16];
    for n in 0..u64::MAX {
        let mut row = [0u8; 120];
        let got = stored::read_full(file, &mut row)?;
        if got == 0 {
            return println!(rt; "{n} rows equal");
        }
        if got != 120 || !replay(&row, &mut bucket) {
            return println!(rt; "{n} rows equal, and the next differs");
        }
    }
    Ok(())
}

fn main(rt: HostRuntime) -> io::Result<()> {
    let mut file = fs::open(&rt, "answers")?;
    replay_all(&rt, &mut file)
}
