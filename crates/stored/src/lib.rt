// The rows of a stored file of lists of calls: their words, read, compared and said. compare/README.md has the file's rows.
#![tactic(auto)]

ghost use Rattle.std.specs.Prelude.{◌≡◌, ◌≤◌, min, true, false, IfOk, length};
ghost use Rattle.stored.specs.Rows as R;

use std::fs::File;
use std::io;
use std::io::Read;

// ---- the words of a row

pub fn word(row: &[u8], i: usize) -> u64
    ensures { result ≡ R.word_at row.now i }
{
    if i < 65536 {
        return load(row, 8 * i);
    }
    0
}

fn load(row: &[u8], at: usize) -> u64
    ensures { result ≡ R.load_at row.now at }
{
    le::load(row, at, 8).unwrap_or(0)
}

pub fn small(row: &[u8], i: usize) -> u32
    ensures { result ≡ R.small_at row.now i }
{
    (word(row, i) % 4294967296) as u32
}

pub fn code(row: &[u8], i: usize) -> u8
    ensures { result ≡ R.code_at row.now i }
{
    (word(row, i) % 256) as u8
}

pub fn put(got: &mut [u8], i: usize, w: u64)
    ensures { got.new ≡ R.put_at got.old i w }
{
    if i < 16 {
        le::store(got, 8 * i, 8, w);
    }
}

// The words from `from` on, in a row of their own.
pub fn tail(row: &[u8], from: usize) -> [u8; 128]
    requires { from ≤ 16 }
    ensures { result ≡ R.tail_of row.now from }
{
    let mut to = [0u8; 128];
    for i in 0..16 {
        put(&mut to, i, word(row, from + i));
    }
    to
}

// What a call answers: its code, and how many rows.
pub fn reply(got: &mut [u8], code: u64, count: usize)
    ensures { got.new ≡ R.replied got.old code count }
{
    put(got, 2, code);
    put(got, 3, count as u64);
}

// ---- what differs

// A word of two rows that differs: its place, what is wanted there and what came.
#[derive(Clone, Copy)]
pub struct Differing {
    pub word: usize,
    pub want: u64,
    pub got: u64,
}

// What was compared, and the first of its words that differs. None does where only the bytes after the last whole word differ.
#[derive(Clone, Copy)]
pub struct Difference<'a> {
    pub text: &'a [u8],
    pub first: Option<Differing>,
}

// The first words that differ.
fn first_difference(want: &[u8], got: &[u8]) -> Option<Differing>
    ensures { R.FirstDiffers want.now got.now result }
{
    for i in 0..want.len() / 8 {
        let a = word(want, i);
        let b = word(got, i);
        if a != b {
            return Some(Differing {
                word: i,
                want: a,
                got: b,
            });
        }
    }
    None
}

// Whether the bytes are the same; if not, `at` has where.
pub fn agrees<'a>(text: &'a [u8], want: &[u8], got: &[u8], at: &mut Difference<'a>) -> bool
    ensures tells { R.Tells result (want.now ≡ got.now) }
    ensures same { result ≡ true → at.new ≡ at.old }
    ensures text { result ≡ false → at.new.text.now ≡ text.now }
    ensures first { result ≡ false → R.FirstDiffers want.now got.now at.new.first }
{
    if want == got {
        return true;
    }
    *at = Difference {
        text,
        first: first_difference(want, got),
    };
    false
}

// ---- the file

// Reads until `buf` is full or the file ends, and answers how many bytes came.
pub fn read_full(file: &mut File, buf: &mut [u8]) -> io::Result<usize>
    ensures { IfOk result (λ n. n ≤ length buf.new) }
{
    let mut done = 0;
    while done < buf.len() {
        let n = file.read(&mut buf[done..])?;
        if n == 0 {
            return Ok(done);
        }
        done += n;
    }
    Ok(done)
}

pub fn at_most(n: u64, most: usize) -> usize
    ensures upper_bound { result ≤ most }
    ensures value { result ≡ min n most }
{
    n.min(most as u64) as usize
}

// The bytes of n places of the call: of a level 24, of a listed order 64, of a checkpoint 1, of all else 96. No more are lent than there are.
fn bytes_of(row: &[u8], n: u64) -> usize
    ensures upper_bound { result ≤ 24576 }
    ensures value { result ≡ R.bytes_at row.now n }
{
    match word(row, 0) {
        6 => 24 * at_most(n, 1024),
        0 | 18 => 64 * at_most(n, 384),
        19 | 20 => at_most(n, 24576),
        _ => 96 * at_most(n, 256),
    }
}

// Of the places that are lent to the call.
pub fn lent(row: &[u8]) -> usize
    ensures upper_bound { result ≤ 24576 }
    ensures value { result ≡ R.bytes_at row.now (R.word_at row.now 1) }
{
    bytes_of(row, word(row, 1))
}

// Of the rows that follow the call's.
pub fn given(row: &[u8]) -> usize
    ensures upper_bound { result ≤ 24576 }
    ensures value { result ≡ R.bytes_at row.now (R.word_at row.now 3) }
{
    bytes_of(row, word(row, 3))
}

pub fn answers(row: &[u8; 128], got: &[u8; 128], at: &mut Difference<'_>) -> bool
    ensures { R.Tells result (row.now ≡ got.now) }
{
    agrees(b"answer", row, got, at)
}

pub fn is_start(row: &[u8]) -> bool
    ensures { result ≡ R.is_start row.now }
{
    matches!(word(row, 0) % 32, 0 | 20)
}

// The call's rows are its arguments.
fn is_given(row: &[u8]) -> bool
    ensures { result ≡ R.is_given row.now }
{
    matches!(word(row, 0), 0 | 16 | 18 | 20)
}

// The answers agree, and so do the rows where they are not given.
pub fn agree(
    row: &[u8; 128],
    got: &[u8; 128],
    rows: &[u8; 24576],
    out: &[u8; 24576],
    at: &mut Difference<'_>,
) -> bool
    ensures { R.Tells result (R.Agree row.now got.now rows.now out.now) }
{
    if !answers(row, got, at) {
        return false;
    }
    if is_given(row) {
        return true;
    }
    agrees(b"rows", rows, out, at)
}

// The row without its code and count.
pub fn unanswered(row: [u8; 128]) -> [u8; 128]
    ensures { result ≡ R.unanswered row }
{
    let mut got = row;
    put(&mut got, 2, u64::MAX);
    if !is_given(&row) {
        put(&mut got, 3, 0);
    }
    got
}

// Whether the row's answer is this code, with nothing else.
pub fn answers_code(row: [u8; 128], code: u64, at: &mut Difference<'_>) -> bool
    ensures { R.Tells result (row ≡ R.put_at (R.unanswered row) 2 code) }
{
    let mut got = unanswered(row);
    put(&mut got, 2, code);
    answers(&row, &got, at)
}

// ---- runs: the last word of a row has how many calls follow that are like it, and in its low 16 bits the words that grow by 1 each time

pub fn times(row: &[u8]) -> u64
    ensures { result ≡ R.times row.now }
{
    word(row, 15) / 65536
}

// The word i is one that grows.
fn grows(words: u64, i: usize) -> bool
    ensures { result ≡ R.grows words i }
{
    if i < 16 {
        return words >> i & 1 == 1;
    }
    false
}

fn grow(row: &mut [u8], i: usize, words: u64)
    ensures { row.new ≡ R.grow_at row.old words i }
{
    if grows(words, i) {
        put(row, i, std::num::wrapping_add_u64(word(row, i), 1));
    }
}

// The next row of a run.
pub fn grow_row(row: &mut [u8])
    ensures { row.new ≡ R.grow_row row.old }
{
    let words = word(row, 15);
    for i in 0..16 {
        grow(row, i, words);
    }
}

// ---- two gateways: a number from 32 on is a call of the second; from 64 on the two are compared after it

pub fn gateway_of(row: &[u8]) -> u64
    ensures { result ≡ R.gateway_of row.now }
{
    word(row, 0) / 32
}

// The row with the call's own number.
pub fn plain(row: [u8; 128]) -> [u8; 128]
    ensures { result ≡ R.plain row }
{
    let mut own = row;
    put(&mut own, 0, word(&row, 0) % 32);
    own
}

// ---- the count

// The lists so far, the rows of this one, the calls so far, and whether to go on.
#[derive(Clone, Copy)]
pub struct Tally {
    pub lists: u64,
    pub rows: u64,
    pub calls: u64,
    pub more: bool,
}

fn sum(n: u64, more: u64) -> u64
    ensures { result ≡ R.sum n more }
{
    std::num::wrapping_add_u64(n, more)
}

// A list begins with a start of the first gateway.
fn begins(row: &[u8]) -> bool
    ensures { result ≡ R.begins row.now }
{
    if is_start(row) {
        return gateway_of(row) == 0;
    }
    false
}

// The tally with one more row.
pub fn counted(row: [u8; 128], t: Tally, more: bool) -> Tally
    ensures { result ≡ R.counted row t more }
{
    let calls = sum(t.calls, sum(times(&row), 1));
    if begins(&row) {
        return Tally {
            lists: sum(t.lists, 1),
            rows: 0,
            calls,
            more,
        };
    }
    Tally {
        lists: t.lists,
        rows: sum(t.rows, 1),
        calls,
        more,
    }
}

// Nothing is left of the file, or no whole row.
pub fn finish(rt: &impl Print, left: usize, t: Tally) -> io::Result<Tally>
    ensures { IfOk result (λ after. after ≡ R.finished t) }
{
    print!(rt; "{} calls agreed", t.calls)?;
    if left != 0 {
        print!(rt; ", and the file breaks off")?;
    }
    println!(rt; "")?;
    Ok(Tally {
        lists: t.lists,
        rows: t.rows,
        calls: t.calls,
        more: false,
    })
}
