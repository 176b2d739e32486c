// Exact arithmetic on 64-bit signed numbers. Inside they are u64 words in two's complement, and contracts speak of a word's number, `int w`;
// an i64 stands only in `of_i64` and `to_i64`.
#![tactic(auto)]

ghost use Rattle.std.specs.Prelude.{◌≡◌, true, false, ◌+◌, ◌-◌, ◌*◌, ◌%◌, ◌<◌, ◌≤◌, leb, ℤ, pos, neg_ℤ, nat_abs, ◌+ℤ◌, ◌-ℤ◌, ◌*ℤ◌};
ghost use Rattle.std.specs.Int.Signed.{le_z};
ghost use Rattle.words.specs.Words.{base, half, int, ◌⊖◌, signed, wide, value, place_of, placed, nearest_to, amount, fit_in, fit, clamp, wrap, modulus};

// 2^32, 2^63 and 2^64 - 1.
const BASE: u64 = 4294967296;

const HALF: u64 = 9223372036854775808;

const MAX: u64 = 18446744073709551615;

// The word of 2^63 - 1.
pub const MOST: u64 = HALF - 1;

// An i64 of a caller in, and out.
pub fn of_i64(x: i64) -> u64
    ensures { int result ≡ x }
{
    x.cast_unsigned()
}

pub fn to_i64(w: u64) -> i64
    ensures { result ≡ int w }
{
    w.cast_signed()
}

// A number raised by 2^63, for sums and orders, and lowered again.
pub fn raised(w: u64) -> u64
    ensures { int w ≡ result ⊖ half }
{
    if w < HALF { w + HALF } else { w - HALF }
}

pub fn lowered(u: u64) -> u64
    ensures { int result ≡ u ⊖ half }
{
    if u < HALF { u + HALF } else { u - HALF }
}

// |a - b|
pub fn distance(a: u64, b: u64) -> u64
    ensures { result ≡ nat_abs (int a -ℤ int b) }
{
    raised(a).abs_diff(raised(b))
}

// A natural number of two words.
#[derive(Clone, Copy)]
pub struct Wide {
    pub hi: u64,
    pub lo: u64,
}

fn wide_add(a: u64, b: u64) -> Wide
    ensures { wide result ≡ a + b }
{
    let room = MAX - a;
    if b <= room {
        Wide { hi: 0, lo: a + b }
    } else {
        Wide {
            hi: 1,
            lo: b - room - 1,
        }
    }
}

fn half_mul(x: u64, y: u64) -> u64
    requires { (x < base) × (y < base) }
    ensures { (result ≡ x * y) × (result ≤ (base - 1) * (base - 1)) }
{
    x * y
}

// By halves, in base 2^32.
pub fn wide_mul(a: u64, b: u64) -> Wide
    ensures { wide result ≡ a * b }
{
    let a0 = a % BASE;
    let a1 = a / BASE;
    let b0 = b % BASE;
    let b1 = b / BASE;
    let low = half_mul(a0, b0);
    let t = half_mul(a1, b0) + low / BASE;
    let w = half_mul(a0, b1) + t % BASE;
    Wide {
        hi: half_mul(a1, b1) + t / BASE + w / BASE,
        lo: w % BASE * BASE + low % BASE,
    }
}

fn wide_le(a: Wide, b: Wide) -> bool
    ensures { result ≡ leb (wide a) (wide b) }
{
    if a.hi < b.hi {
        true
    } else if b.hi < a.hi {
        false
    } else {
        a.lo <= b.lo
    }
}

// Whether a number is 0 or more.
pub fn not_negative(w: u64) -> bool
    ensures { result ≡ le_z (pos 0) (int w) }
{
    w <= MOST
}

// a <= b - c
pub fn le_sub(a: u64, b: u64, c: u64) -> bool
    ensures { result ≡ le_z (int a) (int b -ℤ int c) }
{
    let left = wide_add(raised(a), raised(c));
    let right = wide_add(raised(b), HALF);
    wide_le(left, right)
}

// A number by its sign and its size, for products. Zero may have either sign.
#[derive(Clone, Copy)]
pub struct Sized {
    pub neg: bool,
    pub size: u64,
}

pub fn size_of(w: u64) -> Sized
    ensures { int w ≡ signed result.neg result.size }
{
    if w < HALF {
        Sized {
            neg: false,
            size: w,
        }
    } else {
        Sized {
            neg: true,
            size: MAX - w + 1,
        }
    }
}

#[derive(Clone, Copy)]
pub struct Signed128 {
    pub neg: bool,
    pub size: Wide,
}

pub fn signed_mul(w: u64, n: u64) -> Signed128
    ensures { value result ≡ int w *ℤ pos n }
{
    let s = size_of(w);
    let size = wide_mul(s.size, n);
    Signed128 { neg: s.neg, size }
}

fn both_zero(a: Wide, b: Wide) -> bool
    ensures { result ≡ leb (wide a + wide b) 0 }
{
    let zero = Wide { hi: 0, lo: 0 };
    wide_le(a, zero) && wide_le(b, zero)
}

pub fn at_most(a: Signed128, b: Signed128) -> bool
    ensures { result ≡ le_z (value a) (value b) }
{
    if a.neg {
        if b.neg { wide_le(b.size, a.size) } else { true }
    } else {
        if b.neg {
            both_zero(a.size, b.size)
        } else {
            wide_le(a.size, b.size)
        }
    }
}

pub fn positive(n: u64) -> Option<u64>
    ensures { amount result ≡ fit (pos n) }
{
    if n < HALF { Some(n) } else { None }
}

fn negative(n: u64) -> Option<u64>
    ensures { amount result ≡ fit (neg_ℤ (pos n)) }
{
    if n <= HALF {
        Some(lowered(HALF - n))
    } else {
        None
    }
}

// A number of two words, in one.
pub fn narrow(s: Signed128) -> Option<u64>
    ensures { amount result ≡ fit (value s) }
{
    if s.size.hi != 0 {
        None
    } else if s.neg {
        negative(s.size.lo)
    } else {
        positive(s.size.lo)
    }
}

// Where an exact sum lies: in 64 bits signed, or past one of the ends.
#[derive(Clone, Copy)]
enum Place {
    In(u64),
    Above,
    Below,
}

// t + d and t - d, of a raised number.
fn grown(t: u64, d: u64) -> Place
    ensures { placed result ≡ place_of ((t + d) ⊖ half) }
{
    if d <= MAX - t {
        Place::In(lowered(t + d))
    } else {
        Place::Above
    }
}

fn shrunk(t: u64, d: u64) -> Place
    ensures { placed result ≡ place_of (t ⊖ (half + d)) }
{
    if d <= t {
        Place::In(lowered(t - d))
    } else {
        Place::Below
    }
}

// t - old + new, of a raised number.
fn moved(t: u64, old: u64, new: u64) -> Place
    ensures { placed result ≡ place_of ((t + new) ⊖ (old + half)) }
{
    if old <= new {
        grown(t, new - old)
    } else {
        shrunk(t, old - new)
    }
}

fn place_of(total: u64, old: u64, new: u64) -> Place
    ensures { placed result ≡ place_of (int total -ℤ int old +ℤ int new) }
{
    let t = raised(total);
    let o = raised(old);
    let n = raised(new);
    moved(t, o, n)
}

fn amount_at(p: Place) -> Option<u64>
    ensures { amount result ≡ fit_in (placed p) }
{
    match p {
        Place::In(w) => Some(w),
        Place::Above => None,
        Place::Below => None,
    }
}

// The exact total after one of its parts changes from `old` to `new`.
pub fn total(total: u64, old: u64, new: u64) -> Option<u64>
    ensures { amount result ≡ fit (int total -ℤ int old +ℤ int new) }
{
    amount_at(place_of(total, old, new))
}

// t + a + b and t - a - b.
fn grown_twice(t: u64, a: u64, b: u64) -> Place
    ensures { placed result ≡ place_of ((t + (a + b)) ⊖ half) }
{
    if a <= MAX - b {
        grown(t, a + b)
    } else {
        Place::Above
    }
}

fn shrunk_twice(t: u64, a: u64, b: u64) -> Place
    ensures { placed result ≡ place_of (t ⊖ (half + (a + b))) }
{
    if a <= MAX - b {
        shrunk(t, a + b)
    } else {
        Place::Below
    }
}

// t - old + new - old2 + new2, of a raised number.
fn moved_twice(t: u64, old: u64, new: u64, old2: u64, new2: u64) -> Place
    ensures { placed result ≡ place_of ((t + (new + new2)) ⊖ (old + old2 + half)) }
{
    if old <= new {
        if old2 <= new2 {
            grown_twice(t, new - old, new2 - old2)
        } else {
            moved(t, old2 - new2, new - old)
        }
    } else {
        if old2 <= new2 {
            moved(t, old - new, new2 - old2)
        } else {
            shrunk_twice(t, old - new, old2 - new2)
        }
    }
}

// The exact total after two of its parts change: what one change alone gives need not fit.
pub fn total_of_two(total: u64, old: u64, new: u64, old2: u64, new2: u64) -> Option<u64>
    ensures { amount result ≡ fit (int total -ℤ int old +ℤ int new -ℤ int old2 +ℤ int new2) }
{
    let t = raised(total);
    let o = raised(old);
    let n = raised(new);
    let o2 = raised(old2);
    let n2 = raised(new2);
    amount_at(moved_twice(t, o, n, o2, n2))
}

fn nearest(p: Place) -> u64
    ensures { int result ≡ nearest_to (placed p) }
{
    match p {
        Place::In(w) => w,
        Place::Above => MOST,
        Place::Below => HALF,
    }
}

pub fn saturating_add(a: u64, b: u64) -> u64
    ensures { int result ≡ clamp (int a +ℤ int b) }
{
    nearest(place_of(a, 0, b))
}

pub fn saturating_sub(a: u64, b: u64) -> u64
    ensures { int result ≡ clamp (int a -ℤ int b) }
{
    nearest(place_of(a, b, 0))
}

// A total modulo 2^64 after one of its parts changes from `old` to `new`.
pub fn shifted(total: u64, old: u64, new: u64) -> u64
    ensures { result ≡ wrap (int total -ℤ int old +ℤ int new) }
{
    total.wrapping_sub(old).wrapping_add(new)
}
