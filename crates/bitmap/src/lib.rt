// A bit for each row of a table, 64 in a cell: 1 where the row is taken. What is searched for is a row that is free, with no row looked at.
#![tactic(auto)]

ghost use Rattle.std.specs.Prelude.{◌≡◌, ◌/◌, ◌≤◌, ◌<◌};
ghost use Rattle.store.specs.Layout.{cell, Cell, Holds};
ghost use Rattle.store.specs.View.{Is};
ghost use Rattle.bitmap.specs.Bitmap as P;

use store::cells::MAP_BITS;

// The first bit from k on that is 0, or 64.
fn first_zero(w: u64, k: u64) -> u64
    requires { k < 64 }
    ensures { P.FirstZero w k result }
{
    k + u64::trailing_zeros(!(w >> k)) as u64
}

// One more than the last bit before k that is 0, or 0.
fn last_zero(w: u64, k: u64) -> u64
    requires { (0 < k) × (k ≤ 64) }
    ensures { P.LastZero w k result }
{
    k - u64::leading_zeros(!(w << (64 - k))) as u64
}

fn with_digit(w: u64, k: u64, v: u64) -> u64
    requires { (k < 64) × (v ≤ 1) }
    ensures { result ≡ P.with_digit w k v }
{
    let mask = 1 << k;
    ((w | mask) ^ mask) | (v << k)
}

// The bit j is v now, which is 0 or 1.
pub fn put(m: &mut [u8], b: usize, j: usize, v: u64)
    requires { Holds m.old × Cell b (j / 64) 0 × (v ≤ 1) }
    ensures { Is m.new (P.put_bit b j v (cell m.old)) }
{
    let w = store::get(m, b, j / 64, MAP_BITS);
    store::set(m, b, j / 64, MAP_BITS, with_digit(w, (j % 64) as u64, v));
}

// No row is taken.
pub fn clear(m: &mut [u8], b: usize, n: usize)
    requires { Holds m.old × P.Map b n }
    ensures { Is m.new (P.emptied b (n / 64) (cell m.old)) }
{
    for g in 0..n / 64 {
        store::set(m, b, g, MAP_BITS, 0);
    }
}

// The first row from j on that is free, or n.
fn first_free(m: &[u8], b: usize, n: usize, j: usize) -> usize
    requires { Holds m.now × P.Map b n × (j ≤ n) }
    ensures { P.FirstFree b (cell m.now) n j result }
{
    let mut i = j;
    while i < n {
        let g = i / 64;
        let r = first_zero(store::get(m, b, g, MAP_BITS), (i % 64) as u64) as usize;
        i = 64 * g + r;
        if r < 64 {
            return i;
        }
    }
    n
}

// One more than the last row before j that is free, or 0.
fn last_free(m: &[u8], b: usize, n: usize, j: usize) -> usize
    requires { Holds m.now × P.Map b n × (j ≤ n) }
    ensures { P.LastFree b (cell m.now) j result }
{
    let mut i = j;
    while 0 < i {
        let g = (i - 1) / 64;
        let r = last_zero(store::get(m, b, g, MAP_BITS), (i - 64 * g) as u64) as usize;
        i = 64 * g + r;
        if 0 < r {
            return i;
        }
    }
    0
}

// The nearest row to j that is free, on either side; n where none is.
pub fn nearest(m: &[u8], b: usize, n: usize, j: usize) -> usize
    requires { Holds m.now × P.Map b n × (j ≤ n) }
    ensures { P.Nearest b (cell m.now) n j result }
{
    let up = first_free(m, b, n, j);
    let down = last_free(m, b, n, j);
    if down == 0 {
        return up;
    }
    if up < n {
        if up - j <= j - down {
            return up;
        }
        return down - 1;
    }
    down - 1
}
