// Tables of keyed rows in a lent slice of bytes. A table is given by numbers: where row 0 starts (`base`), the bytes of a row (`stride`),
// how many rows there are (`n`), and where in a row its mark stands (`mark`). With constants for them the calls are inlined.
#![tactic(auto)]

ghost use Rattle.std.specs.Prelude.{◌≡◌, ◌+◌, ◌*◌, ◌%◌, ◌≤◌, ◌<◌, length};
ghost use Rattle.le.specs.Le.{put};
ghost use Rattle.table.specs.Table.{key_at, mark_at, Room, Sorted, Between, Least, Counted, Finds, Moved, Opened, Closed, Compacted};

pub fn key_at(m: &[u8], base: usize, stride: usize, i: usize) -> u64
    requires { base + stride * i + 8 ≤ length m.now }
    ensures { result ≡ key_at base stride m.now i }
{
    le::get_u64(m, base + stride * i)
}

pub fn mark_at(m: &[u8], base: usize, stride: usize, mark: usize, i: usize) -> u8
    requires { base + stride * i + mark + 1 ≤ length m.now }
    ensures { result ≡ mark_at base stride mark m.now i }
{
    le::get_u8(m, base + stride * i + mark)
}

// Of `many` rows, each w behind the one before it, how many have a key below `key`. The answers are added up: no jump depends on a key.
fn count(m: &[u8], base: usize, stride: usize, lo: usize, w: usize, many: usize, key: u64) -> usize
    requires { Sorted base stride (lo + w * many) m.now × (0 < w) }
    ensures { Counted (key_at base stride m.now) key lo w many result }
{
    let mut c: usize = 0;
    for i in 0..many {
        let at = lo + w * i + (w - 1);
        if key_at(m, base, stride, at) < key {
            c += 1;
        }
    }
    c
}

// The first row whose key is not below `key`. Of the rows in doubt, which are `left` from lo on, one part of many + 1 is left in a turn.
fn bound_in(
    m: &[u8],
    base: usize,
    stride: usize,
    n: usize,
    from: usize,
    rows: usize,
    key: u64,
    many: usize,
) -> usize
    requires { Sorted base stride n m.now × Between (key_at base stride m.now) n key from (from + rows) × (0 < many) × (many < 8) }
    ensures { Between (key_at base stride m.now) n key result result }
{
    let mut lo: usize = from;
    let mut left: usize = rows;
    while many <= left {
        let w = (left + 1) / (many + 1);
        let c = count(m, base, stride, lo, w, many, key);
        lo += w * c;
        left -= w * many;
    }
    lo + count(m, base, stride, lo, 1, left, key)
}

fn lesser(d: u64, n: usize) -> usize
    ensures { Least d n result }
{
    d.min(n as u64) as usize
}

// Keys are distinct, so that a key's row is at most as far from the first row, and from the last, as the keys are: where few numbers lie
// between the keys, few rows are in doubt.
pub fn bound_by(m: &[u8], base: usize, stride: usize, n: usize, key: u64, many: usize) -> usize
    requires { Sorted base stride n m.now × (0 < many) × (many < 8) }
    ensures { Between (key_at base stride m.now) n key result result }
{
    if n == 0 {
        return 0;
    }
    let first = key_at(m, base, stride, 0);
    if key <= first {
        return 0;
    }
    let last = key_at(m, base, stride, n - 1);
    if last < key {
        return n;
    }
    let from = n - 1 - lesser(last - key, n - 1);
    let to = lesser(key - first, n - 1);
    bound_in(m, base, stride, n, from, to - from, key, many)
}

// Seven keys a turn: few turns, and too long to be inlined.
pub fn lower_bound(m: &[u8], base: usize, stride: usize, n: usize, key: u64) -> usize
    requires { Sorted base stride n m.now }
    ensures { Between (key_at base stride m.now) n key result result }
{
    bound_by(m, base, stride, n, key, 7)
}

// A key above the last one is not searched for.
pub fn find(m: &[u8], base: usize, stride: usize, mark: usize, n: usize, key: u64) -> Option<usize>
    requires { Sorted base stride n m.now × (mark < stride) }
    ensures { Finds (key_at base stride m.now) (mark_at base stride mark m.now) n key result }
{
    if n == 0 {
        return None;
    }
    if key_at(m, base, stride, n - 1) < key {
        return None;
    }
    let i = lower_bound(m, base, stride, n, key);
    if n <= i {
        return None;
    }
    if key_at(m, base, stride, i) != key {
        return None;
    }
    if mark_at(m, base, stride, mark, i) == 0 {
        return None;
    }
    Some(i)
}

// As `find`, but the row `hint` is tried first. Where it has the key, nothing is searched.
pub fn find_hinted(
    m: &[u8],
    base: usize,
    stride: usize,
    mark: usize,
    n: usize,
    key: u64,
    hint: usize,
) -> Option<usize>
    requires { Sorted base stride n m.now × (mark < stride) }
    ensures { Finds (key_at base stride m.now) (mark_at base stride mark m.now) n key result }
{
    if hint < n {
        if key_at(m, base, stride, hint) == key {
            if mark_at(m, base, stride, mark, hint) == 0 {
                return None;
            }
            return Some(hint);
        }
    }
    find(m, base, stride, mark, n, key)
}

fn move_bytes(m: &mut [u8], from: usize, to: usize, len: usize)
    requires { (from + len ≤ length m.old) × (to + len ≤ length m.old) }
    ensures { Moved m.old m.new from to len }
{
    m.copy_within(from..from + len, to);
}

// Over the bytes that it touches and no others, a move by a known distance is compiled to a call of memmove.
fn move_up(m: &mut [u8], from: usize, by: usize, len: usize)
    requires { from + by + len ≤ length m.old }
    ensures { Moved m.old m.new from (from + by) len }
{
    m[from..from + by + len].copy_within(0..len, by);
}

fn move_down(m: &mut [u8], to: usize, by: usize, len: usize)
    requires { to + by + len ≤ length m.old }
    ensures { Moved m.old m.new (to + by) to len }
{
    m[to..to + by + len].copy_within(by..by + len, 0);
}

// Rows of 32 bytes have functions of their own, where the distance is known.
fn up_32(m: &mut [u8], from: usize, len: usize)
    requires { from + 32 + len ≤ length m.old }
    ensures { Moved m.old m.new from (from + 32) len }
{
    move_up(m, from, 32, len);
}

fn down_32(m: &mut [u8], to: usize, len: usize)
    requires { to + 32 + len ≤ length m.old }
    ensures { Moved m.old m.new (to + 32) to len }
{
    move_down(m, to, 32, len);
}

// Room for a row at i, which the caller writes: the rows from i on move one place up.
pub fn open_at(m: &mut [u8], base: usize, stride: usize, n: usize, i: usize)
    requires { Room base stride (n + 1) m.old × (i ≤ n) }
    ensures { Opened base stride n i m.old m.new }
{
    let from = base + stride * i;
    let end = base + stride * n;
    if stride == 32 {
        up_32(m, from, end - from);
        return;
    }
    move_up(m, from, stride, end - from);
}

// The row i goes: those behind it move one place down.
pub fn close_at(m: &mut [u8], base: usize, stride: usize, n: usize, i: usize)
    requires { Room base stride n m.old × (i < n) }
    ensures { Closed base stride n i m.old m.new }
{
    let to = base + stride * i;
    let from = to + stride;
    let end = base + stride * n;
    if stride == 32 {
        down_32(m, to, end - from);
        return;
    }
    move_down(m, to, stride, end - from);
}

pub fn strike(m: &mut [u8], base: usize, stride: usize, mark: usize, i: usize)
    requires { base + stride * i + mark + 1 ≤ length m.old }
    ensures { m.new ≡ put 1 m.old (base + stride * i + mark) 0 }
{
    le::put_u8(m, base + stride * i + mark, 0);
}

// The bytes of the row i, also at an earlier row w.
pub fn move_row(m: &mut [u8], base: usize, stride: usize, i: usize, w: usize)
    requires { Room base stride (i + 1) m.old × (w ≤ i) }
    ensures { Moved m.old m.new (base + stride * i) (base + stride * w) stride }
{
    if w < i {
        move_bytes(m, base + stride * i, base + stride * w, stride);
    }
}

// The dead rows are squeezed out. The answer is how many are left.
pub fn compact(m: &mut [u8], base: usize, stride: usize, mark: usize, n: usize) -> usize
    requires { Room base stride n m.old × (mark < stride) }
    ensures { Compacted base stride mark n result m.old m.new }
{
    let mut w: usize = 0;
    for i in 0..n {
        if mark_at(m, base, stride, mark, i) != 0 {
            move_row(m, base, stride, i, w);
            w += 1;
        }
    }
    w
}
