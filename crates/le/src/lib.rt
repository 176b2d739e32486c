// Little-endian loads and stores in a lent slice of bytes. Each is made of two of half the width, which compiles to one instruction.
#![tactic(auto)]

ghost use Rattle.std.specs.Prelude.{◌≡◌, ◌+◌, ◌^◌, ◌≤◌, ◌<◌, length, ltb, true};
ghost use Rattle.le.specs.Le.{le, put};
ghost use Rattle.le.specs.Checked.{is_width, inside, takes, loaded, stored, Place};

pub fn get_u8(m: &[u8], o: usize) -> u8
    requires { o + 1 ≤ length m.now }
    ensures { result ≡ le 1 m.now o }
{
    m[o]
}

pub fn get_u16(m: &[u8], o: usize) -> u16
    requires { o + 2 ≤ length m.now }
    ensures { result ≡ le 2 m.now o }
{
    let lo = get_u8(m, o);
    let hi = get_u8(m, o + 1);
    lo as u16 + 256 * (hi as u16)
}

pub fn get_u32(m: &[u8], o: usize) -> u32
    requires { o + 4 ≤ length m.now }
    ensures { result ≡ le 4 m.now o }
{
    let lo = get_u16(m, o);
    let hi = get_u16(m, o + 2);
    lo as u32 + 65536 * (hi as u32)
}

pub fn get_u64(m: &[u8], o: usize) -> u64
    requires { o + 8 ≤ length m.now }
    ensures { result ≡ le 8 m.now o }
{
    let lo = get_u32(m, o);
    let hi = get_u32(m, o + 4);
    lo as u64 + 4294967296 * (hi as u64)
}

pub fn put_u8(m: &mut [u8], o: usize, v: u8)
    requires { o + 1 ≤ length m.old }
    ensures { m.new ≡ put 1 m.old o v }
{
    m[o] = v;
}

pub fn put_u16(m: &mut [u8], o: usize, v: u16)
    requires { o + 2 ≤ length m.old }
    ensures { m.new ≡ put 2 m.old o v }
{
    put_u8(m, o, (v % 256) as u8);
    put_u8(m, o + 1, (v / 256) as u8);
}

pub fn put_u32(m: &mut [u8], o: usize, v: u32)
    requires { o + 4 ≤ length m.old }
    ensures { m.new ≡ put 4 m.old o v }
{
    put_u16(m, o, (v % 65536) as u16);
    put_u16(m, o + 2, (v / 65536) as u16);
}

pub fn put_u64(m: &mut [u8], o: usize, v: u64)
    requires { o + 8 ≤ length m.old }
    ensures { m.new ≡ put 8 m.old o v }
{
    put_u32(m, o, (v % 4294967296) as u32);
    put_u32(m, o + 4, (v / 4294967296) as u32);
}

// The width at run time.
pub fn get(m: &[u8], o: usize, width: usize) -> u64
    requires { Place (length m.now) o width }
    ensures { result ≡ le width m.now o }
{
    match width {
        8 => get_u64(m, o),
        4 => get_u32(m, o) as u64,
        2 => get_u16(m, o) as u64,
        _ => get_u8(m, o) as u64,
    }
}

pub fn put(m: &mut [u8], o: usize, width: usize, v: u64)
    requires { Place (length m.old) o width × (v < 256 ^ width) }
    ensures { m.new ≡ put width m.old o v }
{
    match width {
        8 => put_u64(m, o, v),
        4 => put_u32(m, o, v as u32),
        2 => put_u16(m, o, v as u16),
        _ => put_u8(m, o, v as u8),
    }
}

pub fn is_width(width: usize) -> bool
    ensures { result ≡ is_width width }
{
    matches!(width, 1 | 2 | 4 | 8)
}

fn is_inside(len: usize, o: usize, width: usize) -> bool
    ensures { result ≡ inside len o width }
{
    if len < o {
        return false;
    }
    if len - o < width {
        return false;
    }
    is_width(width)
}

pub fn is_small(width: usize, v: u64) -> bool
    requires { is_width width ≡ true }
    ensures { result ≡ ltb v (256 ^ width) }
{
    match width {
        8 => true,
        4 => v < 4294967296,
        2 => v < 65536,
        _ => v < 256,
    }
}

// Checked, for a caller that knows nothing of the place, the width or the value.
pub fn load(m: &[u8], o: usize, width: usize) -> Option<u64>
    ensures { result ≡ loaded m.now o width }
{
    if !is_inside(m.len(), o, width) {
        return None;
    }
    Some(get(m, o, width))
}

// Whether v was stored; where it was not, nothing has changed.
pub fn store(m: &mut [u8], o: usize, width: usize, v: u64) -> bool
    ensures { (result ≡ takes (length m.old) o width v) × (m.new ≡ stored m.old o width v) }
{
    if is_inside(m.len(), o, width) {
        if is_small(width, v) {
            put(m, o, width, v);
            return true;
        }
    }
    false
}
