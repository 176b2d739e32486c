// Lists of rows in lent bytes: a row is some cells of 8 bytes, and each place has one. Places behind the last row written keep what they hold.
#![tactic(auto)]

ghost use Rattle.std.specs.Prelude.{◌≡◌, ◌+◌, ◌*◌, ◌≤◌, length};
ghost use Rattle.rows.specs.Rows.{put_row};

// The numbers of a row in the cells from the byte o on.
pub fn put(out: &mut [u8], o: usize, row: &[u64])
    requires { o + 8 * length row.now ≤ length out.old }
    ensures { out.new ≡ put_row out.old o row.now }
{
    for (j, v) in row.iter().enumerate() {
        le::put_u64(out, o + 8 * j, *v);
    }
}
