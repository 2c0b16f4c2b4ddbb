// Tables of numbers that stand at one distance from each other.
ghost use Rattle.std.specs.Prelude.{◌≡◌, ℕ, ◌+◌, ◌*◌, ◌≤◌, ◌<◌, length};
ghost use Rattle.little.specs.Little.{column, filled};

use crate::numbers::read_u64;

// Numbers of eight bytes, at an offset and at each stride from there on, into the first `count` places of a table.
pub fn long_fields_in(bytes: &[u8], at: usize, stride: usize, count: usize, table: &mut [u64])
    requires { (count ≤ length table.old) × ((i : ℕ) → i < count → at + stride * i + 8 ≤ length bytes.now) }
    ensures { table.new ≡ filled count (column 8 at stride bytes.now) table.old }
{
    for (i, place) in table[..count].iter_mut().enumerate() {
        *place = read_u64(bytes, at + stride * i);
    }
}
