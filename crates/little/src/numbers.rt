// Little-endian numbers at any offset.
ghost use Rattle.std.specs.Prelude.{◌≡◌, ◌++◌, ◌+◌, ◌≤◌, ◌<◌, ◌^◌, length, take, drop};
ghost use Rattle.little.specs.Little.{to_le, field, put_at};

// The bytes at an offset, as many as the number that is made of them takes.
fn bytes_at<const N: usize>(bytes: &[u8], at: usize) -> [u8; N]
    requires { at + N ≤ length bytes.now }
    ensures { result ≡ take N (drop at bytes.now) }
{
    *bytes[at..at + N].first_chunk().unwrap()
}

// The number of two bytes at an offset.
pub fn read_u16(bytes: &[u8], at: usize) -> u32
    requires { at + 2 ≤ length bytes.now }
    ensures { (result ≡ field 2 at bytes.now) × (result < 256 ^ 2) }
{
    u32::from(u16::from_le_bytes(bytes_at(bytes, at)))
}

// .. of four.
pub fn read_u32(bytes: &[u8], at: usize) -> u32
    requires { at + 4 ≤ length bytes.now }
    ensures { (result ≡ field 4 at bytes.now) × (result < 256 ^ 4) }
{
    u32::from_le_bytes(bytes_at(bytes, at))
}

// .. of eight.
pub fn read_u64(bytes: &[u8], at: usize) -> u64
    requires { at + 8 ≤ length bytes.now }
    ensures { result ≡ field 8 at bytes.now }
{
    u64::from_le_bytes(bytes_at(bytes, at))
}

// The lowest `width` bytes of v, zeros past its eighth, are put at an offset; the other bytes stay.
pub fn write_le(bytes: &mut [u8], at: usize, width: usize, v: u64)
    requires { at + width ≤ length bytes.old }
    ensures { bytes.new ≡ put_at at (to_le width v) bytes.old }
{
    let number = v.to_le_bytes();
    let low = width.min(number.len());
    bytes[at..at + low].copy_from_slice(&number[..low]);
    bytes[at + low..at + width].fill(0);
}

// Two numbers, v of `first` bytes and w of `second` bytes behind it.
pub fn write_two(bytes: &mut [u8], at: usize, first: usize, v: u32, second: usize, w: u64)
    requires { at + first + second ≤ length bytes.old }
    ensures { bytes.new ≡ put_at at (to_le first v ++ to_le second w) bytes.old }
{
    write_le(bytes, at, first, u64::from(v));
    write_le(bytes, at + first, second, w);
}
