//! Numbers of one to four bytes in either order. The functions are inlined where the width is
//! known.

ghost use Rattle.std.specs.Prelude.{◌≡◌, ◌<◌, ◌≤◌, ◌^◌, ◌++◌, drop, length};

use byteorder::ByteOrder;

/// Returns the number in the first `width` bytes.
#[inline(always)]
pub(crate) fn first_number<T: ByteOrder>(bytes: &[u8], width: usize) -> u64
    requires few { width ≤ 4 }
    requires some { 1 ≤ width }
    requires room { width ≤ length bytes.now }
    ensures value { result ≡ T.number_of width bytes.now }
    ensures fits { result < 2 ^ 32 }
{
    match width {
        1 => T::read_uint(bytes, 1),
        2 => u64::from(T::read_u16(bytes)),
        3 => u64::from(T::read_u24(bytes)),
        _ => u64::from(T::read_u32(bytes)),
    }
}

/// Writes a number to the first `width` bytes and leaves the other bytes.
#[inline(always)]
pub(crate) fn put_number<T: ByteOrder>(out: &mut [u8], number: u64, width: usize)
    requires few { width ≤ 4 }
    requires some { 1 ≤ width }
    requires room { width ≤ length out.old }
    requires fits { number < 256 ^ width }
    ensures { out.new ≡ T.bytes_of width number ++ drop width out.old }
{
    match width {
        2 => T::write_u16(out, number as u16),
        4 => T::write_u32(out, number as u32),
        _ => T::write_uint(out, number, width),
    }
}
