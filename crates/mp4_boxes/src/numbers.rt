//! Numbers in files: unsigned and two's complement, most significant byte first.
ghost use Rattle.std.specs.Prelude.{◌≡◌, ◌+◌, ◌≤◌, length};
ghost use Rattle.mp4_boxes.specs.format.Bytes.{field, signed_field};

use byteorder::{BigEndian, ByteOrder};

/// The two bytes at a place.
#[inline]
pub fn u16_at(bytes: &[u8], place: usize) -> u16
    requires { place + 2 ≤ length bytes.now }
    ensures { result ≡ field bytes.now place 2 }
{
    BigEndian::read_u16(&bytes[place..])
}

/// The four bytes at a place.
#[inline]
pub fn u32_at(bytes: &[u8], place: usize) -> u32
    requires { place + 4 ≤ length bytes.now }
    ensures { result ≡ field bytes.now place 4 }
{
    BigEndian::read_u32(&bytes[place..])
}

/// The four bytes at a place, as two's complement.
#[inline]
pub fn i32_at(bytes: &[u8], place: usize) -> i32
    requires { place + 4 ≤ length bytes.now }
    ensures { result ≡ signed_field bytes.now place 4 }
{
    u32_at(bytes, place).cast_signed()
}

/// The eight bytes at a place.
#[inline]
pub fn u64_at(bytes: &[u8], place: usize) -> u64
    requires { place + 8 ≤ length bytes.now }
    ensures { result ≡ field bytes.now place 8 }
{
    BigEndian::read_u64(&bytes[place..])
}

/// The eight bytes at a place, as two's complement.
#[inline]
pub fn i64_at(bytes: &[u8], place: usize) -> i64
    requires { place + 8 ≤ length bytes.now }
    ensures { result ≡ signed_field bytes.now place 8 }
{
    u64_at(bytes, place).cast_signed()
}
