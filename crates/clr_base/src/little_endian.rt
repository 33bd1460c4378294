//! Little-endian numbers in bytes, as PE and CLI structures have them (ECMA-335 II.25.1, II.24.2).
ghost use Rattle.std.specs.Prelude.{◌≡◌, ◌+◌, ◌≤◌, length};
ghost use Rattle.clr_base.specs.LittleEndian.{u16_at, u32_at, u64_at};

use byteorder::{ByteOrder, LittleEndian};

/// The number in 2 bytes at a place.
pub fn read_u16(bytes: &[u8], at: usize) -> u16
    requires { at + 2 ≤ length bytes.now }
    ensures { result ≡ u16_at bytes.now at }
{
    LittleEndian::read_u16(&bytes[at..])
}

/// The number in 4 bytes at a place.
pub fn read_u32(bytes: &[u8], at: usize) -> u32
    requires { at + 4 ≤ length bytes.now }
    ensures { result ≡ u32_at bytes.now at }
{
    LittleEndian::read_u32(&bytes[at..])
}

/// The number in 8 bytes at a place.
pub fn read_u64(bytes: &[u8], at: usize) -> u64
    requires { at + 8 ≤ length bytes.now }
    ensures { result ≡ u64_at bytes.now at }
{
    LittleEndian::read_u64(&bytes[at..])
}
