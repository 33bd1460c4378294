//! Numbers in bytes, the lowest byte first.

ghost use Rattle.std.specs.Prelude.{◌≡◌, ◌+◌, ◌*◌, ◌%◌, ◌^◌, ◌<◌, ◌≤◌, ◌++◌, length, drop, replicate, vec_len, vec_capacity, IsTrue};
ghost use Rattle.std.specs.List.{flat_map};
ghost use Rattle.byteorder.specs.Endian.{little_bytes, little_number};
ghost use Rattle.obj_heap.specs.Calls.{is_width};
ghost use Rattle.obj_heap.specs.Objects.{put};

use byteorder::{ByteOrder, LittleEndian};

/// The number in so many bytes at a place.
pub(crate) fn read_number(bytes: &[u8], at: usize, width: u8) -> u64
    requires width { IsTrue (is_width width) }
    requires inside { at + width ≤ length bytes.now }
    ensures value { result ≡ little_number width (drop at bytes.now) }
    ensures narrow { result < 256 ^ width }
{
    let bytes = &bytes[at..];
    match width {
        1 => u64::from(bytes[0]),
        2 => u64::from(LittleEndian::read_u16(bytes)),
        4 => u64::from(LittleEndian::read_u32(bytes)),
        _ => LittleEndian::read_u64(bytes),
    }
}

/// Writes the lowest bytes of a number at a place.
pub(crate) fn write_number(bytes: &mut [u8], at: usize, width: u8, value: u64)
    requires width { IsTrue (is_width width) }
    requires inside { at + width ≤ length bytes.old }
    ensures { bytes.new ≡ put at (little_bytes width (value % 256 ^ width)) bytes.old }
{
    let bytes = &mut bytes[at..];
    match width {
        1 => bytes[0] = (value % 0x100) as u8,
        2 => LittleEndian::write_u16(bytes, (value % 0x1_0000) as u16),
        4 => LittleEndian::write_u32(bytes, (value % 0x1_0000_0000) as u32),
        _ => LittleEndian::write_u64(bytes, value),
    }
}

/// Appends the units, two bytes each, where there is room for them.
pub(crate) fn push_units(bytes: &mut Vec<u8>, units: &[u16])
    requires { vec_len bytes.old + 2 * length units.now ≤ vec_capacity bytes.old }
    ensures items { bytes.new.items ≡ bytes.old.items ++ flat_map (little_bytes 2) units.now }
    ensures len { vec_len bytes.new ≡ vec_len bytes.old + 2 * length units.now }
    ensures capacity { vec_capacity bytes.new ≡ vec_capacity bytes.old }
{
    for unit in units {
        bytes.push_reserved((unit % 0x100) as u8);
        bytes.push_reserved((unit / 0x100) as u8);
    }
}
