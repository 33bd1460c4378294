//! Numbers that are noted: a bit for each, up to the highest.
ghost use Rattle.std.specs.Prelude.{◌≡◌, ◌||◌, ◌==◌, ◌<◌, ◌/◌, ℕ, length, OnOk};
ghost use Rattle.image_rows.specs.BitNotes as spec;

use std::alloc::AllocError;

/// Whether a number is noted.
pub fn is_noted(noted: &[u8], number: u32) -> bool
    ensures { result ≡ spec.is_noted noted.now number }
{
    match noted.get((number / 8) as usize) {
        Some(byte) => (*byte >> (number % 8)) & 1 == 1,
        None => false,
    }
}

/// Sets the bit of a number that has a byte.
fn set_bit(noted: &mut [u8], number: u32)
    requires { number / 8 < length noted.old }
    ensures { (other : ℕ) → spec.is_noted noted.new other ≡ (spec.is_noted noted.old other || other == number) }
{
    let at = (number / 8) as usize;
    noted[at] |= 1 << (number % 8);
}

/// Notes a number. Takes memory for at most two bits for each number up to it, and a byte.
pub fn note(noted: &mut Vec<u8>, number: u32) -> Result<(), AllocError>
    ensures { OnOk result ((other : ℕ) → spec.is_noted noted.new.items other ≡ (spec.is_noted noted.old.items other || other == number)) }
{
    let at = (number / 8) as usize;
    if noted.len() <= at {
        noted.resize(2 * at + 1, 0)?;
    }
    set_bit(noted, number);
    Ok(())
}
