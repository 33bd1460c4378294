//! Pieces that an image is made of: numbers, zeros, padded bytes, structures.
ghost use Rattle.std.specs.Prelude.{◌≡◌, ◌++◌, ◌+◌, ◌<◌, ◌≤◌, ◌^◌, length, OnOk, true};
ghost use Rattle.std.specs.List.{list_all};
ghost use Rattle.image_write.specs.Pieces.{bytes_of, zeros, rounded, padded, filled, structure, is_narrow};

use std::alloc::AllocError;

/// A number of a structure: its place in the structure, and how many bytes it has.
#[derive(Clone, Copy)]
pub(crate) struct Field {
    pub at: u16,
    pub width: u8,
    pub value: u64,
}

pub(crate) fn number(at: u16, width: u8, value: u64) -> Field
    ensures { result ≡ record { at = at; width = width; value = value } }
{
    Field { at, width, value }
}

/// Appends the lowest bytes of a number, the lowest first.
#[tactic(auto, unfolding(crate::specs::Pieces::bytes_of))]
pub(crate) fn push_number(out: &mut Vec<u8>, width: u8, value: u64) -> Result<(), AllocError>
    requires { width ≤ 8 }
    ensures { OnOk result (out.new.items ≡ out.old.items ++ bytes_of width value) }
{
    let digits = value.to_le_bytes();
    out.extend_from_slice(&digits[..width as usize])
}

pub(crate) fn push_zeros(out: &mut Vec<u8>, count: usize) -> Result<(), AllocError>
    ensures { OnOk result (out.new.items ≡ out.old.items ++ zeros count) }
{
    for _ in 0..count {
        out.push(0)?;
    }
    Ok(())
}

/// The next multiple of 4.
pub(crate) fn rounded(len: usize) -> usize
    requires { len < 2 ^ 63 }
    ensures { result ≡ rounded len }
{
    4 * ((len + 3) / 4)
}

/// Appends bytes, and zeros up to a multiple of 4.
#[tactic(auto, unfolding(crate::specs::Pieces::padded))]
pub(crate) fn push_padded(out: &mut Vec<u8>, bytes: &[u8]) -> Result<(), AllocError>
    ensures { OnOk result (out.new.items ≡ out.old.items ++ padded bytes.now) }
{
    out.extend_from_slice(bytes)?;
    push_zeros(out, rounded(bytes.len()) - bytes.len())
}

/// Appends bytes and zeros up to a multiple of 4, or four zeros where there are no bytes.
#[tactic(auto, unfolding(crate::specs::Pieces::filled))]
pub(crate) fn push_filled(out: &mut Vec<u8>, bytes: &[u8]) -> Result<(), AllocError>
    ensures { OnOk result (out.new.items ≡ out.old.items ++ filled bytes.now) }
{
    if bytes.is_empty() {
        push_zeros(out, 4)
    } else {
        push_padded(out, bytes)
    }
}

/// Appends a structure of `len` bytes. Where no field is, the bytes are 0.
pub(crate) fn push_structure(
    out: &mut Vec<u8>,
    len: usize,
    fields: &[Field],
) -> Result<(), AllocError>
    requires { list_all is_narrow fields.now ≡ true }
    ensures { OnOk result (out.new.items ≡ out.old.items ++ structure 0 len fields.now) }
{
    let mut at = 0;
    for field in fields {
        let place = field.at as usize;
        push_zeros(out, place.saturating_sub(at))?;
        push_number(out, field.width, field.value)?;
        at = place + field.width as usize;
    }
    push_zeros(out, len.saturating_sub(at))
}
