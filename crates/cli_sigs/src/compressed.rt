//! Compressed numbers (II.23.2), and the numbers that name a row.
ghost use Rattle.std.specs.Prelude.{◌≡◌, ◌<◌, length, IfOk};
ghost use Rattle.cli_sigs.specs.Reading.{Finds};
ghost use Rattle.cli_sigs.specs.Compressed as spec;

use crate::fault::Stop;
use crate::signature::RowCounts;

/// The number at the front, and the bytes after it.
pub(crate) fn number(bytes: &[u8]) -> Result<(u32, &[u8]), Stop>
    ensures exact { Finds (λ x. (x.0, x.1.now)) result (spec.number_at bytes.now) }
    ensures shorter { IfOk result (λ x. length x.1.now < length bytes.now) }
{
    match bytes {
        [a, rest @ ..] if *a < 0x80 => Ok((u32::from(*a), rest)),
        [a, b, rest @ ..] if *a < 0xc0 => {
            let high = u32::from(*a - 0x80);
            Ok((high * 0x100 + u32::from(*b), rest))
        }
        [a, b, c, d, rest @ ..] if *a < 0xe0 => {
            let high = u32::from(*a - 0xc0) * 0x100 + u32::from(*b);
            Ok(((high * 0x100 + u32::from(*c)) * 0x100 + u32::from(*d), rest))
        }
        _ => Err(Stop::Left(bytes.len())),
    }
}

/// The rows of the table that the tag of a TypeDefOrRef number names.
fn rows_of(counts: &RowCounts, tag: u32) -> u32
    ensures { result ≡ spec.rows_of counts.now tag }
{
    match tag {
        0 => counts.type_def,
        1 => counts.type_ref,
        2 => counts.type_spec,
        _ => 0,
    }
}

fn names_row(counts: &RowCounts, number: u32) -> bool
    ensures { result ≡ spec.names_row counts.now number }
{
    let row = number / 4;
    0 < row && row <= rows_of(counts, number % 4)
}

/// The number of a TypeDef or TypeRef at the front.
#[tactic(auto, unfolding(crate::specs::Compressed::type_name_at))]
pub(crate) fn type_name<'a>(counts: &RowCounts, bytes: &'a [u8]) -> Result<(u32, &'a [u8]), Stop>
    ensures { Finds (λ x. (x.0, x.1.now)) result (spec.type_name_at counts.now bytes.now) }
{
    let (name, rest) = number(bytes)?;
    if names_row(counts, name) && name % 4 != 2 {
        Ok((name, rest))
    } else {
        Err(Stop::Left(bytes.len()))
    }
}

/// The number of a TypeDef, TypeRef or TypeSpec at the front.
#[tactic(auto, unfolding(crate::specs::Compressed::modifier_name_at))]
pub(crate) fn modifier_name<'a>(
    counts: &RowCounts,
    bytes: &'a [u8],
) -> Result<(u32, &'a [u8]), Stop>
    ensures exact { Finds (λ x. (x.0, x.1.now)) result (spec.modifier_name_at counts.now bytes.now) }
    ensures shorter { IfOk result (λ x. length x.1.now < length bytes.now) }
{
    let (name, rest) = number(bytes)?;
    if names_row(counts, name) {
        Ok((name, rest))
    } else {
        Err(Stop::Left(bytes.len()))
    }
}

/// The number of a generic parameter at the front.
#[tactic(auto, unfolding(crate::specs::Compressed::variable_at))]
pub(crate) fn variable(bytes: &[u8]) -> Result<(u32, &[u8]), Stop>
    ensures { Finds (λ x. (x.0, x.1.now)) result (spec.variable_at bytes.now) }
{
    let (variable, rest) = number(bytes)?;
    if variable <= 65_535 {
        Ok((variable, rest))
    } else {
        Err(Stop::Left(bytes.len()))
    }
}

/// A count of at least one argument at the front.
#[tactic(auto, unfolding(crate::specs::Compressed::argument_count_at))]
pub(crate) fn argument_count(bytes: &[u8]) -> Result<(u32, &[u8]), Stop>
    ensures { Finds (λ x. (x.0, x.1.now)) result (spec.argument_count_at bytes.now) }
{
    let (count, rest) = number(bytes)?;
    if 0 < count {
        Ok((count, rest))
    } else {
        Err(Stop::Left(bytes.len()))
    }
}
