//! The five checks: whether a blob is a signature, with no value of it but how many locals there are. They take no memory.
ghost use Rattle.std.specs.Prelude.{◌≡◌, ◌<◌, ◌^◌, ℕ, List, length, Ok};
ghost use Rattle.cli_sigs.specs.declared.signature.RowCounts.{RowCounts};
ghost use Rattle.cli_sigs.specs.declared.signature.SigTy.{SigTy};
ghost use Rattle.cli_sigs.specs.Fault.{reached};
ghost use Rattle.cli_sigs.specs.Reading.{Answer, Finds, behind, measured, repeated};
ghost use Rattle.cli_sigs.specs.Signatures as spec;

use crate::compressed::{argument_count, number};
use crate::fault::{SigFault, Stop};
use crate::marks::{Before, marks};
use crate::past::{past_marked_type, past_method, past_type, past_types};
use crate::readers::{MOST_LEVELS, kind};
use crate::signature::RowCounts;
use crate::types::Callee;

/// The bytes after a field's type.
#[tactic(auto, unfolding(crate::specs::Signatures::field_at, crate::specs::Signatures::whole_type_at))]
fn past_field<'a>(counts: &RowCounts, bytes: &'a [u8]) -> Result<&'a [u8], Stop>
    ensures { Finds (λ rest. rest.now) result (behind (spec.field_at counts.now bytes.now)) }
{
    let rest = kind(0x06, bytes)?;
    past_marked_type(counts, MOST_LEVELS, rest)
}

/// The bytes after a local's type.
#[tactic(auto, unfolding(crate::specs::Signatures::local_at, crate::specs::Signatures::whole_type_at))]
fn past_local<'a>(counts: &RowCounts, bytes: &'a [u8]) -> Result<&'a [u8], Stop>
    ensures { Finds (λ rest. rest.now) result (behind (spec.local_at counts.now bytes.now)) }
{
    let rest = marks(counts, Before::Local, bytes)?;
    past_type(counts, MOST_LEVELS, rest)
}

/// The bytes after the types of as many locals as the number says.
fn past_each<'a>(counts: &RowCounts, count: u32, bytes: &'a [u8]) -> Result<&'a [u8], Stop>
    ensures { Finds (λ rest. rest.now) result (behind (repeated (spec.local_at counts.now) count bytes.now)) }
{
    let mut rest = bytes;
    for _ in 0..count {
        rest = past_local(counts, rest)?;
    }
    Ok(rest)
}

/// How many locals there are, and the bytes after their types.
#[tactic(auto, using(crate::proofs::Skipping::locals))]
fn past_locals<'a>(counts: &RowCounts, bytes: &'a [u8]) -> Result<(u32, &'a [u8]), Stop>
    ensures { Finds (λ x. (x.0, x.1.now)) result (measured (spec.locals_at counts.now bytes.now)) }
{
    let rest = kind(0x07, bytes)?;
    let (count, rest) = number(rest)?;
    let rest = past_each(counts, count, rest)?;
    Ok((count, rest))
}

/// The bytes after the generic arguments of a method.
#[tactic(auto, unfolding(crate::specs::Signatures::method_spec_at, crate::specs::Signatures::whole_type_at))]
fn past_method_spec<'a>(counts: &RowCounts, bytes: &'a [u8]) -> Result<&'a [u8], Stop>
    ensures { Finds (λ rest. rest.now) result (behind (spec.method_spec_at counts.now bytes.now)) }
{
    let rest = kind(0x0a, bytes)?;
    let (count, rest) = argument_count(rest)?;
    past_types(counts, MOST_LEVELS, count, rest)
}

/// Nothing where something was read from the front of the blob, or the fault with its place.
fn checked(blob: &[u8], read: Result<&[u8], Stop>) -> Result<(), SigFault>
    requires { length blob.now < 2 ^ 32 }
    ensures { (past : Answer (List ℕ)) → Finds (λ rest. rest.now) read.entry past → result ≡ reached blob.now past }
{
    match read {
        Ok(_) => Ok(()),
        Err(stop) => Err(stop.in_blob(blob)),
    }
}

/// Checks a field's signature: answers as [`read_field`](crate::read_field), with nothing in place of the value.
///
/// # Errors
///
/// `Bad` with the first byte that the grammar doesn't allow; bytes after the signature are ignored.
#[tactic(auto, using(crate::proofs::Skipping::reached_is))]
pub fn check_field(blob: &[u8], counts: &RowCounts) -> Result<(), SigFault>
    requires { length blob.now < 2 ^ 32 }
    ensures { result ≡ spec.checked (spec.placed blob.now (spec.field_at counts.now blob.now)) }
{
    checked(blob, past_field(counts, blob))
}

/// Checks a method's signature: answers as [`read_method`](crate::read_method), with nothing in place of the value.
///
/// # Errors
///
/// As [`check_field`].
#[tactic(auto, using(crate::proofs::Skipping::reached_is), unfolding(crate::specs::Signatures::member_at, crate::specs::Signatures::whole_type_at))]
pub fn check_method(blob: &[u8], counts: &RowCounts) -> Result<(), SigFault>
    requires { length blob.now < 2 ^ 32 }
    ensures { result ≡ spec.checked (spec.placed blob.now (spec.member_at counts.now blob.now)) }
{
    checked(blob, past_method(counts, MOST_LEVELS, Callee::Member, blob))
}

/// Counts the types of a body's locals: answers as [`read_locals`](crate::read_locals), with the length of the list in its
/// place.
///
/// # Errors
///
/// As [`check_field`].
#[tactic(auto, using(crate::proofs::Skipping::counted_is))]
pub fn count_locals(blob: &[u8], counts: &RowCounts) -> Result<u32, SigFault>
    requires { length blob.now < 2 ^ 32 }
    ensures { result ≡ spec.counted (spec.placed blob.now (spec.locals_at counts.now blob.now)) }
{
    match past_locals(counts, blob) {
        Ok((count, _)) => Ok(count),
        Err(stop) => Err(stop.in_blob(blob)),
    }
}

/// The number behind a blob's code, 0 where there is none.
#[tactic(auto, unfolding(crate::specs::Signatures::told_locals))]
fn number_told(blob: &[u8]) -> u32
    ensures { result ≡ spec.told_locals blob.now }
{
    match blob {
        [_, rest @ ..] => match number(rest) {
            Ok((count, _)) => count,
            Err(_) => 0,
        },
        [] => 0,
    }
}

/// How many locals a blob tells before their types: of a blob that passes [`count_locals`] the same number, without going
/// past the types again. Takes constant time.
pub fn told_locals(blob: &[u8]) -> u32
    ensures exact { result ≡ spec.told_locals blob.now }
    ensures listed { (counts : RowCounts) (xs : List SigTy) → spec.placed blob.now (spec.locals_at counts blob.now) ≡ Ok xs → result ≡ length xs }
{
    number_told(blob)
}

/// Checks the type that a TypeSpec row names: answers as [`read_type_spec`](crate::read_type_spec), with nothing in place
/// of the value.
///
/// # Errors
///
/// As [`check_field`].
#[tactic(auto, using(crate::proofs::Skipping::reached_is), unfolding(crate::specs::Signatures::whole_type_at))]
pub fn check_type_spec(blob: &[u8], counts: &RowCounts) -> Result<(), SigFault>
    requires { length blob.now < 2 ^ 32 }
    ensures { result ≡ spec.checked (spec.placed blob.now (spec.whole_type_at counts.now blob.now)) }
{
    checked(blob, past_type(counts, MOST_LEVELS, blob))
}

/// Checks the generic arguments that a MethodSpec row gives a method: answers as
/// [`read_method_spec`](crate::read_method_spec), with nothing in place of the value.
///
/// # Errors
///
/// As [`check_field`].
#[tactic(auto, using(crate::proofs::Skipping::reached_is))]
pub fn check_method_spec(blob: &[u8], counts: &RowCounts) -> Result<(), SigFault>
    requires { length blob.now < 2 ^ 32 }
    ensures { result ≡ spec.checked (spec.placed blob.now (spec.method_spec_at counts.now blob.now)) }
{
    checked(blob, past_method_spec(counts, blob))
}
