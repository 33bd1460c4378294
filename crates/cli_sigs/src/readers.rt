//! The five readers.
ghost use Rattle.std.specs.Prelude.{◌≡◌, ◌<◌, ◌^◌, List, length, IfOk};
ghost use Rattle.cli_sigs.specs.Reading.{Finds, Gives, Part};
ghost use Rattle.cli_sigs.specs.Signatures as spec;
ghost use Rattle.cli_sigs.specs.Signatures.{Answers};
ghost use Rattle.cli_sigs.specs.Grammar.{Holds, SpellsField, SpellsMember, SpellsLocals, SpellsTypeSpec, SpellsMethodSpec};
ghost use Rattle.cli_sigs.specs.declared.signature.SigTy.{SigTy};
ghost use Rattle.cli_sigs.specs.declared.signature.SigMethod.{SigMethod};

use crate::compressed::{argument_count, number};
use crate::fault::{SigFault, Stop};
use crate::marks::{Before, marks};
use crate::signature::{RowCounts, SigMethod, SigTy, SigTyList};
use crate::types::{Callee, marked_type, method, type_of, types};
use sqlite_items::Items;
use std::alloc::Global;

/// How deep constructors may be nested.
pub(crate) const MOST_LEVELS: u32 = 64;

/// The bytes after the code that says which kind of signature this is.
#[tactic(auto, unfolding(crate::specs::Signatures::kind_at))]
pub(crate) fn kind(code: u8, bytes: &[u8]) -> Result<&[u8], Stop>
    ensures { Finds (λ rest. rest.now) result (spec.kind_at code bytes.now) }
{
    match bytes {
        [first, rest @ ..] if *first == code => Ok(rest),
        _ => Err(Stop::Left(bytes.len())),
    }
}

/// A field's type, behind its modifiers.
#[tactic(auto, unfolding(crate::specs::Signatures::field_at, crate::specs::Signatures::whole_type_at))]
fn field<'a>(alloc: Global, counts: &RowCounts, bytes: &'a [u8]) -> Result<(SigTy, &'a [u8]), Stop>
    ensures { Gives (λ x. (x.0, x.1.now)) result (spec.field_at counts.now bytes.now) }
{
    let rest = kind(0x06, bytes)?;
    marked_type(alloc, counts, MOST_LEVELS, rest)
}

/// A local's type, behind its marks.
#[tactic(auto, unfolding(crate::specs::Signatures::local_at, crate::specs::Signatures::whole_type_at))]
fn local<'a>(alloc: Global, counts: &RowCounts, bytes: &'a [u8]) -> Result<(SigTy, &'a [u8]), Stop>
    ensures { Gives (λ x. (x.0, x.1.now)) result (spec.local_at counts.now bytes.now) }
{
    let rest = marks(counts, Before::Local, bytes)?;
    type_of(alloc, counts, MOST_LEVELS, rest)
}

/// The types of as many locals as the number says.
#[tactic(auto, unfolding(crate::specs::Signatures::locals_at))]
fn locals<'a>(
    alloc: Global,
    counts: &RowCounts,
    bytes: &'a [u8],
) -> Result<(SigTyList, &'a [u8]), Stop>
    ensures { Gives (λ x. (x.0, x.1.now)) result (spec.locals_at counts.now bytes.now) }
{
    let rest = kind(0x07, bytes)?;
    let (count, mut rest) = number(rest)?;
    let mut list = Items::new(alloc);
    for _ in 0..count {
        let (one, after) = local(alloc, counts, rest)?;
        list.push(one)?;
        rest = after;
    }
    Ok((list, rest))
}

/// The generic arguments of a method.
#[tactic(auto, unfolding(crate::specs::Signatures::method_spec_at, crate::specs::Signatures::whole_type_at))]
fn method_spec<'a>(
    alloc: Global,
    counts: &RowCounts,
    bytes: &'a [u8],
) -> Result<(SigTyList, &'a [u8]), Stop>
    ensures { Gives (λ x. (x.0, x.1.now)) result (spec.method_spec_at counts.now bytes.now) }
{
    let rest = kind(0x0a, bytes)?;
    let (count, rest) = argument_count(rest)?;
    types(alloc, counts, MOST_LEVELS, count, rest)
}

/// What was read from the front of the blob, or the fault with its place.
fn placed<T: Drop>(blob: &[u8], read: Result<(T, &[u8]), Stop>) -> Result<T, SigFault>
    requires { length blob.now < 2 ^ 32 }
    ensures { (part : Part T) → Gives (λ x. (x.0, x.1.now)) read.entry part → Answers result (spec.placed blob.now part) }
{
    match read {
        Ok((value, _)) => Ok(value),
        Err(stop) => Err(stop.in_blob(blob)),
    }
}

/// Reads a field's signature (II.23.2.4).
///
/// # Errors
///
/// `Bad` with the first byte that the grammar doesn't allow; bytes after the signature are ignored.
pub fn read_field(alloc: Global, blob: &[u8], counts: &RowCounts) -> Result<SigTy, SigFault>
    requires { length blob.now < 2 ^ 32 }
    // The first fault and its place, or the value.
    ensures exact { Answers result (spec.placed blob.now (spec.field_at counts.now blob.now)) }
    // What is read is in the grammar.
    ensures found { IfOk result (λ x. Holds (SpellsField counts.now) blob.now x) }
    // What is in the grammar is read, unless memory runs out.
    ensures only { (x : SigTy) → Holds (SpellsField counts.now) blob.now x → Answers result (Ok x) }
{
    placed(blob, field(alloc, counts, blob))
}

/// Reads a method's signature, of a definition or a reference (II.23.2.1 and II.23.2.2).
///
/// # Errors
///
/// As [`read_field`].
#[tactic(auto, unfolding(crate::specs::Signatures::member_at, crate::specs::Signatures::whole_type_at))]
pub fn read_method(alloc: Global, blob: &[u8], counts: &RowCounts) -> Result<SigMethod, SigFault>
    requires { length blob.now < 2 ^ 32 }
    // The first fault and its place, or the value.
    ensures exact { Answers result (spec.placed blob.now (spec.member_at counts.now blob.now)) }
    // What is read is in the grammar.
    ensures found { IfOk result (λ x. Holds (SpellsMember counts.now) blob.now x) }
    // What is in the grammar is read, unless memory runs out.
    ensures only { (x : SigMethod) → Holds (SpellsMember counts.now) blob.now x → Answers result (Ok x) }
{
    placed(
        blob,
        method(alloc, counts, MOST_LEVELS, Callee::Member, blob),
    )
}

/// Reads the types of a method body's locals (II.23.2.6).
///
/// # Errors
///
/// As [`read_field`].
pub fn read_locals(alloc: Global, blob: &[u8], counts: &RowCounts) -> Result<SigTyList, SigFault>
    requires { length blob.now < 2 ^ 32 }
    // The first fault and its place, or the value.
    ensures exact { Answers result (spec.placed blob.now (spec.locals_at counts.now blob.now)) }
    // What is read is in the grammar.
    ensures found { IfOk result (λ x. Holds (SpellsLocals counts.now) blob.now x) }
    // What is in the grammar is read, unless memory runs out.
    ensures only { (x : List SigTy) → Holds (SpellsLocals counts.now) blob.now x → Answers result (Ok x) }
{
    placed(blob, locals(alloc, counts, blob))
}

/// Reads the type that a TypeSpec row names (II.23.2.14).
///
/// # Errors
///
/// As [`read_field`].
#[tactic(auto, unfolding(crate::specs::Signatures::whole_type_at))]
pub fn read_type_spec(alloc: Global, blob: &[u8], counts: &RowCounts) -> Result<SigTy, SigFault>
    requires { length blob.now < 2 ^ 32 }
    // The first fault and its place, or the value.
    ensures exact { Answers result (spec.placed blob.now (spec.whole_type_at counts.now blob.now)) }
    // What is read is in the grammar.
    ensures found { IfOk result (λ x. Holds (SpellsTypeSpec counts.now) blob.now x) }
    // What is in the grammar is read, unless memory runs out.
    ensures only { (x : SigTy) → Holds (SpellsTypeSpec counts.now) blob.now x → Answers result (Ok x) }
{
    placed(blob, type_of(alloc, counts, MOST_LEVELS, blob))
}

/// Reads the generic arguments that a MethodSpec row gives a method (II.23.2.15).
///
/// # Errors
///
/// As [`read_field`].
pub fn read_method_spec(
    alloc: Global,
    blob: &[u8],
    counts: &RowCounts,
) -> Result<SigTyList, SigFault>
    requires { length blob.now < 2 ^ 32 }
    // The first fault and its place, or the value.
    ensures exact { Answers result (spec.placed blob.now (spec.method_spec_at counts.now blob.now)) }
    // What is read is in the grammar.
    ensures found { IfOk result (λ x. Holds (SpellsMethodSpec counts.now) blob.now x) }
    // What is in the grammar is read, unless memory runs out.
    ensures only { (x : List SigTy) → Holds (SpellsMethodSpec counts.now) blob.now x → Answers result (Ok x) }
{
    placed(blob, method_spec(alloc, counts, blob))
}
