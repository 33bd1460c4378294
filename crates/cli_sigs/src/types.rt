//! Types (II.23.2.12), and the methods that a function pointer leads to (II.23.2.1 to II.23.2.3).
ghost use Rattle.std.specs.Prelude.{◌≡◌, bit_and};
ghost use Rattle.cli_sigs.specs.Reading.{Finds, Gives, repeated};
ghost use Rattle.cli_sigs.specs.Types as spec;

use crate::compressed::{argument_count, number, type_name, variable};
use crate::element::{Constructor, Simple, constructor_of, simple_of};
use crate::fault::Stop;
use crate::marks::{Before, marks};
use crate::signature::{RowCounts, SigMethod, SigTy, SigTyList};
use sqlite_items::{Boxed, Items};
use std::alloc::Global;

/// Whose signature a method's is.
#[derive(Clone, Copy)]
pub(crate) enum Callee {
    /// A method definition's or reference's.
    Member,
    /// The one behind a function pointer, which may be of unmanaged code.
    Pointer,
}

/// The type behind a simple type's code.
#[tactic(auto, unfolding(crate::specs::Types::simple_at))]
fn simple_type<'a>(
    alloc: Global,
    counts: &RowCounts,
    code: u8,
    simple: Simple,
    bytes: &'a [u8],
) -> Result<(SigTy, &'a [u8]), Stop>
    ensures { Gives (λ x. (x.0, x.1.now)) result (spec.simple_at counts.now code simple bytes.now) }
{
    match simple {
        Simple::BuiltIn => Ok((SigTy::BuiltIn(code), bytes)),
        Simple::TypedByRef => Ok((SigTy::Odd(code), bytes)),
        Simple::ValueType => {
            let (name, rest) = type_name(counts, bytes)?;
            Ok((SigTy::Inst(name, true, Items::new(alloc)), rest))
        }
        Simple::Class => {
            let (name, rest) = type_name(counts, bytes)?;
            Ok((SigTy::Inst(name, false, Items::new(alloc)), rest))
        }
        Simple::Var => {
            let (variable, rest) = variable(bytes)?;
            Ok((SigTy::Var(variable), rest))
        }
        Simple::MVar => {
            let (variable, rest) = variable(bytes)?;
            Ok((SigTy::MVar(variable), rest))
        }
    }
}

/// The bytes after a count and that many numbers.
#[tactic(auto, unfolding(crate::specs::Types::numbers_at))]
pub(crate) fn numbers(bytes: &[u8]) -> Result<&[u8], Stop>
    ensures { Finds (λ rest. rest.now) result (spec.numbers_at bytes.now) }
{
    let (count, mut rest) = number(bytes)?;
    for _ in 0..count {
        rest = number(rest)?.1;
    }
    Ok(rest)
}

/// Whether an instantiation is of a value type.
#[tactic(auto, unfolding(crate::specs::Types::is_value_at))]
pub(crate) fn is_value(bytes: &[u8]) -> Result<(bool, &[u8]), Stop>
    ensures { Finds (λ x. (x.0, x.1.now)) result (spec.is_value_at bytes.now) }
{
    match bytes {
        [0x11, rest @ ..] => Ok((true, rest)),
        [0x12, rest @ ..] => Ok((false, rest)),
        _ => Err(Stop::Left(bytes.len())),
    }
}

/// Whether a method's signature may begin with these flags.
fn are_flags(who: Callee, flags: u8) -> bool
    ensures { result ≡ spec.are_flags who flags }
{
    let convention = flags & 0x0f;
    let is_convention = match who {
        Callee::Member => convention == 0 || convention == 5,
        Callee::Pointer => convention <= 5 || convention == 9,
    };
    flags & 0x80 == 0 && is_convention
}

/// The flags that a method's signature begins with.
#[tactic(auto, unfolding(crate::specs::Types::flags_at))]
pub(crate) fn flags(who: Callee, bytes: &[u8]) -> Result<(u8, &[u8]), Stop>
    ensures { Finds (λ x. (x.0, x.1.now)) result (spec.flags_at who bytes.now) }
{
    match bytes {
        [flags, rest @ ..] if are_flags(who, *flags) => Ok((*flags, rest)),
        _ => Err(Stop::Left(bytes.len())),
    }
}

/// The number of generic parameters, where the flags say that it stands there.
#[tactic(auto, unfolding(crate::specs::Types::generic_count_at))]
pub(crate) fn generic_count(flags: u8, bytes: &[u8]) -> Result<(u32, &[u8]), Stop>
    ensures { Finds (λ x. (x.0, x.1.now)) result (spec.generic_count_at flags bytes.now) }
{
    if flags & 0x10 == 0 {
        Ok((0, bytes))
    } else {
        number(bytes)
    }
}

/// The bytes after the mark that the variable arguments begin, where it stands.
#[tactic(auto, unfolding(crate::specs::Types::past_sentinel))]
pub(crate) fn past_sentinel(bytes: &[u8]) -> &[u8]
    ensures { result.now ≡ spec.past_sentinel bytes.now }
{
    match bytes {
        [0x41, rest @ ..] => rest,
        _ => bytes,
    }
}

/// A type in which at most `levels` constructors are nested.
#[cycle(types)]
#[tactic(auto, using(crate::proofs::Levels::levels), unfolding(crate::specs::Types::level_at))]
pub(crate) fn type_of<'a>(
    alloc: Global,
    counts: &RowCounts,
    levels: u32,
    bytes: &'a [u8],
) -> Result<(SigTy, &'a [u8]), Stop>
    ensures { Gives (λ x. (x.0, x.1.now)) result (spec.type_at counts.now levels bytes.now) }
{
    let [code, rest @ ..] = bytes else {
        return Err(Stop::Left(0));
    };
    if let Some(simple) = simple_of(*code) {
        return simple_type(alloc, counts, *code, simple, rest);
    }
    match constructor_of(*code) {
        Some(constructor) if levels > 0 => constructed(
            alloc,
            counts,
            levels - 1,
            constructor,
            rest,
        ),
        _ => Err(Stop::Left(bytes.len())),
    }
}

/// The type behind a constructor's code.
#[cycle(types)]
#[tactic(auto, unfolding(crate::specs::Types::constructed_at))]
fn constructed<'a>(
    alloc: Global,
    counts: &RowCounts,
    levels: u32,
    constructor: Constructor,
    bytes: &'a [u8],
) -> Result<(SigTy, &'a [u8]), Stop>
    ensures { Gives (λ x. (x.0, x.1.now)) result (spec.constructed_at counts.now (spec.type_at counts.now levels) constructor bytes.now) }
{
    match constructor {
        Constructor::Ptr => {
            let (target, rest) = target(alloc, counts, levels, bytes)?;
            Ok((SigTy::Ptr(Boxed::new(alloc, target)?), rest))
        }
        Constructor::ByRef => {
            let (target, rest) = marked_type(alloc, counts, levels, bytes)?;
            Ok((SigTy::ByRef(Boxed::new(alloc, target)?), rest))
        }
        Constructor::SzArray => {
            let (element, rest) = marked_type(alloc, counts, levels, bytes)?;
            Ok((SigTy::Array(Boxed::new(alloc, element)?), rest))
        }
        Constructor::Array => array(alloc, counts, levels, bytes),
        Constructor::GenericInst => generic_inst(alloc, counts, levels, bytes),
        Constructor::FnPtr => {
            let (_, rest) = method(alloc, counts, levels, Callee::Pointer, bytes)?;
            Ok((SigTy::Odd(0x1b), rest))
        }
    }
}

/// A type behind its modifiers.
#[cycle(types)]
#[tactic(auto, unfolding(crate::specs::Types::marked_type_at))]
pub(crate) fn marked_type<'a>(
    alloc: Global,
    counts: &RowCounts,
    levels: u32,
    bytes: &'a [u8],
) -> Result<(SigTy, &'a [u8]), Stop>
    ensures { Gives (λ x. (x.0, x.1.now)) result (spec.marked_type_at counts.now (spec.type_at counts.now levels) bytes.now) }
{
    let rest = marks(counts, Before::Type, bytes)?;
    type_of(alloc, counts, levels, rest)
}

/// Void or a type, behind its modifiers: what a method returns and a pointer leads to.
#[cycle(types)]
#[tactic(auto, unfolding(crate::specs::Types::target_at, crate::specs::Types::void_or_type_at))]
fn target<'a>(
    alloc: Global,
    counts: &RowCounts,
    levels: u32,
    bytes: &'a [u8],
) -> Result<(SigTy, &'a [u8]), Stop>
    ensures { Gives (λ x. (x.0, x.1.now)) result (spec.target_at counts.now (spec.type_at counts.now levels) bytes.now) }
{
    let rest = marks(counts, Before::Type, bytes)?;
    match rest {
        [0x01, rest @ ..] => Ok((SigTy::BuiltIn(0x01), rest)),
        _ => type_of(alloc, counts, levels, rest),
    }
}

/// An array's element and shape (II.23.2.13), of which only the code is kept.
#[cycle(types)]
#[tactic(auto, unfolding(crate::specs::Types::array_at))]
fn array<'a>(
    alloc: Global,
    counts: &RowCounts,
    levels: u32,
    bytes: &'a [u8],
) -> Result<(SigTy, &'a [u8]), Stop>
    ensures { Gives (λ x. (x.0, x.1.now)) result (spec.array_at (spec.type_at counts.now levels) bytes.now) }
{
    let (_, rest) = type_of(alloc, counts, levels, bytes)?;
    let (_, rest) = number(rest)?;
    let rest = numbers(rest)?;
    let rest = numbers(rest)?;
    Ok((SigTy::Odd(0x14), rest))
}

/// A generic type and its arguments.
#[cycle(types)]
#[tactic(auto, unfolding(crate::specs::Types::generic_inst_at))]
fn generic_inst<'a>(
    alloc: Global,
    counts: &RowCounts,
    levels: u32,
    bytes: &'a [u8],
) -> Result<(SigTy, &'a [u8]), Stop>
    ensures { Gives (λ x. (x.0, x.1.now)) result (spec.generic_inst_at counts.now (spec.type_at counts.now levels) bytes.now) }
{
    let (value, rest) = is_value(bytes)?;
    let (name, rest) = type_name(counts, rest)?;
    let (count, rest) = argument_count(rest)?;
    let (args, rest) = types(alloc, counts, levels, count, rest)?;
    Ok((SigTy::Inst(name, value, args), rest))
}

/// As many types as the number says.
#[cycle(types)]
pub(crate) fn types<'a>(
    alloc: Global,
    counts: &RowCounts,
    levels: u32,
    count: u32,
    bytes: &'a [u8],
) -> Result<(SigTyList, &'a [u8]), Stop>
    ensures { Gives (λ x. (x.0, x.1.now)) result (repeated (spec.type_at counts.now levels) count bytes.now) }
{
    let mut list = Items::new(alloc);
    let mut rest = bytes;
    for _ in 0..count {
        let (one, after) = type_of(alloc, counts, levels, rest)?;
        list.push(one)?;
        rest = after;
    }
    Ok((list, rest))
}

/// A method: its flags, the number of its generic parameters and of its parameters, its result, its parameters.
#[cycle(types)]
#[tactic(auto, unfolding(crate::specs::Types::method_at))]
pub(crate) fn method<'a>(
    alloc: Global,
    counts: &RowCounts,
    levels: u32,
    who: Callee,
    bytes: &'a [u8],
) -> Result<(SigMethod, &'a [u8]), Stop>
    ensures { Gives (λ x. (x.0, x.1.now)) result (spec.method_at counts.now (spec.type_at counts.now levels) who bytes.now) }
{
    let (flags, rest) = flags(who, bytes)?;
    let (generic, rest) = generic_count(flags, rest)?;
    let (count, rest) = number(rest)?;
    let (ret, rest) = target(alloc, counts, levels, rest)?;
    let (params, rest) = params(alloc, counts, levels, count, rest)?;
    let method = SigMethod {
        has_this: flags & 0x20 != 0,
        vararg: flags & 0x0f == 5,
        generic,
        ret,
        params,
    };
    Ok((method, rest))
}

/// As many parameters as the number says.
#[cycle(types)]
#[tactic(auto, unfolding(crate::specs::Types::param_at))]
fn params<'a>(
    alloc: Global,
    counts: &RowCounts,
    levels: u32,
    count: u32,
    bytes: &'a [u8],
) -> Result<(SigTyList, &'a [u8]), Stop>
    ensures { Gives (λ x. (x.0, x.1.now)) result (repeated (spec.param_at counts.now (spec.type_at counts.now levels)) count bytes.now) }
{
    let mut list = Items::new(alloc);
    let mut rest = bytes;
    for _ in 0..count {
        let (one, after) = marked_type(alloc, counts, levels, past_sentinel(rest))?;
        list.push(one)?;
        rest = after;
    }
    Ok((list, rest))
}
