//! Past types and methods: the bytes behind what the readers would read. Nothing is kept, and no memory is taken.
ghost use Rattle.std.specs.Prelude.{◌≡◌, ℕ};
ghost use Rattle.cli_sigs.specs.Reading.{Finds, behind, repeated};
ghost use Rattle.cli_sigs.specs.Types as spec;

use crate::compressed::{argument_count, number, type_name, variable};
use crate::element::{Constructor, Simple, constructor_of, simple_of};
use crate::fault::Stop;
use crate::marks::{Before, marks};
use crate::signature::RowCounts;
use crate::types::{Callee, flags, generic_count, is_value, numbers, past_sentinel};

/// The bytes after a simple type, which begin behind its code.
#[tactic(auto, unfolding(crate::specs::Types::simple_at))]
fn past_simple<'a>(
    counts: &RowCounts,
    code: u8,
    simple: Simple,
    bytes: &'a [u8],
) -> Result<&'a [u8], Stop>
    ensures { Finds (λ rest. rest.now) result (behind (spec.simple_at counts.now code simple bytes.now)) }
{
    match simple {
        Simple::BuiltIn | Simple::TypedByRef => Ok(bytes),
        Simple::ValueType | Simple::Class => {
            let (_, rest) = type_name(counts, bytes)?;
            Ok(rest)
        }
        Simple::Var | Simple::MVar => {
            let (_, rest) = variable(bytes)?;
            Ok(rest)
        }
    }
}

/// The bytes after a type in which at most `levels` constructors are nested.
#[cycle(past)]
#[tactic(auto, using(crate::proofs::Levels::levels), unfolding(crate::specs::Types::level_at))]
pub(crate) fn past_type<'a>(
    counts: &RowCounts,
    levels: u32,
    bytes: &'a [u8],
) -> Result<&'a [u8], Stop>
    ensures { Finds (λ rest. rest.now) result (behind (spec.type_at counts.now levels bytes.now)) }
{
    let [code, rest @ ..] = bytes else {
        return Err(Stop::Left(0));
    };
    if let Some(simple) = simple_of(*code) {
        return past_simple(counts, *code, simple, rest);
    }
    match constructor_of(*code) {
        Some(constructor) if levels > 0 => past_constructed(counts, levels - 1, constructor, rest),
        _ => Err(Stop::Left(bytes.len())),
    }
}

/// The bytes after the type behind a constructor's code.
#[cycle(past)]
#[tactic(auto, using(crate::proofs::Skipping::constructed))]
fn past_constructed<'a>(
    counts: &RowCounts,
    levels: u32,
    constructor: Constructor,
    bytes: &'a [u8],
) -> Result<&'a [u8], Stop>
    ensures { Finds (λ rest. rest.now) result (behind (spec.constructed_at counts.now (spec.type_at counts.now levels) constructor bytes.now)) }
{
    match constructor {
        Constructor::Ptr => past_target(counts, levels, bytes),
        Constructor::ByRef | Constructor::SzArray => past_marked_type(counts, levels, bytes),
        Constructor::Array => past_array(counts, levels, bytes),
        Constructor::GenericInst => past_generic_inst(counts, levels, bytes),
        Constructor::FnPtr => past_method(counts, levels, Callee::Pointer, bytes),
    }
}

/// The bytes after a type behind its modifiers.
#[cycle(past)]
#[tactic(auto, unfolding(crate::specs::Types::marked_type_at))]
pub(crate) fn past_marked_type<'a>(
    counts: &RowCounts,
    levels: u32,
    bytes: &'a [u8],
) -> Result<&'a [u8], Stop>
    ensures { Finds (λ rest. rest.now) result (behind (spec.marked_type_at counts.now (spec.type_at counts.now levels) bytes.now)) }
{
    let rest = marks(counts, Before::Type, bytes)?;
    past_type(counts, levels, rest)
}

/// The bytes after void or a type, behind its modifiers.
#[cycle(past)]
#[tactic(auto, unfolding(crate::specs::Types::target_at, crate::specs::Types::void_or_type_at))]
fn past_target<'a>(counts: &RowCounts, levels: u32, bytes: &'a [u8]) -> Result<&'a [u8], Stop>
    ensures { Finds (λ rest. rest.now) result (behind (spec.target_at counts.now (spec.type_at counts.now levels) bytes.now)) }
{
    let rest = marks(counts, Before::Type, bytes)?;
    match rest {
        [0x01, rest @ ..] => Ok(rest),
        _ => past_type(counts, levels, rest),
    }
}

/// The bytes after an array's element and shape (II.23.2.13).
#[cycle(past)]
#[tactic(auto, using(crate::proofs::Skipping::array))]
fn past_array<'a>(counts: &RowCounts, levels: u32, bytes: &'a [u8]) -> Result<&'a [u8], Stop>
    ensures { Finds (λ rest. rest.now) result (behind (spec.array_at (spec.type_at counts.now levels) bytes.now)) }
{
    let rest = past_type(counts, levels, bytes)?;
    let (_, rest) = number(rest)?;
    let rest = numbers(rest)?;
    numbers(rest)
}

/// The bytes after a generic type and its arguments.
#[cycle(past)]
#[tactic(auto, using(crate::proofs::Skipping::generic_inst))]
fn past_generic_inst<'a>(counts: &RowCounts, levels: u32, bytes: &'a [u8]) -> Result<&'a [u8], Stop>
    ensures { Finds (λ rest. rest.now) result (behind (spec.generic_inst_at counts.now (spec.type_at counts.now levels) bytes.now)) }
{
    let (_, rest) = is_value(bytes)?;
    let (_, rest) = type_name(counts, rest)?;
    let (count, rest) = argument_count(rest)?;
    past_types(counts, levels, count, rest)
}

/// The bytes after as many types as the number says.
#[cycle(past)]
pub(crate) fn past_types<'a>(
    counts: &RowCounts,
    levels: u32,
    count: u32,
    bytes: &'a [u8],
) -> Result<&'a [u8], Stop>
    ensures { Finds (λ rest. rest.now) result (behind (repeated (spec.type_at counts.now levels) count bytes.now)) }
{
    let mut rest = bytes;
    for _ in 0..count {
        rest = past_type(counts, levels, rest)?;
    }
    Ok(rest)
}

/// The bytes after a method.
#[cycle(past)]
#[tactic(auto, using(crate::proofs::Skipping::method))]
pub(crate) fn past_method<'a>(
    counts: &RowCounts,
    levels: u32,
    who: Callee,
    bytes: &'a [u8],
) -> Result<&'a [u8], Stop>
    ensures { Finds (λ rest. rest.now) result (behind (spec.method_at counts.now (spec.type_at counts.now levels) who bytes.now)) }
{
    let (flags, rest) = flags(who, bytes)?;
    let (_, rest) = generic_count(flags, rest)?;
    let (count, rest) = number(rest)?;
    let rest = past_target(counts, levels, rest)?;
    past_params(counts, levels, count, rest)
}

/// The bytes after as many parameters as the number says.
#[cycle(past)]
#[tactic(auto, unfolding(crate::specs::Types::param_at))]
fn past_params<'a>(
    counts: &RowCounts,
    levels: u32,
    count: u32,
    bytes: &'a [u8],
) -> Result<&'a [u8], Stop>
    ensures { Finds (λ rest. rest.now) result (behind (repeated (spec.param_at counts.now (spec.type_at counts.now levels)) count bytes.now)) }
{
    let mut rest = bytes;
    for _ in 0..count {
        rest = past_marked_type(counts, levels, past_sentinel(rest))?;
    }
    Ok(rest)
}
