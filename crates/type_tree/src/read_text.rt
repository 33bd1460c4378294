//! Trees from their texts.

ghost use Rattle.std.specs.Prelude.{◌≡◌, ℕ, List, IfOk, Some, None};
ghost use Rattle.std.specs.List.{position_or_len};
ghost use Rattle.std.specs.Option.{option_map, IfSome, IfNone};
ghost use Rattle.clr_base.specs.declared.ids.DefId.{DefId};
ghost use Rattle.type_tree.specs.declared.tree.Ty.{Ty};
ghost use Rattle.type_tree.specs.ReadTexts as texts;
ghost use Rattle.type_tree.specs.Reading as spec;
ghost use Rattle.type_tree.specs.declared.read_text.Stop.TheVariants as stop;

use crate::lookup::find_named;
use crate::measure::depth_of_all;
use crate::tree::{Ty, TyList};
use crate::world::World;
use clr_base::{DefId, Memory};
use sqlite_items::{Boxed, Items};
use std::alloc::{AllocError, AllocFailed, Global};

/// How deep a tree may be that is read.
const MAX_DEPTH: u64 = 64;

/// Why no tree comes of a text.
#[derive(Clone, Copy)]
pub(crate) enum Stop {
    /// It is no text of a tree that may be read.
    Refused,
    /// Want of memory.
    Memory,
}

impl From<AllocError> for Stop {
    ghost from_gives = { λ _ e. e ≡ stop.Memory };

    fn from(_error: AllocError) -> Stop {
        Stop::Memory
    }
}

impl<T: Drop> From<AllocFailed<T>> for Stop {
    ghost from_gives = { λ _ e. e ≡ stop.Memory };

    fn from(_error: AllocFailed<T>) -> Stop {
        Stop::Memory
    }
}

impl From<Memory> for Stop {
    ghost from_gives = { λ _ e. e ≡ stop.Memory };

    fn from(_error: Memory) -> Stop {
        Stop::Memory
    }
}

/// `[`, `]` and `,` stand in no name.
fn is_mark(byte: u8) -> bool
    ensures { result ≡ texts.is_mark byte }
{
    byte == b'[' || byte == b']' || byte == b','
}

/// How many bytes there are before the first mark.
fn name_len(text: &[u8]) -> usize
    ensures { result ≡ position_or_len texts.is_mark text.now }
{
    for (i, byte) in text.iter().enumerate() {
        if is_mark(*byte) {
            return i;
        }
    }
    text.len()
}

/// A name, as long as can be, and what stands behind it.
fn split_name(text: &[u8]) -> (&[u8], &[u8])
    ensures { spec.IsSplit text.now result.0.now result.1.now }
{
    text.split_at(name_len(text))
}

/// What stands behind that byte, where the text begins with it.
fn behind(first: u8, text: &[u8]) -> Option<&[u8]>
    ensures { option_map (λ rest. rest.now) result ≡ spec.behind first text.now }
{
    match text {
        [byte, rest @ ..] if *byte == first => Some(rest),
        _ => None,
    }
}

/// What stands behind the bracket that opens a list of arguments. That of `[]` opens none.
fn list_at(text: &[u8]) -> Option<&[u8]>
    ensures { option_map (λ rest. rest.now) result ≡ spec.list_at text.now }
{
    match text {
        [b'[', b']', ..] => None,
        [b'[', rest @ ..] => Some(rest),
        _ => None,
    }
}

/// What stands behind `[]`, where the text begins with it.
fn array_at(text: &[u8]) -> Option<&[u8]>
    ensures { option_map (λ rest. rest.now) result ≡ spec.array_at text.now }
{
    match text {
        [b'[', b']', rest @ ..] => Some(rest),
        _ => None,
    }
}

/// How many `[]` the text begins with, and what stands behind them.
fn split_arrays(text: &[u8]) -> (u64, &[u8])
    ensures { spec.AreArrays text.now result.0 result.1.now }
{
    let mut count: u64 = 0;
    let mut rest = text;
    while let Some(more) = array_at(rest) {
        count += 1;
        rest = more;
    }
    (count, rest)
}

/// Whether a type's text may end before this.
fn is_end(text: &[u8]) -> bool
    ensures { result ≡ spec.is_end text.now }
{
    match text {
        [] => true,
        [byte, ..] => *byte == b']' || *byte == b',',
    }
}

/// So many levels of arrays round an element.
fn in_arrays(alloc: Global, count: u64, element: Ty) -> Result<Ty, Memory>
    ensures { IfOk result (λ t. t ≡ spec.in_arrays count element) }
{
    let mut tree = element;
    for _ in 0..count {
        tree = Ty::Array(Boxed::new(alloc, tree)?);
    }
    Ok(tree)
}

/// The definition with that name.
fn definition(world: &World, name: &[u8]) -> Result<DefId, Stop>
    ensures { spec.Answers (λ d. spec.IsDefinition world.now name.now d) ((d : DefId) → ¬ (spec.IsDefinition world.now name.now d)) result }
{
    if name.is_empty() {
        return Err(Stop::Refused);
    }
    match find_named(world, name) {
        Some(def) => Ok(def),
        None => Err(Stop::Refused),
    }
}

/// The tree whose text the text begins with, which is at most so deep, and what stands behind it.
#[cycle(read)]
fn tree<'a>(
    alloc: Global,
    world: &World,
    levels: u64,
    text: &'a [u8],
) -> Result<(Ty, &'a [u8]), Stop>
    ensures { spec.Answers (λ x. spec.Begins world.now levels text.now x.0 x.1.now) ((t : Ty) (rest : List ℕ) → ¬ (spec.Begins world.now levels text.now t rest)) result }
{
    if levels == 0 {
        return Err(Stop::Refused);
    }
    let (name, rest) = split_name(text);
    let def = definition(world, name)?;
    let (args, rest) = arguments(alloc, world, levels - 1, rest)?;
    let (count, rest) = split_arrays(rest);
    if !is_end(rest) {
        return Err(Stop::Refused);
    }
    if count >= levels - depth_of_all(args.as_slice()) {
        return Err(Stop::Refused);
    }
    Ok((in_arrays(alloc, count, Ty::Inst(def, args))?, rest))
}

/// The arguments that the text begins with, none where no list opens there, and what stands behind them.
#[cycle(read)]
fn arguments<'a>(
    alloc: Global,
    world: &World,
    levels: u64,
    text: &'a [u8],
) -> Result<(TyList, &'a [u8]), Stop>
    ensures { spec.Answers (λ x. spec.BeginsArguments (spec.Begins world.now levels) text.now x.0 x.1.now)
        ((ts : List Ty) (rest : List ℕ) → ¬ (spec.BeginsArguments (spec.Begins world.now levels) text.now ts rest)) result }
{
    match list_at(text) {
        Some(inner) => list(alloc, world, levels, inner),
        None => Ok((Items::new(alloc), text)),
    }
}

/// The types that the text begins with, commas between them, and what stands behind the closing bracket.
#[cycle(read)]
fn list<'a>(
    alloc: Global,
    world: &World,
    levels: u64,
    text: &'a [u8],
) -> Result<(TyList, &'a [u8]), Stop>
    ensures { spec.Answers (λ x. spec.BeginsList (spec.Begins world.now levels) text.now x.0 x.1.now)
        ((ts : List Ty) (rest : List ℕ) → ¬ (spec.BeginsList (spec.Begins world.now levels) text.now ts rest)) result }
{
    let mut done = Items::new(alloc);
    let mut rest = text;
    loop {
        let (one, after) = tree(alloc, world, levels, rest)?;
        done.push(one)?;
        match behind(b',', after) {
            Some(others) => rest = others,
            None => match behind(b']', after) {
                Some(end) => return Ok((done, end)),
                None => return Err(Stop::Refused),
            },
        }
    }
}

/// The tree of a text: a full name, arguments in brackets where there are any, and `[]` for each array. A name is
/// that of the first definition among those of the files, and then of the core. None where the text is no such
/// text, a name in it is no definition's, or the tree is deeper than 64.
pub fn read_type_text(alloc: Global, world: &World, text: &str) -> Result<Option<Ty>, Memory>
    ensures named { IfOk result (λ o. IfSome o (texts.Reads world.now text.now)) }
    ensures refused { IfOk result (λ o. IfNone o ((t : Ty) → ¬ (texts.Reads world.now text.now t))) }
{
    match tree(alloc, world, MAX_DEPTH, text.as_bytes()) {
        Ok((tree, rest)) => Ok(rest.is_empty().then_some(tree)),
        Err(Stop::Refused) => Ok(None),
        Err(Stop::Memory) => Err(Memory),
    }
}
