//! The generic parameters of all definitions, numbered one after the other.

ghost use Rattle.std.specs.Prelude.{◌≡◌, ◌+◌, IfOk};
ghost use Rattle.type_expands.specs.Formals as spec;

use clr_base::{DefId, Memory};
use sqlite_items::{Items, at};
use std::alloc::Global;
use type_tree::World;

/// The generic parameters of one definition.
#[derive(Clone, Copy)]
pub struct Span {
    /// The number of the first.
    pub first: usize,
    pub count: usize,
}

/// A sum. No list is so long that it doesn't fit, so it counts as want of memory where it doesn't.
pub(crate) fn sum_of(a: usize, b: usize) -> Result<usize, Memory>
    ensures { IfOk result (λ sum. sum ≡ a + b) }
{
    match a.checked_add(b) {
        Some(sum) => Ok(sum),
        None => Err(Memory),
    }
}

/// The generic parameters of each definition.
pub(crate) fn spans_of(alloc: Global, world: &World) -> Result<Items<Span>, Memory>
    ensures { IfOk result (λ spans. spans ≡ spec.spans world.now) }
{
    let mut spans = Items::new(alloc);
    let mut total = 0;
    for n in 0..world.def_count() {
        let count = world.def(DefId(n)).formals.len();
        spans.push(Span {
            first: total,
            count,
        })?;
        total = sum_of(total, count)?;
    }
    Ok(spans)
}

/// The number of a definition's generic parameter at a place, if it has one there.
pub(crate) fn node_at(spans: &[Span], def: DefId, place: usize) -> Result<Option<usize>, Memory>
    ensures { IfOk result (λ node. node ≡ spec.node_at spans.now def place) }
{
    match at(spans, def.0 as usize) {
        Some(span) => {
            if place < span.count {
                Ok(Some(sum_of(span.first, place)?))
            } else {
                Ok(None)
            }
        }
        None => Ok(None),
    }
}
