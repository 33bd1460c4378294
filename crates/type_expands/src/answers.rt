//! Which definitions expand.

ghost use Rattle.std.specs.Prelude.{◌≡◌, ◌↔◌, IsTrue, IfOk, map};
ghost use Rattle.type_expands.specs.Expands as spec;

use crate::formals::{Span, spans_of, sum_of};
use crate::graph::graph_of;
use closed_walks::closed_walks;
use clr_base::{DefId, Memory};
use sqlite_items::Items;
use std::alloc::Global;
use type_tree::World;

/// What was found of a node, false where there is none.
fn found_at(found: &[bool], node: usize) -> bool
    ensures { result ≡ spec.found_at found.now node }
{
    if node < found.len() {
        found[node]
    } else {
        false
    }
}

/// Whether something was found of one of the generic parameters of a definition.
fn any_found(found: &[bool], span: Span) -> Result<bool, Memory>
    ensures { IfOk result (λ b. b ≡ spec.any_found found.now span) }
{
    for n in 0..span.count {
        if found_at(found, sum_of(span.first, n)?) {
            return Ok(true);
        }
    }
    Ok(false)
}

fn all_found(alloc: Global, found: &[bool], spans: &[Span]) -> Result<Items<bool>, Memory>
    ensures { IfOk result (λ answers. answers ≡ map (spec.any_found found.now) spans.now) }
{
    let mut answers = Items::new(alloc);
    for span in spans {
        answers.push(any_found(found, *span)?)?;
    }
    Ok(answers)
}

/// For each definition of a world whether it expands. In time by the size of the trees that definitions extend and
/// declare, times their depth.
pub fn expanding(alloc: Global, world: &World) -> Result<Items<bool>, Memory>
    ensures { IfOk result (spec.AreExpanding world.now) }
{
    let spans = spans_of(alloc, world)?;
    let graph = graph_of(alloc, world, spans.as_slice())?;
    let found = closed_walks(alloc, graph.as_slice())?;
    all_found(alloc, found.as_slice(), spans.as_slice())
}

/// Whether a definition expands. A number that no definition has doesn't.
pub fn expands(alloc: Global, world: &World, def: DefId) -> Result<bool, Memory>
    ensures { IfOk result (λ b. IsTrue b ↔ spec.Expands world.now def.0) }
{
    let found = expanding(alloc, world)?;
    Ok(found_at(found.as_slice(), def.0 as usize))
}
