//! The graph of the generic parameters of a world.

ghost use Rattle.std.specs.Prelude.{◌≡◌, flat_map, IfOk};
ghost use Rattle.type_expands.specs.Formals as spec;

use crate::formals::Span;
use crate::rows::rows_of;
use closed_walks::Edge;
use clr_base::{DefId, Memory};
use sqlite_items::Items;
use std::alloc::Global;
use type_tree::World;

/// For each generic parameter of each definition the edges that go from it.
pub(crate) fn graph_of(
    alloc: Global,
    world: &World,
    spans: &[Span],
) -> Result<Vec<Items<Edge>>, Memory>
    ensures { IfOk result (λ graph. graph.items ≡ flat_map (spec.rows spans.now) world.now.defs) }
{
    let mut graph = Vec::new(alloc);
    for n in 0..world.def_count() {
        let mut rows = rows_of(alloc, spans, world.def(DefId(n)))?;
        graph.append(&mut rows)?;
    }
    Ok(graph)
}
