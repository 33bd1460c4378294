//! The edges of the generic parameters of one definition.

ghost use Rattle.std.specs.Prelude.{◌≡◌, ◌<◌, [], ◌∷◌, IfOk, OnOk, length, replicate};
ghost use Rattle.type_expands.specs.Formals as spec;

use crate::formals::{Span, node_at};
use crate::links::{Link, def_links};
use closed_walks::Edge;
use clr_base::Memory;
use sqlite_items::Items;
use std::alloc::Global;
use type_tree::Def;

fn empty_rows(alloc: Global, count: usize) -> Result<Vec<Items<Edge>>, Memory>
    ensures { IfOk result (λ rows. rows.items ≡ replicate count []) }
{
    let mut rows = Vec::new(alloc);
    for i in 0..count {
        let _ = i;
        rows.push(Items::new(alloc))?;
    }
    Ok(rows)
}

fn push_edge(rows: &mut Vec<Items<Edge>>, row: usize, edge: Edge) -> Result<(), Memory>
    requires { row < length rows.old.items }
    ensures { OnOk result (spec.IsPushed rows.old.items row edge rows.new.items) }
{
    rows[row].push(edge)?;
    Ok(())
}

/// Adds the edge of a link, where both ends are generic parameters.
fn add_link(rows: &mut Vec<Items<Edge>>, spans: &[Span], link: Link) -> Result<(), Memory>
    ensures { OnOk result (spec.IsAdded spans.now rows.old.items (link ∷ []) rows.new.items) }
{
    let row = link.from as usize;
    if row >= rows.len() {
        return Ok(());
    }
    match node_at(spans, link.to, link.place)? {
        Some(to) => push_edge(
            rows,
            row,
            Edge {
                to,
                marked: link.expanding,
            },
        ),
        None => Ok(()),
    }
}

fn add_links(rows: &mut Vec<Items<Edge>>, spans: &[Span], links: &[Link]) -> Result<(), Memory>
    ensures { OnOk result (spec.IsAdded spans.now rows.old.items links.now rows.new.items) }
{
    for link in links {
        add_link(rows, spans, *link)?;
    }
    Ok(())
}

/// For each generic parameter of a definition the edges that go from it.
pub(crate) fn rows_of(alloc: Global, spans: &[Span], def: &Def) -> Result<Vec<Items<Edge>>, Memory>
    ensures { IfOk result (λ rows. rows.items ≡ spec.rows spans.now def.now) }
{
    let links = def_links(alloc, def)?;
    let mut rows = empty_rows(alloc, def.formals.len())?;
    add_links(&mut rows, spans, links.as_slice())?;
    Ok(rows)
}
