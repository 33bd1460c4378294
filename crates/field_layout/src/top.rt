//! The layout of a type.

ghost use Rattle.std.specs.Prelude.{◌≡◌, ◌<◌, ◌≤◌, true, Some, length, slice_get, IsTrue, IfOk, OnOk};
ghost use Rattle.type_pool.specs.Trees.{at, at_all, ids_below, Grows};
ghost use Rattle.field_layout.specs.Notes.{leaf_of};
ghost use Rattle.field_layout.specs.Ends.{Known};
ghost use Rattle.field_layout.specs.Fields.{width as spec_width};
ghost use Rattle.field_layout.specs.Layouts as spec;

use crate::answer::LayoutAnswer;
use crate::classes::{ROOM, class_at, fixed, head_at, laid_from};
use crate::core_widths::width;
use crate::known::Notes;
use crate::own_fields::is_interface;
use crate::walk::fields_in;
use clr_base::{DefId, Memory};
use field_places::Layout;
use std::alloc::Global;
use type_pool::{Id, Node, Pool, from_tree};
use type_tree::{Ty, World};

/// An interface has no end and no size.
fn bare(answer: LayoutAnswer) -> LayoutAnswer
    ensures { result ≡ spec.bare answer }
{
    match answer {
        LayoutAnswer::Laid(layout) => LayoutAnswer::Laid(without_end(layout)),
        LayoutAnswer::Deep => LayoutAnswer::Deep,
        LayoutAnswer::Bad => LayoutAnswer::Bad,
    }
}

fn without_end(layout: Layout) -> Layout
    ensures { result ≡ spec.without_end layout }
{
    let Layout {
        offsets,
        has_refs,
        ..
    } = layout;
    Layout {
        offsets,
        end: 0,
        size: 0,
        align: 8,
        has_refs,
    }
}

/// What has no definition and is no array.
fn leaf(alloc: Global, node: &Node) -> LayoutAnswer
    ensures { result ≡ leaf_of node.now }
{
    match node {
        Node::Array(_) => fixed(alloc, 16, 8),
        Node::Missing(_, value) => {
            if *value {
                fixed(alloc, 1, 1)
            } else {
                fixed(alloc, 8, 8)
            }
        }
        Node::Inst(_, _) => fixed(alloc, 8, 8),
        Node::ByRef(_) => fixed(alloc, 8, 8),
        Node::Ptr(_) => fixed(alloc, 8, 8),
        Node::Var(_) => fixed(alloc, 8, 8),
        Node::MVar(_) => fixed(alloc, 8, 8),
        Node::Odd(_) => fixed(alloc, 8, 8),
    }
}

/// An instantiation of a definition.
fn inst(
    pool: &mut Pool,
    alloc: Global,
    world: &World,
    notes: &mut Notes,
    id: DefId,
    args: &[Id],
) -> Result<LayoutAnswer, Memory>
    requires exists { id.0 < length world.now.defs }
    requires args { ids_below (length pool.old) args.now ≡ true }
    requires known { Known world.now pool.old notes.old }
    ensures grows { Grows pool.old pool.new }
    ensures known { OnOk result (Known world.now pool.new notes.new) }
    ensures value { IfOk result (λ answer. answer ≡ spec.inst_layout world.now id (at_all pool.old args.now) (spec_width world.now id) (slice_get world.now.defs id.0)) }
{
    if let Some(size) = width(world, id) {
        return Ok(fixed(alloc, size, size));
    }
    let def = world.def(id);
    if world.is_value_def(id) {
        let found = fields_in(pool, alloc, world, &mut notes.shapes, def, args, ROOM)?;
        return laid_from(alloc, world, true, def, 0, &found);
    }
    if is_interface(def) {
        let found = fields_in(pool, alloc, world, &mut notes.shapes, def, args, ROOM)?;
        return Ok(bare(laid_from(alloc, world, false, def, 8, &found)?));
    }
    class_at(pool, alloc, world, notes, id, args)
}

/// The layout of a tree of a pool, by notes that serve many trees of one world. Recurses as deep as the
/// tree and the types of fields in it: test the tree's mark first. After Memory the notes aren't to be
/// used again.
pub fn layout_in(
    pool: &mut Pool,
    alloc: Global,
    world: &World,
    notes: &mut Notes,
    id: Id,
) -> Result<LayoutAnswer, Memory>
    requires within { id.0 < length pool.old }
    requires known { Known world.now pool.old notes.old }
    ensures grows { Grows pool.old pool.new }
    ensures known { OnOk result (Known world.now pool.new notes.new) }
    ensures value { IfOk result (λ answer. answer ≡ spec.layout_of world.now (at pool.old id)) }
{
    match head_at(alloc, world, pool, id)? {
        Some((def, args)) => inst(pool, alloc, world, notes, def, args.as_slice()),
        None => Ok(leaf(alloc, pool.node(id))),
    }
}

/// The layout of a type of a world: where its own instance fields stand, its end, size and alignment, and
/// whether one of these fields is or holds a reference. It is meant for types whose definitions, parents
/// and fields are found and whose chain of parents has at most 64 members. Recurses as deep as the tree
/// and the types of fields in it: bound its depth where it is read.
pub fn layout(alloc: Global, world: &World, t: &Ty) -> Result<LayoutAnswer, Memory>
    ensures { IfOk result (λ answer. answer ≡ spec.layout_of world.now t.now) }
{
    let mut pool = Pool::new(alloc);
    let mut notes = Notes::new(alloc);
    let id = from_tree(t, &mut pool, alloc)?;
    layout_in(&mut pool, alloc, world, &mut notes, id)
}
