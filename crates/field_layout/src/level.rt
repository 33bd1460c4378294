//! What the level of a type says of a field of it.

ghost use Rattle.std.specs.Prelude.{◌≡◌, ◌<◌, length, IfOk};
ghost use Rattle.type_pool.specs.Trees.{at};
ghost use Rattle.field_layout.specs.Notes.{IsLevel, InstLevel, plain_note, reference_note, missing_note};

use crate::core_widths::width;
use crate::notes::Note;
use clr_base::{DefId, Memory};
use field_places::{Content, Shape};
use sqlite_items::Items;
use std::alloc::Global;
use type_pool::{Id, Node, Pool};
use type_tree::World;

/// A type, as a field of it is laid out.
#[derive(Drop)]
pub enum Level {
    /// What it takes is known without its parts.
    Leaf(Note),
    /// A value type with its arguments, which isn't built in.
    Struct(DefId, Items<Id>),
}

/// What takes so many bytes and has no references.
fn plain(need: u32, size: u32) -> Note
    ensures { result ≡ plain_note need size }
{
    Note {
        need,
        shape: Some(Shape {
            size,
            align: size,
            content: Content::Plain,
        }),
    }
}

/// A reference takes 8 bytes.
fn reference() -> Note
    ensures { result ≡ reference_note }
{
    Note {
        need: 0,
        shape: Some(Shape {
            size: 8,
            align: 8,
            content: Content::Reference,
        }),
    }
}

/// What has no definition: a value of 1 byte, or a reference.
fn missing(value: bool) -> Note
    ensures { result ≡ missing_note value }
{
    if value { plain(1, 1) } else { reference() }
}

/// What the level of a tree says.
pub(crate) fn level_at(alloc: Global, world: &World, pool: &Pool, id: Id) -> Result<Level, Memory>
    requires { id.0 < length pool.now }
    ensures { IfOk result (λ level. IsLevel world.now pool.now (at pool.now id) level) }
{
    match pool.node(id) {
        Node::Inst(def, args) => inst_level(alloc, world, *def, args.as_slice()),
        Node::Array(_) => Ok(Level::Leaf(reference())),
        Node::ByRef(_) => Ok(Level::Leaf(plain(0, 8))),
        Node::Ptr(_) => Ok(Level::Leaf(plain(0, 8))),
        Node::Var(_) => Ok(Level::Leaf(plain(0, 8))),
        Node::MVar(_) => Ok(Level::Leaf(plain(0, 8))),
        Node::Missing(_, value) => Ok(Level::Leaf(missing(*value))),
        Node::Odd(_) => Ok(Level::Leaf(plain(0, 8))),
    }
}

/// The level of an instantiation.
fn inst_level(alloc: Global, world: &World, def: DefId, args: &[Id]) -> Result<Level, Memory>
    ensures { IfOk result (λ level. InstLevel world.now def args.now level) }
{
    if !world.is_value_def(def) {
        return Ok(Level::Leaf(reference()));
    }
    if let Some(size) = width(world, def) {
        return Ok(Level::Leaf(plain(1, size)));
    }
    if def.0 < world.def_count() {
        Ok(Level::Struct(def, Items::from_slice(alloc, args)?))
    } else {
        Ok(Level::Leaf(plain(1, 1)))
    }
}
