//! What a walk has found of the types of fields.

ghost use Rattle.std.specs.Prelude.{◌≡◌, nat_eq, Some, OnOk};
ghost use Rattle.std.specs.HashMap.{get, Updates};
ghost use Rattle.field_layout.specs.Notes as spec;

use clr_base::Memory;
use field_places::Shape;
use std::collections::HashMap;
use type_pool::Id;

/// What a field of a type takes in each room, the number of value fields that may stand on a path, this one
/// counted: it is Deep where there is less room than the depth needed, and else this.
#[derive(Clone, Copy)]
pub struct Note {
    /// How many value fields stand on the longest path.
    pub need: u32,
    /// None where the type has no layout.
    pub shape: Option<Shape>,
}

/// What a field takes in some room.
#[derive(Clone, Copy)]
pub enum Found {
    /// This, and there is room.
    Settled(Note),
    /// There is no room.
    Deep,
}

/// What fields of the trees of a pool take, by the trees' numbers.
pub type ShapeNotes = HashMap<u32, Note>;

/// What is noted of a tree.
pub(crate) fn noted(notes: &ShapeNotes, id: Id) -> Option<Note>
    ensures { result ≡ get nat_eq notes.now id.0 }
{
    match notes.get(&id.0) {
        Some(note) => Some(*note),
        None => None,
    }
}

/// Notes what is found of a tree.
pub(crate) fn put_note(notes: &mut ShapeNotes, id: Id, note: Note) -> Result<(), Memory>
    ensures { OnOk result (Updates nat_eq notes.old notes.new id.0 (Some note)) }
{
    match notes.insert(id.0, note) {
        Ok(_) => Ok(()),
        Err(_) => Err(Memory),
    }
}

/// What a noted tree takes in some room.
pub(crate) fn in_room(note: Note, room: u32) -> Found
    ensures { result ≡ spec.in_room note room }
{
    if note.need <= room {
        Found::Settled(note)
    } else {
        Found::Deep
    }
}

/// Notes what is settled.
pub(crate) fn keep(notes: &mut ShapeNotes, id: Id, found: Found) -> Result<(), Memory>
    ensures { OnOk result (spec.Kept notes.old notes.new id.0 found) }
{
    match found {
        Found::Settled(note) => put_note(notes, id, note),
        Found::Deep => Ok(()),
    }
}
