//! What the own instance fields of a type take.

ghost use Rattle.std.specs.Prelude.{◌≡◌, OnOk};
ghost use Rattle.field_layout.specs.Notes as spec;

use crate::notes::Note;
use clr_base::Memory;
use field_places::Shape;
use sqlite_items::Items;

/// What fields take, in each room from the depth needed.
#[derive(Drop)]
pub struct Fields {
    /// How many value fields stand on the longest path, 0 without any.
    pub need: u32,
    /// Whether each has a layout.
    pub good: bool,
    /// The shapes of those that have.
    pub shapes: Items<Shape>,
}

/// What fields take in some room.
#[derive(Drop)]
pub enum FieldsFound {
    Settled(Fields),
    /// There is no room.
    Deep,
}

/// Puts one more field behind these.
pub(crate) fn add(fields: &mut Fields, note: Note) -> Result<(), Memory>
    ensures { OnOk result (fields.new ≡ spec.added fields.old note) }
{
    fields.need = fields.need.max(note.need);
    match note.shape {
        Some(shape) => {
            fields.shapes.push(shape)?;
        }
        None => fields.good = false,
    }
    Ok(())
}
