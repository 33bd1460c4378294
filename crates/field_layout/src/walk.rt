//! What a field takes: a walk over the types of fields in a pool, in which each is laid out once.

ghost use Rattle.std.specs.Prelude.{◌≡◌, ◌<◌, ◌≤◌, ◌+◌, true, Some, length, slice_get, IsTrue, IfOk, OnOk};
ghost use Rattle.type_pool.specs.Trees.{at, at_all, ids_below, Grows};
ghost use Rattle.type_tree.specs.Fits.{def_fits};
ghost use Rattle.type_tree.specs.Whole.{counts};
ghost use Rattle.field_places.specs.Shapes.{are_shapes};
ghost use Rattle.field_layout.specs.Notes.{AllNoted, IsFound, IsStruct, TypesAre, own_layout as own_of, noted_shape};
ghost use Rattle.field_layout.specs.Fields as own;
ghost use Rattle.field_layout.specs.Shapes as spec;

use crate::fields::{Fields, FieldsFound, add};
use crate::level::{Level, level_at};
use crate::notes::{Found, Note, ShapeNotes, in_room, keep, noted};
use crate::own_fields::{field_types, given_places, rules_of};
use clr_base::{DefId, Memory};
use field_places::{Content, Layout, Shape, own_part};
use sqlite_items::Items;
use std::alloc::Global;
use type_pool::{Id, Pool};
use type_tree::{Def, World};

/// What a field of a type takes, with room for so many value fields on a path, this one counted. Recurses
/// as deep as the room, and as the types of fields: test the mark of the tree first.
#[cycle(walk)]
pub(crate) fn shape_in(
    pool: &mut Pool,
    alloc: Global,
    world: &World,
    notes: &mut ShapeNotes,
    id: Id,
    room: u32,
) -> Result<Found, Memory>
    requires within { id.0 < length pool.old }
    requires noted { AllNoted world.now pool.old notes.old }
    ensures grows { Grows pool.old pool.new }
    ensures noted { OnOk result (AllNoted world.now pool.new notes.new) }
    ensures found { IfOk result (λ found. IsFound world.now (at pool.old id) room found) }
{
    if let Some(note) = noted(notes, id) {
        return Ok(in_room(note, room));
    }
    let found = shape_of_level(pool, alloc, world, notes, id, room)?;
    keep(notes, id, found)?;
    Ok(found)
}

#[cycle(walk)]
fn shape_of_level(
    pool: &mut Pool,
    alloc: Global,
    world: &World,
    notes: &mut ShapeNotes,
    id: Id,
    room: u32,
) -> Result<Found, Memory>
    requires within { id.0 < length pool.old }
    requires noted { AllNoted world.now pool.old notes.old }
    ensures grows { Grows pool.old pool.new }
    ensures noted { OnOk result (AllNoted world.now pool.new notes.new) }
    ensures found { IfOk result (λ found. IsFound world.now (at pool.old id) room found) }
{
    match level_at(alloc, world, pool, id)? {
        Level::Leaf(note) => Ok(in_room(note, room)),
        Level::Struct(def, args) => {
            if room == 0 {
                return Ok(Found::Deep);
            }
            struct_in(
                pool,
                alloc,
                world,
                notes,
                id,
                def,
                args.as_slice(),
                room - 1,
            )
        }
    }
}

/// The same of a value type that isn't built in, with so much room for its fields.
#[cycle(walk)]
fn struct_in(
    pool: &mut Pool,
    alloc: Global,
    world: &World,
    notes: &mut ShapeNotes,
    id: Id,
    def: DefId,
    args: &[Id],
    room: u32,
) -> Result<Found, Memory>
    requires within { id.0 < length pool.old }
    requires noted { AllNoted world.now pool.old notes.old }
    requires room { room < 4294967295 }
    requires level { (d : Def) × IsStruct world.now pool.old (at pool.old id) def args.now d }
    ensures grows { Grows pool.old pool.new }
    ensures noted { OnOk result (AllNoted world.now pool.new notes.new) }
    ensures found { IfOk result (λ found. IsFound world.now (at pool.old id) (room + 1) found) }
{
    let def = world.def(def);
    match fields_in(pool, alloc, world, notes, def, args, room)? {
        FieldsFound::Settled(fields) => {
            let shape = shape_of(alloc, world, def, &fields)?;
            Ok(Found::Settled(Note {
                need: fields.need + 1,
                shape,
            }))
        }
        FieldsFound::Deep => Ok(Found::Deep),
    }
}

/// What the own instance fields of a definition take, with its arguments put in and with so much room.
#[cycle(walk)]
pub(crate) fn fields_in(
    pool: &mut Pool,
    alloc: Global,
    world: &World,
    notes: &mut ShapeNotes,
    def: &Def,
    args: &[Id],
    room: u32,
) -> Result<FieldsFound, Memory>
    requires args { ids_below (length pool.old) args.now ≡ true }
    requires def { IsTrue (def_fits (counts world.now) def.now) }
    requires noted { AllNoted world.now pool.old notes.old }
    ensures grows { Grows pool.old pool.new }
    ensures noted { OnOk result (AllNoted world.now pool.new notes.new) }
    ensures found { IfOk result (λ found. TypesAre world.now (own.field_types world.now def.now (at_all pool.old args.now)) room found) }
{
    let types = field_types(pool, alloc, world, def, args)?;
    shapes_in(pool, alloc, world, notes, types.as_slice(), room)
}

/// What fields of these types take, with so much room.
#[cycle(walk)]
fn shapes_in(
    pool: &mut Pool,
    alloc: Global,
    world: &World,
    notes: &mut ShapeNotes,
    types: &[Id],
    room: u32,
) -> Result<FieldsFound, Memory>
    requires within { ids_below (length pool.old) types.now ≡ true }
    requires noted { AllNoted world.now pool.old notes.old }
    ensures grows { Grows pool.old pool.new }
    ensures noted { OnOk result (AllNoted world.now pool.new notes.new) }
    ensures found { IfOk result (λ found. TypesAre world.now (at_all pool.old types.now) room found) }
{
    let mut fields = Fields {
        need: 0,
        good: true,
        shapes: Items::new(alloc),
    };
    for id in types {
        match shape_in(pool, alloc, world, notes, *id, room)? {
            Found::Settled(note) => add(&mut fields, note)?,
            Found::Deep => return Ok(FieldsFound::Deep),
        }
    }
    Ok(FieldsFound::Settled(fields))
}

/// The own part of a type whose fields are settled. None where it has no layout.
pub(crate) fn own_layout(
    alloc: Global,
    world: &World,
    value: bool,
    def: &Def,
    begin: u32,
    fields: &Fields,
) -> Result<Option<Layout>, Memory>
    requires def { IsTrue (def_fits (counts world.now) def.now) }
    requires begin { begin ≤ 1048576 }
    requires shapes { are_shapes fields.now.shapes ≡ true }
    requires as_long { fields.now.good ≡ true → length fields.now.shapes ≡ length (own.own_fields world.now def.now) }
    ensures { IfOk result (λ laid. laid ≡ own_of value world.now def.now begin fields.now) }
{
    if !fields.good {
        return Ok(None);
    }
    let places = given_places(alloc, world, def)?;
    own_part(
        alloc,
        &rules_of(value, def),
        begin,
        places.as_slice(),
        fields.shapes.as_slice(),
    )
}

/// What a field of a value type takes whose fields are settled.
fn shape_of(
    alloc: Global,
    world: &World,
    def: &Def,
    fields: &Fields,
) -> Result<Option<Shape>, Memory>
    requires def { IsTrue (def_fits (counts world.now) def.now) }
    requires shapes { are_shapes fields.now.shapes ≡ true }
    requires as_long { fields.now.good ≡ true → length fields.now.shapes ≡ length (own.own_fields world.now def.now) }
    ensures { IfOk result (λ shape. noted_shape shape ≡ spec.shape_of (own_of true world.now def.now 0 fields.now)) }
{
    match own_layout(alloc, world, true, def, 0, fields)? {
        Some(layout) => Ok(Some(shape_from(&layout))),
        None => Ok(None),
    }
}

fn shape_from(layout: &Layout) -> Shape
    ensures { result ≡ spec.layout_shape layout.now }
{
    Shape {
        size: layout.size,
        align: layout.align,
        content: if layout.has_refs {
            Content::Holds
        } else {
            Content::Plain
        },
    }
}
