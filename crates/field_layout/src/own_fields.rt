//! The own instance fields of a definition.

ghost use Rattle.std.specs.Prelude.{◌≡◌, ◌<◌, ◌≤◌, true, length, IsTrue, IfOk};
ghost use Rattle.type_pool.specs.Trees.{at_all, ids_below, Grows};
ghost use Rattle.type_pool.specs.Jobs.{SpellAll};
ghost use Rattle.type_pool.specs.Trees.{Spells};
ghost use Rattle.type_tree.specs.Fits.{def_fits};
ghost use Rattle.type_tree.specs.Whole.{counts};
ghost use Rattle.field_layout.specs.Fields as spec;

use clr_base::{FieldId, Memory};
use field_places::{Arrangement, Rules};
use sqlite_items::Items;
use std::alloc::Global;
use type_pool::{Id, Pool, from_tree, subst};
use type_tree::{Def, Field, World};

/// Whether a field is neither static nor literal.
fn is_instance(field: &Field) -> bool
    ensures { result ≡ spec.is_instance field.now }
{
    field.flags & 0x50 == 0
}

/// The number of the type of a field, with the owner's arguments put in.
fn type_in(pool: &mut Pool, alloc: Global, field: &Field, args: &[Id]) -> Result<Id, Memory>
    requires { ids_below (length pool.old) args.now ≡ true }
    ensures grows { Grows pool.old pool.new }
    ensures spells { IfOk result (λ r. Spells pool.new r (spec.type_in (at_all pool.old args.now) field.now)) }
{
    let open = from_tree(&field.ty, pool, alloc)?;
    subst(pool, alloc, open, args, &[])
}

/// The numbers of the types of a definition's own instance fields, with its arguments put in.
pub(crate) fn field_types(
    pool: &mut Pool,
    alloc: Global,
    world: &World,
    def: &Def,
    args: &[Id],
) -> Result<Items<Id>, Memory>
    requires args { ids_below (length pool.old) args.now ≡ true }
    requires def { IsTrue (def_fits (counts world.now) def.now) }
    ensures grows { Grows pool.old pool.new }
    ensures spells { IfOk result (λ rs. SpellAll pool.new rs (spec.field_types world.now def.now (at_all pool.old args.now))) }
{
    world.whole();
    let mut types = Items::new(alloc);
    for number in 0..def.fields {
        let field = world.field(FieldId(def.first_field + number));
        if is_instance(field) {
            types.push(type_in(pool, alloc, field, args)?)?;
        }
    }
    Ok(types)
}

/// The offsets that are given for them.
pub(crate) fn given_places(
    alloc: Global,
    world: &World,
    def: &Def,
) -> Result<Items<Option<u32>>, Memory>
    requires { IsTrue (def_fits (counts world.now) def.now) }
    ensures { IfOk result (λ places. places ≡ spec.given_places world.now def.now) }
{
    world.whole();
    let mut places = Items::new(alloc);
    for number in 0..def.fields {
        let field = world.field(FieldId(def.first_field + number));
        if is_instance(field) {
            places.push(field.place)?;
        }
    }
    Ok(places)
}

/// What a definition says of the layout of its own part.
pub(crate) fn rules_of(value: bool, def: &Def) -> Rules
    ensures { result ≡ spec.rules_of value def.now }
{
    Rules {
        value,
        arrangement: arrangement(def),
        packing: def.packing,
        least_size: def.least_size,
    }
}

/// How the fields of a definition are arranged, by its flags.
fn arrangement(def: &Def) -> Arrangement
    ensures { result ≡ spec.arrangement def.now }
{
    match def.flags & 0x18 {
        8 => Arrangement::Sequential,
        16 => Arrangement::Explicit,
        _ => Arrangement::Auto,
    }
}

/// Whether a definition is an interface.
pub(crate) fn is_interface(def: &Def) -> bool
    ensures { result ≡ spec.is_interface def.now }
{
    def.flags & 0x20 != 0
}
