//! What is known of a definition, gathered.

ghost use Rattle.std.specs.Prelude.{IfOk};
ghost use Rattle.type_pool.specs.Trees.{Grows};
ghost use Rattle.method_slots.specs.OpenSets.{OpensGrow};
ghost use Rattle.slot_chains.specs.Levels.{AreNotes, IsNoted};
ghost use Rattle.interface_maps.specs.Choices as spec;
ghost use Rattle.interface_maps.specs.Inherited.{AreAbove};
ghost use Rattle.interface_maps.specs.Maps.{above_of, AreOwnPlaces, IsBase, Knows};
ghost use Rattle.interface_maps.specs.Publics.{ArePublics};
ghost use Rattle.interface_maps.specs.Rows.{AreRows};

use crate::answers::Interface;
use crate::inherited::first_places;
use crate::known::Known;
use crate::members::add_chain;
use crate::rows::add_rows;
use clr_base::{DefId, Memory};
use interface_lists::own_list;
use method_slots::OpenSet;
use slot_chains::Notes;
use std::alloc::Global;
use std::collections::HashMap;
use type_pool::{Id, Pool};
use type_tree::{Def, World};

/// The slots of the first public virtual method of each name and signature, in a definition and then in
/// its parents.
fn publics_of(
    pool: &mut Pool,
    alloc: Global,
    set: &mut OpenSet,
    world: &World,
    slots: &Notes,
    id: DefId,
) -> Result<HashMap<u32, u32>, Memory>
    requires slots { AreNotes world.now pool.old slots.now }
    requires noted { IsNoted slots.now.places id.0 }
    ensures grows { Grows pool.old pool.new }
    ensures set_grows { OpensGrow set.old set.new }
    ensures publics { IfOk result (λ numbers. ArePublics pool.new set.new numbers (spec.publics world.now id.0)) }
{
    let mut numbers = HashMap::new(alloc);
    if let Some(place) = slots.place(id) {
        let level = &slots.levels.as_slice()[place as usize];
        let chain = level.chain.as_slice();
        add_chain(pool, alloc, set, &mut numbers, world, slots, chain)?;
    }
    Ok(numbers)
}

/// The slots of the bodies of a definition's rows, by the interface and the method.
fn rows_of(
    pool: &mut Pool,
    alloc: Global,
    world: &World,
    slots: &Notes,
    id: DefId,
    def: &Def,
) -> Result<HashMap<u64, Option<u32>>, Memory>
    requires slots { AreNotes world.now pool.old slots.now }
    requires noted { IsNoted slots.now.places id.0 }
    ensures grows { Grows pool.old pool.new }
    ensures rows { IfOk result (λ numbers. AreRows world.now id.0 pool.new numbers def.now.impls) }
{
    let mut numbers = HashMap::new(alloc);
    let rows = def.impls.as_slice();
    add_rows(pool, alloc, &mut numbers, world, slots, id, rows)?;
    Ok(numbers)
}

/// Where each interface stands that a definition itself declares.
fn own_places(
    pool: &mut Pool,
    alloc: Global,
    world: &World,
    def: &Def,
) -> Result<HashMap<u32, u32>, Memory>
    ensures grows { Grows pool.old pool.new }
    ensures places { IfOk result (λ places. AreOwnPlaces world.now pool.new def.now places) }
{
    match own_list(pool, alloc, world, def)? {
        Some(ids) => first_places(alloc, ids.as_slice()),
        None => Ok(HashMap::new(alloc)),
    }
}

/// What is known of a definition whose parent hands on these interfaces, of which this was found.
pub(crate) fn known_of(
    pool: &mut Pool,
    alloc: Global,
    set: &mut OpenSet,
    world: &World,
    slots: &Notes,
    id: DefId,
    def: &Def,
    trees: &[Id],
    found: &[Interface],
) -> Result<Known, Memory>
    requires base { IsBase world.now pool.old slots.now id.0 def.now }
    requires above { AreAbove pool.old trees.now found.now (above_of world.now def.now) }
    ensures grows { Grows pool.old pool.new }
    ensures set_grows { OpensGrow set.old set.new }
    ensures known { IfOk result (λ known. Knows world.now id.0 def.now pool.new set.new known found.now) }
{
    let _ = found;
    let publics = publics_of(pool, alloc, set, world, slots, id)?;
    let rows = rows_of(pool, alloc, world, slots, id, def)?;
    let own = own_places(pool, alloc, world, def)?;
    let places = first_places(alloc, trees)?;
    Ok(Known {
        publics,
        rows,
        places,
        own,
    })
}
