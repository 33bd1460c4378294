//! What was found of the interfaces of definitions, which serves all that extend them.

ghost use Rattle.std.specs.Prelude.{◌≡◌, [], nat_eq, Some, IfOk, OnOk};
ghost use Rattle.std.specs.HashMap.{get, Updates};
ghost use Rattle.interface_maps.specs.Maps.{IsMapKept};

use crate::answers::Interface;
use crate::publics::noted;
use clr_base::{DefId, Memory};
use sqlite_items::Items;
use std::alloc::Global;
use std::collections::HashMap;
use type_pool::Id;

/// The interfaces of a definition, over a pool.
#[derive(Drop)]
pub struct MapLevel {
    /// Their list; None where it passes its bounds.
    pub list: Option<Items<Id>>,
    /// Each of the list, with what answers its methods.
    pub found: Items<Interface>,
}

/// Notes on the interfaces of the definitions of one world, over one pool.
#[derive(Drop)]
pub struct MapNotes {
    /// What was found, of each definition once.
    pub levels: Items<MapLevel>,
    /// Where what was found of a definition stands.
    pub places: HashMap<u32, u32>,
}

impl MapNotes {
    /// No notes.
    pub fn new(alloc: Global) -> MapNotes
        ensures levels { result.levels ≡ [] }
        ensures places { result.places.entries ≡ [] }
    {
        MapNotes {
            levels: Items::new(alloc),
            places: HashMap::new(alloc),
        }
    }

    /// Where what was found of a definition stands.
    pub fn place(&self, def: DefId) -> Option<u32>
        ensures { result ≡ get nat_eq self.now.places def.0 }
    {
        noted(&self.places, def.0)
    }

    /// Notes what was found of a definition.
    pub(crate) fn keep(&mut self, def: DefId, level: MapLevel) -> Result<u32, Memory>
        ensures { IfOk result (λ place. IsMapKept self.old self.new def.0 level place) }
    {
        let place = self.levels.len();
        if place >= u32::MAX as usize {
            return Err(Memory);
        }
        self.levels.push(level)?;
        put_place(&mut self.places, def.0, place as u32)
    }
}

fn put_place(places: &mut HashMap<u32, u32>, def: u32, place: u32) -> Result<u32, Memory>
    ensures value { IfOk result (λ found. found ≡ place) }
    ensures put { OnOk result (Updates nat_eq places.old places.new def (Some place)) }
{
    match places.insert(def, place) {
        Ok(_) => Ok(place),
        Err(_) => Err(Memory),
    }
}
