//! What was found of definitions, which serves all that extend them.

ghost use Rattle.std.specs.Prelude.{◌≡◌, ◌<◌, ◌++◌, ◌∷◌, [], nat_eq, Some, length, slice_get, IfOk, OnOk};
ghost use Rattle.std.specs.HashMap.{get, Updates};
ghost use Rattle.slot_chains.specs.Levels.{IsKept};

use crate::levels::Level;
use clr_base::{DefId, Memory};
use method_slots::OpenSet;
use sqlite_items::Items;
use std::alloc::Global;
use std::collections::HashMap;

/// Notes on the definitions of one world, over one pool.
#[derive(Drop)]
pub struct Notes {
    /// The names and signatures of slots.
    pub set: OpenSet,
    /// What was found, of each definition once.
    pub levels: Items<Level>,
    /// Where what was found of a definition stands.
    pub places: HashMap<u32, u32>,
}

impl Notes {
    /// No notes.
    pub fn new(alloc: Global) -> Notes
        ensures set { result.set ≡ [] }
        ensures levels { result.levels ≡ [] }
        ensures places { result.places.entries ≡ [] }
    {
        Notes {
            set: OpenSet::new(alloc),
            levels: Items::new(alloc),
            places: HashMap::new(alloc),
        }
    }

    /// Where what was found of a definition stands.
    pub fn place(&self, def: DefId) -> Option<u32>
        ensures { result ≡ get nat_eq self.now.places def.0 }
    {
        match self.places.get(&def.0) {
            Some(place) => Some(*place),
            None => None,
        }
    }

    /// Notes what was found of a definition.
    pub(crate) fn keep(&mut self, def: DefId, level: Level) -> Result<u32, Memory>
        ensures { IfOk result (λ place. IsKept self.old self.new def.0 level place) }
    {
        let place = self.levels.len();
        if place >= u32::MAX as usize {
            return Err(Memory);
        }
        self.levels.push(level)?;
        put_place(&mut self.places, def.0, place as u32)
    }
}

fn put_place(places: &mut HashMap<u32, u32>, def: u32, place: u32) -> Result<u32, Memory>
    ensures value { IfOk result (λ found. found ≡ place) }
    ensures put { OnOk result (Updates nat_eq places.old places.new def (Some place)) }
{
    match places.insert(def, place) {
        Ok(_) => Ok(place),
        Err(_) => Err(Memory),
    }
}
