//! The names of types as numbers, and the first place of each in a list.
ghost use Rattle.std.specs.Prelude.{◌≡◌, ◌<◌, length, IfOk, OnOk};
ghost use Rattle.type_names.specs.TypeKeys as spec;
ghost use Rattle.type_names.specs.declared.type_keys.TypeKey.{TypeKey};

use clr_base::Memory;
use indexmap::IndexMap;
use std::alloc::Global;

/// What a type is called: the row of the definition around it, 0 where there is none, and the numbers of the texts that are
/// its namespace and its name.
#[derive(Clone, Copy, PartialEq, Eq, Hash)]
pub(crate) struct TypeKey {
    pub around: u32,
    pub namespace: u32,
    pub name: u32,
}

/// The first place of each name in a list of names, found by hashing.
#[derive(Drop)]
pub(crate) struct FirstPlaces {
    places: IndexMap<TypeKey, u32>,
}

/// Notes the place of a name that isn't noted yet.
fn note(places: &mut IndexMap<TypeKey, u32>, key: TypeKey, place: u32) -> Result<(), Memory>
    ensures { OnOk result ((k : TypeKey) → spec.place_in places.new k ≡ spec.place_with places.old key place k) }
{
    if places.get(&key).is_none() {
        places.insert(key, place)?;
    }
    Ok(())
}

impl FirstPlaces {
    /// The places in a list. Takes memory for two numbers a name, and time in their count.
    pub(crate) fn new(alloc: Global, keys: &[TypeKey]) -> Result<FirstPlaces, Memory>
        requires { length keys.now < 4294967295 }
        ensures { IfOk result (spec.Finds keys.now) }
    {
        let mut places = IndexMap::with_capacity(alloc, keys.len())?;
        for place in 0..keys.len() {
            note(&mut places, keys[place], place as u32)?;
        }
        Ok(FirstPlaces { places })
    }

    /// The first place of a name. Takes constant time.
    pub(crate) fn first(&self, key: TypeKey) -> Option<u32>
        ensures { result ≡ spec.first_at self.now key }
    {
        self.places.get(&key).copied()
    }
}
