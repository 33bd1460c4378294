//! What a parent answers for the methods of interfaces.

ghost use Rattle.std.specs.Prelude.{◌≡◌, ◌<◌, length, IfOk};
ghost use Rattle.interface_maps.specs.Inherited.{choice_at as standing, ArePlaces, FindsInherited};

use crate::answers::Interface;
use crate::publics::{note_first, noted};
use clr_base::Memory;
use sqlite_items::at;
use std::alloc::Global;
use std::collections::HashMap;
use type_pool::{Id, Pool};

/// Where each tree stands first.
pub(crate) fn first_places(alloc: Global, trees: &[Id]) -> Result<HashMap<u32, u32>, Memory>
    ensures { IfOk result (λ places. ArePlaces places trees.now) }
{
    let mut places = HashMap::new(alloc);
    if trees.len() >= u32::MAX as usize {
        return Err(Memory);
    }
    for i in 0..trees.len() {
        note_first(&mut places, trees[i].0, i as u32)?;
    }
    Ok(places)
}

/// The choice for the method at `j` of what was found at a place.
fn choice_at(found: &[Interface], j: usize, place: Option<u32>) -> Option<u32>
    ensures { result ≡ standing found.now j place }
{
    match place {
        Some(place) => match at(found, place as usize) {
            Some(interface) => match at(interface.choices.as_slice(), j) {
                Some(choice) => *choice,
                None => None,
            },
            None => None,
        },
        None => None,
    }
}

/// What the parent has for the method at `j` of an interface: by the first place that the interface has in
/// the parent's list, with the parent's arguments put in.
pub(crate) fn inherited_choice(
    pool: &Pool,
    places: &HashMap<u32, u32>,
    found: &[Interface],
    tree: Id,
    j: usize,
) -> Option<u32>
    requires { tree.0 < length pool.now }
    ensures { FindsInherited pool.now places.now found.now tree j result }
{
    pool.each_once();
    choice_at(found, j, noted(places, tree.0))
}
