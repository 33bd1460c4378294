//! Names of definitions, and definitions by their names.

ghost use Rattle.std.specs.Prelude.{◌≡◌, ◌&&◌, option_map};
ghost use Rattle.std.specs.List.{position_from};
ghost use Rattle.std.specs.Str.{bytes_eq};
ghost use Rattle.type_tree.specs.Lookup as spec;

use crate::definition::Def;
use crate::world::World;
use clr_base::{DefId, NameId};

/// Where a definition stands.
#[derive(Clone, Copy)]
pub(crate) enum Place {
    /// In a file.
    Files,
    /// In the core library.
    Core,
}

/// The text of a name, the empty text where there is none with that number.
#[tactic(auto, unfolding(crate::specs::Lookup::name_text))]
pub(crate) fn name_text(world: &World, name: NameId) -> &str
    ensures { result.now ≡ spec.name_text world.now name }
{
    if name.0 < world.name_count() {
        world.name(name)
    } else {
        ""
    }
}

/// The full name of a definition, the empty text where there is none with that number.
#[tactic(auto, unfolding(crate::specs::Lookup::full_name))]
pub(crate) fn full_name(world: &World, def: DefId) -> &str
    ensures { result.now ≡ spec.full_name world.now def }
{
    if def.0 < world.def_count() {
        name_text(world, world.def(def).name)
    } else {
        ""
    }
}

fn is_in(place: Place, def: &Def) -> bool
    ensures { result ≡ spec.is_in place def.now }
{
    match place {
        Place::Files => def.file != 0,
        Place::Core => def.file == 0,
    }
}

/// Whether a definition stands there and has that full name.
fn is_named(world: &World, place: Place, name: &[u8], def: &Def) -> bool
    ensures { result ≡ spec.is_named world.now place name.now def.now }
{
    is_in(place, def) && name_text(world, def.name).as_bytes() == name
}

/// The first definition that stands there and has that full name.
fn first_in(world: &World, place: Place, name: &[u8]) -> Option<DefId>
    ensures { result ≡ option_map spec.def_id (spec.first_in world.now place name.now) }
{
    for number in 0..world.def_count() {
        let id = DefId(number);
        if is_named(world, place, name, world.def(id)) {
            return Some(id);
        }
    }
    None
}

/// The first definition of a full name: among those of the files, in order, and then in the core.
#[tactic(auto, unfolding(crate::specs::Lookup::first_named))]
pub(crate) fn find_named(world: &World, name: &[u8]) -> Option<DefId>
    ensures { result ≡ spec.first_named world.now name.now }
{
    match first_in(world, Place::Files, name) {
        Some(def) => Some(def),
        None => first_in(world, Place::Core, name),
    }
}
