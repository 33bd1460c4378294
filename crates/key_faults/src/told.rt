//! What is told of each definition of a world.

ghost use Rattle.std.specs.Prelude.{◌≡◌, IfOk};
ghost use Rattle.key_faults.specs.Told as spec;

use clr_base::{DefId, Memory};
use def_faults::{DefFaults, def_faults};
use sqlite_items::Items;
use std::alloc::Global;
use type_expands::expanding;
use type_tree::World;

/// What is told of each definition of a world, found once.
#[derive(Drop)]
pub struct Told {
    /// The faults that it has by itself.
    pub(crate) faults: Items<DefFaults>,
    /// Whether it expands.
    pub(crate) expanding: Items<bool>,
}

impl Told {
    /// What is told of the definitions of a world. In time by the size of the trees that they name.
    pub fn of(alloc: Global, world: &World) -> Result<Told, Memory>
        ensures { IfOk result (spec.IsTold world.now) }
    {
        let faults = def_faults(alloc, world)?;
        let expanding = expanding(alloc, world)?;
        Ok(Told { faults, expanding })
    }
}

/// The faults that are told of a definition, none of a number that no definition has.
pub(crate) fn faults_of(told: &Told, def: DefId) -> DefFaults
    ensures { result ≡ spec.faults_of told.now def }
{
    match told.faults.as_slice().get(def.0 as usize) {
        Some(faults) => *faults,
        None => DefFaults {
            not_found: false,
            base_cycle: false,
            bad_parent: false,
            bad_interface: false,
            not_in_profile: false,
            default_method: false,
        },
    }
}

/// Whether it is told of a definition that it expands.
pub(crate) fn expands(told: &Told, def: DefId) -> bool
    ensures { result ≡ spec.expands told.now def }
{
    match told.expanding.as_slice().get(def.0 as usize) {
        Some(expands) => *expands,
        None => false,
    }
}
