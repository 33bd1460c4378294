//! What the flags of a definition say, and which definitions are the core library's.

ghost use Rattle.std.specs.Prelude.{◌≡◌, slice_get};
ghost use Rattle.std.specs.Option.{option_copied};
ghost use Rattle.def_faults.specs.Flags as spec;

use clr_base::DefId;
use core_types::CoreType;
use type_tree::{Def, World};

/// The definition with a number, where there is one.
#[tactic(auto, using(std::proofs::lemmas::Option::slice_get_past))]
pub(crate) fn def_at(world: &World, id: DefId) -> Option<&Def>
    ensures { option_copied result ≡ slice_get world.now.defs id.0 }
{
    if id.0 < world.def_count() {
        Some(world.def(id))
    } else {
        None
    }
}

/// Whether a definition is an interface.
pub(crate) fn is_interface(def: &Def) -> bool
    ensures { result ≡ spec.is_interface def.now }
{
    def.flags & 0x20 != 0
}

/// Whether a definition is sealed.
pub(crate) fn is_sealed(def: &Def) -> bool
    ensures { result ≡ spec.is_sealed def.now }
{
    def.flags & 0x100 != 0
}

/// Whether a definition is this type of the core library.
pub(crate) fn is_core(world: &World, known: CoreType, id: DefId) -> bool
    ensures { result ≡ spec.is_core world.now known id }
{
    match def_at(world, id) {
        Some(def) => id.0 == known.def().0 && def.file == 0,
        None => false,
    }
}
