//! What definitions declare to implement.

ghost use Rattle.std.specs.Prelude.{◌≡◌};
ghost use Rattle.def_faults.specs.BadInterface as spec;

use crate::kinds::{def_at, is_interface};
use type_tree::{Def, Ty, World};

/// Whether the tree is an instantiation of an interface.
fn is_interface_type(world: &World, t: &Ty) -> bool
    ensures { result ≡ spec.is_interface_type world.now t.now }
{
    let Ty::Inst(id, _) = t else {
        return false;
    };
    match def_at(world, *id) {
        Some(def) => is_interface(def),
        None => false,
    }
}

/// Whether a definition declares to implement what is no interface.
pub(crate) fn has_bad_interface(world: &World, def: &Def) -> bool
    ensures { result ≡ spec.has_bad_interface world.now def.now }
{
    def.interfaces
        .as_slice()
        .iter()
        .any(|t| !is_interface_type(world, t))
}
