//! What definitions extend.

ghost use Rattle.std.specs.Prelude.{◌≡◌, ◌<◌, ◌∷◌, Some, length, slice_get};
ghost use Rattle.std.specs.Option.{option_copied};
ghost use Rattle.def_faults.specs.BadParent as spec;
ghost use Rattle.def_faults.specs.Chains as chains;

use crate::kinds::{def_at, is_core, is_interface, is_sealed};
use clr_base::DefId;
use core_types::CoreType;
use type_tree::{Def, Ty, World};

fn head_of(parent: &Option<Ty>) -> Option<DefId>
    ensures { result ≡ chains.head_of parent.now }
{
    match parent {
        Some(Ty::Inst(def, _)) => Some(*def),
        _ => None,
    }
}

/// The definition that a definition extends. None where it extends nothing, or no instantiation.
pub(crate) fn parent_of(world: &World, id: DefId) -> Option<DefId>
    ensures { result ≡ chains.parent world.now id }
{
    match def_at(world, id) {
        Some(def) => head_of(&def.parent),
        None => None,
    }
}

/// Whether nothing may extend this definition: it is sealed, a value type or an interface.
fn is_closed(world: &World, id: DefId) -> bool
    ensures { result ≡ spec.is_closed world.now id }
{
    if world.is_value_def(id) {
        return true;
    }
    match def_at(world, id) {
        Some(def) => is_sealed(def) || is_interface(def),
        None => false,
    }
}

/// Whether nothing may extend the tree. What isn't in the profile, as a pointer, is not judged here.
fn may_not_be_extended(world: &World, t: &Ty) -> bool
    ensures { result ≡ spec.may_not_be_extended world.now t.now }
{
    match t {
        Ty::Inst(def, _) => is_closed(world, *def),
        Ty::Missing(_, value) => *value,
        Ty::Array(_) | Ty::Var(_) | Ty::MVar(_) => true,
        Ty::ByRef(_) | Ty::Ptr(_) | Ty::Odd(_) => false,
    }
}

/// The definition before the one with this number.
fn before(world: &World, id: DefId) -> Option<&Def>
    ensures { option_copied result ≡ spec.before world.now.defs id.0 }
{
    if id.0 == 0 {
        return None;
    }
    def_at(world, DefId(id.0 - 1))
}

/// Whether a definition is the first row of its file.
fn is_first(world: &World, id: DefId, def: &Def) -> bool
    ensures { result ≡ spec.is_first world.now id def.now }
{
    if def.file == 0 {
        return false;
    }
    match before(world, id) {
        Some(other) => other.file != def.file,
        None => true,
    }
}

/// Whether a definition may be without a parent.
fn may_extend_nothing(world: &World, id: DefId, def: &Def) -> bool
    ensures { result ≡ spec.may_extend_nothing world.now id def.now }
{
    is_interface(def) || is_core(world, CoreType::Object, id) || is_first(world, id, def)
}

/// Whether a definition extends what it may not, or nothing where it has to extend something.
pub(crate) fn has_bad_parent(world: &World, id: DefId, def: &Def) -> bool
    ensures { result ≡ spec.has_bad_parent world.now id def.now }
{
    match &def.parent {
        Some(parent) => is_interface(def) || may_not_be_extended(world, parent),
        None => !may_extend_nothing(world, id, def),
    }
}
