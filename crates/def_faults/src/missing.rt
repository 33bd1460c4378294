//! Names that no definition has.

ghost use Rattle.std.specs.Prelude.{◌≡◌, IsTrue};
ghost use Rattle.std.specs.List.{list_any};
ghost use Rattle.type_tree.specs.Fits.{def_fits};
ghost use Rattle.type_tree.specs.Whole.{counts};
ghost use Rattle.def_faults.specs.Flags.{fields_of};
ghost use Rattle.def_faults.specs.NotFound as spec;

use clr_base::{DefId, FieldId};
use type_tree::{Def, Field, Ty, World};

/// Whether the tree is a name that no definition has.
fn is_missing(t: &Ty) -> bool
    ensures { result ≡ spec.is_missing t.now }
{
    match t {
        Ty::Missing(_, _) => true,
        _ => false,
    }
}

/// Whether the tree is such a name of a value type.
fn is_missing_value(t: &Ty) -> bool
    ensures { result ≡ spec.is_missing_value t.now }
{
    match t {
        Ty::Missing(_, value) => *value,
        _ => false,
    }
}

fn is_missing_parent(parent: &Option<Ty>) -> bool
    ensures { result ≡ spec.is_missing_parent parent.now }
{
    match parent {
        Some(t) => is_missing(t),
        None => false,
    }
}

/// Whether a field is an instance's, neither static nor literal, and has such a value type.
fn is_missing_field(field: &Field) -> bool
    ensures { result ≡ spec.is_missing_field field.now }
{
    field.flags & 0x50 == 0 && is_missing_value(&field.ty)
}

fn has_missing_field(world: &World, def: &Def) -> bool
    requires { IsTrue (def_fits (counts world.now) def.now) }
    ensures { result ≡ list_any spec.is_missing_field (fields_of world.now def.now) }
{
    world.whole();
    for number in 0..def.fields {
        if is_missing_field(world.field(FieldId(def.first_field + number))) {
            return true;
        }
    }
    false
}

fn has_missing_interface(def: &Def) -> bool
    ensures { result ≡ list_any spec.is_missing def.now.interfaces }
{
    def.interfaces.as_slice().iter().any(|t| is_missing(t))
}

fn lacks_a_type(world: &World, def: &Def) -> bool
    requires { IsTrue (def_fits (counts world.now) def.now) }
    ensures { result ≡ spec.lacks_a_type world.now def.now }
{
    is_missing_parent(&def.parent) || has_missing_interface(def) || has_missing_field(world, def)
}

/// Whether a definition itself names a parent, an interface or the value type of an instance field that
/// stands nowhere.
#[tactic(auto, using(std::proofs::lemmas::Option::slice_get_past))]
pub(crate) fn lacks(world: &World, id: DefId) -> bool
    ensures { result ≡ spec.lacks world.now id }
{
    id.0 < world.def_count() && lacks_a_type(world, world.def(id))
}
