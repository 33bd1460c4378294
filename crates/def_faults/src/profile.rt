//! Definitions that are left out.

ghost use Rattle.std.specs.Prelude.{◌≡◌, IsTrue};
ghost use Rattle.std.specs.List.{list_any};
ghost use Rattle.type_tree.specs.Fits.{def_fits};
ghost use Rattle.type_tree.specs.Whole.{counts};
ghost use Rattle.def_faults.specs.Flags as flags;
ghost use Rattle.def_faults.specs.NotInProfile as spec;

use crate::kinds::{is_core, is_interface};
use clr_base::{DefId, MethId};
use core_types::CoreType;
use type_tree::{Def, Method, World};

/// Whether a definition is System.Delegate.
pub(crate) fn is_delegate(world: &World, id: DefId) -> bool
    ensures { result ≡ spec.is_delegate world.now id }
{
    is_core(world, CoreType::Delegate, id)
}

/// Whether a definition is System.Nullable.
pub(crate) fn is_nullable(world: &World, id: DefId) -> bool
    ensures { result ≡ spec.is_nullable world.now id }
{
    is_core(world, CoreType::Nullable, id)
}

/// Whether a method is an instance's and isn't abstract.
fn is_default(method: &Method) -> bool
    ensures { result ≡ flags.is_default method.now }
{
    method.flags & 0x410 == 0
}

fn has_default(world: &World, def: &Def) -> bool
    requires { IsTrue (def_fits (counts world.now) def.now) }
    ensures { result ≡ list_any flags.is_default (flags.methods_of world.now def.now) }
{
    world.whole();
    for number in 0..def.methods {
        if is_default(world.method(MethId(def.first_method + number))) {
            return true;
        }
    }
    false
}

/// Whether a definition is an interface with an instance method that isn't abstract.
pub(crate) fn has_default_method(world: &World, def: &Def) -> bool
    requires { IsTrue (def_fits (counts world.now) def.now) }
    ensures { result ≡ spec.has_default_method world.now def.now }
{
    is_interface(def) && has_default(world, def)
}
