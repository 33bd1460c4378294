//! Value types and reference types.

ghost use Rattle.std.specs.Prelude.{◌≡◌};
ghost use Rattle.type_tree.specs.Kinds as spec;

use crate::definition::Def;
use crate::tree::Ty;
use crate::world::World;
use clr_base::DefId;
use sqlite_items::at;

impl World {
    /// Whether the definition is a value type: its parent is System.ValueType (System.Enum itself
    /// excepted) or System.Enum. A number that no definition has is none.
    pub fn is_value_def(&self, id: DefId) -> bool
        ensures { result ≡ spec.is_value_def self.now id }
    {
        match at(self.defs(), id.0 as usize) {
            Some(def) => self.makes_value(id, def),
            None => false,
        }
    }

    /// Whether its parent makes a definition with this number a value type.
    fn makes_value(&self, id: DefId, def: &Def) -> bool
        ensures { result ≡ spec.is_value_parent self.now id (spec.head_of def.now.parent) }
    {
        match &def.parent {
            Some(Ty::Inst(parent, _)) => {
                parent.0 == self.enumeration().0
                    || parent.0 == self.value_type().0 && id.0 != self.enumeration().0
            }
            _ => false,
        }
    }
}
/// Whether the tree is a value type. A variable, a pointer and a form that is left out are neither
/// a value type nor a reference type.
pub fn is_value(world: &World, t: &Ty) -> bool
    ensures { result ≡ spec.is_value world.now t.now }
{
    match t {
        Ty::Inst(def, _) => world.is_value_def(*def),
        Ty::Missing(_, value) => *value,
        Ty::Array(_) | Ty::ByRef(_) | Ty::Ptr(_) | Ty::Var(_) | Ty::MVar(_) | Ty::Odd(_) => false,
    }
}

/// Whether the tree is a reference type.
pub fn is_reference(world: &World, t: &Ty) -> bool
    ensures { result ≡ spec.is_reference world.now t.now }
{
    match t {
        Ty::Inst(def, _) => !world.is_value_def(*def),
        Ty::Array(_) => true,
        Ty::Missing(_, value) => !*value,
        Ty::ByRef(_) | Ty::Ptr(_) | Ty::Var(_) | Ty::MVar(_) | Ty::Odd(_) => false,
    }
}
