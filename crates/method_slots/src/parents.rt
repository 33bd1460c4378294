//! What definitions extend.

ghost use Rattle.std.specs.Prelude.{◌≡◌, IfOk};
ghost use Rattle.std.specs.Option.{option_map};
ghost use Rattle.type_tree.specs.Context.{arguments};
ghost use Rattle.type_tree.specs.Kinds.{head_of};
ghost use Rattle.type_pool.specs.Jobs.{SpellAll};
ghost use Rattle.type_pool.specs.Trees.{Grows};
ghost use Rattle.method_slots.specs.Slots as spec;

use clr_base::{DefId, Memory};
use sqlite_items::Items;
use std::alloc::Global;
use type_pool::{Id, Pool, from_trees};
use type_tree::{Def, Ty};

/// Whether a definition is an interface (ECMA-335 II.23.1.15).
pub fn is_interface(def: &Def) -> bool
    ensures { result ≡ spec.is_interface def.now }
{
    def.flags & 0x20 != 0
}

/// The definition that the parent instantiates (ECMA-335 II.22.37).
pub fn parent_def(def: &Def) -> Option<DefId>
    ensures { option_map (λ d. d.0) result ≡ head_of def.now.parent }
{
    match &def.parent {
        Some(Ty::Inst(parent, _)) => Some(*parent),
        _ => None,
    }
}

/// The arguments of an instantiation (ECMA-335 II.23.2.14).
pub fn arguments_of(pool: &mut Pool, alloc: Global, tree: &Ty) -> Result<Items<Id>, Memory>
    ensures grows { Grows pool.old pool.new }
    ensures spells { IfOk result (λ ids. SpellAll pool.new ids (arguments tree.now)) }
{
    match tree {
        Ty::Inst(_, args) => from_trees(args.as_slice(), pool, alloc),
        _ => Ok(Items::new(alloc)),
    }
}
