//! What a type has of its own definition.

ghost use Rattle.std.specs.Prelude.{◌≡◌, [], true, length, IsTrue, IfOk};
ghost use Rattle.std.specs.Option.{option_map};
ghost use Rattle.type_tree.specs.Fits.{def_fits};
ghost use Rattle.type_tree.specs.Subst.{subst_ty};
ghost use Rattle.type_tree.specs.Whole.{counts};
ghost use Rattle.type_pool.specs.Keys.{keys_below};
ghost use Rattle.type_pool.specs.Trees.{at_all, ids_below};
ghost use Rattle.method_table.specs.Named.{IsFront, KeysGrow, NamesOption};
ghost use Rattle.method_table.specs.Tables as spec;

use crate::fields::fields_of;
use crate::numbers::{named_number, numbers_of};
use crate::parts::Front;
use clr_base::Memory;
use std::alloc::Global;
use type_pool::{Id, KeyId, Keys, Pool};
use type_tree::{Def, Ty, World};

/// The number of the exact parent.
fn parent_of(
    pool: &mut Pool,
    alloc: Global,
    keys: &mut Keys,
    parent: &Option<Ty>,
    args: &[Id],
) -> Result<Option<KeyId>, Memory>
    requires args { ids_below (length pool.old) args.now ≡ true }
    requires keys { keys_below (length pool.old) keys.old ≡ true }
    ensures grows { KeysGrow pool.old pool.new keys.old keys.new }
    ensures named { IfOk result (λ n. NamesOption pool.new keys.new n (option_map (subst_ty (at_all pool.old args.now) []) parent.now)) }
{
    match parent {
        Some(tree) => {
            let number = named_number(pool, alloc, keys, tree, args)?;
            Ok(Some(number))
        }
        None => Ok(None),
    }
}

/// The parent, the arguments and the own fields of an instantiation of a definition, where the own instance
/// fields have these offsets.
pub(crate) fn front_of(
    pool: &mut Pool,
    alloc: Global,
    world: &World,
    keys: &mut Keys,
    def: &Def,
    args: &[Id],
    offsets: &[u32],
) -> Result<Front, Memory>
    requires def { IsTrue (def_fits (counts world.now) def.now) }
    requires args { ids_below (length pool.old) args.now ≡ true }
    requires keys { keys_below (length pool.old) keys.old ≡ true }
    ensures grows { KeysGrow pool.old pool.new keys.old keys.new }
    ensures front { IfOk result (λ f. IsFront pool.new keys.new f (option_map (subst_ty (at_all pool.old args.now) []) def.now.parent) (at_all pool.old args.now) (spec.fields_of world.now (at_all pool.old args.now) offsets.now (spec.own_fields world.now def.now))) }
{
    let numbers = numbers_of(pool, alloc, keys, args)?;
    let parent = parent_of(pool, alloc, keys, &def.parent, args)?;
    let fields = fields_of(pool, alloc, world, keys, def, args, offsets)?;
    Ok(Front {
        parent,
        args: numbers,
        fields,
    })
}
