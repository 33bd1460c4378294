//! Which constraints of generic parameters arguments fail.
ghost use Rattle.std.specs.Prelude.{◌≡◌, ◌<◌, true, length, IfOk, OnOk};
ghost use Rattle.type_tree.specs.declared.tree.Key.TheVariants.{Tree as TreeOf};
ghost use Rattle.type_tree.specs.Subst.{subst_ty};
ghost use Rattle.type_pool.specs.Trees.{at, at_all, ids_below, Grows, Spells};
ghost use Rattle.type_pool.specs.Keys.{keys_below};
ghost use Rattle.key_closure.specs.Bounds.{keys_at};
ghost use Rattle.type_subs.specs.Constraints as spec;
ghost use Rattle.type_subs.specs.Listing.{has};

use crate::levels::{is_reference, is_value};
use crate::makers::is_new;
use crate::supers::{is_listed, with_supers};
use clr_base::Memory;
use sqlite_items::at;
use std::alloc::Global;
use type_pool::{Id, Keys, Pool, from_tree, subst};
use type_tree::{Formal, Ty, World};

/// That an argument is a reference type (ECMA-335 II.23.1.7).
const REFERENCE: u32 = 4;

/// That it is a value type.
const VALUE: u32 = 8;

/// That it has a public constructor without parameters.
const CONSTRUCTOR: u32 = 0x10;

/// Whether an argument fails what flags ask for.
fn fails_flags(world: &World, pool: &Pool, flags: u32, arg: Id) -> bool
    requires { arg.0 < length pool.now }
    ensures { result ≡ spec.fails_flags world.now flags (at pool.now arg) }
{
    flags & REFERENCE != 0 && !is_reference(world, pool, arg)
        || flags & VALUE != 0 && !is_value(world, pool, arg)
        || flags & CONSTRUCTOR != 0 && !is_new(world, pool, arg)
}

/// A tree with these put in for the variables of types and of methods.
fn put_in(
    alloc: Global,
    pool: &mut Pool,
    tree: &Ty,
    types: &[Id],
    methods: &[Id],
) -> Result<Id, Memory>
    requires types { ids_below (length pool.old) types.now ≡ true }
    requires methods { ids_below (length pool.old) methods.now ≡ true }
    ensures grows { Grows pool.old pool.new }
    ensures spells { IfOk result (λ id. Spells pool.new id (subst_ty (at_all pool.old types.now) (at_all pool.old methods.now) tree.now)) }
{
    let open = from_tree(tree, pool, alloc)?;
    subst(pool, alloc, open, types, methods)
}

/// Whether a constraint type, put in, is among keys, which stay as they are where it is.
fn is_met(
    alloc: Global,
    pool: &mut Pool,
    keys: &mut Keys,
    constraint: &Ty,
    types: &[Id],
    methods: &[Id],
) -> Result<bool, Memory>
    requires keys { keys_below (length pool.old) keys.old ≡ true }
    requires types { ids_below (length pool.old) types.now ≡ true }
    requires methods { ids_below (length pool.old) methods.now ≡ true }
    ensures grows { Grows pool.old pool.new }
    ensures is { IfOk result (λ met. met ≡ has (keys_at pool.old keys.old) (TreeOf (subst_ty (at_all pool.old types.now) (at_all pool.old methods.now) constraint.now))) }
    ensures stay { IfOk result (λ met. met ≡ true → keys.new ≡ keys.old) }
{
    let put = put_in(alloc, pool, constraint, types, methods)?;
    is_listed(pool, keys, put)
}

/// Whether a constraint type, put in, is neither the argument nor one of its supers, which are found once.
fn fails_types(
    alloc: Global,
    world: &World,
    pool: &mut Pool,
    constraints: &[Ty],
    types: &[Id],
    methods: &[Id],
    arg: Id,
) -> Result<bool, Memory>
    requires arg { arg.0 < length pool.old }
    requires types { ids_below (length pool.old) types.now ≡ true }
    requires methods { ids_below (length pool.old) methods.now ≡ true }
    ensures grows { Grows pool.old pool.new }
    ensures is { IfOk result (λ found. found ≡ spec.fails_types world.now (at_all pool.old types.now) (at_all pool.old methods.now) constraints.now (at pool.old arg)) }
{
    let mut keys = with_supers(alloc, world, pool, arg)?;
    for constraint in constraints {
        if !is_met(alloc, pool, &mut keys, constraint, types, methods)? {
            return Ok(true);
        }
    }
    Ok(false)
}

/// Whether an argument fails a constraint of its generic parameter.
fn fails(
    alloc: Global,
    world: &World,
    pool: &mut Pool,
    formal: &Formal,
    types: &[Id],
    methods: &[Id],
    arg: Id,
) -> Result<bool, Memory>
    requires arg { arg.0 < length pool.old }
    requires types { ids_below (length pool.old) types.now ≡ true }
    requires methods { ids_below (length pool.old) methods.now ≡ true }
    ensures grows { Grows pool.old pool.new }
    ensures is { IfOk result (λ found. found ≡ spec.fails world.now (at_all pool.old types.now) (at_all pool.old methods.now) formal.now (at pool.old arg)) }
{
    if fails_flags(world, pool, formal.flags, arg) {
        return Ok(true);
    }
    if formal.constraints.is_empty() {
        return Ok(false);
    }
    let constraints = formal.constraints.as_slice();
    fails_types(alloc, world, pool, constraints, types, methods, arg)
}

/// Whether an argument fails a constraint of the generic parameter at its place.
pub(crate) fn any_fails(
    alloc: Global,
    world: &World,
    pool: &mut Pool,
    formals: &[Formal],
    types: &[Id],
    methods: &[Id],
    args: &[Id],
) -> Result<bool, Memory>
    requires args { ids_below (length pool.old) args.now ≡ true }
    requires types { ids_below (length pool.old) types.now ≡ true }
    requires methods { ids_below (length pool.old) methods.now ≡ true }
    ensures grows { Grows pool.old pool.new }
    ensures is { IfOk result (λ found. found ≡ spec.any_fails world.now (at_all pool.old types.now) (at_all pool.old methods.now) formals.now (at_all pool.old args.now)) }
{
    for (i, formal) in formals.iter().enumerate() {
        let Some(arg) = at(args, i) else {
            return Ok(false);
        };
        if fails(alloc, world, pool, formal, types, methods, *arg)? {
            return Ok(true);
        }
    }
    Ok(false)
}
