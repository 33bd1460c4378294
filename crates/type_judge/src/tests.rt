//! Each fault of the table, tested by itself.

ghost use Rattle.std.specs.Prelude.{◌≡◌, ◌<◌, true, length, IfOk, OnOk};
ghost use Rattle.type_tree.specs.declared.tree.Key.TheVariants.{Tree as TreeOf};
ghost use Rattle.type_pool.specs.Trees.{at, Grows};
ghost use Rattle.type_pool.specs.Keys.{key_at, key_below};
ghost use Rattle.key_faults.specs.Faults as faults;
ghost use Rattle.key_faults.specs.Told.{IsTold};
ghost use Rattle.type_subs.specs.Faults.{is_constraint_fault};
ghost use Rattle.type_judge.specs.Notes.{AreNotes};
ghost use Rattle.type_judge.specs.Table as spec;

use crate::notes::Notes;
use crate::slots::{has_bad_override, has_no_method};
use clr_base::Memory;
use key_faults::{
    Told, has_arity_fault, has_bad_argument, has_bad_interface, has_bad_layout, has_bad_parent,
    has_base_cycle, has_deep_layout, is_expanding, is_not_found, is_not_in_profile,
};
use load_events::LoadFault;
use std::alloc::Global;
use type_pool::{Id, KeyNode, Pool};
use type_subs::fails_constraint;
use type_tree::World;

fn bad_interface(
    pool: &mut Pool,
    alloc: Global,
    world: &World,
    told: &Told,
    notes: &mut Notes,
    id: Id,
) -> Result<bool, Memory>
    requires id { id.0 < length pool.old }
    requires told { IsTold world.now told.now }
    requires notes { AreNotes world.now pool.old notes.old }
    ensures grows { Grows pool.old pool.new }
    ensures notes { OnOk result (AreNotes world.now pool.new notes.new) }
    ensures is { IfOk result (λ found. found ≡ faults.has_bad_interface world.now (at pool.old id)) }
{
    has_bad_interface(pool, alloc, world, told, &mut notes.faults, id)
}

fn deep_layout(
    pool: &mut Pool,
    alloc: Global,
    world: &World,
    notes: &mut Notes,
    id: Id,
) -> Result<bool, Memory>
    requires id { id.0 < length pool.old }
    requires notes { AreNotes world.now pool.old notes.old }
    ensures grows { Grows pool.old pool.new }
    ensures notes { OnOk result (AreNotes world.now pool.new notes.new) }
    ensures is { IfOk result (λ found. found ≡ faults.has_deep_layout world.now (at pool.old id)) }
{
    has_deep_layout(pool, alloc, world, &mut notes.faults, id)
}

fn bad_layout(
    pool: &mut Pool,
    alloc: Global,
    world: &World,
    notes: &mut Notes,
    id: Id,
) -> Result<bool, Memory>
    requires id { id.0 < length pool.old }
    requires notes { AreNotes world.now pool.old notes.old }
    ensures grows { Grows pool.old pool.new }
    ensures notes { OnOk result (AreNotes world.now pool.new notes.new) }
    ensures is { IfOk result (λ found. found ≡ faults.has_bad_layout world.now (at pool.old id)) }
{
    has_bad_layout(pool, alloc, world, &mut notes.faults, id)
}

fn constraint(
    pool: &mut Pool,
    alloc: Global,
    world: &World,
    notes: &mut Notes,
    key: &KeyNode,
) -> Result<bool, Memory>
    requires within { key_below (length pool.old) key.now ≡ true }
    requires notes { AreNotes world.now pool.old notes.old }
    ensures grows { Grows pool.old pool.new }
    ensures notes { OnOk result (AreNotes world.now pool.new notes.new) }
    ensures is { IfOk result (λ found. found ≡ is_constraint_fault world.now (key_at pool.old key.now)) }
{
    fails_constraint(alloc, world, pool, &mut notes.constraints, key)
}

/// Whether a type has this fault by itself.
fn of_type(
    pool: &mut Pool,
    alloc: Global,
    world: &World,
    told: &Told,
    notes: &mut Notes,
    id: Id,
    fault: LoadFault,
) -> Result<bool, Memory>
    requires id { id.0 < length pool.old }
    requires told { IsTold world.now told.now }
    requires notes { AreNotes world.now pool.old notes.old }
    ensures grows { Grows pool.old pool.new }
    ensures notes { OnOk result (AreNotes world.now pool.new notes.new) }
    ensures is { IfOk result (λ found. found ≡ spec.tells told.now world.now (TreeOf (at pool.old id)) fault) }
{
    match fault {
        LoadFault::NotFound => Ok(is_not_found(world, told, pool, id)),
        LoadFault::Arity => Ok(has_arity_fault(world, pool, &KeyNode::Tree(id))),
        LoadFault::BadArgument => Ok(has_bad_argument(pool, &KeyNode::Tree(id))),
        LoadFault::BaseCycle => Ok(has_base_cycle(world, told, pool, id)),
        LoadFault::Expanding => Ok(is_expanding(world, told, pool, id)),
        LoadFault::BadParent => Ok(has_bad_parent(world, told, pool, id)),
        LoadFault::BadInterface => bad_interface(pool, alloc, world, told, notes, id),
        LoadFault::BadOverride => has_bad_override(pool, alloc, world, notes, id),
        LoadFault::NoMethod => has_no_method(pool, alloc, world, notes, id),
        LoadFault::BadLayout => bad_layout(pool, alloc, world, notes, id),
        LoadFault::LayoutDeep => deep_layout(pool, alloc, world, notes, id),
        LoadFault::Constraint => constraint(pool, alloc, world, notes, &KeyNode::Tree(id)),
        LoadFault::TooLarge => Ok(false),
        LoadFault::NotInProfile => Ok(is_not_in_profile(world, told, pool, id)),
    }
}

/// Whether a method has this fault by itself.
fn of_method(
    pool: &mut Pool,
    alloc: Global,
    world: &World,
    notes: &mut Notes,
    key: &KeyNode,
    fault: LoadFault,
) -> Result<bool, Memory>
    requires within { key_below (length pool.old) key.now ≡ true }
    requires notes { AreNotes world.now pool.old notes.old }
    ensures grows { Grows pool.old pool.new }
    ensures notes { OnOk result (AreNotes world.now pool.new notes.new) }
    ensures is { IfOk result (λ found. found ≡ spec.tells_of_method world.now (key_at pool.old key.now) fault) }
{
    match fault {
        LoadFault::Arity => Ok(has_arity_fault(world, pool, key)),
        LoadFault::BadArgument => Ok(has_bad_argument(pool, key)),
        LoadFault::Constraint => constraint(pool, alloc, world, notes, key),
        _ => Ok(false),
    }
}

/// Whether a key has this fault by itself. Of a method Arity, BadArgument and Constraint can hold.
pub(crate) fn has_fault(
    pool: &mut Pool,
    alloc: Global,
    world: &World,
    told: &Told,
    notes: &mut Notes,
    key: &KeyNode,
    fault: LoadFault,
) -> Result<bool, Memory>
    requires within { key_below (length pool.old) key.now ≡ true }
    requires told { IsTold world.now told.now }
    requires notes { AreNotes world.now pool.old notes.old }
    ensures grows { Grows pool.old pool.new }
    ensures notes { OnOk result (AreNotes world.now pool.new notes.new) }
    ensures is { IfOk result (λ found. found ≡ spec.tells told.now world.now (key_at pool.old key.now) fault) }
{
    match key {
        KeyNode::Tree(id) => of_type(pool, alloc, world, told, notes, *id, fault),
        KeyNode::Meth(_, _, _) => of_method(pool, alloc, world, notes, key, fault),
    }
}
