//! Faults that types have by their definitions.

ghost use Rattle.std.specs.Prelude.{◌≡◌, ◌<◌, ◌||◌, length, IfOk, OnOk};
ghost use Rattle.def_faults.specs.BadInterface.{is_bad_interface};
ghost use Rattle.type_pool.specs.Trees.{at, Grows};
ghost use Rattle.key_faults.specs.Faults as spec;
ghost use Rattle.key_faults.specs.Told as spec_told;
ghost use Rattle.key_faults.specs.Told.{AreNotes, IsTold, passes_bounds as passes_bounds_of};

use crate::heads::def_in;
use crate::notes::{Notes, passes_bounds};
use crate::shapes::{is_missing, is_outside};
use crate::told::{Told, expands, faults_of};
use clr_base::{DefId, Memory};
use std::alloc::Global;
use type_pool::{Id, Pool};
use type_tree::World;

/// Whether a type, or one on its chain of parents, is named and stands nowhere: the fault NotFound, as it is
/// told.
pub fn is_not_found(world: &World, told: &Told, pool: &Pool, id: Id) -> bool
    requires { id.0 < length pool.now }
    ensures { result ≡ spec.tells_not_found told.now world.now (at pool.now id) }
{
    if is_missing(pool, id) {
        return true;
    }
    match def_in(world, pool, id) {
        Some(def) => faults_of(told, def).not_found,
        None => false,
    }
}

/// Whether the chain of parents is longer than 64: the fault BaseCycle.
pub fn has_base_cycle(world: &World, told: &Told, pool: &Pool, id: Id) -> bool
    requires id { id.0 < length pool.now }
    requires told { IsTold world.now told.now }
    ensures { result ≡ spec.has_base_cycle world.now (at pool.now id) }
{
    match def_in(world, pool, id) {
        Some(def) => faults_of(told, def).base_cycle,
        None => false,
    }
}

/// Whether the definition expands: the fault Expanding, as it is told.
pub fn is_expanding(world: &World, told: &Told, pool: &Pool, id: Id) -> bool
    requires { id.0 < length pool.now }
    ensures { result ≡ spec.tells_expanding told.now world.now (at pool.now id) }
{
    match def_in(world, pool, id) {
        Some(def) => expands(told, def),
        None => false,
    }
}

/// Whether the definition extends what it may not: the fault BadParent.
pub fn has_bad_parent(world: &World, told: &Told, pool: &Pool, id: Id) -> bool
    requires id { id.0 < length pool.now }
    requires told { IsTold world.now told.now }
    ensures { result ≡ spec.has_bad_parent world.now (at pool.now id) }
{
    match def_in(world, pool, id) {
        Some(def) => faults_of(told, def).bad_parent,
        None => false,
    }
}

fn bad_interface_of(
    pool: &mut Pool,
    alloc: Global,
    world: &World,
    told: &Told,
    notes: &mut Notes,
    def: DefId,
) -> Result<bool, Memory>
    requires def { def.0 < length world.now.defs }
    requires told { IsTold world.now told.now }
    requires notes { AreNotes world.now pool.old notes.old }
    ensures grows { Grows pool.old pool.new }
    ensures notes { OnOk result (AreNotes world.now pool.new notes.new) }
    ensures is { IfOk result (λ found. found ≡ (is_bad_interface world.now def || passes_bounds_of world.now def)) }
{
    if faults_of(told, def).bad_interface {
        return Ok(true);
    }
    passes_bounds(pool, alloc, world, &mut notes.lists, def)
}

/// Whether the definition declares to implement what is no interface, or its list of interfaces passes the
/// bounds: the fault BadInterface.
pub fn has_bad_interface(
    pool: &mut Pool,
    alloc: Global,
    world: &World,
    told: &Told,
    notes: &mut Notes,
    id: Id,
) -> Result<bool, Memory>
    requires id { id.0 < length pool.old }
    requires told { IsTold world.now told.now }
    requires notes { AreNotes world.now pool.old notes.old }
    ensures grows { Grows pool.old pool.new }
    ensures notes { OnOk result (AreNotes world.now pool.new notes.new) }
    ensures is { IfOk result (λ found. found ≡ spec.has_bad_interface world.now (at pool.old id)) }
{
    match def_in(world, pool, id) {
        Some(def) => bad_interface_of(pool, alloc, world, told, notes, def),
        None => Ok(false),
    }
}

fn is_left_out(told: &Told, def: DefId) -> bool
    ensures { result ≡ ((spec_told.faults_of told.now def).not_in_profile || (spec_told.faults_of told.now def).default_method) }
{
    let faults = faults_of(told, def);
    faults.not_in_profile || faults.default_method
}

/// Whether the tree is a reference, a pointer or an odd form, or its definition is left out: the fault
/// NotInProfile, as it is told.
pub fn is_not_in_profile(world: &World, told: &Told, pool: &Pool, id: Id) -> bool
    requires { id.0 < length pool.now }
    ensures { result ≡ spec.tells_not_in_profile told.now world.now (at pool.now id) }
{
    if is_outside(pool, id) {
        return true;
    }
    match def_in(world, pool, id) {
        Some(def) => is_left_out(told, def),
        None => false,
    }
}
