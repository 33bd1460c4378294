//! Public virtual methods, found by their names and signatures.

ghost use Rattle.std.specs.Prelude.{◌≡◌, ◌+◌, ◌≤◌, [], true, nat_eq, length, Some, IfOk, OnOk};
ghost use Rattle.std.specs.HashMap.{get};
ghost use Rattle.type_pool.specs.Trees.{at_all, ids_below, Grows};
ghost use Rattle.method_slots.specs.Keyed.{IsNamed};
ghost use Rattle.method_slots.specs.Opens.{open_of, put_open};
ghost use Rattle.method_slots.specs.OpenSets.{OpensGrow};
ghost use Rattle.method_slots.specs.Slots.{run};
ghost use Rattle.interface_maps.specs.Choices as spec;
ghost use Rattle.interface_maps.specs.Publics.{AddsFirst, FindsPublic, GainPublics};

use crate::answers::is_public;
use clr_base::{Memory, MethId};
use method_slots::{OpenSet, open_method, put_in, takes_slot};
use std::alloc::Global;
use std::collections::HashMap;
use type_pool::{Id, Pool};
use type_tree::{Method, World};

/// The number of a method's name and signature, in the generic parameters of a definition that names the
/// method's owner with the arguments `types`.
pub(crate) fn key_of(
    pool: &mut Pool,
    alloc: Global,
    set: &mut OpenSet,
    method: &Method,
    types: &[Id],
) -> Result<u32, Memory>
    requires { ids_below (length pool.old) types.now ≡ true }
    ensures grows { Grows pool.old pool.new }
    ensures set_grows { OpensGrow set.old set.new }
    ensures named { IfOk result (λ key. IsNamed pool.new set.new key (put_open (at_all pool.old types.now) (open_of method.now))) }
{
    let signature = open_method(pool, alloc, method)?;
    let put = put_in(pool, alloc, &signature, types)?;
    set.intern(put)
}

/// Notes the slot of the first method of each name and signature.
pub(crate) fn note_first(
    numbers: &mut HashMap<u32, u32>,
    key: u32,
    number: u32,
) -> Result<(), Memory>
    ensures { OnOk result (AddsFirst numbers.old numbers.new key number) }
{
    if numbers.contains_key(&key) {
        return Ok(());
    }
    match numbers.insert(key, number) {
        Ok(_) => Ok(()),
        Err(_) => Err(Memory),
    }
}

/// Notes a method that takes this slot, where it is public and virtual.
pub(crate) fn add_public(
    pool: &mut Pool,
    alloc: Global,
    set: &mut OpenSet,
    numbers: &mut HashMap<u32, u32>,
    method: &Method,
    types: &[Id],
    number: u32,
) -> Result<(), Memory>
    requires { ids_below (length pool.old) types.now ≡ true }
    ensures grows { Grows pool.old pool.new }
    ensures set_grows { OpensGrow set.old set.new }
    ensures gains { OnOk result (GainPublics pool.old set.old numbers.old pool.new set.new numbers.new (spec.listed (spec.public_of (at_all pool.old types.now) method.now (Some number)) [])) }
{
    if !may_answer(method) {
        return Ok(());
    }
    let key = key_of(pool, alloc, set, method, types)?;
    note_first(numbers, key, number)
}

/// Notes a method that takes this slot, or none, where it is public and virtual.
fn add_method(
    pool: &mut Pool,
    alloc: Global,
    set: &mut OpenSet,
    numbers: &mut HashMap<u32, u32>,
    method: &Method,
    types: &[Id],
    number: Option<u32>,
) -> Result<(), Memory>
    requires { ids_below (length pool.old) types.now ≡ true }
    ensures grows { Grows pool.old pool.new }
    ensures set_grows { OpensGrow set.old set.new }
    ensures gains { OnOk result (GainPublics pool.old set.old numbers.old pool.new set.new numbers.new (spec.listed (spec.public_of (at_all pool.old types.now) method.now number) [])) }
{
    match number {
        Some(number) => add_public(pool, alloc, set, numbers, method, types, number),
        None => Ok(()),
    }
}

/// Notes the public virtual methods of a run, in order, of methods that take these slots.
pub(crate) fn add_publics(
    pool: &mut Pool,
    alloc: Global,
    set: &mut OpenSet,
    numbers: &mut HashMap<u32, u32>,
    world: &World,
    first: u32,
    types: &[Id],
    given: &[Option<u32>],
) -> Result<(), Memory>
    requires within { first + length given.now ≤ length world.now.methods }
    requires types { ids_below (length pool.old) types.now ≡ true }
    ensures grows { Grows pool.old pool.new }
    ensures set_grows { OpensGrow set.old set.new }
    ensures gains { OnOk result (GainPublics pool.old set.old numbers.old pool.new set.new numbers.new (spec.own_publics (at_all pool.old types.now) (run world.now first (length given.now)) given.now)) }
{
    world.whole();
    for i in 0..given.len() {
        let method = world.method(MethId(first + i as u32));
        add_method(pool, alloc, set, numbers, method, types, given[i])?;
    }
    Ok(())
}

/// Whether a method is public and virtual.
fn may_answer(method: &Method) -> bool
    ensures { result ≡ spec.may_answer method.now }
{
    is_public(method) && takes_slot(method)
}

/// What is noted for a key.
pub(crate) fn noted(numbers: &HashMap<u32, u32>, key: u32) -> Option<u32>
    ensures { result ≡ get nat_eq numbers.now key }
{
    match numbers.get(&key) {
        Some(number) => Some(*number),
        None => None,
    }
}

/// The slot of the first method that has the name and signature of a number.
pub(crate) fn find_public(
    pool: &Pool,
    set: &OpenSet,
    numbers: &HashMap<u32, u32>,
    key: u32,
) -> Option<u32>
    ensures { FindsPublic pool.now set.now numbers.now key result }
{
    pool.each_once();
    set.each_once();
    noted(numbers, key)
}
