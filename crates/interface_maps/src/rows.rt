//! MethodImpl rows on the methods of interfaces (ECMA-335 II.22.27).

ghost use Rattle.std.specs.Prelude.{◌≡◌, ◌<◌, [], ◌∷◌, nat_eq, Some, length, OnOk};
ghost use Rattle.std.specs.HashMap.{get, Updates};
ghost use Rattle.type_pool.specs.Trees.{Grows};
ghost use Rattle.method_slots.specs.Chains.{flat};
ghost use Rattle.slot_chains.specs.Levels.{IsNoted, NumbersNoted};
ghost use Rattle.interface_maps.specs.Rows.{pair, AddsRow, FindsRow, GainRows};

use clr_base::{DefId, Memory};
use slot_chains::{Notes, number_in, owns};
use std::alloc::Global;
use std::collections::HashMap;
use type_pool::{Id, Pool, from_tree};
use type_tree::{Impl, World};

/// One number for an interface and a method of it.
fn pair_of(tree: u32, method: u32) -> u64
    ensures is { result ≡ pair tree method }
    ensures small { method < 4294967296 }
{
    tree as u64 * 4_294_967_296 + method as u64
}

/// Notes a slot, or that there is none.
fn put_number(
    numbers: &mut HashMap<u64, Option<u32>>,
    key: u64,
    number: Option<u32>,
) -> Result<(), Memory>
    ensures { OnOk result (Updates nat_eq numbers.old numbers.new key (Some number)) }
{
    match numbers.insert(key, number) {
        Ok(_) => Ok(()),
        Err(_) => Err(Memory),
    }
}

/// Notes the slot of a row's body for the method and the interface that the row names, where the body is
/// an own virtual method. The row's owner has this number in the pool.
fn note_row(
    numbers: &mut HashMap<u64, Option<u32>>,
    world: &World,
    notes: &Notes,
    def: DefId,
    owner: Id,
    row: &Impl,
) -> Result<(), Memory>
    requires noted { NumbersNoted world.now notes.now }
    requires here { IsNoted notes.now.places def.0 }
    ensures { OnOk result (AddsRow world.now def.0 owner.0 row.now numbers.old numbers.new) }
{
    if !owns(world, def, row.body) {
        return Ok(());
    }
    match (row.body, row.declaration) {
        (Some(body), Some(method)) => {
            let number = number_in(world, notes, def, body.0);
            put_number(numbers, pair_of(owner.0, method.0), number)
        }
        _ => Ok(()),
    }
}

/// Notes the slot of a row's body.
fn add_row(
    pool: &mut Pool,
    alloc: Global,
    numbers: &mut HashMap<u64, Option<u32>>,
    world: &World,
    notes: &Notes,
    def: DefId,
    row: &Impl,
) -> Result<(), Memory>
    requires noted { NumbersNoted world.now notes.now }
    requires here { IsNoted notes.now.places def.0 }
    ensures grows { Grows pool.old pool.new }
    ensures gains { OnOk result (GainRows world.now def.0 pool.old numbers.old pool.new numbers.new (row.now ∷ [])) }
{
    let owner = from_tree(&row.owner, pool, alloc)?;
    note_row(numbers, world, notes, def, owner, row)
}

/// Notes the slots of the bodies of the rows of a definition, for each interface and method that of the
/// last row.
pub(crate) fn add_rows(
    pool: &mut Pool,
    alloc: Global,
    numbers: &mut HashMap<u64, Option<u32>>,
    world: &World,
    notes: &Notes,
    def: DefId,
    rows: &[Impl],
) -> Result<(), Memory>
    requires noted { NumbersNoted world.now notes.now }
    requires here { IsNoted notes.now.places def.0 }
    ensures grows { Grows pool.old pool.new }
    ensures gains { OnOk result (GainRows world.now def.0 pool.old numbers.old pool.new numbers.new rows.now) }
{
    for row in rows {
        add_row(pool, alloc, numbers, world, notes, def, row)?;
    }
    Ok(())
}

/// What is noted for a key.
fn noted(numbers: &HashMap<u64, Option<u32>>, key: u64) -> Option<u32>
    ensures { result ≡ flat (get nat_eq numbers.now key) }
{
    match numbers.get(&key) {
        Some(number) => *number,
        None => None,
    }
}

/// The slot of the last row on a method of an interface.
pub(crate) fn find_row(
    pool: &Pool,
    numbers: &HashMap<u64, Option<u32>>,
    tree: Id,
    method: u32,
) -> Option<u32>
    requires { tree.0 < length pool.now }
    ensures { FindsRow pool.now numbers.now tree method result }
{
    pool.each_once();
    noted(numbers, pair_of(tree.0, method))
}
