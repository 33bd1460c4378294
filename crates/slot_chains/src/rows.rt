//! What MethodImpl rows put into slots (ECMA-335 II.22.27).

ghost use Rattle.std.specs.Prelude.{◌≡◌, ◌<◌, ◌&&◌, ℕ, nat_eq, true, false, Some, None, length, map, slice_get, IfOk, OnOk};
ghost use Rattle.std.specs.HashMap.{get};
ghost use Rattle.std.specs.List.{list_any};
ghost use Rattle.std.specs.Option.{option_and_then, option_map, option_map_or};
ghost use Rattle.type_tree.specs.Kinds.{head};
ghost use Rattle.type_pool.specs.Trees.{at, at_all, ids_below, Grows, Spells};
ghost use Rattle.method_slots.specs.Chains as spec;
ghost use Rattle.method_slots.specs.Slots.{same_tree};
ghost use Rattle.slot_chains.specs.Levels.{NumbersNoted, IsNoted, OwnersNoted};
ghost use Rattle.slot_chains.specs.Puts.{replace, replace_all};

use crate::notes::Notes;
use clr_base::{DefId, Memory, MethId};
use method_slots::{SlotEntry, takes_slot};
use sqlite_items::{Items, at};
use std::alloc::Global;
use type_pool::{Id, Pool, from_tree};
use type_tree::{Impl, Ty, World};

/// Whether a method is one of a definition's own virtual instance methods.
fn is_own(world: &World, def: DefId, method: MethId) -> bool
    ensures { result ≡ spec.is_own world.now def.0 method.0 }
{
    if def.0 >= world.def_count() || method.0 >= world.method_count() {
        return false;
    }
    let def = world.def(def);
    method.0 >= def.first_method
        && method.0 - def.first_method < def.methods
        && takes_slot(world.method(method))
}

/// Whether a body or declaration that a row names is one of a definition's own virtual instance methods.
pub fn owns(world: &World, def: DefId, method: Option<MethId>) -> bool
    ensures { result ≡ spec.owns world.now def.0 method }
{
    match method {
        Some(method) => is_own(world, def, method),
        None => false,
    }
}

/// Whether a tree is one of these.
fn has_tree(pool: &Pool, ids: &[Id], id: Id) -> bool
    requires within { ids_below (length pool.now) ids.now ≡ true }
    requires tree { id.0 < length pool.now }
    ensures { result ≡ list_any (same_tree (at pool.now id)) (at_all pool.now ids.now) }
{
    for other in ids {
        if pool.same(id, *other) {
            return true;
        }
    }
    false
}

/// Whether the definition that a row's owner instantiates owns the row's declaration.
fn declares(world: &World, row: &Impl) -> bool
    ensures { result ≡ option_map_or (λ p. spec.owns world.now p row.now.declaration) (head row.now.owner) false }
{
    match &row.owner {
        Ty::Inst(def, _) => owns(world, *def, row.declaration),
        _ => false,
    }
}

/// Whether a row's owner is one of these types, and its definition owns the row's declaration.
fn is_declared(world: &World, pool: &Pool, types: &[Id], owner: Id, row: &Impl) -> bool
    requires within { ids_below (length pool.now) types.now ≡ true }
    requires owner { Spells pool.now owner row.now.owner }
    ensures { result ≡ spec.is_declared world.now (at_all pool.now types.now) row.now }
{
    has_tree(pool, types, owner) && declares(world, row)
}

/// The number that is listed for a method, where the list begins with that of `first`.
pub(crate) fn number_at(first: u32, numbers: &[Option<u32>], method: u32) -> Option<u32>
    ensures { result ≡ spec.at_own first numbers.now method }
{
    if method < first {
        return None;
    }
    match at(numbers, (method - first) as usize) {
        Some(number) => *number,
        None => None,
    }
}

/// The number that a method takes in a definition that is noted.
pub fn number_in(world: &World, notes: &Notes, def: DefId, method: u32) -> Option<u32>
    requires numbers { NumbersNoted world.now notes.now }
    requires noted { IsNoted notes.now.places def.0 }
    ensures { result ≡ spec.number_in spec.longest_chain world.now def.0 method }
{
    if def.0 >= world.def_count() {
        return None;
    }
    match notes.place(def) {
        Some(place) => {
            let level = &notes.levels.as_slice()[place as usize];
            number_at(
                world.def(def).first_method,
                level.numbers.as_slice(),
                method,
            )
        }
        None => None,
    }
}

/// The number of the slot that a row's declaration has.
fn declared_number(world: &World, notes: &Notes, row: &Impl) -> Option<u32>
    requires numbers { NumbersNoted world.now notes.now }
    requires noted { (p : ℕ) → head row.now.owner ≡ Some p → IsNoted notes.now.places p }
    ensures { result ≡ spec.declared_number world.now row.now }
{
    match (&row.owner, row.declaration) {
        (Ty::Inst(def, _), Some(method)) => number_in(world, notes, *def, method.0),
        _ => None,
    }
}

/// Puts a body into the slot of its declaration.
fn put_body(entries: &mut Items<SlotEntry>, owner: u32, body: Option<MethId>, number: Option<u32>)
    ensures { entries.new ≡ replace entries.old (option_and_then (λ m. option_map (spec.take_of owner m.0) number) body) }
{
    if let (Some(method), Some(number)) = (body, number) {
        if (number as usize) < entries.len() {
            entries.set(number as usize, SlotEntry { method, owner });
        }
    }
}

/// Whether a row's body is an own virtual method, and its declaration one of these types'.
pub(crate) fn row_fits(
    world: &World,
    pool: &Pool,
    def: DefId,
    types: &[Id],
    owner: Id,
    row: &Impl,
) -> bool
    requires within { ids_below (length pool.now) types.now ≡ true }
    requires owner { Spells pool.now owner row.now.owner }
    ensures { result ≡ (spec.owns world.now def.0 row.now.body && spec.is_declared world.now (at_all pool.now types.now) row.now) }
{
    owns(world, def, row.body) && is_declared(world, pool, types, owner, row)
}

/// What a row puts into the slots of a class with these parents.
fn put_row(
    pool: &mut Pool,
    alloc: Global,
    world: &World,
    notes: &Notes,
    def: DefId,
    parents: &[Id],
    entries: &mut Items<SlotEntry>,
    row: &Impl,
) -> Result<(), Memory>
    requires parents { ids_below (length pool.old) parents.now ≡ true }
    requires short { length parents.now < 64 }
    requires numbers { NumbersNoted world.now notes.now }
    requires owners { OwnersNoted notes.now.places (at_all pool.old parents.now) }
    ensures grows { Grows pool.old pool.new }
    ensures put { OnOk result (entries.new ≡ replace entries.old (spec.row_take world.now def.0 (at_all pool.old parents.now) row.now)) }
{
    let owner = from_tree(&row.owner, pool, alloc)?;
    if row_fits(world, pool, def, parents, owner, row) {
        let number = declared_number(world, notes, row);
        put_body(entries, parents.len() as u32, row.body, number);
    }
    Ok(())
}

/// Puts the bodies of the MethodImpl rows of a class with these parents into their slots.
pub(crate) fn put_rows(
    pool: &mut Pool,
    alloc: Global,
    world: &World,
    notes: &Notes,
    def: DefId,
    parents: &[Id],
    entries: &mut Items<SlotEntry>,
    rows: &[Impl],
) -> Result<(), Memory>
    requires parents { ids_below (length pool.old) parents.now ≡ true }
    requires short { length parents.now < 64 }
    requires numbers { NumbersNoted world.now notes.now }
    requires owners { OwnersNoted notes.now.places (at_all pool.old parents.now) }
    ensures grows { Grows pool.old pool.new }
    ensures put { OnOk result (entries.new ≡ replace_all entries.old (map (spec.row_take world.now def.0 (at_all pool.old parents.now)) rows.now)) }
{
    for row in rows {
        put_row(pool, alloc, world, notes, def, parents, entries, row)?;
    }
    Ok(())
}
