//! What the own methods of a definition put into slots.

ghost use Rattle.std.specs.Prelude.{◌≡◌, ◌<◌, ◌≤◌, ◌+◌, ◌^◌, cond, nat_lt, length, slice_get, slice_set, IfOk, OnOk, [], ◌∷◌, ◌++◌};
ghost use Rattle.std.specs.List.{list_any};
ghost use Rattle.std.specs.Option.{option_and_then};
ghost use Rattle.type_tree.specs.declared.tree.Ty.TheVariants as ty;
ghost use Rattle.type_pool.specs.Jobs.{SpellAll};
ghost use Rattle.type_pool.specs.Trees.{Grows, Spells};
ghost use Rattle.method_slots.specs.Chains as chains;
ghost use Rattle.method_slots.specs.Faults as faults;
ghost use Rattle.method_slots.specs.Slots as slots;
ghost use Rattle.slot_chains.specs.Puts.{put, put_all};

use clr_base::{DefId, Memory, MethId};
use method_slots::SlotEntry;
use sqlite_items::{Items, at};
use std::alloc::Global;
use type_pool::{Id, Node, Pool};
use type_tree::World;

/// The variables of a type with so many generic parameters.
fn variables(pool: &mut Pool, alloc: Global, count: u32) -> Result<Items<Id>, Memory>
    ensures grows { Grows pool.old pool.new }
    ensures spells { IfOk result (λ ids. SpellAll pool.new ids (slots.variables count)) }
{
    let mut done = Items::new(alloc);
    for i in 0..count {
        done.push(pool.intern(Node::Var(i))?)?;
    }
    Ok(done)
}

/// A definition with its own generic parameters. Memory also where it had 2^32 of them.
pub(crate) fn own_tree(
    pool: &mut Pool,
    alloc: Global,
    def: DefId,
    formals: usize,
) -> Result<Id, Memory>
    ensures grows { Grows pool.old pool.new }
    ensures spells { IfOk result (λ id. Spells pool.new id (ty.Inst def (slots.variables formals))) }
{
    if formals > u32::MAX as usize {
        return Err(Memory);
    }
    let args = variables(pool, alloc, formals as u32)?;
    pool.intern(Node::Inst(def, args))
}

/// Whether a final method stands in the slot of this number.
fn is_final_at(world: &World, entries: &[SlotEntry], number: &Option<u32>) -> bool
    ensures { result ≡ faults.stands_with slots.is_final world.now (option_and_then (slice_get entries.now) number.now) }
{
    let Some(number) = number else {
        return false;
    };
    match at(entries, *number as usize) {
        Some(entry) => {
            entry.method.0 < world.method_count() && world.method(entry.method).flags & 0x20 != 0
        }
        None => false,
    }
}

/// Whether a final method stands in any of the slots of these numbers.
pub(crate) fn any_final(world: &World, entries: &[SlotEntry], numbers: &[Option<u32>]) -> bool
    ensures { result ≡ list_any (λ number. faults.stands_with slots.is_final world.now (option_and_then (slice_get entries.now) number)) numbers.now }
{
    numbers
        .iter()
        .any(|number| is_final_at(world, entries, number))
}

/// Puts an entry into its slot, or into one that is opened for it.
fn put_entry(entries: &mut Items<SlotEntry>, number: u32, entry: SlotEntry) -> Result<(), Memory>
    ensures { OnOk result (entries.new ≡ cond (nat_lt number (length entries.old)) (slice_set entries.old number entry) (entries.old ++ entry ∷ [])) }
{
    if (number as usize) < entries.len() {
        entries.set(number as usize, entry);
        return Ok(());
    }
    Ok(entries.push(entry)?)
}

/// Puts the own methods, which stand from `first` on and take these numbers, into their slots.
pub(crate) fn put_own(
    entries: &mut Items<SlotEntry>,
    owner: u32,
    first: u32,
    numbers: &[Option<u32>],
) -> Result<(), Memory>
    requires { first + length numbers.now ≤ 16777215 }
    ensures { OnOk result (entries.new ≡ put_all entries.old (chains.own_takes owner first numbers.now)) }
{
    for (i, number) in numbers.iter().enumerate() {
        if let Some(number) = number {
            let method = MethId(first + i as u32);
            put_entry(entries, *number, SlotEntry { method, owner })?;
        }
    }
    Ok(())
}
