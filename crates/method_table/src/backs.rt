//! What a type has along its chain of parents.

ghost use Rattle.std.specs.Prelude.{◌≡◌, ◌<◌, [], map, nat_eq, true, length, Some, IfOk};
ghost use Rattle.std.specs.HashMap.{get};
ghost use Rattle.type_tree.specs.Subst.{subst_ty};
ghost use Rattle.type_pool.specs.Keys.{keys_below};
ghost use Rattle.type_pool.specs.Trees.{at, at_all, ids_below};
ghost use Rattle.method_slots.specs.Chains.{longest_chain};
ghost use Rattle.slot_chains.specs.Levels.{AreNotes};
ghost use Rattle.interface_maps.specs.Choices.{Answered, answers};
ghost use Rattle.interface_maps.specs.Maps.{IsMap};
ghost use Rattle.method_table.specs.Named.{IsBack, KeysGrow, NamesSlots, NamesTypes};
ghost use Rattle.method_table.specs.Notes.{AreTableNotes, IsFoundOf};
ghost use Rattle.method_table.specs.Tables as spec;

use crate::notes::{Found, TableNotes};
use crate::numbers::{exact_numbers, number_of};
use crate::parts::Back;
use crate::slots::{interface_slots, slots_of};
use clr_base::{DefId, Memory};
use interface_maps::MapLevel;
use slot_chains::Notes as SlotNotes;
use sqlite_items::Items;
use std::alloc::Global;
use type_pool::{Id, KeyId, KeyNode, Keys, Pool};
use type_record::SlotOf;
use type_tree::World;

/// The slots of a type that instantiates a definition with these arguments. What was found of the
/// definition stands at `place`.
pub(crate) fn exact_slots(
    pool: &mut Pool,
    alloc: Global,
    world: &World,
    keys: &mut Keys,
    notes: &SlotNotes,
    place: u32,
    id: Id,
    def: DefId,
    args: &[Id],
) -> Result<Items<SlotOf<KeyId>>, Memory>
    requires tree { id.0 < length pool.old }
    requires args { ids_below (length pool.old) args.now ≡ true }
    requires keys { keys_below (length pool.old) keys.old ≡ true }
    requires notes { AreNotes world.now pool.old notes.now }
    requires place { get nat_eq notes.now.places def.0 ≡ Some place }
    ensures grows { KeysGrow pool.old pool.new keys.old keys.new }
    ensures named { IfOk result (λ ss. NamesSlots pool.new keys.new ss (spec.slots_of world.now (at pool.old id) (at_all pool.old args.now) def.0)) }
{
    let _ = world;
    let _ = def;
    let level = &notes.levels.as_slice()[place as usize];
    let own = number_of(pool, keys, KeyNode::Tree(id))?;
    let chain = exact_numbers(pool, alloc, keys, level.chain.as_slice(), args)?;
    slots_of(alloc, own, chain.as_slice(), level.entries.as_slice())
}

/// The exact interfaces of a type that instantiates a definition of which this was found.
fn exact_interfaces(
    pool: &mut Pool,
    alloc: Global,
    world: &World,
    keys: &mut Keys,
    level: &MapLevel,
    def: DefId,
    args: &[Id],
) -> Result<Items<KeyId>, Memory>
    requires args { ids_below (length pool.old) args.now ≡ true }
    requires keys { keys_below (length pool.old) keys.old ≡ true }
    requires level { IsMap world.now pool.old def.0 level.now }
    ensures grows { KeysGrow pool.old pool.new keys.old keys.new }
    ensures named { IfOk result (λ ns. NamesTypes pool.new keys.new ns (map (λ (a : Answered). subst_ty (at_all pool.old args.now) [] a.interface) (answers longest_chain world.now def.0))) }
{
    let _ = world;
    let _ = def;
    match &level.list {
        Some(ids) => exact_numbers(pool, alloc, keys, ids.as_slice(), args),
        None => Ok(Items::new(alloc)),
    }
}

/// The interfaces, the slots and the interface slots of a type that instantiates a definition with these
/// arguments, where this was found of it.
pub(crate) fn back_of(
    pool: &mut Pool,
    alloc: Global,
    world: &World,
    keys: &mut Keys,
    notes: &TableNotes,
    found: &Found,
    id: Id,
    def: DefId,
    args: &[Id],
) -> Result<Back, Memory>
    requires tree { id.0 < length pool.old }
    requires args { ids_below (length pool.old) args.now ≡ true }
    requires keys { keys_below (length pool.old) keys.old ≡ true }
    requires notes { AreTableNotes world.now pool.old notes.now }
    requires found { IsFoundOf world.now notes.now (at pool.old id) def.0 found.now }
    ensures grows { KeysGrow pool.old pool.new keys.old keys.new }
    ensures back { IfOk result (λ b. IsBack pool.new keys.new b (map (λ (a : Answered). subst_ty (at_all pool.old args.now) [] a.interface) (answers longest_chain world.now def.0)) (spec.slots_of world.now (at pool.old id) (at_all pool.old args.now) def.0) (map (λ (a : Answered). map (spec.chosen (spec.slots_of world.now (at pool.old id) (at_all pool.old args.now) def.0)) a.choices) (answers longest_chain world.now def.0))) }
{
    let level = &notes.maps.levels.as_slice()[found.maps as usize];
    let interfaces = exact_interfaces(pool, alloc, world, keys, level, def, args)?;
    let slots = exact_slots(
        pool,
        alloc,
        world,
        keys,
        &notes.slots,
        found.slots,
        id,
        def,
        args,
    )?;
    let interface_slots = interface_slots(alloc, slots.as_slice(), level.found.as_slice())?;
    Ok(Back {
        interfaces,
        slots,
        interface_slots,
    })
}
