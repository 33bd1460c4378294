//! The walk along the chain of parents.

ghost use Rattle.std.specs.Prelude.{◌≡◌, ◌<◌, ◌≤◌, ◌+◌, ◌++◌, ◌∷◌, [], ℕ, nat_eq, true, false, Some, None, length, slice_get, IfOk, OnOk};
ghost use Rattle.std.specs.HashMap.{get};
ghost use Rattle.type_tree.specs.Kinds.{head_of};
ghost use Rattle.type_pool.specs.Jobs.{SpellAll};
ghost use Rattle.type_pool.specs.Trees.{Grows, Spells};
ghost use Rattle.method_slots.specs.Chains as chains;
ghost use Rattle.method_slots.specs.OpenSets.{OpensGrow};
ghost use Rattle.method_slots.specs.Slots.{in_own, is_interface as is_interface_of};
ghost use Rattle.slot_chains.specs.Levels.{AreNotes, IsAbove, IsDef, IsNoted, IsHanded, IsLevel, NotesGrow, NumbersNoted, OwnersNoted, Stand, SameNotes};

use crate::handing::hand_down;
use crate::levels::{Handed, Level};
use crate::notes::Notes;
use crate::own::{any_final, own_tree, put_own};
use crate::rows::put_rows;
use clr_base::{DefId, Memory};
use method_slots::{SlotEntry, is_interface, own_numbers, parent_def};
use sqlite_items::Items;
use std::alloc::Global;
use type_pool::{Id, Pool};
use type_tree::{Def, World};

/// What stands in the slots of a class, where this stands in those of its parent.
fn put_class(
    pool: &mut Pool,
    alloc: Global,
    world: &World,
    notes: &Notes,
    id: DefId,
    def: &Def,
    parents: &[Id],
    entries: &mut Items<SlotEntry>,
    numbers: &[Option<u32>],
) -> Result<(), Memory>
    requires def { IsDef world.now id.0 def.now }
    requires class { is_interface_of def.now ≡ false }
    requires parents { SpellAll pool.old parents.now (chains.parents chains.longest_chain world.now id.0) }
    requires before { Stand entries.old (chains.above_slots (chains.slots chains.longest_chain world.now) (Some def.now)) }
    requires numbers { numbers.now ≡ chains.numbers chains.longest_chain world.now id.0 }
    requires noted { NumbersNoted world.now notes.now }
    requires owners { OwnersNoted notes.now.places (chains.parents chains.longest_chain world.now id.0) }
    ensures grows { Grows pool.old pool.new }
    ensures stand { OnOk result (Stand entries.new (chains.slots chains.longest_chain world.now id.0)) }
{
    let owner = parents.len() as u32;
    put_own(entries, owner, def.first_method, numbers)?;
    put_rows(
        pool,
        alloc,
        world,
        notes,
        id,
        parents,
        entries,
        def.impls.as_slice(),
    )
}

/// The slots of a class that has this of its parent.
fn class_level(
    pool: &mut Pool,
    alloc: Global,
    world: &World,
    notes: &mut Notes,
    id: DefId,
    def: &Def,
    own: Id,
    given: Handed,
) -> Result<Level, Memory>
    requires def { IsDef world.now id.0 def.now }
    requires class { is_interface_of def.now ≡ false }
    requires own { Spells pool.old own (in_own id.0 def.now) }
    requires given { IsHanded world.now pool.old notes.old.set id.0 def.now given }
    requires noted { NumbersNoted world.now notes.old }
    requires owners { OwnersNoted notes.old.places (chains.parents chains.longest_chain world.now id.0) }
    ensures grows { Grows pool.old pool.new }
    ensures set_grows { OpensGrow notes.old.set notes.new.set }
    ensures same { SameNotes notes.old notes.new }
    ensures level { IfOk result (λ level. IsLevel world.now pool.new notes.new.set id.0 level) }
{
    let Handed {
        mut chain,
        mut keys,
        mut entries,
    } = given;
    let numbers = own_numbers(pool, alloc, &mut notes.set, world, id, &mut keys)?;
    let finals = any_final(world, entries.as_slice(), numbers.as_slice());
    put_class(
        pool,
        alloc,
        world,
        notes,
        id,
        def,
        chain.as_slice(),
        &mut entries,
        numbers.as_slice(),
    )?;
    chain.push(own)?;
    Ok(Level {
        chain,
        keys,
        entries,
        numbers,
        finals,
    })
}

/// The slots of an interface: none.
fn interface_level(alloc: Global, own: Id, given: Handed) -> Result<Level, Memory>
    ensures chain { IfOk result (λ level. level.chain ≡ given.chain ++ own ∷ []) }
    ensures keys { IfOk result (λ level. level.keys ≡ []) }
    ensures entries { IfOk result (λ level. level.entries ≡ []) }
    ensures numbers { IfOk result (λ level. level.numbers ≡ []) }
    ensures finals { IfOk result (λ level. level.finals ≡ false) }
{
    let Handed { mut chain, .. } = given;
    chain.push(own)?;
    Ok(Level {
        chain,
        keys: Items::new(alloc),
        entries: Items::new(alloc),
        numbers: Items::new(alloc),
        finals: false,
    })
}

/// Nothing is handed on.
fn nothing(alloc: Global) -> Handed
    ensures chain { result.chain ≡ [] }
    ensures keys { result.keys ≡ [] }
    ensures entries { result.entries ≡ [] }
{
    Handed {
        chain: Items::new(alloc),
        keys: Items::new(alloc),
        entries: Items::new(alloc),
    }
}

/// What a definition has of its parent, where what was found of the parent stands at `place`.
fn from_parent(
    pool: &mut Pool,
    alloc: Global,
    world: &World,
    notes: &mut Notes,
    id: DefId,
    def: &Def,
    place: u32,
) -> Result<Handed, Memory>
    requires def { IsDef world.now id.0 def.now }
    requires above { IsAbove world.now pool.old notes.old def.now (Some place) }
    ensures grows { Grows pool.old pool.new }
    ensures set_grows { OpensGrow notes.old.set notes.new.set }
    ensures same { SameNotes notes.old notes.new }
    ensures handed { IfOk result (λ h. IsHanded world.now pool.new notes.new.set id.0 def.now h) }
{
    let _ = world;
    let _ = id;
    let level = &notes.levels.as_slice()[place as usize];
    match &def.parent {
        Some(parent) => hand_down(pool, alloc, &mut notes.set, level, parent),
        None => Ok(nothing(alloc)),
    }
}

/// What a definition has of its parent, where what was found of the parent stands at `above`; nothing
/// where it has no parent.
fn handed(
    pool: &mut Pool,
    alloc: Global,
    world: &World,
    notes: &mut Notes,
    id: DefId,
    def: &Def,
    above: Option<u32>,
) -> Result<Handed, Memory>
    requires def { IsDef world.now id.0 def.now }
    requires above { IsAbove world.now pool.old notes.old def.now above }
    ensures grows { Grows pool.old pool.new }
    ensures set_grows { OpensGrow notes.old.set notes.new.set }
    ensures same { SameNotes notes.old notes.new }
    ensures handed { IfOk result (λ h. IsHanded world.now pool.new notes.new.set id.0 def.now h) }
{
    match above {
        Some(place) => from_parent(pool, alloc, world, notes, id, def, place),
        None => Ok(nothing(alloc)),
    }
}

/// The slots of a definition, where what was found of its parent stands at `above`.
fn next_level(
    pool: &mut Pool,
    alloc: Global,
    world: &World,
    notes: &mut Notes,
    id: DefId,
    def: &Def,
    above: Option<u32>,
) -> Result<Level, Memory>
    requires def { IsDef world.now id.0 def.now }
    requires above { IsAbove world.now pool.old notes.old def.now above }
    requires noted { NumbersNoted world.now notes.old }
    requires owners { OwnersNoted notes.old.places (chains.parents chains.longest_chain world.now id.0) }
    ensures grows { Grows pool.old pool.new }
    ensures set_grows { OpensGrow notes.old.set notes.new.set }
    ensures same { SameNotes notes.old notes.new }
    ensures level { IfOk result (λ level. IsLevel world.now pool.new notes.new.set id.0 level) }
{
    let given = handed(pool, alloc, world, notes, id, def, above)?;
    let own = own_tree(pool, alloc, id, def.formals.len())?;
    if is_interface(def) {
        return interface_level(alloc, own, given);
    }
    class_level(pool, alloc, world, notes, id, def, own, given)
}

/// Notes the slots of a definition, where what was found of its parent stands at `above`.
fn finish(
    pool: &mut Pool,
    alloc: Global,
    world: &World,
    notes: &mut Notes,
    id: DefId,
    def: &Def,
    above: Option<u32>,
) -> Result<u32, Memory>
    requires def { IsDef world.now id.0 def.now }
    requires above { IsAbove world.now pool.old notes.old def.now above }
    requires notes { AreNotes world.now pool.old notes.old }
    requires parent { (p : ℕ) → head_of def.now.parent ≡ Some p → IsNoted notes.old.places p }
    ensures grows { Grows pool.old pool.new }
    ensures notes { OnOk result (AreNotes world.now pool.new notes.new) }
    ensures kept { OnOk result (NotesGrow notes.old notes.new) }
    ensures found { IfOk result (λ place. get nat_eq notes.new.places id.0 ≡ Some place) }
{
    let level = next_level(pool, alloc, world, notes, id, def, above)?;
    notes.keep(id, level)
}

/// A definition. Its methods stand within the world's, and its parent is a definition of the world.
#[tactic(auto, using(std::proofs::lemmas::Grind::common_steps))]
fn def_of(world: &World, id: DefId) -> &Def
    requires { id.0 < length world.now.defs }
    ensures here { slice_get world.now.defs id.0 ≡ Some result.now }
    ensures few { result.now.first_method + result.now.methods ≤ 16777215 }
    ensures parent { (p : ℕ) → head_of result.now.parent ≡ Some p → p < length world.now.defs }
{
    world.whole();
    world.def(id)
}

/// Where what is found of a definition stands in the notes: what was noted before, or is found now, and so
/// of the members of its chain of parents, of which there are at most `room`. Each definition is looked at
/// once for all calls with these notes, in time linear in its own methods and rows and in the slots that it
/// has of its parent. Recurses as deep as the chain is long, and as the trees are deep.
pub fn level_of(
    pool: &mut Pool,
    alloc: Global,
    world: &World,
    notes: &mut Notes,
    id: DefId,
    room: u32,
) -> Result<u32, Memory>
    requires exists { id.0 < length world.now.defs }
    requires within { chains.chain_within room world.now id.0 ≡ true }
    requires room { room ≤ 64 }
    requires notes { AreNotes world.now pool.old notes.old }
    ensures grows { Grows pool.old pool.new }
    ensures notes { OnOk result (AreNotes world.now pool.new notes.new) }
    ensures kept { OnOk result (NotesGrow notes.old notes.new) }
    ensures found { IfOk result (λ place. get nat_eq notes.new.places id.0 ≡ Some place) }
{
    if let Some(place) = notes.place(id) {
        return Ok(place);
    }
    let def = def_of(world, id);
    match parent_def(def) {
        Some(parent) => {
            let above = level_of(pool, alloc, world, notes, parent, room - 1)?;
            finish(pool, alloc, world, notes, id, def, Some(above))
        }
        None => finish(pool, alloc, world, notes, id, def, None),
    }
}
