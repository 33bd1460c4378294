//! What was found of definitions and of trees before.

ghost use Rattle.std.specs.Prelude.{◌≡◌, List, nat_eq, Some, length, IfOk, OnOk};
ghost use Rattle.std.specs.HashMap.{get, Updates};
ghost use Rattle.type_tree.specs.World.{Facts};
ghost use Rattle.type_tree.specs.declared.tree.Ty.{Ty as Tree};
ghost use Rattle.type_pool.specs.Trees.{Grows};
ghost use Rattle.key_faults.specs.Told as spec;

use clr_base::{DefId, Memory};
use field_layout::Notes as LayoutNotes;
use interface_lists::interface_list;
use std::alloc::Global;
use std::collections::HashMap;
use type_pool::Pool;
use type_tree::World;

/// Notes on the definitions of one world and the trees of one pool.
#[derive(Drop)]
pub struct Notes {
    /// Whether the list of interfaces of a definition passes its bounds.
    pub(crate) lists: HashMap<u32, bool>,
    /// Layouts.
    pub(crate) layouts: LayoutNotes,
}

impl Notes {
    /// No notes.
    pub fn new(alloc: Global) -> Notes
        ensures { (w : Facts) (ts : List Tree) → spec.AreNotes w ts result }
    {
        Notes {
            lists: HashMap::new(alloc),
            layouts: LayoutNotes::new(alloc),
        }
    }
}

fn noted(lists: &HashMap<u32, bool>, def: DefId) -> Option<bool>
    ensures { result ≡ get nat_eq lists.now def.0 }
{
    match lists.get(&def.0) {
        Some(passes) => Some(*passes),
        None => None,
    }
}

fn put_note(lists: &mut HashMap<u32, bool>, def: DefId, passes: bool) -> Result<bool, Memory>
    ensures value { IfOk result (λ found. found ≡ passes) }
    ensures put { OnOk result (Updates nat_eq lists.old lists.new def.0 (Some passes)) }
{
    match lists.insert(def.0, passes) {
        Ok(_) => Ok(passes),
        Err(_) => Err(Memory),
    }
}

/// Whether the list of interfaces of a definition passes its bounds, found anew.
fn find_passing(pool: &mut Pool, alloc: Global, world: &World, def: DefId) -> Result<bool, Memory>
    ensures grows { Grows pool.old pool.new }
    ensures passes { IfOk result (λ passes. passes ≡ spec.passes_bounds world.now def) }
{
    match interface_list(pool, alloc, world, def)? {
        Some(_) => Ok(false),
        None => Ok(true),
    }
}

/// Whether the list of interfaces of a definition passes its bounds.
pub(crate) fn passes_bounds(
    pool: &mut Pool,
    alloc: Global,
    world: &World,
    lists: &mut HashMap<u32, bool>,
    def: DefId,
) -> Result<bool, Memory>
    requires { spec.AreLists world.now lists.old }
    ensures grows { Grows pool.old pool.new }
    ensures lists { OnOk result (spec.AreLists world.now lists.new) }
    ensures passes { IfOk result (λ passes. passes ≡ spec.passes_bounds world.now def) }
{
    if let Some(passes) = noted(lists, def) {
        return Ok(passes);
    }
    let passes = find_passing(pool, alloc, world, def)?;
    put_note(lists, def, passes)
}
