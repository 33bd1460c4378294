//! The choice for a method of an interface.

ghost use Rattle.std.specs.Prelude.{◌≡◌, ◌<◌, true, nat_eq, length, IfOk};
ghost use Rattle.std.specs.HashMap.{get};
ghost use Rattle.type_tree.specs.Context.{arguments};
ghost use Rattle.type_pool.specs.Trees.{at, at_all, ids_below, Grows};
ghost use Rattle.method_slots.specs.OpenSets.{OpensGrow};
ghost use Rattle.interface_maps.specs.Known.{is_there, FindsChoice, FindsName, FindsTree};

use crate::answers::{Interface, choose};
use crate::inherited::inherited_choice;
use crate::publics::{find_public, key_of, noted};
use crate::rows::find_row;
use clr_base::{Memory, MethId};
use method_slots::OpenSet;
use std::alloc::Global;
use std::collections::HashMap;
use type_pool::{Id, Pool};
use type_tree::{Method, World};

/// What is known of a definition while the methods of its interfaces are answered.
#[derive(Drop)]
pub(crate) struct Known {
    /// The slot of the first public virtual method of each name and signature, in the definition and then
    /// in its parents.
    pub publics: HashMap<u32, u32>,
    /// The slots of the bodies of MethodImpl rows, by the interface and the method.
    pub rows: HashMap<u64, Option<u32>>,
    /// Where each interface stands first in the parent's list.
    pub places: HashMap<u32, u32>,
    /// Where each interface stands that the definition itself declares.
    pub own: HashMap<u32, u32>,
}

/// Whether anything is noted for a key.
fn has_place(places: &HashMap<u32, u32>, key: u32) -> bool
    ensures { result ≡ is_there (get nat_eq places.now key) }
{
    match noted(places, key) {
        Some(_) => true,
        None => false,
    }
}

/// Whether a tree is one of those whose places are noted.
fn is_listed(pool: &Pool, places: &HashMap<u32, u32>, tree: Id) -> bool
    requires { tree.0 < length pool.now }
    ensures { FindsTree pool.now places.now tree result }
{
    pool.each_once();
    has_place(places, tree.0)
}

/// The slot of the first public virtual method that has the name and signature of an interface's method,
/// where the definition declares the interface itself. These are the interface's arguments.
fn named_choice(
    pool: &mut Pool,
    alloc: Global,
    set: &mut OpenSet,
    known: &Known,
    found: &[Interface],
    tree: Id,
    types: &[Id],
    method: &Method,
) -> Result<Option<u32>, Memory>
    requires tree { tree.0 < length pool.old }
    requires types { ids_below (length pool.old) types.now ≡ true }
    ensures grows { Grows pool.old pool.new }
    ensures set_grows { OpensGrow set.old set.new }
    ensures named { IfOk result (λ named. FindsName pool.old set.old known.now found.now tree (at_all pool.old types.now) method.now named) }
{
    let _ = found;
    if !is_listed(pool, &known.own, tree) {
        return Ok(None);
    }
    let key = key_of(pool, alloc, set, method, types)?;
    Ok(find_public(pool, set, &known.publics, key))
}

/// The choice for a method, which stands at `j` in an interface. These are the interface's arguments.
pub(crate) fn choice_of(
    pool: &mut Pool,
    alloc: Global,
    set: &mut OpenSet,
    world: &World,
    known: &Known,
    found: &[Interface],
    tree: Id,
    types: &[Id],
    j: usize,
    id: MethId,
) -> Result<Option<u32>, Memory>
    requires tree { tree.0 < length pool.old }
    requires types { ids_below (length pool.old) types.now ≡ true }
    requires arguments { arguments (at pool.old tree) ≡ at_all pool.old types.now }
    requires exists { id.0 < length world.now.methods }
    ensures grows { Grows pool.old pool.new }
    ensures set_grows { OpensGrow set.old set.new }
    ensures choice { IfOk result (λ answer. FindsChoice world.now pool.old set.old known.now found.now tree j id.0 answer) }
{
    let row = find_row(pool, &known.rows, tree, id.0);
    let inherited = inherited_choice(pool, &known.places, found, tree, j);
    let method = world.method(id);
    let named = named_choice(pool, alloc, set, known, found, tree, types, method)?;
    Ok(choose(row, named, inherited))
}
