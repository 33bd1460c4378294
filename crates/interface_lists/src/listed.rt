//! Lists in which each tree stands once, by the numbers of trees in a pool.

ghost use Rattle.std.specs.Prelude.{◌≡◌, nat_eq, map, length, IfOk, OnOk};
ghost use Rattle.std.specs.List.{list_any};
ghost use Rattle.indexmap.specs.IndexSet.{insert_key};
ghost use Rattle.interface_lists.specs.Walks.{id_of};

use clr_base::Memory;
use indexmap::IndexSet;
use sqlite_items::Items;
use std::alloc::Global;
use type_pool::Id;

/// Whether a tree is listed.
pub(crate) fn has(list: &IndexSet<u32>, id: Id) -> bool
    ensures { result ≡ list_any (nat_eq id.0) list.now.keys }
{
    list.contains(&id.0)
}

/// Lists a tree, where it isn't listed yet.
pub(crate) fn add(list: &mut IndexSet<u32>, id: Id) -> Result<(), Memory>
    ensures { OnOk result (list.new.keys ≡ insert_key nat_eq list.old.keys id.0) }
{
    match list.insert_full(id.0) {
        Ok(_) => Ok(()),
        Err(_) => Err(Memory),
    }
}

/// The trees that are listed, in order.
pub(crate) fn ids_in(alloc: Global, list: &IndexSet<u32>) -> Result<Items<Id>, Memory>
    ensures { IfOk result (λ ids. ids ≡ map id_of list.now.keys) }
{
    let mut ids = Items::new(alloc);
    for number in list.as_slice() {
        ids.push(Id(*number))?;
    }
    Ok(ids)
}
