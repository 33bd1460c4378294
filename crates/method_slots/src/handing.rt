//! Slots of a parent, handed on to a definition that extends it.

ghost use Rattle.std.specs.Prelude.{◌≡◌, true, length, IfOk};
ghost use Rattle.type_pool.specs.Trees.{at_all, ids_below, Grows};
ghost use Rattle.method_slots.specs.Keyed.{AreKeys, HandOn, HandsOn, IsNamed};
ghost use Rattle.method_slots.specs.Opens.{Open};
ghost use Rattle.method_slots.specs.OpenSets.{OpensGrow};

use crate::open_set::OpenSet;
use crate::opens::put_in;
use clr_base::Memory;
use sqlite_items::Items;
use std::alloc::Global;
use type_pool::{Id, Pool};

/// The number of a name and signature with `types` put in.
fn hand_on_one(
    pool: &mut Pool,
    alloc: Global,
    set: &mut OpenSet,
    key: u32,
    types: &[Id],
) -> Result<u32, Memory>
    requires named { (s : Open) × IsNamed pool.old set.old key s }
    requires types_in { ids_below (length pool.old) types.now ≡ true }
    ensures grows { Grows pool.old pool.new }
    ensures set_grows { OpensGrow set.old set.new }
    ensures hands_on { IfOk result (λ given. HandsOn pool.old set.old pool.new set.new (at_all pool.old types.now) key given) }
{
    let signed = put_in(pool, alloc, set.get(key), types)?;
    set.intern(signed)
}

/// The numbers of the names and signatures of a parent's slots with the arguments `types` of the
/// parent put in, in the order of the slots. Recurses as deep as the trees: test their marks first.
pub fn hand_on(
    pool: &mut Pool,
    alloc: Global,
    set: &mut OpenSet,
    keys: &[u32],
    types: &[Id],
) -> Result<Items<u32>, Memory>
    requires named { AreKeys pool.old set.old keys.now }
    requires types_in { ids_below (length pool.old) types.now ≡ true }
    ensures grows { Grows pool.old pool.new }
    ensures set_grows { OpensGrow set.old set.new }
    ensures hands_on { IfOk result (λ given. HandOn pool.old set.old pool.new set.new (at_all pool.old types.now) keys.now given) }
{
    let mut done = Items::new(alloc);
    for key in keys {
        done.push(hand_on_one(pool, alloc, set, *key, types)?)?;
    }
    Ok(done)
}
