//! What a parent hands on.

ghost use Rattle.std.specs.Prelude.{◌≡◌, [], true, length, IfOk};
ghost use Rattle.type_tree.specs.Context.{arguments};
ghost use Rattle.type_tree.specs.Subst.{subst_all};
ghost use Rattle.type_pool.specs.Jobs.{SpellAll};
ghost use Rattle.type_pool.specs.Trees.{at_all, ids_below, Grows};
ghost use Rattle.method_slots.specs.Keyed.{AreKeys, HandOn};
ghost use Rattle.method_slots.specs.OpenSets.{OpensGrow};

use crate::levels::{Handed, Level};
use clr_base::Memory;
use method_slots::{OpenSet, arguments_of, hand_on, put_in_all};
use sqlite_items::Items;
use std::alloc::Global;
use type_pool::{Id, Pool};
use type_tree::Ty;

/// The names and signatures of slots with `types` put in. With no types they stay as they are.
fn hand_keys(
    pool: &mut Pool,
    alloc: Global,
    set: &mut OpenSet,
    keys: &[u32],
    types: &[Id],
) -> Result<Items<u32>, Memory>
    requires named { AreKeys pool.old set.old keys.now }
    requires types_in { ids_below (length pool.old) types.now ≡ true }
    ensures grows { Grows pool.old pool.new }
    ensures set_grows { OpensGrow set.old set.new }
    ensures hands_on { IfOk result (λ given. HandOn pool.old set.old pool.new set.new (at_all pool.old types.now) keys.now given) }
{
    if types.is_empty() {
        return Ok(Items::from_slice(alloc, keys)?);
    }
    hand_on(pool, alloc, set, keys, types)
}

/// What a definition has of its parent, where this was found of the parent. Recurses as deep as the trees:
/// test their marks first.
pub(crate) fn hand_down(
    pool: &mut Pool,
    alloc: Global,
    set: &mut OpenSet,
    level: &Level,
    parent: &Ty,
) -> Result<Handed, Memory>
    requires chain { ids_below (length pool.old) level.now.chain ≡ true }
    requires keys { AreKeys pool.old set.old level.now.keys }
    ensures grows { Grows pool.old pool.new }
    ensures set_grows { OpensGrow set.old set.new }
    ensures chain { IfOk result (λ h. SpellAll pool.new h.chain (subst_all (arguments parent.now) [] (at_all pool.old level.now.chain))) }
    ensures keys { IfOk result (λ h. HandOn pool.old set.old pool.new set.new (arguments parent.now) level.now.keys h.keys) }
    ensures entries { IfOk result (λ h. h.entries ≡ level.now.entries) }
{
    let types = arguments_of(pool, alloc, parent)?;
    let chain = put_in_all(pool, alloc, level.chain.as_slice(), types.as_slice())?;
    let keys = hand_keys(pool, alloc, set, level.keys.as_slice(), types.as_slice())?;
    let entries = Items::from_slice(alloc, level.entries.as_slice())?;
    Ok(Handed {
        chain,
        keys,
        entries,
    })
}
