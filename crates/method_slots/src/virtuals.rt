//! The own methods of a definition, and the numbers that they take.

ghost use Rattle.std.specs.Prelude.{◌≡◌, ◌<◌, ◌≤◌, ◌+◌, ◌^◌, List, length, IfOk, Some, IsTrue, slice_get};
ghost use Rattle.type_pool.specs.Trees.{Grows};
ghost use Rattle.method_slots.specs.Keyed.{AreOwn, IsOwn, IsVirtual, OwnNumbers};
ghost use Rattle.method_slots.specs.OpenSets.{OpensGrow};
ghost use Rattle.method_slots.specs.Slots as slots;

use crate::numbers::{Virtual, slot_numbers};
use crate::open_set::OpenSet;
use crate::opens::open_method;
use clr_base::{DefId, Memory, MethId};
use sqlite_items::Items;
use std::alloc::Global;
use type_pool::Pool;
use type_tree::{Method, World};

/// Whether a method is virtual and isn't static.
pub fn takes_slot(method: &Method) -> bool
    ensures { result ≡ slots.takes_slot method.now }
{
    method.flags & 0x40 != 0 && method.flags & 0x10 == 0
}

/// A method with the number of its name and signature, where it is virtual and isn't static.
fn own_of(
    pool: &mut Pool,
    alloc: Global,
    set: &mut OpenSet,
    method: &Method,
) -> Result<Option<Virtual>, Memory>
    ensures grows { Grows pool.old pool.new }
    ensures set_grows { OpensGrow set.old set.new }
    ensures named { IfOk result (λ v. IsOwn pool.new set.new v method.now) }
{
    if !takes_slot(method) {
        return Ok(None);
    }
    let signed = open_method(pool, alloc, method)?;
    let key = set.intern(signed)?;
    Ok(Some(Virtual {
        key,
        newslot: method.flags & 0x100 != 0,
    }))
}

/// The methods of a run, in order.
fn own_in(
    pool: &mut Pool,
    alloc: Global,
    set: &mut OpenSet,
    world: &World,
    first: u32,
    count: u32,
) -> Result<Items<Option<Virtual>>, Memory>
    requires within { first + count ≤ length world.now.methods }
    ensures grows { Grows pool.old pool.new }
    ensures set_grows { OpensGrow set.old set.new }
    ensures are { IfOk result (λ vs. AreOwn pool.new set.new vs (slots.run world.now first count)) }
{
    let mut done = Items::new(alloc);
    world.whole();
    for i in 0..count {
        done.push(own_of(pool, alloc, set, world.method(MethId(first + i)))?)?;
    }
    Ok(done)
}

/// The numbers of the slots that the own methods of a class take, in order (ECMA-335 II.10.3): a
/// virtual instance method with newslot, and one that matches no slot of the parent, the next free
/// number; another that of the last slot of the parent with its name and signature; None for any other
/// method. `keys` has the number in `set` of the name and signature of each slot of the parent, in the
/// class's own generic parameters, and gains those of the slots that are opened. In linear time. Memory
/// also where there were 2^32 - 1 slots.
pub fn own_numbers(
    pool: &mut Pool,
    alloc: Global,
    set: &mut OpenSet,
    world: &World,
    def: DefId,
    keys: &mut Items<u32>,
) -> Result<Items<Option<u32>>, Memory>
    requires exists { def.0 < length world.now.defs }
    ensures grows { Grows pool.old pool.new }
    ensures set_grows { OpensGrow set.old set.new }
    ensures are { IfOk result (λ ns. OwnNumbers world.now def.0 pool.old set.old keys.old pool.new set.new keys.new ns) }
{
    let def = world.def(def);
    let own = own_in(pool, alloc, set, world, def.first_method, def.methods)?;
    if keys.len().saturating_add(own.len()) >= u32::MAX as usize {
        return Err(Memory);
    }
    pool.each_once();
    set.each_once();
    slot_numbers(alloc, keys, own.as_slice())
}
