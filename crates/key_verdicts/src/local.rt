//! The faults that keys have by themselves.

ghost use Rattle.std.specs.Prelude.{◌≡◌, true, length, List, Option, IfOk, OnOk};
ghost use Rattle.type_tree.specs.declared.tree.Ty.{Ty};
ghost use Rattle.type_tree.specs.declared.tree.Key.{Key};
ghost use Rattle.type_tree.specs.World.{Facts};
ghost use Rattle.type_pool.specs.Trees.{Grows};
ghost use Rattle.type_pool.specs.Keys.{key_at, key_below};
ghost use Rattle.load_events.specs.declared.load_fault.LoadFault.{LoadFault as Fault};
ghost use Rattle.key_verdicts.specs.Verdicts as spec;

use clr_base::Memory;
use load_events::LoadFault;
use std::alloc::Global;
use type_pool::{KeyNode, Pool};
use type_relations::Faults;
use type_tree::World;

/// Which fault a key has by itself.
pub trait LocalFaults {
    /// What was found before, and serves again.
    type Notes;

    // The fault that a key of a world has by itself, if any.
    ghost local: { Self → Facts → Key → Option Fault };

    // The notes are right over the trees of a pool.
    ghost right: { Self → Facts → List Ty → Self.Notes → Type 0 };

    /// The fault that the key has by itself.
    fn local_fault(
        &self,
        alloc: Global,
        world: &World,
        pool: &mut Pool,
        notes: &mut Self::Notes,
        key: &KeyNode,
    ) -> Result<Option<LoadFault>, Memory>
        requires within { key_below (length pool.old) key.now ≡ true }
        requires right { right self.now world.now pool.old notes.old }
        ensures grows { Grows pool.old pool.new }
        ensures right { OnOk result (right self.now world.now pool.new notes.new) }
        ensures is { IfOk result (λ found. found ≡ local self.now world.now (key_at pool.old key.now)) };

    // Notes that are right stay so where a pool grows.
    ghost right_on: { (s : Self) (w : Facts) (ts us : List Ty) (notes : Self.Notes) → Grows ts us → right s w ts notes → right s w us notes };
}

/// Keys are faulty that have a fault by themselves.
#[derive(Drop)]
pub struct Local<L> {
    pub faults: L,
}

fn is_fault(found: Option<LoadFault>) -> bool
    ensures { result ≡ spec.is_fault found }
{
    match found {
        Some(_) => true,
        None => false,
    }
}

impl<L: LocalFaults> Faults for Local<L> {
    ghost use Rattle.key_verdicts.specs.Verdicts as spec;

    type Notes = L::Notes;

    ghost faulty = { λ s w. spec.faulty (L.local s.faults w) };

    ghost right = { λ s w ts notes. L.right s.faults w ts notes };

    fn has_fault(
        &self,
        alloc: Global,
        world: &World,
        pool: &mut Pool,
        notes: &mut L::Notes,
        key: &KeyNode,
    ) -> Result<bool, Memory> {
        let found = self.faults.local_fault(alloc, world, pool, notes, key)?;
        Ok(is_fault(found))
    }

    ghost right_on = { λ s w ts us notes grows right. L.right_on s.faults w ts us notes grows right };
}
