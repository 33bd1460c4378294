//! A desk: all that is found of the keys of one world, by numbers.

ghost use Rattle.std.specs.Prelude.{◌≡◌, ◌<◌, [], length, Some, slice_get, IfOk};
ghost use Rattle.type_tree.specs.declared.tree.Key.{Key as KeyOf};
ghost use Rattle.type_tree.specs.Context.{key_of as key_in};
ghost use Rattle.key_desk.specs.Desks as spec;

use crate::found::Found;
use crate::work::{Work, asked, judged_numbers, no_work};
use clr_base::{Memory, SigId};
use key_faults::Told;
use key_verdicts::Local;
use std::alloc::Global;
use std::marker::Model;
use std::snapshot::Snapshot;
use type_judge::KeyFaults;
use type_pool::KeyId;
use type_relations::Members;
use type_tree::World;

/// What is found of the keys of one world. Contracts see the world, and the keys by their numbers: a key keeps its
/// number, whatever is asked later. After Memory all that was found stands, and what was noted for speed is found again.
#[derive(Drop)]
pub struct Desk {
    world: Snapshot<World>,
    members: Members<Local<KeyFaults>>,
    work: Work,
}

impl Model for Desk {
    ghost use Rattle.std.specs.Coded.{codes};
    ghost use Rattle.type_tree.specs.contracts.tree.Key as key;
    ghost use Rattle.type_tree.specs.contracts.tree.Ty as tree;
    ghost use Rattle.key_faults.specs.Told.{IsTold};
    ghost use Rattle.key_desk.specs.Desks.{DeskView, IsRight, keys_of};

    ghost Value = { DeskView };

    ghost coded = { Prim.hlevel (codes, key.the_row.coded, tree.the_row.coded) };

    ghost view = { λ d. record { world = d.world.value; keys = keys_of d.work } };

    ghost invariant = { λ d. IsTold d.world.value d.members.faults.faults.told × IsRight d.world.value d.work };
}

impl Desk {
    /// A desk for a world, with no keys.
    pub fn new(alloc: Global, world: &World) -> Result<Desk, Memory>
        ensures world { IfOk result (λ d. d.world ≡ world.now) }
        ensures keys { IfOk result (λ d. d.keys ≡ []) }
    {
        let told = Told::of(alloc, world)?;
        Ok(Desk {
            world: Snapshot::of(world),
            members: Members {
                faults: Local {
                    faults: KeyFaults { told },
                },
            },
            work: no_work(alloc),
        })
    }

    /// The number of the key that a signature asks for, without a context or in that of a key.
    pub fn asked(
        &mut self,
        alloc: Global,
        world: &World,
        context: Option<KeyId>,
        sig: SigId,
    ) -> Result<KeyId, Memory>
        requires world { world.now ≡ self.old.world }
        requires sig { sig.0 < length world.now.sigs }
        requires context { spec.IsContext self.old.keys context }
        ensures goes { spec.Goes self.old self.new }
        ensures key { IfOk result (λ n. (s : KeyOf) → slice_get world.now.sigs sig.0 ≡ Some s
            → spec.key_with self.new.keys n ≡ Some (key_in (spec.context_with self.old.keys context) s)) }
    {
        asked(alloc, world, &mut self.work, context, sig)
    }

    /// The verdict of a key, by numbers.
    pub fn found(&mut self, alloc: Global, world: &World, key: KeyId) -> Result<Found, Memory>
        requires world { world.now ≡ self.old.world }
        requires key { key.0 < length self.old.keys }
        ensures goes { spec.Goes self.old self.new }
        ensures found { IfOk result (λ f. (k : KeyOf) → spec.key_with self.old.keys key ≡ Some k → spec.IsFound world.now self.new.keys k f) }
    {
        judged_numbers(alloc, world, &self.members, &mut self.work, key)
    }
}
