//! The verdict of a key of a world.

ghost use Rattle.std.specs.Prelude.{◌≡◌, true, length, IfOk, OnOk};
ghost use Rattle.type_pool.specs.Trees.{Grows};
ghost use Rattle.type_pool.specs.Keys.{key_at, key_below};
ghost use Rattle.key_faults.specs.Told.{IsTold};
ghost use Rattle.type_judge.specs.Judging.{IsJudged};
ghost use Rattle.type_judge.specs.Notes.{AreNotes};
ghost use Rattle.type_judge.specs.Table.{first_of, tells};

use crate::notes::Notes;
use crate::table::ORDER;
use crate::tests::has_fault;
use clr_base::Memory;
use key_faults::Told;
use key_verdicts::{Local, LocalFaults, Verdict, judge_in, verdict_of};
use load_events::LoadFault;
use std::alloc::Global;
use std::collections::HashMap;
use type_pool::{KeyNode, Pool, from_key};
use type_relations::{MemberNotes, Members};
use type_tree::{Key, World};

/// The first of some faults that a key has.
fn first_fault(
    pool: &mut Pool,
    alloc: Global,
    world: &World,
    told: &Told,
    notes: &mut Notes,
    key: &KeyNode,
    faults: &[LoadFault],
) -> Result<Option<LoadFault>, Memory>
    requires within { key_below (length pool.old) key.now ≡ true }
    requires told { IsTold world.now told.now }
    requires notes { AreNotes world.now pool.old notes.old }
    ensures grows { Grows pool.old pool.new }
    ensures notes { OnOk result (AreNotes world.now pool.new notes.new) }
    ensures first { IfOk result (λ found. found ≡ first_of (tells told.now world.now (key_at pool.old key.now)) faults.now) }
{
    for fault in faults {
        if has_fault(pool, alloc, world, told, notes, key, *fault)? {
            return Ok(Some(*fault));
        }
    }
    Ok(None)
}

/// The faults of the keys of a world, by what is told of its definitions.
#[derive(Drop)]
pub struct KeyFaults {
    pub told: Told,
}

impl LocalFaults for KeyFaults {
    ghost use Rattle.key_faults.specs.Told.{IsTold};
    ghost use Rattle.type_judge.specs.Notes.{AreNotes};
    ghost use Rattle.type_judge.specs.Table.{local_told};
    ghost use Rattle.type_judge.specs.Growing.{judge-grown};

    type Notes = Notes;

    ghost local = { λ s w k. local_told s.told w k };

    ghost right = { λ s w ts notes. IsTold w s.told × AreNotes w ts notes };

    fn local_fault(
        &self,
        alloc: Global,
        world: &World,
        pool: &mut Pool,
        notes: &mut Notes,
        key: &KeyNode,
    ) -> Result<Option<LoadFault>, Memory> {
        first_fault(pool, alloc, world, &self.told, notes, key, &ORDER)
    }

    ghost right_on = { λ s w ts us notes grows right. judge-grown w s.told ts us notes grows right };
}

/// The verdict of a key of a world: refused for TooLarge where its closure has no value; else refused at the
/// first member of the closure that has a fault by itself, for the first of its faults in the order of the
/// table; else good, with the members of the closure.
pub fn judge(alloc: Global, world: &World, key: &Key) -> Result<Verdict, Memory>
    ensures { IfOk result (λ verdict. IsJudged world.now key.now verdict) }
{
    let told = Told::of(alloc, world)?;
    let mut pool = Pool::new(alloc);
    let node = from_key(key, &mut pool, alloc)?;
    let members = Members {
        faults: Local {
            faults: KeyFaults { told },
        },
    };
    let mut notes = MemberNotes {
        canonical: HashMap::new(alloc),
        faults: Notes::new(alloc),
    };
    let judged = judge_in(alloc, &members, world, &mut pool, &mut notes, &node)?;
    verdict_of(alloc, pool, judged)
}
