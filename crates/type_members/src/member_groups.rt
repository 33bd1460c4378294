//! The members of one definition by their names.
ghost use Rattle.std.specs.Prelude.{◌≡◌, ◌<◌, ◌^◌, length, IfOk};
ghost use Rattle.type_members.specs.MemberIndexes as spec;
ghost use Rattle.type_members.specs.MemberIndexes.{AreGroups};

use crate::row_index::add;
use clr_base::{Memory, NameId};
use indexmap::IndexMap;
use sqlite_items::Items;
use std::alloc::Global;

/// The members of one definition, methods or fields, by their names, which are found by hashing.
#[derive(Drop)]
pub struct MemberGroups {
    by_name: IndexMap<u32, Items<u32>>,
}

impl MemberGroups {
    /// The members of a run, which begins at the number `first`, by the names of all members of its kind. Those past the
    /// last one are left out. Takes memory for a number a member, and time in the run's length.
    pub fn new(
        alloc: Global,
        names: &[NameId],
        first: u32,
        count: u32,
    ) -> Result<MemberGroups, Memory>
        requires { length names.now < 2 ^ 32 }
        ensures { IfOk result (AreGroups names.now first count) }
    {
        let there = (names.len() as u32).saturating_sub(first).min(count);
        let mut by_name = IndexMap::with_capacity(alloc, there as usize)?;
        for k in 0..there {
            let name = names[(first + k) as usize];
            add(alloc, &mut by_name, name.0, first + k)?;
        }
        Ok(MemberGroups { by_name })
    }

    /// The numbers of the members that have a name, in order. Takes constant time.
    pub fn named(&self, name: NameId) -> &[u32]
        ensures { result.now ≡ spec.at_name self.now name }
    {
        match self.by_name.get(&name.0) {
            Some(members) => members.as_slice(),
            None => &[],
        }
    }
}
