//! The same of trees and keys that own their parts.
ghost use Rattle.std.specs.Prelude.{◌≡◌, IfOk};
ghost use Rattle.type_subs.specs.Faults.{is_constraint_fault};
ghost use Rattle.type_subs.specs.Subs.{is_sub};

use crate::canons::ConstraintNotes;
use crate::keys::fails_constraint;
use crate::subs::sub;
use clr_base::Memory;
use std::alloc::Global;
use type_pool::{Pool, from_key, from_tree};
use type_tree::{Key, Ty, World};

/// Whether the first type is a sub of the second.
pub fn sub_tree(alloc: Global, world: &World, tree: &Ty, other: &Ty) -> Result<bool, Memory>
    ensures { IfOk result (λ found. found ≡ is_sub world.now tree.now other.now) }
{
    let mut pool = Pool::new(alloc);
    let first = from_tree(tree, &mut pool, alloc)?;
    let second = from_tree(other, &mut pool, alloc)?;
    sub(alloc, world, &mut pool, first, second)
}

/// Whether an argument of a key fails a constraint and System.__Canon stands nowhere in the key.
pub fn key_fails_constraint(alloc: Global, world: &World, key: &Key) -> Result<bool, Memory>
    ensures { IfOk result (λ found. found ≡ is_constraint_fault world.now key.now) }
{
    let mut pool = Pool::new(alloc);
    let mut notes = ConstraintNotes::new(alloc);
    let node = from_key(key, &mut pool, alloc)?;
    fails_constraint(alloc, world, &mut pool, &mut notes, &node)
}
