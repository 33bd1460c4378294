//! Faults that types have by their layout.

ghost use Rattle.std.specs.Prelude.{◌≡◌, ◌<◌, length, IfOk, OnOk};
ghost use Rattle.type_pool.specs.Trees.{at, Grows};
ghost use Rattle.key_faults.specs.Faults as spec;
ghost use Rattle.key_faults.specs.Told.{AreNotes};

use crate::notes::Notes;
use clr_base::Memory;
use field_layout::{LayoutAnswer, layout_in};
use std::alloc::Global;
use type_pool::{Id, Pool};
use type_tree::World;

fn is_deep(answer: &LayoutAnswer) -> bool
    ensures { result ≡ spec.is_deep answer.now }
{
    match answer {
        LayoutAnswer::Laid(_) => false,
        LayoutAnswer::Deep => true,
        LayoutAnswer::Bad => false,
    }
}

fn is_bad(answer: &LayoutAnswer) -> bool
    ensures { result ≡ spec.is_bad answer.now }
{
    match answer {
        LayoutAnswer::Laid(_) => false,
        LayoutAnswer::Deep => false,
        LayoutAnswer::Bad => true,
    }
}

/// Whether value fields nest deeper than 64: the fault LayoutDeep. It is meant for types without the faults
/// of definitions. Recurses as deep as the tree and the types of fields in it: test the tree's mark first.
pub fn has_deep_layout(
    pool: &mut Pool,
    alloc: Global,
    world: &World,
    notes: &mut Notes,
    id: Id,
) -> Result<bool, Memory>
    requires id { id.0 < length pool.old }
    requires notes { AreNotes world.now pool.old notes.old }
    ensures grows { Grows pool.old pool.new }
    ensures notes { OnOk result (AreNotes world.now pool.new notes.new) }
    ensures is { IfOk result (λ found. found ≡ spec.has_deep_layout world.now (at pool.old id)) }
{
    let answer = layout_in(pool, alloc, world, &mut notes.layouts, id)?;
    Ok(is_deep(&answer))
}

/// Whether the layout has no value: the fault BadLayout. As `has_deep_layout`.
pub fn has_bad_layout(
    pool: &mut Pool,
    alloc: Global,
    world: &World,
    notes: &mut Notes,
    id: Id,
) -> Result<bool, Memory>
    requires id { id.0 < length pool.old }
    requires notes { AreNotes world.now pool.old notes.old }
    ensures grows { Grows pool.old pool.new }
    ensures notes { OnOk result (AreNotes world.now pool.new notes.new) }
    ensures is { IfOk result (λ found. found ≡ spec.has_bad_layout world.now (at pool.old id)) }
{
    let answer = layout_in(pool, alloc, world, &mut notes.layouts, id)?;
    Ok(is_bad(&answer))
}
