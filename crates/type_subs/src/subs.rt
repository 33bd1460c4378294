//! Which type is a sub of which.
ghost use Rattle.std.specs.Prelude.{◌≡◌, ◌<◌, ◌&&◌, length, IfOk};
ghost use Rattle.type_tree.specs.Kinds as kinds;
ghost use Rattle.type_pool.specs.Trees.{at, Grows};
ghost use Rattle.type_subs.specs.Steps.{Decides, IsBelow, Names, fits_by_elements};
ghost use Rattle.type_subs.specs.Subs as spec;

use crate::levels::{element, is_reference};
use crate::supers::extends;
use clr_base::Memory;
use std::alloc::Global;
use type_pool::{Id, Pool};
use type_tree::World;

/// What is known of two types, the second of which isn't the first and none of its supers.
#[derive(Clone, Copy)]
pub enum Step {
    /// Whether the first is a sub.
    Known(bool),
    /// It is one where this element is a sub of that one.
    Elements(Id, Id),
}

fn are_references(world: &World, pool: &Pool, id: Id, other: Id) -> bool
    requires first { id.0 < length pool.now }
    requires second { other.0 < length pool.now }
    ensures { result ≡ (kinds.is_reference world.now (at pool.now id) && kinds.is_reference world.now (at pool.now other)) }
{
    is_reference(world, pool, id) && is_reference(world, pool, other)
}

/// What the elements of two arrays say.
fn elements(world: &World, pool: &Pool, part: Id, other: Id) -> Step
    requires first { part.0 < length pool.now }
    requires second { other.0 < length pool.now }
    ensures decides { Decides world.now pool.now (fits_by_elements world.now (at pool.now part) (at pool.now other)) result }
    ensures names { Names part other result }
{
    if pool.same(part, other) {
        return Step::Known(true);
    }
    if are_references(world, pool, part, other) {
        Step::Elements(part, other)
    } else {
        Step::Known(false)
    }
}

/// What is known of two types as arrays.
fn arrays(world: &World, pool: &Pool, id: Id, other: Id) -> Step
    requires first { id.0 < length pool.now }
    requires second { other.0 < length pool.now }
    ensures decides { Decides world.now pool.now (spec.is_array_sub world.now (at pool.now id) (at pool.now other)) result }
    ensures below { IsBelow id other result }
{
    let Some(part) = element(pool, id) else {
        return Step::Known(false);
    };
    let Some(upper) = element(pool, other) else {
        return Step::Known(false);
    };
    elements(world, pool, part, upper)
}

/// Whether the first type is a sub of the second: they are one, or the second is among the supers of the first, or both are
/// arrays whose elements are one type, or reference types of which the first is a sub of the second (ECMA-335 I.8.7.1).
pub fn sub(alloc: Global, world: &World, pool: &mut Pool, id: Id, other: Id) -> Result<bool, Memory>
    requires first { id.0 < length pool.old }
    requires second { other.0 < length pool.old }
    ensures grows { Grows pool.old pool.new }
    ensures is { IfOk result (λ found. found ≡ spec.is_sub world.now (at pool.old id) (at pool.old other)) }
{
    let mut lower = id;
    let mut upper = other;
    for turn in 0..pool.len() {
        if extends(alloc, world, pool, lower, upper)? {
            return Ok(true);
        }
        match arrays(world, pool, lower, upper) {
            Step::Known(is) => return Ok(is),
            Step::Elements(part, other) => {
                lower = part;
                upper = other;
            }
        }
    }
    Ok(false)
}
