//! Chains of parents, each climbed up to what is known already.

ghost use Rattle.std.specs.Prelude.{◌≡◌, ◌∷◌, ◌++◌, [], ◌<◌, true, Some, OnOk, IfOk, slice_get};
ghost use Rattle.std.specs.List.{list_any};
ghost use Rattle.clr_base.specs.declared.ids.DefId.{DefId};
ghost use Rattle.def_faults.specs.Chains.{parent};
ghost use Rattle.def_faults.specs.Marks as spec;
ghost use Rattle.def_faults.specs.NotFound as missing;
ghost use Rattle.def_faults.specs.NotInProfile as profile;
ghost use Rattle.def_faults.specs.declared.notes.Mark.TheVariants.{Unknown};

use crate::missing::lacks;
use crate::notes::{LONGEST, Mark, Note, mark_at, no_chain, note_below};
use crate::parents::parent_of;
use crate::profile::is_delegate;
use clr_base::{DefId, Memory};
use sqlite_items::Items;
use type_tree::World;

/// Where a definition stands on a path.
fn place_on(path: &[DefId], id: DefId) -> usize
    requires { spec.is_on id path.now ≡ true }
    ensures { slice_get path.now result ≡ Some id }
{
    for (place, other) in path.iter().enumerate() {
        if other.0 == id.0 {
            return place;
        }
    }
    path.len()
}

/// Whether one of these definitions names a type that stands nowhere.
fn some_lacks(world: &World, members: &[DefId]) -> bool
    ensures { result ≡ list_any (missing.lacks world.now) members.now }
{
    members.iter().any(|id| lacks(world, *id))
}

/// Whether one of them is System.Delegate.
fn some_is_delegate(world: &World, members: &[DefId]) -> bool
    ensures { result ≡ list_any (profile.is_delegate world.now) members.now }
{
    members.iter().any(|id| is_delegate(world, *id))
}

/// The note of a circle: a chain that never ends, and whose members are these.
fn note_of_members(world: &World, members: &[DefId]) -> Note
    ensures { result ≡ spec.round_note world.now members.now }
{
    Note {
        members: LONGEST + 1,
        lacks: some_lacks(world, members),
        delegate: some_is_delegate(world, members),
    }
}

/// The note of a definition on a path whose last member extends it.
fn note_of_circle(world: &World, path: &[DefId], id: DefId) -> Note
    requires on { spec.is_on id path.now ≡ true }
    requires leads { spec.Leads (parent world.now) (Some id) path.now }
    ensures { spec.IsNote world.now (Some id) result }
{
    let place = place_on(path, id);
    note_of_members(world, &path[place..])
}

/// One more member of the path.
fn enter(
    world: &World,
    marks: &mut Items<Mark>,
    path: &mut Items<DefId>,
    id: DefId,
) -> Result<(), Memory>
    requires marked { spec.IsMarked world.now marks.old path.old }
    requires unknown { slice_get marks.old id.0 ≡ Some Unknown }
    ensures marked { OnOk result (spec.IsMarked world.now marks.new path.new) }
    ensures longer { OnOk result (path.new ≡ path.old ++ id ∷ []) }
    ensures fewer { OnOk result (spec.unknowns marks.new < spec.unknowns marks.old) }
{
    let _ = world;
    marks.set(id.0 as usize, Mark::OnPath);
    path.push(id)?;
    Ok(())
}

/// Climbs from a definition until its chain ends, or comes to a member that is known or stands on the
/// path. The answer is the note of what goes on behind the path.
fn climb(
    world: &World,
    marks: &mut Items<Mark>,
    path: &mut Items<DefId>,
    from: DefId,
) -> Result<Note, Memory>
    requires marked { spec.IsMarked world.now marks.old path.old }
    requires empty { path.old ≡ [] }
    ensures marked { OnOk result (spec.IsMarked world.now marks.new path.new) }
    ensures climbed { IfOk result (λ above. spec.Climbed world.now path.new from above) }
{
    let mut next = Some(from);
    while let Some(id) = next {
        match mark_at(marks.as_slice(), id) {
            Mark::Known(note) => return Ok(note),
            Mark::OnPath => return Ok(note_of_circle(world, path.as_slice(), id)),
            Mark::Unknown => {
                enter(world, marks, path, id)?;
                next = parent_of(world, id);
            }
        }
    }
    Ok(no_chain())
}

/// Goes back down a path, and notes the chain of each of its members. The answer is the note of its first
/// member's.
fn settle(world: &World, marks: &mut Items<Mark>, path: &mut Items<DefId>, above: Note) -> Note
    requires marked { spec.IsMarked world.now marks.old path.old }
    requires climbed { (from : DefId) × spec.Climbed world.now path.old from above }
    ensures marked { spec.IsMarked world.now marks.new path.new }
    ensures empty { path.new ≡ [] }
    ensures note { (from : DefId) → spec.Climbed world.now path.old from above → spec.IsNote world.now (Some from) result }
{
    let mut note = above;
    while let Some(id) = path.pop() {
        note = note_below(world, id, note);
        marks.set(id.0 as usize, Mark::Known(note));
    }
    note
}

/// The note of a definition's chain. Each definition is climbed from once over all calls.
pub(crate) fn note_of(
    world: &World,
    marks: &mut Items<Mark>,
    path: &mut Items<DefId>,
    id: DefId,
) -> Result<Note, Memory>
    requires marked { spec.IsMarked world.now marks.old path.old }
    requires empty { path.old ≡ [] }
    ensures marked { OnOk result (spec.IsMarked world.now marks.new path.new) }
    ensures empty { OnOk result (path.new ≡ []) }
    ensures note { IfOk result (λ note. spec.IsNote world.now (Some id) note) }
{
    let above = climb(world, marks, path, id)?;
    Ok(settle(world, marks, path, above))
}
