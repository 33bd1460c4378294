//! Notes of chains of parents, and marks of the definitions whose chains are known.

ghost use Rattle.std.specs.Prelude.{◌≡◌, ◌||◌, Some, None};
ghost use Rattle.type_tree.specs.World.{Facts};
ghost use Rattle.def_faults.specs.Chains.{parent};
ghost use Rattle.def_faults.specs.Marks as spec;
ghost use Rattle.def_faults.specs.NotFound as missing;
ghost use Rattle.def_faults.specs.NotInProfile as profile;

use crate::missing::lacks;
use crate::profile::is_delegate;
use clr_base::DefId;
use type_tree::World;

/// The longest chain of parents that is good, in members.
pub(crate) const LONGEST: u32 = 64;

/// What a chain of parents says of its first member.
#[derive(Clone, Copy)]
pub(crate) struct Note {
    /// How many members it has. One more than the longest stands for every number above that.
    pub(crate) members: u32,
    /// Whether a member names a type that stands nowhere.
    pub(crate) lacks: bool,
    /// Whether a member is System.Delegate.
    pub(crate) delegate: bool,
}

/// What is known of a definition.
#[derive(Clone, Copy)]
pub(crate) enum Mark {
    Unknown,
    /// It is a member of the chain that is climbed.
    OnPath,
    Known(Note),
}

/// The note of a chain without members.
pub(crate) fn no_chain() -> Note
    ensures { (w : Facts) → spec.IsNote w None result }
{
    Note {
        members: 0,
        lacks: false,
        delegate: false,
    }
}

/// Whether a definition or a member of the chain above it names a type that stands nowhere.
fn lacks_with(world: &World, id: DefId, above: Note) -> bool
    ensures { result ≡ (missing.lacks world.now id || above.lacks) }
{
    lacks(world, id) || above.lacks
}

/// Whether a definition or a member of the chain above it is System.Delegate.
fn is_delegate_with(world: &World, id: DefId, above: Note) -> bool
    ensures { result ≡ (profile.is_delegate world.now id || above.delegate) }
{
    is_delegate(world, id) || above.delegate
}

/// The note of the chain that begins with a definition, where `above` is that of its parent's.
pub(crate) fn note_below(world: &World, id: DefId, above: Note) -> Note
    requires { spec.IsNote world.now (parent world.now id) above }
    ensures { spec.IsNote world.now (Some id) result }
{
    Note {
        members: above.members.min(LONGEST) + 1,
        lacks: lacks_with(world, id, above),
        delegate: is_delegate_with(world, id, above),
    }
}

/// The mark of a definition. A number that no definition has is known: it is a chain by itself.
pub(crate) fn mark_at(marks: &[Mark], id: DefId) -> Mark
    ensures { result ≡ spec.mark_at marks.now id.0 }
{
    match marks.get(id.0 as usize) {
        Some(mark) => *mark,
        None => Mark::Known(Note {
            members: 1,
            lacks: false,
            delegate: false,
        }),
    }
}
