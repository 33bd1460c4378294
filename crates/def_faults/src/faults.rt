//! The faults of definitions.

ghost use Rattle.std.specs.Prelude.{◌≡◌, ◌<◌, length, replicate, [], Some, IfOk};
ghost use Rattle.def_faults.specs.Faults as spec;
ghost use Rattle.def_faults.specs.Marks as marks;

use crate::chains::note_of;
use crate::interfaces::has_bad_interface;
use crate::notes::{LONGEST, Mark, Note};
use crate::parents::has_bad_parent;
use crate::profile::{has_default_method, is_nullable};
use clr_base::{DefId, Memory};
use sqlite_items::Items;
use std::alloc::Global;
use type_tree::World;

/// Which faults a definition has by itself, whatever its arguments are.
#[derive(Clone, Copy)]
pub struct DefFaults {
    /// It, or a definition on its chain of parents, has a parent, a declared interface or the value type of
    /// an instance field that is named and stands nowhere (ECMA-335 II.22.38).
    pub not_found: bool,
    /// Its chain of parents, itself counted, has more than 64 members, as where it is a circle (II.22.37).
    pub base_cycle: bool,
    /// Its parent is sealed, a value type, an interface, an array or a variable; it is an interface with a
    /// parent, or has none where it needs one (II.10.1.3).
    pub bad_parent: bool,
    /// It declares to implement what is no interface (II.12.2). How long its list of interfaces grows is
    /// not judged here.
    pub bad_interface: bool,
    /// System.Delegate stands on its chain of parents, itself counted, or it is System.Nullable.
    pub not_in_profile: bool,
    /// It is an interface with an instance method that isn't abstract (II.12.2).
    pub default_method: bool,
}

/// The faults of a definition, given the note of its chain of parents.
fn faults_at(world: &World, id: DefId, note: Note) -> DefFaults
    requires exists { id.0 < length world.now.defs }
    requires note { marks.IsNote world.now (Some id) note }
    ensures { spec.IsFaults world.now id result }
{
    let def = world.def(id);
    DefFaults {
        not_found: note.lacks,
        base_cycle: note.members > LONGEST,
        bad_parent: has_bad_parent(world, id, def),
        bad_interface: has_bad_interface(world, def),
        not_in_profile: note.delegate || is_nullable(world, id),
        default_method: has_default_method(world, def),
    }
}

/// The faults of each definition of a world, at its number. In linear time and memory: each definition is
/// looked at a fixed number of times, however long or circular chains of parents are.
pub fn def_faults(alloc: Global, world: &World) -> Result<Items<DefFaults>, Memory>
    ensures { IfOk result (λ fs. spec.AreFaults world.now fs) }
{
    let count = world.def_count();
    let mut marks = Items::from_vec(vec![in alloc; Mark::Unknown; count as usize]?);
    let mut path = Items::new(alloc);
    let mut faults = Items::new(alloc);
    for number in 0..count {
        let id = DefId(number);
        let note = note_of(world, &mut marks, &mut path, id)?;
        faults.push(faults_at(world, id, note))?;
    }
    Ok(faults)
}
