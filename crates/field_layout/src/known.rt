//! What is known of trees of a pool.

ghost use Rattle.type_tree.specs.World.{Facts};
ghost use Rattle.type_tree.specs.declared.tree.Ty.{Ty as Tree};
ghost use Rattle.std.specs.Prelude.{List};
ghost use Rattle.field_layout.specs.Ends.{Known};

use crate::ends::EndNotes;
use crate::notes::ShapeNotes;
use std::alloc::Global;
use std::collections::HashMap;

/// What is known of trees of one pool and one world, by the trees' numbers.
#[derive(Drop)]
pub struct Notes {
    pub(crate) shapes: ShapeNotes,
    pub(crate) ends: EndNotes,
}

impl Notes {
    /// Nothing is known.
    pub fn new(alloc: Global) -> Notes
        ensures { (w : Facts) (ts : List Tree) → Known w ts result }
    {
        Notes {
            shapes: HashMap::new(alloc),
            ends: HashMap::new(alloc),
        }
    }
}
