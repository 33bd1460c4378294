//! What is noted of an object.

ghost use Rattle.std.specs.Prelude.{◌≡◌};
ghost use Rattle.obj_heap.specs.Laying.{noted_at};

use crate::address::ObjRef;

/// What a heap notes of an object, beside its bytes.
#[derive(Clone, Copy)]
pub(crate) struct Made<H> {
    /// The name of its exact type.
    pub(crate) of: H,
    /// How many elements or units it has.
    pub(crate) count: u32,
    /// The place of its first word among those of all objects; a word has eight bytes.
    pub(crate) first: u32,
    /// How many words it takes.
    pub(crate) words: u32,
}

/// What is noted of an object; none of null, and of a number that no object has.
pub(crate) fn noted<H: Copy>(made: &[Made<H>], object: ObjRef) -> Option<Made<H>>
    ensures { result ≡ noted_at made.now object.0 }
{
    match object.0 {
        0 => None,
        number => made.get(number as usize - 1).copied(),
    }
}
