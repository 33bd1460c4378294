//! What a field takes, and how fields are arranged.

ghost use Rattle.std.specs.Prelude.{◌≡◌};
ghost use Rattle.field_places.specs.Shapes as spec;

/// No end and no size passes this many bytes.
pub const LIMIT: u32 = 1_048_576;

/// Whether there are references in a value.
#[derive(Clone, Copy)]
pub enum Content {
    Plain,
    /// A value type with a reference in it.
    Holds,
    Reference,
}

/// What a field takes, in bytes: at least 1 and at most `LIMIT`, aligned to at least 1 and at most 8, and
/// to 8 where it is or holds a reference.
#[derive(Clone, Copy)]
pub struct Shape {
    pub size: u32,
    pub align: u32,
    pub content: Content,
}

/// How the fields of a definition are arranged (II.23.1.15).
#[derive(Clone, Copy)]
pub enum Arrangement {
    /// References first, then by falling alignment.
    Auto,
    /// In declared order; as by auto where a field is or holds a reference.
    Sequential,
    /// At the offsets that are given.
    Explicit,
}

/// Whether a field is or holds a reference.
pub(crate) fn has_refs(shape: &Shape) -> bool
    ensures { result ≡ spec.has_refs shape.now }
{
    match shape.content {
        Content::Plain => false,
        Content::Holds => true,
        Content::Reference => true,
    }
}

/// Whether one of the fields is or holds a reference.
pub(crate) fn any_refs(shapes: &[Shape]) -> bool
    ensures { result ≡ spec.any_refs shapes.now }
{
    shapes.iter().any(|shape| has_refs(shape))
}

/// How fields are arranged, where one of them has references or none has.
pub(crate) fn arranged(refs: bool, declared: Arrangement) -> Arrangement
    ensures { result ≡ spec.arrangement refs declared }
{
    match declared {
        Arrangement::Auto => Arrangement::Auto,
        Arrangement::Sequential => {
            if refs {
                Arrangement::Auto
            } else {
                Arrangement::Sequential
            }
        }
        Arrangement::Explicit => Arrangement::Explicit,
    }
}

/// A shape whose alignment is at most the packing, where that isn't 0.
pub(crate) fn limited(packing: u32, shape: &Shape) -> Shape
    ensures { result ≡ spec.limited packing shape.now }
{
    if packing == 0 {
        *shape
    } else {
        Shape {
            size: shape.size,
            align: shape.align.min(packing),
            content: shape.content,
        }
    }
}

/// Fields of higher rank are placed first.
pub(crate) fn rank(kind: Arrangement, shape: &Shape) -> u32
    ensures { result ≡ spec.rank kind shape.now }
{
    match kind {
        Arrangement::Sequential => 1,
        Arrangement::Auto => falling(shape),
        Arrangement::Explicit => falling(shape),
    }
}

/// References first, then by falling alignment.
fn falling(shape: &Shape) -> u32
    ensures { result ≡ spec.falling shape.now }
{
    match shape.content {
        Content::Reference => 9,
        Content::Plain => shape.align,
        Content::Holds => shape.align,
    }
}
