//! Laws of layouts. Each is a function that does nothing and whose clause is the law.

ghost use Rattle.std.specs.Prelude.{◌≡◌, ◌%◌, true, false, length, Some};
ghost use Rattle.field_places.specs.declared.layout.Layout.{Layout as Laid};
ghost use Rattle.field_places.specs.Layouts.{own_part};
ghost use Rattle.field_places.specs.Laws as spec;
ghost use Rattle.field_places.specs.Shapes.{are_shapes};

use crate::layout::Rules;
use crate::shape::Shape;

/// What `own_part` answers is the layout as it is told: each field, in the kind's order, stands at the least
/// place that is aligned and not below the begin and the ends before it, or at the offset that is given; and
/// whatever is so is what it answers. So there is no answer exactly where there is no such layout.
pub fn fields_stand_least(_rules: &Rules, _begin: u32, _offsets: &[Option<u32>], _shapes: &[Shape])
    requires shapes { are_shapes _shapes.now ≡ true }
    requires as_long { length _offsets.now ≡ length _shapes.now }
    ensures answer { spec.EachLaid _rules.now _begin _offsets.now _shapes.now (λ l. spec.IsOwnPart _rules.now _begin _offsets.now _shapes.now l) }
    ensures only { (l : Laid) → spec.IsOwnPart _rules.now _begin _offsets.now _shapes.now l → own_part _rules.now _begin _offsets.now _shapes.now ≡ Some l }
{}

/// No two fields share a byte, where no offsets are given.
pub fn fields_stand_apart(_rules: &Rules, _begin: u32, _offsets: &[Option<u32>], _shapes: &[Shape])
    requires shapes { are_shapes _shapes.now ≡ true }
    requires free { spec.is_explicit _rules.now.arrangement ≡ false }
    ensures { spec.EachLaid _rules.now _begin _offsets.now _shapes.now (λ l. spec.Apart l.offsets _shapes.now) }
{}

/// Each field stands at a multiple of its alignment, where no offsets are given. The packing limits
/// alignments in sequential order.
pub fn fields_are_aligned(_rules: &Rules, _begin: u32, _offsets: &[Option<u32>], _shapes: &[Shape])
    requires shapes { are_shapes _shapes.now ≡ true }
    requires free { spec.is_explicit _rules.now.arrangement ≡ false }
    ensures { spec.EachLaid _rules.now _begin _offsets.now _shapes.now (λ l. spec.Aligned l.offsets (spec.placed_shapes _rules.now _shapes.now)) }
{}

/// Each field begins at or past the begin and ends by the end, the end is at least the begin and the class
/// size, and the size is no less than the end and at most `LIMIT`.
pub fn fields_are_covered(_rules: &Rules, _begin: u32, _offsets: &[Option<u32>], _shapes: &[Shape])
    requires { are_shapes _shapes.now ≡ true }
    ensures { spec.EachLaid _rules.now _begin _offsets.now _shapes.now (λ l. spec.IsCovered _rules.now _begin _shapes.now l) }
{}

/// The size is a multiple of the alignment.
pub fn sizes_are_whole(_rules: &Rules, _begin: u32, _offsets: &[Option<u32>], _shapes: &[Shape])
    requires shapes { are_shapes _shapes.now ≡ true }
    requires as_long { length _offsets.now ≡ length _shapes.now }
    ensures { spec.EachLaid _rules.now _begin _offsets.now _shapes.now (λ l. l.size % l.align ≡ 0) }
{}

/// No field that is or holds a reference shares a byte with another, and each stands at a multiple of 8,
/// also where offsets are given.
pub fn references_stand_apart(
    _rules: &Rules,
    _begin: u32,
    _offsets: &[Option<u32>],
    _shapes: &[Shape],
)
    requires { are_shapes _shapes.now ≡ true }
    ensures { spec.EachLaid _rules.now _begin _offsets.now _shapes.now (λ l. spec.RefsApart l.offsets _shapes.now × spec.RefsAligned l.offsets _shapes.now) }
{}
