//! Laws of the layouts of types. Each is a function that does nothing and whose clause is the law.

ghost use Rattle.std.specs.Prelude.{◌≡◌, ◌⊎◌, true, false, length};
ghost use Rattle.field_places.specs.declared.layout.Layout.{Layout as Laid};
ghost use Rattle.type_tree.specs.Kinds.{is_value_def};
ghost use Rattle.field_layout.specs.Laws as spec;

use type_tree::{Ty, World};

/// The layout of a type is the one in which each own field, in its kind's order, stands at the least place
/// that is aligned and not below the begin and the ends before it, or at the offset that is given.
pub fn fields_stand_least(_world: &World, _t: &Ty)
    ensures { (o : spec.Own _world.now _t.now) → spec.IsTold _world.now _t.now o }
{}

/// A type has one offset for each own instance field.
pub fn fields_have_offsets(_world: &World, _t: &Ty)
    ensures { (o : spec.Own _world.now _t.now) → length o.layout.offsets ≡ length (spec.own_fields _world.now o.def) }
{}

/// No two own fields of a type share a byte, where no offsets are given.
pub fn fields_stand_apart(_world: &World, _t: &Ty)
    ensures { (o : spec.Own _world.now _t.now) → spec.IsFree _world.now _t.now o → spec.Apart o.layout.offsets (spec.takes _world.now _t.now o) }
{}

/// Each own field of a type stands at a multiple of its alignment, where no offsets are given. The packing
/// limits alignments in sequential order.
pub fn fields_are_aligned(_world: &World, _t: &Ty)
    ensures { (o : spec.Own _world.now _t.now) → spec.IsFree _world.now _t.now o → spec.Aligned o.layout.offsets (spec.placed_shapes (spec.rules _world.now _t.now o) (spec.takes _world.now _t.now o)) }
{}

/// A class's own fields stand at or past the end of its parent, and it ends at or past that.
pub fn classes_begin_past_parents(_world: &World, _t: &Ty)
    ensures { (o : spec.Own _world.now _t.now) (parent : Laid) → spec.IsClass _world.now o.id o.def → spec.IsParent _world.now _t.now o parent → spec.IsBehind _world.now _t.now o parent }
{}

/// The size of a value type or a class covers its own fields, is a multiple of the alignment, and at most
/// 1,048,576. An interface has no size.
pub fn sizes_cover_fields(_world: &World, _t: &Ty)
    ensures { (o : spec.Own _world.now _t.now) → ((is_value_def _world.now o.id ≡ true) ⊎ (spec.is_interface o.def ≡ false)) → spec.IsSized _world.now _t.now o }
{}

/// No own field that is or holds a reference shares a byte with another, and each stands at a multiple of
/// 8, also where offsets are given.
pub fn references_stand_apart(_world: &World, _t: &Ty)
    ensures { (o : spec.Own _world.now _t.now) → spec.RefsApart o.layout.offsets (spec.takes _world.now _t.now o) × spec.RefsAligned o.layout.offsets (spec.takes _world.now _t.now o) }
{}
