//! Laws of substitution, of the canonical form, of keys in contexts and of texts. Each is a function that does nothing and whose
//! clause is the law.

ghost use Rattle.std.specs.Prelude.{◌≡◌, ◌↔◌, ◌≤◌, ℕ, List, [], Some, IsTrue};
ghost use Rattle.std.specs.Option.{option_copied};
ghost use Rattle.type_tree.specs.Canon as canon;
ghost use Rattle.type_tree.specs.Context.{key_of};
ghost use Rattle.type_tree.specs.Fits.{all_fit, key_fits};
ghost use Rattle.type_tree.specs.Measure.{depth};
ghost use Rattle.type_tree.specs.Whole.{counts as counts_of};
ghost use Rattle.type_tree.specs.declared.tree.Key.{Key as KeyOf};
ghost use Rattle.type_tree.specs.ReadTexts as read;
ghost use Rattle.type_tree.specs.Subst as spec;
ghost use Rattle.type_tree.specs.Texts as texts;

use crate::counts::Counts;
use crate::tree::{Key, Ty, TyList};
use crate::world::World;

/// Where nothing is put in, a key stays as it is.
pub fn nothing_put_in(_key: &Key)
    ensures { spec.subst _key.now [] [] ≡ _key.now }
{}

/// Two substitutions, one after the other, are one substitution of what they compose to.
pub fn two_substitutions(
    _key: &Key,
    _types: &TyList,
    _methods: &TyList,
    _next_types: &TyList,
    _next_methods: &TyList,
)
    ensures { spec.subst (spec.subst _key.now _types.now _methods.now) _next_types.now _next_methods.now
        ≡ spec.subst _key.now
        (spec.composed (spec.subst_ty _next_types.now _next_methods.now) _types.now _next_types.now)
        (spec.composed (spec.subst_ty _next_types.now _next_methods.now) _methods.now _next_methods.now) }
{}

/// A canonical form is its own canonical form.
pub fn canonical_of_canonical(_world: &World, _key: &Key)
    ensures { canon.canon _world.now (canon.canon _world.now _key.now) ≡ canon.canon _world.now _key.now }
{}

/// The shared form of a tree with arguments put in depends on the shared forms of these arguments
/// alone, where the tree has no pointers. So instantiations whose arguments have the same shared
/// forms can share code.
pub fn shared_form_of_substituted(_world: &World, _t: &Ty, _types: &TyList, _methods: &TyList)
    requires { IsTrue (canon.is_pointer_free _t.now) }
    ensures { canon.shared_form _world.now (spec.subst_ty _types.now _methods.now _t.now)
        ≡ canon.shared_form _world.now
        (spec.subst_ty (canon.shared_forms _world.now _types.now) (canon.shared_forms _world.now _methods.now) _t.now) }
{}

/// A key with arguments put in names things that are there, where the key and the arguments do.
pub fn substituted_fits(_counts: &Counts, _key: &Key, _types: &TyList, _methods: &TyList)
    requires key { IsTrue (key_fits _counts.now _key.now) }
    requires types { IsTrue (all_fit _counts.now _types.now) }
    requires methods { IsTrue (all_fit _counts.now _methods.now) }
    ensures { IsTrue (key_fits _counts.now (spec.subst _key.now _types.now _methods.now)) }
{}

/// The canonical form of a key names things that a world has, where the key does.
pub fn canonical_form_fits(world: &World, _key: &Key)
    requires { IsTrue (key_fits (counts_of world.now) _key.now) }
    ensures { IsTrue (key_fits (counts_of world.now) (canon.canon world.now _key.now)) }
{
    world.whole();
}

/// The key of a context and a signature names things that are there, where both do.
pub fn key_of_fits(_counts: &Counts, _context: Option<&Key>, _sig: &Key)
    requires context { (k : KeyOf) → option_copied _context ≡ Some k → IsTrue (key_fits _counts.now k) }
    requires sig { IsTrue (key_fits _counts.now _sig.now) }
    ensures { IsTrue (key_fits _counts.now (key_of (option_copied _context.entry) _sig.now)) }
{}

/// A text names at most one tree.
pub fn one_tree_of_a_text(_world: &World, _t: &Ty, _other: &Ty)
    ensures { (text : List ℕ) → read.Names _world.now text _t.now → read.Names _world.now text _other.now → _t.now ≡ _other.now }
{}

/// A text names a tree exactly where it is the tree's own text and the tree is made of arrays and of
/// definitions that their names find.
pub fn text_of_a_named_tree(_world: &World, _t: &Ty)
    ensures { (text : List ℕ) → read.Names _world.now text _t.now ↔ ((texts.type_text _world.now _t.now ≡ text) × IsTrue (read.is_readable _world.now _t.now)) }
{}

/// The text of such a tree is read as that tree, where it is not deeper than 64, and as no other.
pub fn printed_tree_is_read_back(_world: &World, _t: &Ty, _other: &Ty)
    requires named { IsTrue (read.is_readable _world.now _t.now) }
    requires shallow { depth _t.now ≤ 64 }
    ensures { read.Reads _world.now (texts.type_text _world.now _t.now) _other.now ↔ (_other.now ≡ _t.now) }
{}
