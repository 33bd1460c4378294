//! What holds of subs. Each law is a function that does nothing and whose clause is the law.
ghost use Rattle.std.specs.Prelude.{◌≡◌, ◌∷◌, [], ◌&&◌, ◌||◌, List};
ghost use Rattle.type_tree.specs.declared.tree.Ty.{Ty};
ghost use Rattle.type_tree.specs.declared.tree.Ty.TheVariants as ty;
ghost use Rattle.type_tree.specs.declared.tree.Key.{Key};
ghost use Rattle.type_tree.specs.declared.tree.Key.TheVariants.{Tree as TreeOf};
ghost use Rattle.type_tree.specs.World.{Facts};
ghost use Rattle.type_tree.specs.Kinds.{is_reference};
ghost use Rattle.key_closure.specs.Bounds.{IsClosure, IsTooLarge};
ghost use Rattle.type_relations.specs.Relations.{supers_of};
ghost use Rattle.type_subs.specs.Supers.{extends, with_supers};
ghost use Rattle.type_subs.specs.Subs.{is_sub, same_tree};

use key_closure::{closure_once, closure_or_too_large};

/// A type and its supers are the closure of parents and interfaces; past the bounds of closures the type is alone.
pub fn supers_by_closure()
    ensures closed { (w : Facts) (t : Ty) (members : List Key) → IsClosure (supers_of w) (TreeOf t) members → with_supers w t ≡ members }
    ensures alone { (w : Facts) (t : Ty) → IsTooLarge (supers_of w) (TreeOf t) → with_supers w t ≡ TreeOf t ∷ [] }
{
    closure_once();
    closure_or_too_large();
}

/// An array of e is a sub of one of f where f's array is among the supers; where e is f; or where both are reference types
/// and e is a sub of f.
pub fn sub_of_arrays()
    ensures { (w : Facts) (e f : Ty)
        → is_sub w (ty.Array e) (ty.Array f) ≡ (extends w (ty.Array e) (ty.Array f) || (same_tree e f || (is_reference w e && is_reference w f && is_sub w e f))) }
{}
