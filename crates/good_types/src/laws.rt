//! The chain of parents, the interfaces and the supers of a type in the closure of a good key. Each law is a function that
//! does nothing and whose clause is the law.

ghost use Rattle.std.specs.Prelude.{◌≡◌, ◌↔◌, ◌⊎◌, ◌<◌, ℕ, true, List, [], ◌∷◌, ◌++◌, length, Contains, Some, None, slice_get};
ghost use Rattle.type_tree.specs.World.{Facts};
ghost use Rattle.type_tree.specs.Subst.{subst_ty};
ghost use Rattle.type_tree.specs.Whole.{IsWhole as WholeWorld};
ghost use Rattle.type_tree.specs.declared.definition.Def.{Def as Definition};
ghost use Rattle.type_tree.specs.declared.tree.Key.{Key as KeyOf};
ghost use Rattle.type_tree.specs.declared.tree.Key.TheVariants.{Tree as TreeOf};
ghost use Rattle.type_tree.specs.declared.tree.Ty.{Ty as Tree};
ghost use Rattle.type_tree.specs.declared.tree.Ty.TheVariants as ty;
ghost use Rattle.method_slots.specs.Chains.{longest_chain};
ghost use Rattle.interface_lists.specs.Lists.{interfaces, names_interface};
ghost use Rattle.type_subs.specs.Supers.{extends};
ghost use Rattle.key_verdicts.specs.declared.verdict.Verdict.TheVariants.{Good};
ghost use Rattle.type_judge.specs.Judging.{IsJudged};
ghost use Rattle.good_types.specs.Exact.{inst, exact_chain, IsSuper};

use key_closure::closure_least;
use type_subs::supers_by_closure;

/// Each type on the chain of parents of a member, with exact arguments, is a member.
pub fn chain_in_closure()
    ensures { (w : Facts) (root : KeyOf) (members : List KeyOf) (n : ℕ) (args : List Tree) → IsJudged w root (Good members)
        → Contains members (TreeOf (inst n args)) → (c : Tree) → Contains (exact_chain w n args) c → Contains members (TreeOf c) }
{
    closure_least();
}

/// The chain of a member ends with the member itself, and before it stands the chain of its exact parent.
pub fn chain_by_parent()
    ensures last { (w : Facts) (root : KeyOf) (members : List KeyOf) (n : ℕ) (d : Definition) (args : List Tree) → IsJudged w root (Good members)
        → Contains members (TreeOf (inst n args)) → slice_get w.defs n ≡ Some d
        → (above : List Tree) × (exact_chain w n args ≡ above ++ inst n args ∷ []) }
    ensures alone { (w : Facts) (root : KeyOf) (members : List KeyOf) (n : ℕ) (d : Definition) (args : List Tree) → IsJudged w root (Good members)
        → Contains members (TreeOf (inst n args)) → slice_get w.defs n ≡ Some d → d.parent ≡ None
        → exact_chain w n args ≡ inst n args ∷ [] }
    ensures behind { (w : Facts) (root : KeyOf) (members : List KeyOf) (n : ℕ) (d : Definition) (args : List Tree) (p : Tree) → WholeWorld w
        → IsJudged w root (Good members) → Contains members (TreeOf (inst n args)) → slice_get w.defs n ≡ Some d → d.parent ≡ Some p
        → (m : ℕ) × (above : List Tree) × (m < length w.defs) × (subst_ty args [] p ≡ inst m above)
        × (exact_chain w n args ≡ exact_chain w m above ++ inst n args ∷ []) }
{
    closure_least();
}

/// A member has a list of interfaces, and each of them, with exact arguments, is a member and an interface.
pub fn interfaces_in_closure()
    ensures some { (w : Facts) (root : KeyOf) (members : List KeyOf) (n : ℕ) (args : List Tree) → IsJudged w root (Good members)
        → Contains members (TreeOf (inst n args)) → (list : List Tree) × (interfaces longest_chain w n ≡ Some list) }
    ensures members { (w : Facts) (root : KeyOf) (members : List KeyOf) (n : ℕ) (args list : List Tree) → IsJudged w root (Good members)
        → Contains members (TreeOf (inst n args)) → interfaces longest_chain w n ≡ Some list
        → (u : Tree) → Contains list u → Contains members (TreeOf (subst_ty args [] u)) }
    ensures interfaces { (w : Facts) (root : KeyOf) (members : List KeyOf) (n : ℕ) (args list : List Tree) → IsJudged w root (Good members)
        → Contains members (TreeOf (inst n args)) → interfaces longest_chain w n ≡ Some list
        → (u : Tree) → Contains list u → names_interface w u ≡ true }
{
    closure_least();
}

/// What a member extends is what stands on its chain of parents and in its list of interfaces. An array extends itself and
/// what System.Array, which has the number 19, does.
pub fn supers_of_good()
    ensures instantiation { (w : Facts) (root : KeyOf) (members : List KeyOf) (n : ℕ) (d : Definition) (args list : List Tree) → WholeWorld w
        → IsJudged w root (Good members) → Contains members (TreeOf (inst n args)) → slice_get w.defs n ≡ Some d
        → interfaces longest_chain w n ≡ Some list → (g : Tree) → (extends w (inst n args) g ≡ true) ↔ IsSuper w n args list g }
    ensures array { (w : Facts) (root : KeyOf) (members : List KeyOf) (t : Tree) (d : Definition) (list : List Tree) → WholeWorld w
        → IsJudged w root (Good members) → Contains members (TreeOf (ty.Array t)) → slice_get w.defs 19 ≡ Some d
        → interfaces longest_chain w 19 ≡ Some list → (g : Tree) → (extends w (ty.Array t) g ≡ true) ↔ ((g ≡ ty.Array t) ⊎ IsSuper w 19 [] list g) }
{
    closure_least();
    supers_by_closure();
}
