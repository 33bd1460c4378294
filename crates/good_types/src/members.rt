//! What holds of each member of the closure of a good key. Each law is a function that does nothing and whose clause is
//! the law.

ghost use Rattle.std.specs.Prelude.{◌≡◌, ℕ, List, [], ◌∷◌, ◌++◌, length, map, Contains, Some, None, slice_get};
ghost use Rattle.type_tree.specs.World.{Facts};
ghost use Rattle.type_tree.specs.Canon.{canon};
ghost use Rattle.type_tree.specs.declared.definition.Def.{Def as Definition};
ghost use Rattle.type_tree.specs.declared.definition.Method.{Method as MethodOf};
ghost use Rattle.type_tree.specs.declared.tree.Key.{Key as KeyOf};
ghost use Rattle.type_tree.specs.declared.tree.Key.TheVariants.{Tree as TreeOf, Meth as MethOf};
ghost use Rattle.type_tree.specs.declared.tree.MethKey.{MethKey as MethodKey};
ghost use Rattle.type_tree.specs.declared.tree.Ty.{Ty as Tree};
ghost use Rattle.load_events.specs.declared.load_fault.LoadFault.{LoadFault as Fault};
ghost use Rattle.type_relations.specs.Relations.{stands_on};
ghost use Rattle.key_verdicts.specs.declared.verdict.Verdict.TheVariants.{Good};
ghost use Rattle.type_judge.specs.Judging.{IsJudged};
ghost use Rattle.type_judge.specs.Table.{Holds, IsLocal};
ghost use Rattle.good_types.specs.Exact.{inst};

use key_closure::closure_least;

/// What a member needs directly is a member: its arguments, its exact parent and interfaces, an array's element or the
/// value types of own fields, a method's owner; and its canonical form.
pub fn member_stands()
    ensures { (w : Facts) (root : KeyOf) (members : List KeyOf) (k m : KeyOf) → IsJudged w root (Good members)
        → Contains members k → Contains (map TreeOf (stands_on w k) ++ canon w k ∷ []) m → Contains members m }
{
    closure_least();
}

/// No member has a fault by itself.
pub fn faultless_closure()
    ensures first { (w : Facts) (root : KeyOf) (members : List KeyOf) (k : KeyOf) → IsJudged w root (Good members)
        → Contains members k → IsLocal w k None }
    ensures none { (w : Facts) (root : KeyOf) (members : List KeyOf) (k : KeyOf) → IsJudged w root (Good members)
        → Contains members k → (f : Fault) → Holds w k f → ⊥ }
{}

/// A member has as many arguments as its definition, or its method, has generic parameters.
pub fn arguments_in_closure()
    ensures types { (w : Facts) (root : KeyOf) (members : List KeyOf) (n : ℕ) (d : Definition) (args : List Tree) → IsJudged w root (Good members)
        → Contains members (TreeOf (inst n args)) → slice_get w.defs n ≡ Some d → length args ≡ length d.formals }
    ensures methods { (w : Facts) (root : KeyOf) (members : List KeyOf) (k : MethodKey) (m : MethodOf) → IsJudged w root (Good members)
        → Contains members (MethOf k) → slice_get w.methods k.method.0 ≡ Some m → length k.args ≡ length m.formals }
{}
