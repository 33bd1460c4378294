//! What is told means what is so. Each law is a function that does nothing and whose clause is the law.

ghost use Rattle.std.specs.Prelude.{◌≡◌, ◌↔◌, IsTrue};
ghost use Rattle.type_tree.specs.World.{Facts};
ghost use Rattle.type_tree.specs.declared.tree.Ty.{Ty as Tree};
ghost use Rattle.key_faults.specs.declared.told.Told.{Told as Telling};
ghost use Rattle.key_faults.specs.Faults as spec;
ghost use Rattle.key_faults.specs.Told.{IsTold};

/// NotFound is told exactly where it holds.
pub fn told_not_found()
    ensures { (w : Facts) (told : Telling) (t : Tree) → IsTold w told → IsTrue (spec.tells_not_found told w t) ↔ spec.NotFound w t }
{}

/// Expanding is told exactly where it holds.
pub fn told_expanding()
    ensures { (w : Facts) (told : Telling) (t : Tree) → IsTold w told → IsTrue (spec.tells_expanding told w t) ↔ spec.Expanding w t }
{}

/// NotInProfile is told exactly where it holds.
pub fn told_not_in_profile()
    ensures { (w : Facts) (told : Telling) (t : Tree) → IsTold w told → IsTrue (spec.tells_not_in_profile told w t) ↔ spec.NotInProfile w t }
{}
