//! What holds of closures, whatever keys need. Each law is a function that does nothing and whose clause is the law.
ghost use Rattle.std.specs.Prelude.{◌≡◌, List};
ghost use Rattle.type_tree.specs.declared.tree.Key.{Key};
ghost use Rattle.key_closure.specs.Closures.{IsLeast};
ghost use Rattle.key_closure.specs.Bounds.{IsClosure, IsTooLarge};

/// A closure is the least set that has its key and what its members need.
pub fn closure_least()
    ensures { (needs : Key → List Key) (key : Key) (members : List Key)
        → IsClosure needs key members → IsLeast needs key members }
{}

/// A key has at most one closure.
pub fn closure_once()
    ensures { (needs : Key → List Key) (key : Key) (members others : List Key)
        → IsClosure needs key members → IsClosure needs key others → members ≡ others }
{}

/// A key that has a closure isn't too large.
pub fn closure_or_too_large()
    ensures { (needs : Key → List Key) (key : Key) (members : List Key)
        → IsClosure needs key members → IsTooLarge needs key → ⊥ }
{}
