//! Laws of roots. Each is a function that does nothing and whose clause is the law.
ghost use Rattle.std.specs.Prelude.{◌≡◌, ℕ, List};
ghost use Rattle.world_build.specs.Roots as spec;

use crate::roots::{NamedRoot, RootForm};
use type_tree::World;

/// A word names at most one root.
pub fn one_root_of_a_word(_world: &World, _form: RootForm, _root: &NamedRoot, _other: &NamedRoot)
    ensures { (word : List ℕ) → spec.NamesRoot _world.now _form word _root.now → spec.NamesRoot _world.now _form word _other.now
        → _root.now ≡ _other.now }
{}

/// Words give a world at most one world with roots.
pub fn one_world_of_roots(_world: &World, _form: RootForm, _made: &World, _other: &World)
    ensures { (words : List (List ℕ)) → spec.HasRoots _world.now _form words _made.now → spec.HasRoots _world.now _form words _other.now
        → _made.now ≡ _other.now }
{}

/// Where a word names nothing, there is no world with roots.
pub fn no_world_of_an_unnamed_word(_world: &World, _form: RootForm, _made: &World)
    ensures { (words : List (List ℕ)) (word : List ℕ) → spec.IsFirstUnnamed _world.now _form words word → ¬ (spec.HasRoots _world.now _form words _made.now) }
{}
