//! What a board's nodes spell are types and methods, one for one. Each law is a function that does nothing and whose clause
//! is the law.
ghost use Rattle.std.specs.Prelude.{◌≡◌, IsTrue};
ghost use Rattle.node_keys.specs.Spelling.{is_plain, spelled};
ghost use Rattle.node_set.specs.Keys as nodes;
ghost use Rattle.type_tree.specs.declared.tree.Key.{Key as KeyOf};
ghost use Rattle.type_tree.specs.Measure.{depth_of_key};

use type_tree::Key;

/// Two types or methods with one spelling are the same, where they are made of definitions and arrays alone.
pub fn one_key_of_a_spelling(_key: &Key, _other: &Key)
    requires key { IsTrue (is_plain _key.now) }
    requires other { IsTrue (is_plain _other.now) }
    requires same { spelled _key.now ≡ spelled _other.now }
    ensures { _key.now ≡ _other.now }
{}

/// A spelling is as deep as what it spells.
pub fn spelled_as_deep(_key: &Key)
    requires { IsTrue (is_plain _key.now) }
    ensures { nodes.depth (spelled _key.now) ≡ depth_of_key _key.now }
{}

/// Arguments, elements and owners in a spelling are types, as nodes ask.
pub fn spelled_well(_key: &Key)
    requires { IsTrue (is_plain _key.now) }
    ensures { nodes.IsWell (spelled _key.now) }
{}

/// Each key that nodes can spell is the spelling of a type or method that is made of definitions and arrays alone.
pub fn key_of_each_spelling()
    ensures { (k : nodes.Key) → nodes.IsWell k → (key : KeyOf) × IsTrue (is_plain key) × (spelled key ≡ k) }
{}
