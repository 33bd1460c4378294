//! What follows of any loader. Each law is a function that does nothing and whose clause is the law.

ghost use Rattle.std.specs.Prelude.{◌≡◌, ◌↔◌, ℕ, Bool, IsTrue, List, [], ◌∷◌, ◌++◌, Option, Some};
ghost use Rattle.clr_base.specs.declared.ids.Handle.{Handle};
ghost use Rattle.clr_base.specs.declared.ids.SigId.{SigId};
ghost use Rattle.type_tree.specs.declared.tree.Key.{Key};
ghost use Rattle.load_events.specs.declared.event.Answer.TheVariants.{Loaded};
ghost use Rattle.load_events.specs.declared.event.Event.{Event};
ghost use Rattle.load_events.specs.declared.event.Event.TheVariants.{Done, Find};
ghost use Rattle.load_events.specs.Histories.{Loads};
ghost use Rattle.load_legal.specs.Names.{AsksKey};

use crate::types::Types;

/// An answer is the first of its handle exactly where no Done before loaded the handle.
pub fn first_exactly<T: Types>()
    ensures { (s : T) (p : T.Pass) (before : List Event) (n : ℕ) (h : Handle) (first : Bool) → T.is_of s p
        → (T.view s p).front ≡ before ++ Done n (Loaded h first) ∷ [] → IsTrue first ↔ (Loads before h → ⊥) }
{}

/// A key that a Done before loaded is found.
pub fn found_before<T: Types>()
    ensures { (s : T) (p : T.Pass) (before : List Event) (n : ℕ) (context : Option Handle) (sig : SigId) (found : Bool) → T.is_of s p
        → (T.view s p).front ≡ before ++ Find n context sig found ∷ []
        → (k : Key) (h : Handle) → AsksKey (T.opened s).sigs (T.names s p) context sig k → T.names s p h k → Loads before h → IsTrue found }
{}

/// Handles that are read are one where their keys are one.
pub fn one_read<T: Types>()
    ensures { (s : T) (p : T.Pass) (h g : Handle) (k : Key) → T.is_of s p → T.key_at s p h ≡ Some k → T.key_at s p g ≡ Some k → h ≡ g }
{}
