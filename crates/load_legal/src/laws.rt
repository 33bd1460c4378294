//! What holds of legal histories, whatever loader made them. Each law is a function that does nothing and whose clause is
//! the law.
ghost use Rattle.std.specs.Prelude.{◌≡◌, ◌≢◌, ℕ, IsTrue, ◌↔◌, List, [], ◌∷◌, ◌++◌, Option, Some, true};
ghost use Rattle.clr_base.specs.declared.ids.Handle.{Handle};
ghost use Rattle.clr_base.specs.declared.ids.SigId.{SigId};
ghost use Rattle.type_tree.specs.declared.tree.Key.{Key};
ghost use Rattle.load_events.specs.declared.event.Answer.{Answer};
ghost use Rattle.load_events.specs.declared.event.Answer.TheVariants.{Loaded};
ghost use Rattle.load_events.specs.declared.event.Event.{Event};
ghost use Rattle.load_events.specs.declared.event.Event.TheVariants.{Ask, Done};
ghost use Rattle.load_events.specs.Events.{caller_of};
ghost use Rattle.load_events.specs.Histories.{latest, Loads};
ghost use Rattle.load_legal.specs.Names.{OneToOne};
ghost use Rattle.load_legal.specs.Legal.{Legal, MayFollow};

use crate::verdicts::{Names, Verdicts};

/// A legal history and an event that may come next are one legal history.
pub fn next_event<V: Verdicts, N: Names>()
    ensures { (v : V) (names : N) (es : List Event) (e : Event)
        → Legal (V.sigs v) (V.good v) (V.refused v) (N.names names) es
        → MayFollow (V.sigs v) (V.good v) (V.refused v) (N.names names) es e
        → Legal (V.sigs v) (V.good v) (V.refused v) (N.names names) (es ++ e ∷ []) }
{}

/// Each event of a legal history may come next after those before it, whatever comes later.
pub fn last_event<V: Verdicts, N: Names>()
    ensures { (v : V) (names : N) (es : List Event) (e : Event) (later : List Event)
        → Legal (V.sigs v) (V.good v) (V.refused v) (N.names names) (es ++ e ∷ later)
        → MayFollow (V.sigs v) (V.good v) (V.refused v) (N.names names) es e }
{}

/// What a legal history begins with is legal.
pub fn prefix_legal<V: Verdicts, N: Names>()
    ensures { (v : V) (names : N) (es later : List Event)
        → Legal (V.sigs v) (V.good v) (V.refused v) (N.names names) (es ++ later)
        → Legal (V.sigs v) (V.good v) (V.refused v) (N.names names) es }
{}

/// A legal history is legal by more names, while a handle has one key and a key one handle.
pub fn more_names<V: Verdicts, N: Names, M: Names>()
    ensures { (v : V) (names : N) (more : M) (es : List Event)
        → Legal (V.sigs v) (V.good v) (V.refused v) (N.names names) es
        → OneToOne (M.names more) → ((h : Handle) (k : Key) → N.names names h k → M.names more h k)
        → Legal (V.sigs v) (V.good v) (V.refused v) (M.names more) es }
{}

/// A handle that was loaded names a good key.
pub fn loaded_good<V: Verdicts, N: Names>()
    ensures { (v : V) (names : N) (es : List Event) (h : Handle)
        → Legal (V.sigs v) (V.good v) (V.refused v) (N.names names) es → Loads es h
        → (k : Key) × N.names names h k × ((members : List Key) × V.good v k members) }
{}

/// Of a handle that was loaded exactly one Done is the first.
pub fn first_once<V: Verdicts, N: Names>()
    ensures one { (v : V) (names : N) (es : List Event) (h : Handle)
        → Legal (V.sigs v) (V.good v) (V.refused v) (N.names names) es → Loads es h
        → (before : List Event) × (n : ℕ) × (later : List Event) × (es ≡ before ++ Done n (Loaded h true) ∷ later) }
    ensures once { (v : V) (names : N) (h : Handle) (n m : ℕ) (es fs gs : List Event)
        → Legal (V.sigs v) (V.good v) (V.refused v) (N.names names) (es ++ Done n (Loaded h true) ∷ (fs ++ Done m (Loaded h true) ∷ gs)) → ⊥ }
{}

/// Between two answers of one caller it asked: an Ask is answered once.
pub fn answered_once<V: Verdicts, N: Names>()
    ensures { (v : V) (names : N) (n : ℕ) (a b : Answer) (es fs gs : List Event)
        → Legal (V.sigs v) (V.good v) (V.refused v) (N.names names) (es ++ Done n a ∷ (fs ++ Done n b ∷ gs))
        → (context : Option Handle) × (sig : SigId) × (latest n fs ≡ Some (Ask n context sig)) }
{}

/// The latest event of a caller is the last one that is its own.
pub fn latest_of_a_caller()
    ensures own { (es : List Event) (e : Event) → latest (caller_of e) (es ++ e ∷ []) ≡ Some e }
    ensures others { (n : ℕ) (es : List Event) (e : Event) → caller_of e ≢ n → latest n (es ++ e ∷ []) ≡ latest n es }
{}
