//! The calls of a loader.

ghost use Rattle.std.specs.Prelude.{◌≡◌, ℕ, ◌<◌, ◌↔◌, ◌⊎◌, true, List, [], ◌∷◌, ◌++◌, length, map, is_some, Contains, Option, Some, None, slice_get, IfOk, IfErr, MatchOption};
ghost use Rattle.clr_base.specs.declared.ids.Handle.{Handle as HandleOf};
ghost use Rattle.clr_base.specs.declared.ids.SigId.{SigId as SigOf};
ghost use Rattle.type_tree.specs.declared.tree.Key.{Key};
ghost use Rattle.type_tree.specs.declared.tree.Key.TheVariants.{Tree};
ghost use Rattle.type_tree.specs.World.{Facts};
ghost use Rattle.type_tree.specs.Canon.{canon as canon_of};
ghost use Rattle.type_relations.specs.Relations.{stands_on};
ghost use Rattle.method_table.specs.Tables.{mt};
ghost use Rattle.type_record.specs.declared.loaded.SlotOf.{SlotOf};
ghost use Rattle.load_events.specs.Histories.{events_of};
ghost use Rattle.load_legal.specs.Names.{AsksKey};
ghost use Rattle.loader_api.specs.declared.stops.LoadStop.{LoadStop as Stop};
ghost use Rattle.loader_api.specs.declared.stops.LoadStop.TheVariants as stop;
ghost use Rattle.loader_api.specs.declared.view.Kept.{Kept as KeptOf};
ghost use Rattle.loader_api.specs.declared.view.PassView.{PassView};
ghost use Rattle.loader_api.specs.Calls as spec;
ghost use Rattle.loader_api.specs.Histories.{IsLegal};
ghost use Rattle.loader_api.specs.Parts as parts_of;
ghost use Rattle.loader_api.specs.Verdicts.{IsGood};

use crate::stops::LoadStop;
use clr_base::{DefId, Handle, HistoryFull, MethId, SigId};
use load_events::Answer;
use std::alloc::Global;
use type_record::{Shape, SlotAt};
use type_tree::World;

/// A loader, as one caller sees it through its pass: a token of the caller's that knows what the caller has seen.
///
/// A key is asked for by a signature of the world and a context, the handle of the type or method whose arguments the
/// signature's variables stand for. Each call is made with a pass of the loader, and the world that the loader was
/// opened with; each handle that it is given is known to the pass. Handles come from calls of the loader alone. The
/// calls of a loader that serves one pass at a time may wait.
pub trait Types {
    type Pass: Drop;

    // The world that the loader was opened with.
    ghost opened: { Self → Facts };

    // The pass is one of this loader's.
    ghost is_of: { Self → Self.Pass → Type 0 };

    ghost view: { Self → Self.Pass → PassView };

    // The handle names the key, whatever else stands in the loader than what the pass has seen.
    ghost names: { Self → Self.Pass → HandleOf → Key → Type 0 };

    // The key at a handle, where the pass has read it: each handle that a call gives is read.
    ghost key_at: { Self → Self.Pass → HandleOf → Option Key };

    // The handle names a key that is in the closure of one that was loaded. A handle that is read is known, and one that
    // is known names a key.
    ghost knows: { Self → Self.Pass → HandleOf → Type 0 };

    // The handle names a key that was loaded itself. It is known.
    ghost done: { Self → Self.Pass → HandleOf → Type 0 };

    // A limit of the loader stops the pass.
    ghost stuck: { Self → Self.Pass → Stop → Type 0 };

    // The context's dictionary has a handle in the signature's slot.
    ghost filled: { Self → Self.Pass → HandleOf → SigOf → Type 0 };

    // At least 2,048 other signatures were asked for in contexts of the context's canonical form, so that the signature may
    // have no slot.
    ghost crowded: { Self → Self.Pass → HandleOf → SigOf → Type 0 };

    // The handle's key has what the level promises: 3, its whole record; 4, also that of each member of its closure.
    ghost promised: { Self → Self.Pass → HandleOf → ℕ → Type 0 };

    // The second pass knows all that the first does.
    ghost grows: { Self → Self.Pass → Self.Pass → Type 0 };

    /// Loads the key that is asked for: it is refused exactly where its verdict is, for that fault. `first` stands
    /// exactly where no load before answered the handle.
    fn load(
        &self,
        alloc: Global,
        pass: &mut Self::Pass,
        world: &World,
        ctx: Option<Handle>,
        sig: SigId,
    ) -> Result<Answer, LoadStop>
        requires of { is_of self.now pass.old }
        requires world { world.now ≡ opened self.now }
        requires sig { sig.0 < length world.now.sigs }
        requires context { MatchOption ctx (Unit {0}) (λ h. knows self.now pass.old h) }
        ensures moves { spec.Moves (is_of self.now) (grows self.now) (view self.now) pass.old pass.new }
        ensures events { IfOk result (λ a. spec.Answers (view self.now pass.old) (view self.now pass.new) ctx sig a) }
        ensures answer { IfOk result (λ a. (k : Key) → AsksKey world.now.sigs (names self.now pass.old) ctx sig k → spec.IsAnswer world.now (key_at self.now pass.new) (done self.now pass.new) k a) }
        ensures stops { IfErr result (λ stop. spec.Stops (view self.now pass.old) (view self.now pass.new) ctx sig stop) }
        ensures stuck { IfErr result (λ stop. spec.IsStuck (stuck self.now pass.new) stop) };

    /// The handle of the key that is asked for, where a load before answered it. It takes no memory.
    fn find(
        &self,
        pass: &mut Self::Pass,
        world: &World,
        ctx: Option<Handle>,
        sig: SigId,
    ) -> Result<Option<Handle>, HistoryFull>
        requires of { is_of self.now pass.old }
        requires world { world.now ≡ opened self.now }
        requires sig { sig.0 < length world.now.sigs }
        requires context { MatchOption ctx (Unit {0}) (λ h. knows self.now pass.old h) }
        ensures moves { spec.Moves (is_of self.now) (grows self.now) (view self.now) pass.old pass.new }
        ensures events { IfOk result (λ o. spec.Finds (view self.now pass.old) (view self.now pass.new) ctx sig (is_some o)) }
        ensures found { IfOk result (λ o. (k : Key) → AsksKey world.now.sigs (names self.now pass.old) ctx sig k → spec.IsFound (key_at self.now pass.new) (done self.now pass.new) k o) }
        ensures seen { IfOk result (λ o. (h : HandleOf) (k : Key) → done self.now pass.old h → names self.now pass.old h k → AsksKey world.now.sigs (names self.now pass.old) ctx sig k → o ≡ Some h) }
        ensures full { IfErr result (λ _. spec.IsSilent (view self.now pass.old) (view self.now pass.new) × stuck self.now pass.new stop.HistoryFull) };

    /// Loads the key that is asked for, or finds it in the dictionary of the context without an event.
    fn dict(
        &self,
        alloc: Global,
        pass: &mut Self::Pass,
        world: &World,
        ctx: Handle,
        sig: SigId,
    ) -> Result<Answer, LoadStop>
        requires of { is_of self.now pass.old }
        requires world { world.now ≡ opened self.now }
        requires sig { sig.0 < length world.now.sigs }
        requires context { knows self.now pass.old ctx }
        ensures moves { spec.Moves (is_of self.now) (grows self.now) (view self.now) pass.old pass.new }
        ensures events { IfOk result (λ a. (filled self.now pass.new ctx sig × spec.IsHit (view self.now pass.old) (view self.now pass.new) a) ⊎ spec.Answers (view self.now pass.old) (view self.now pass.new) (Some ctx) sig a) }
        ensures answer { IfOk result (λ a. (k : Key) → AsksKey world.now.sigs (λ h c. key_at self.now pass.old h ≡ Some c) (Some ctx) sig k → spec.IsAnswer world.now (key_at self.now pass.new) (done self.now pass.new) k a) }
        ensures quiet { filled self.now pass.old ctx sig → spec.IsSilent (view self.now pass.old) (view self.now pass.new) }
        ensures filled { IfErr result (λ _. filled self.now pass.old ctx sig → ⊥) }
        ensures fills { IfOk result (λ a. spec.IfLoaded a (filled self.now pass.new ctx sig ⊎ crowded self.now pass.new ctx sig)) }
        ensures stops { IfErr result (λ stop. spec.Stops (view self.now pass.old) (view self.now pass.new) (Some ctx) sig stop) }
        ensures stuck { IfErr result (λ stop. spec.IsStuck (stuck self.now pass.new) stop) };

    /// The level of the handle: 3, dependencies loaded, or 4, loaded; 4 where it is done.
    fn level(&self, pass: &mut Self::Pass, h: Handle) -> u8
        requires of { is_of self.now pass.old }
        requires known { knows self.now pass.old h }
        ensures quiet { spec.Quiet (is_of self.now) (grows self.now) (view self.now) pass.old pass.new }
        ensures value { (result ≡ 3) ⊎ (result ≡ 4) }
        ensures done { done self.now pass.old h → result ≡ 4 }
        ensures promise { promised self.now pass.new h result };

    /// The definition of an instantiation, None of anything else.
    fn head(&self, pass: &mut Self::Pass, h: Handle) -> Option<DefId>
        requires of { is_of self.now pass.old }
        requires known { knows self.now pass.old h }
        ensures quiet { spec.Quiet (is_of self.now) (grows self.now) (view self.now) pass.old pass.new }
        ensures value { (k : Key) → names self.now pass.old h k → result ≡ parts_of.head_of k };

    /// The method of a method, None of a type.
    fn method(&self, pass: &mut Self::Pass, h: Handle) -> Option<MethId>
        requires of { is_of self.now pass.old }
        requires known { knows self.now pass.old h }
        ensures quiet { spec.Quiet (is_of self.now) (grows self.now) (view self.now) pass.old pass.new }
        ensures value { (k : Key) → names self.now pass.old h k → result ≡ parts_of.method_of k };

    /// The exact parent; of a method the type that owns it.
    fn parent(&self, pass: &mut Self::Pass, h: Handle) -> Option<Handle>
        requires of { is_of self.now pass.old }
        requires known { knows self.now pass.old h }
        ensures quiet { spec.Quiet (is_of self.now) (grows self.now) (view self.now) pass.old pass.new }
        ensures value { (k : Key) → key_at self.now pass.old h ≡ Some k → parts_of.AreAlike (key_at self.now pass.new) result (mt (opened self.now) k).parent }
        ensures known { MatchOption result (Unit {0}) (λ g. knows self.now pass.new g) };

    /// The element of an array, None of anything else.
    fn element(&self, pass: &mut Self::Pass, h: Handle) -> Option<Handle>
        requires of { is_of self.now pass.old }
        requires known { knows self.now pass.old h }
        ensures quiet { spec.Quiet (is_of self.now) (grows self.now) (view self.now) pass.old pass.new }
        ensures value { (k : Key) → key_at self.now pass.old h ≡ Some k → parts_of.AreAlike (key_at self.now pass.new) result (mt (opened self.now) k).element }
        ensures known { MatchOption result (Unit {0}) (λ g. knows self.now pass.new g) };

    /// The canonical form, which shares code with it.
    fn canon(&self, pass: &mut Self::Pass, h: Handle) -> Handle
        requires of { is_of self.now pass.old }
        requires known { knows self.now pass.old h }
        ensures quiet { spec.Quiet (is_of self.now) (grows self.now) (view self.now) pass.old pass.new }
        ensures value { (k : Key) → key_at self.now pass.old h ≡ Some k → key_at self.now pass.new result ≡ Some (mt (opened self.now) k).canon }
        ensures known { knows self.now pass.new result };

    /// Its form, how many parts of each kind it has, and its size in bytes.
    fn shape(&self, pass: &mut Self::Pass, h: Handle) -> Shape
        requires of { is_of self.now pass.old }
        requires known { knows self.now pass.old h }
        ensures quiet { spec.Quiet (is_of self.now) (grows self.now) (view self.now) pass.old pass.new }
        ensures value { (k : Key) → names self.now pass.old h k → result ≡ (mt (opened self.now) k).shape };

    /// The argument at n, from 0.
    fn arg(&self, pass: &mut Self::Pass, h: Handle, n: u32) -> Handle
        requires of { is_of self.now pass.old }
        requires known { knows self.now pass.old h }
        requires within { (k : Key) × (key_at self.now pass.old h ≡ Some k) × (n < (mt (opened self.now) k).shape.args) }
        ensures quiet { spec.Quiet (is_of self.now) (grows self.now) (view self.now) pass.old pass.new }
        ensures value { (k : Key) → key_at self.now pass.old h ≡ Some k → parts_of.IfAt (mt (opened self.now) k).args n (λ x. key_at self.now pass.new result ≡ Some x) }
        ensures known { knows self.now pass.new result };

    /// The interface at n, from 0, those of the parents first.
    fn interface(&self, pass: &mut Self::Pass, h: Handle, n: u32) -> Handle
        requires of { is_of self.now pass.old }
        requires known { knows self.now pass.old h }
        requires within { (k : Key) × (key_at self.now pass.old h ≡ Some k) × (n < (mt (opened self.now) k).shape.interfaces) }
        ensures quiet { spec.Quiet (is_of self.now) (grows self.now) (view self.now) pass.old pass.new }
        ensures value { (k : Key) → key_at self.now pass.old h ≡ Some k → parts_of.IfAt (mt (opened self.now) k).interfaces n (λ x. key_at self.now pass.new result ≡ Some x) }
        ensures known { knows self.now pass.new result };

    /// The offset in bytes of the own field at n, static ones counted; None of one that isn't an instance field.
    fn field(&self, pass: &mut Self::Pass, h: Handle, n: u32) -> Option<u32>
        requires of { is_of self.now pass.old }
        requires known { knows self.now pass.old h }
        requires within { (k : Key) × (key_at self.now pass.old h ≡ Some k) × (n < (mt (opened self.now) k).shape.fields) }
        ensures quiet { spec.Quiet (is_of self.now) (grows self.now) (view self.now) pass.old pass.new }
        ensures value { (k : Key) → names self.now pass.old h k → parts_of.IfAt (mt (opened self.now) k).fields n (λ x. result ≡ x.offset) };

    /// The exact type of the own field at n, static ones counted, where that is a value type.
    fn field_type(&self, pass: &mut Self::Pass, h: Handle, n: u32) -> Option<Handle>
        requires of { is_of self.now pass.old }
        requires known { knows self.now pass.old h }
        requires within { (k : Key) × (key_at self.now pass.old h ≡ Some k) × (n < (mt (opened self.now) k).shape.fields) }
        ensures quiet { spec.Quiet (is_of self.now) (grows self.now) (view self.now) pass.old pass.new }
        ensures value { (k : Key) → key_at self.now pass.old h ≡ Some k → parts_of.IfAt (mt (opened self.now) k).fields n (λ x. parts_of.AreAlike (key_at self.now pass.new) result x.value) }
        ensures known { MatchOption result (Unit {0}) (λ g. knows self.now pass.new g) };

    /// What stands in the slot at n, with its exact owner.
    fn slot(&self, pass: &mut Self::Pass, h: Handle, n: u32) -> SlotAt
        requires of { is_of self.now pass.old }
        requires known { knows self.now pass.old h }
        requires within { (k : Key) × (key_at self.now pass.old h ≡ Some k) × (n < (mt (opened self.now) k).shape.slots) }
        ensures quiet { spec.Quiet (is_of self.now) (grows self.now) (view self.now) pass.old pass.new }
        ensures value { (k : Key) → key_at self.now pass.old h ≡ Some k → parts_of.IfAt (mt (opened self.now) k).slots n (λ x. parts_of.IsSlot (key_at self.now pass.new) result x) }
        ensures known { knows self.now pass.new result.owner };

    /// What answers the method at n of the interface at i, None without a choice.
    fn interface_slot(&self, pass: &mut Self::Pass, h: Handle, i: u32, n: u32) -> Option<SlotAt>
        requires of { is_of self.now pass.old }
        requires known { knows self.now pass.old h }
        requires within { (k : Key) × (list : List (Option (SlotOf Key))) × (key_at self.now pass.old h ≡ Some k)
            × (slice_get (mt (opened self.now) k).interface_slots i ≡ Some list) × (n < length list) }
        ensures quiet { spec.Quiet (is_of self.now) (grows self.now) (view self.now) pass.old pass.new }
        ensures value { (k : Key) → key_at self.now pass.old h ≡ Some k → parts_of.IfAt (mt (opened self.now) k).interface_slots i (λ list. parts_of.IfAt list n (λ x. parts_of.IsChoice (key_at self.now pass.new) result x)) }
        ensures known { parts_of.IfSomeOwner (knows self.now pass.new) result };

    /// Whether the type at h is assignable to the one at g (ECMA-335 I.8.7.1).
    fn is_sub(&self, pass: &mut Self::Pass, h: Handle, g: Handle) -> bool
        requires of { is_of self.now pass.old }
        requires known { knows self.now pass.old h }
        requires other { knows self.now pass.old g }
        ensures quiet { spec.Quiet (is_of self.now) (grows self.now) (view self.now) pass.old pass.new }
        ensures value { (k l : Key) → names self.now pass.old h k → names self.now pass.old g l → (result ≡ true) ↔ parts_of.IsSub (opened self.now) k l };

    // What a pass knows outlasts its later calls.
    ghost grows_self: { (s : Self) (p : Self.Pass) → grows s p p };

    ghost grows_on: { (s : Self) (p q r : Self.Pass) → grows s p q → grows s q r → grows s p r };

    ghost names_stay: { (s : Self) (p q : Self.Pass) (h : HandleOf) (k : Key) → grows s p q → names s p h k → names s q h k };

    ghost key_stays: { (s : Self) (p q : Self.Pass) (h : HandleOf) (k : Key) → is_of s q → grows s p q → key_at s p h ≡ Some k → key_at s q h ≡ Some k };

    ghost knows_stay: { (s : Self) (p q : Self.Pass) (h : HandleOf) → grows s p q → knows s p h → knows s q h };

    ghost done_stay: { (s : Self) (p q : Self.Pass) (h : HandleOf) → grows s p q → done s p h → done s q h };

    ghost stuck_stay: { (s : Self) (p q : Self.Pass) (stop : Stop) → grows s p q → stuck s p stop → stuck s q stop };

    ghost filled_stay: { (s : Self) (p q : Self.Pass) (h : HandleOf) (sig : SigOf) → grows s p q → filled s p h sig → filled s q h sig };

    ghost crowded_stay: { (s : Self) (p q : Self.Pass) (h : HandleOf) (sig : SigOf) → grows s p q → crowded s p h sig → crowded s q h sig };

    ghost promised_stay: { (s : Self) (p q : Self.Pass) (h : HandleOf) (level : ℕ) → grows s p q → promised s p h level → promised s q h level };

    // A handle names at most one key, and a key has at most one handle.
    ghost one_key: { (s : Self) (p : Self.Pass) (h : HandleOf) (k l : Key) → is_of s p → names s p h k → names s p h l → k ≡ l };

    ghost one_handle: { (s : Self) (p : Self.Pass) (h g : HandleOf) (k : Key) → is_of s p → names s p h k → names s p g k → h ≡ g };

    // A handle that is read is known, and names what was read.
    ghost key_named: { (s : Self) (p : Self.Pass) (h : HandleOf) (k : Key) → is_of s p → key_at s p h ≡ Some k → names s p h k };

    ghost key_known: { (s : Self) (p : Self.Pass) (h : HandleOf) (k : Key) → is_of s p → key_at s p h ≡ Some k → knows s p h };

    ghost named: { (s : Self) (p : Self.Pass) (h : HandleOf) → is_of s p → knows s p h → (k : Key) × names s p h k };

    ghost done_known: { (s : Self) (p : Self.Pass) (h : HandleOf) → is_of s p → done s p h → knows s p h };

    // A key whose handle is known is good: it is in the closure of one that is.
    ghost good: { (s : Self) (p : Self.Pass) (h : HandleOf) (k : Key) → is_of s p → knows s p h → names s p h k
        → (root : Key) × (members : List Key) × IsGood (opened s) root members × Contains members k };

    // What is known has level 3, and what is done level 4.
    ghost known_promised: { (s : Self) (p : Self.Pass) (h : HandleOf) → is_of s p → knows s p h → promised s p h 3 };

    ghost done_promised: { (s : Self) (p : Self.Pass) (h : HandleOf) → is_of s p → done s p h → promised s p h 4 };

    // A handle is known with its whole closure: each handle that names a member is known.
    ghost whole: { (s : Self) (p : Self.Pass) (h g : HandleOf) (k : Key) (members : List Key) (m : Key) → is_of s p → knows s p h → names s p h k
        → IsGood (opened s) k members → Contains members m → names s p g m → knows s p g };

    // The same of what a key stands on, and of its canonical form.
    ghost parts: { (s : Self) (p : Self.Pass) (h g : HandleOf) (k m : Key) → is_of s p → knows s p h → names s p h k
        → Contains (map Tree (stands_on (opened s) k) ++ canon_of (opened s) k ∷ []) m → names s p g m → knows s p g };

    // What a pass has seen is legal.
    ghost lawful: { (s : Self) (p : Self.Pass) → is_of s p → IsLegal (opened s) (names s p) (view s p).front };

    // Of the pass's own events the history that it has seen has just these, each once.
    ghost own_events: { (s : Self) (p : Self.Pass) → is_of s p → events_of (view s p).number (view s p).front ≡ (view s p).own };

    // The same of the events that it keeps under each number.
    ghost kept_events: { (s : Self) (p : Self.Pass) (k : KeptOf) → is_of s p → Contains (view s p).kept k → events_of k.number (view s p).front ≡ k.events };
}
