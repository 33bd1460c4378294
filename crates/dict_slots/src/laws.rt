//! What holds of the layouts and dictionaries of every lawful board.
ghost use Rattle.std.specs.Prelude.{◌≡◌, ℕ, ◌<◌, ◌↔◌, List, Some};
ghost use Rattle.clr_base.specs.declared.ids.Handle.{Handle};
ghost use Rattle.clr_base.specs.declared.ids.SigId.{SigId};
ghost use Rattle.word_board.specs.Marks.{Lawful};
ghost use Rattle.word_board.specs.Views.{Known};
ghost use Rattle.word_board.specs.declared.view.Mark.{Mark};
ghost use Rattle.word_board.specs.declared.view.View.{View};
ghost use Rattle.dict_slots.specs.Slots.{HasSlot, OthersBefore, IsFilled};

use crate::slots::Slots;

/// A slot has at most one signature.
pub fn one_signature<P: Slots>()
    ensures { (page : P) (all : List Mark) → Lawful (P.may page) all
        → (canonical : Handle) (slot : ℕ) (s t : SigId)
        → HasSlot (P.cell_count page) all canonical slot s
        → HasSlot (P.cell_count page) all canonical slot t → s ≡ t }
{}

/// A signature has at most one slot of a layout.
pub fn one_slot<P: Slots>()
    ensures { (page : P) (all : List Mark) → Lawful (P.may page) all
        → (canonical : Handle) (m n : ℕ) (sig : SigId)
        → HasSlot (P.cell_count page) all canonical m sig
        → HasSlot (P.cell_count page) all canonical n sig → m ≡ n }
{}

/// Slots are given without holes: other signatures have all slots before a signature's.
pub fn slots_before<P: Slots>()
    ensures { (page : P) (all : List Mark) → Lawful (P.may page) all
        → (canonical : Handle) (slot : ℕ) (sig : SigId)
        → HasSlot (P.cell_count page) all canonical slot sig
        → OthersBefore (P.cell_count page) all canonical sig slot }
{}

/// A slot of a dictionary is filled by at most one handle, which is the number of a cell.
pub fn one_filling<P: Slots>()
    ensures { (page : P) (all : List Mark) → Lawful (P.may page) all
        → (exact : Handle) (slot : ℕ) (g h : Handle)
        → IsFilled (P.cell_count page) all exact slot g
        → IsFilled (P.cell_count page) all exact slot h → (g ≡ h) × (g.0 < P.cell_count page) }
{}

/// The slots that a pass was told are of one signature exactly where they are one slot, whenever it was told them.
pub fn slots_told_once<P: Slots>()
    ensures { (page : P) (v : View P) → v.page ≡ Some page → Known P.may v
        → (canonical : Handle) (m n : ℕ) (s t : SigId)
        → HasSlot (P.cell_count page) v.seen canonical m s
        → HasSlot (P.cell_count page) v.seen canonical n t → (m ≡ n) ↔ (s ≡ t) }
{}

/// The handles of which a pass was told that they fill one slot are the same, whenever it was told them.
pub fn filling_told_once<P: Slots>()
    ensures { (page : P) (v : View P) → v.page ≡ Some page → Known P.may v
        → (exact : Handle) (slot : ℕ) (g h : Handle)
        → IsFilled (P.cell_count page) v.seen exact slot g
        → IsFilled (P.cell_count page) v.seen exact slot h → g ≡ h }
{}
