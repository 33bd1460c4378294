//! Which pages have layouts and dictionaries in the rows of their cells.
ghost use Rattle.std.specs.Prelude.{ℕ, List};
ghost use Rattle.word_board.specs.Places.{IsInRows};
ghost use Rattle.word_board.specs.declared.view.Mark.{Mark};
ghost use Rattle.dict_slots.specs.Slots.{SlotRule};

use node_set::Nodes;

/// How many words a row has: one for each slot of a segment.
pub(crate) const WORDS: u32 = 32;

/// How many segments a layout has. So it has 2,048 slots.
pub(crate) const SEGMENTS: u32 = 64;

/// A page on which a word may stand in a row only where its cell is set. In the row of a layout's segment it is
/// the number of a signature plus 1, and other signatures have all slots before it;
/// in that of a dictionary's segment it is the number of a handle plus 1.
pub trait Slots: Nodes {
    ghost slot_rule: { (page : Self) (all : List Mark) (m : Mark) → Self.may page all m
        → IsInRows (Self.cell_count page) m.place → SlotRule (Self.cell_count page) all m };
}
