//! The board.
ghost use Rattle.std.specs.Prelude.{◌≡◌, ◌+◌, ◌<◌};
ghost use Rattle.word_board.specs.Places.{place_count};

use crate::page::Page;
use crate::plays::Law;
use crate::view::{Plan, View};
use atomic_table::Table;
use std::alloc::Global;

/// Words that go from 0 to one value and never change, each at a place. Threads share it by reference.
///
/// Word 0 of the table is the number word, which counts the numbers of passes;
/// the word of a place is one further on.
#[derive(Drop)]
pub struct Board<P: Page> {
    pub(crate) plan: Plan<P>,
    pub(crate) table: Table<u64, View<P>, Plan<P>, Law, Global>,
    ghost about: { table.shared.key ≡ plan },
    ghost wide: { table.shared.table_id.words ≡ plan.places + 1 },
    ghost no_slot: { table.shared.table_id.slots ≡ 0 },
    ghost narrow: { plan.places < 4294967296 },
    ghost sized: { plan.places ≡ place_count (P.cell_count plan.page) (P.journal_count plan.page) },
}
