//! Pages of boards that tests open.
ghost use Rattle.std.proofs.Math.Dec.{lit≤};
ghost use Rattle.std.specs.Prelude.{◌<◌, ◌≤◌};
ghost use Rattle.word_board.specs.Places.{IsInRows};
ghost use Rattle.node_set.specs.Probing.{NodeRule, node_rule_on};
ghost use Rattle.load_history.specs.Journal.{JournalRule, journal_rule_on};
ghost use Rattle.dict_slots.specs.Slots.{SlotRule, slot_rule_on};

use dict_slots::Slots;
use load_history::Journal;
use node_set::Nodes;
use word_board::{Meaning, Page};

/// A page of 4 cells and 2 journal places, on which any word may stand at any place.
#[derive(Drop)]
pub struct Anything;

impl Meaning for Anything {
    ghost may = { λ page xs m. Unit {0} };

    ghost stays = { λ page xs ys m within may. tt };
}

impl Page for Anything {
    ghost cell_count = { λ page. 4 };

    ghost journal_count = { λ page. 2 };

    ghost few = { λ page. lit≤ tt };

    fn cells(&self) -> u32 {
        4
    }

    fn journal(&self) -> u32 {
        2
    }
}

/// A page of nodes alone: what stands in a row is free.
#[derive(Drop)]
pub struct NodesAlone {
    pub cells: u32,
    ghost some: { 0 < cells },
    ghost few: { cells ≤ 262144 },
}

impl Meaning for NodesAlone {
    ghost may = { λ page xs m. m.place < page.cells → NodeRule page.cells xs m };

    ghost stays = { λ page xs ys m within may low. node_rule_on page.cells xs ys m within (may low) };
}

impl Page for NodesAlone {
    ghost cell_count = { λ page. page.cells };

    ghost journal_count = { λ page. 0 };

    ghost few = { λ page. page.few };

    fn cells(&self) -> u32 {
        self.cells
    }

    fn journal(&self) -> u32 {
        0
    }
}

impl Nodes for NodesAlone {
    ghost node_rule = { λ page all m may low. may low };
}

/// A page of 1 cell and 800 journal places, on which any word may stand in cells and rows, and any event may follow.
#[derive(Drop)]
pub struct AnyEvent;

impl Meaning for AnyEvent {
    ghost may = { λ page xs m. 33 ≤ m.place → JournalRule 1 xs (λ es e. Unit {0}) m };

    ghost stays = { λ page xs ys m within may high. journal_rule_on 1 xs ys within (λ es e. Unit {0}) (λ es e. Unit {0}) (λ es e t. t) m (may high) };
}

impl Page for AnyEvent {
    ghost cell_count = { λ page. 1 };

    ghost journal_count = { λ page. 800 };

    ghost few = { λ page. lit≤ tt };

    fn cells(&self) -> u32 {
        1
    }

    fn journal(&self) -> u32 {
        800
    }
}

impl Journal for AnyEvent {
    ghost may_follow = { λ page all es e. Unit {0} };

    ghost journal_rule = { λ page all m may high. may high };
}

/// A page of 128 cells, with nodes, layouts and dictionaries alone.
#[derive(Drop)]
pub struct SlotsAlone;

impl Meaning for SlotsAlone {
    ghost may = { λ page xs m. (m.place < 128 → NodeRule 128 xs m) × (IsInRows 128 m.place → SlotRule 128 xs m) };

    ghost stays = { λ page xs ys m within may.
        ((λ low. node_rule_on 128 xs ys m within (may.0 low)), (λ inside. slot_rule_on 128 xs ys within m (may.1 inside))) };
}

impl Page for SlotsAlone {
    ghost cell_count = { λ page. 128 };

    ghost journal_count = { λ page. 0 };

    ghost few = { λ page. lit≤ tt };

    fn cells(&self) -> u32 {
        128
    }

    fn journal(&self) -> u32 {
        0
    }
}

impl Nodes for SlotsAlone {
    ghost node_rule = { λ page all m may low. may.0 low };
}

impl Slots for SlotsAlone {
    ghost slot_rule = { λ page all m may inside. may.1 inside };
}
