//! Which pages have nodes in their cells.
ghost use Rattle.std.specs.Prelude.{ℕ, ◌<◌, List};
ghost use Rattle.word_board.specs.declared.view.Mark.{Mark};
ghost use Rattle.node_set.specs.Probing.{NodeRule};

use word_board::Page;

/// A page on which a word may stand in a cell only by the rule of nodes: it is a node's, the nodes
/// that it names are set and spell keys, a key that it spells has a depth of at most 64,
/// and the cells before it in its probing order are set to other nodes.
pub trait Nodes: Page {
    ghost node_rule: { (page : Self) (all : List Mark) (m : Mark) → Self.may page all m
        → m.place < Self.cell_count page → NodeRule (Self.cell_count page) all m };
}
