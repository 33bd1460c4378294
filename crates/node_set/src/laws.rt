//! What holds of the nodes of every lawful board: every list of set words, each of which may stand by them all.
ghost use Rattle.std.specs.Prelude.{◌≡◌, ℕ, ◌<◌, ◌≤◌, List, Some};
ghost use Rattle.word_board.specs.Marks.{Has, Lawful};
ghost use Rattle.word_board.specs.Views.{Known, SeenAt};
ghost use Rattle.word_board.specs.declared.view.Mark.{Mark};
ghost use Rattle.word_board.specs.declared.view.View.{View};
ghost use Rattle.node_set.specs.Nodes.{word_of, tag_of, IsNode};
ghost use Rattle.node_set.specs.Keys.{Key, IsKey, Spells};
ghost use Rattle.node_set.specs.Probing.{OneCell};
ghost use Rattle.node_set.specs.declared.node.Node.{Node};

use crate::nodes::Nodes;

/// One node stands in at most one cell.
pub fn one_cell<P: Nodes>()
    ensures { (page : P) (all : List Mark) → Lawful (P.may page) all → OneCell (P.cell_count page) all }
{}

/// A handle spells at most one key.
pub fn one_key<P: Nodes>()
    ensures { (page : P) (all : List Mark) → Lawful (P.may page) all
        → (handle : ℕ) (k l : Key)
        → Spells (P.cell_count page) all handle k → Spells (P.cell_count page) all handle l → k ≡ l }
{}

/// A key is spelled by at most one handle.
pub fn one_handle<P: Nodes>()
    ensures { (page : P) (all : List Mark) → Lawful (P.may page) all
        → (key : Key) (g h : ℕ)
        → Spells (P.cell_count page) all g key → Spells (P.cell_count page) all h key → g ≡ h }
{}

/// A node with one of the tags 1 to 4 spells a key of depth at most 64.
pub fn key_spelled<P: Nodes>()
    ensures { (page : P) (all : List Mark) → Lawful (P.may page) all
        → (m : Mark) → Has all m → m.place < P.cell_count page
        → (n : Node) → IsNode n → m.word ≡ word_of n → tag_of n ≤ 4
        → (k : Key) × Spells (P.cell_count page) all m.place k × IsKey k }
{}

/// The cells in which a pass has seen one node are the same. So threads that put one node were told one cell:
/// where one pass took the others in, it has seen all that they were told.
pub fn told_once<P: Nodes>()
    ensures { (page : P) (v : View P) → v.page ≡ Some page → Known P.may v
        → (word c d : ℕ) → c < P.cell_count page → d < P.cell_count page
        → SeenAt v c word → SeenAt v d word → c ≡ d }
{}
