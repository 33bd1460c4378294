//! Which pages have records in their rows.
ghost use Rattle.std.specs.Prelude.{◌≡◌, ℕ, ◌<◌, List};
ghost use Rattle.clr_base.specs.declared.ids.Handle.{Handle};
ghost use Rattle.word_board.specs.Marks.{Within, Once};
ghost use Rattle.word_board.specs.Places.{row_place};
ghost use Rattle.word_board.specs.declared.view.Mark.{Mark};
ghost use Rattle.node_set.specs.Keys.{Key, Makes, Spells};
ghost use Rattle.node_set.specs.Probing.{NodeRule};
ghost use Rattle.node_set.specs.Nodes.{word_of};
ghost use Rattle.node_set.specs.declared.node.Node.{Node};
ghost use Rattle.node_set.specs.declared.node.Node.TheVariants.{Row};
ghost use Rattle.key_rows.specs.Facts.{Facts, IsClosed, HasRow};
ghost use Rattle.key_rows.specs.Rows.{HoldsRecord, RowRule};

use node_set::Nodes;

/// A page on which a word may stand in the row of a key, or of a further row of a key's record, by the rule of rows:
/// it is a word of the record of a key that may have one, the handle in it spells the key that the record names,
/// and a level keeps its promise.
pub trait Rows: Nodes {
    ghost facts: { Self → Facts };

    ghost closed: { (page : Self) → IsClosed (facts page) };

    // By the set words the key may have its record set.
    ghost granted: { Self → List Mark → Key → Type 0 };

    ghost granted_stays: { (page : Self) (xs ys : List Mark) (k : Key) → Within xs ys
        → granted page xs k → granted page ys k };

    // By the set words the key may have its node set.
    ghost part_granted: { Self → List Mark → Key → Type 0 };

    ghost part_granted_stays: { (page : Self) (xs ys : List Mark) (k : Key) → Within xs ys
        → part_granted page xs k → part_granted page ys k };

    // The rows of other cells are for other words.
    ghost row_rule: { (page : Self) (all : List Mark) (m : Mark) (c w : ℕ) → Once all → Self.may page all m
        → w < 32 → m.place ≡ row_place (Self.cell_count page) c w → HoldsRecord (Self.cell_count page) all c
        → RowRule (Self.cell_count page) all (facts page) (granted page all) m };

    ghost may_row: { (page : Self) (all : List Mark) (m : Mark)
        → RowRule (Self.cell_count page) all (facts page) (granted page all) m → Self.may page all m };

    ghost may_node: { (page : Self) (all : List Mark) (m : Mark) (n : Node) (k : Key)
        → m.place < Self.cell_count page → NodeRule (Self.cell_count page) all m → m.word ≡ word_of n
        → Makes (Self.cell_count page) all n k → part_granted page all k → Self.may page all m };

    // The node of a further row may stand where the key's record has words in that row.
    ghost may_further: { (page : Self) (all : List Mark) (m : Mark) (h : Handle) (row : ℕ) (k : Key)
        → m.place < Self.cell_count page → NodeRule (Self.cell_count page) all m → m.word ≡ word_of (Row h row)
        → Spells (Self.cell_count page) all h.0 k → HasRow (facts page) k row
        → granted page all k → Self.may page all m };
}
