//! What a published closure tells.
ghost use Rattle.std.specs.Prelude.{ℕ, List, Contains};
ghost use Rattle.word_board.specs.Marks.{Within};
ghost use Rattle.word_board.specs.declared.view.Mark.{Mark};
ghost use Rattle.node_set.specs.Keys.{Key};
ghost use Rattle.key_rows.specs.Knowing.{Knows};
ghost use Rattle.key_publish.specs.Published.{Published, Whole};

use key_rows::Rows;

/// Where a closure was published, each of its keys has a handle with its whole record, which is known,
/// now and when more was seen.
pub fn members_known<P: Rows>()
    ensures { (page : P) (seen more : List Mark) (h : ℕ) (root k : Key) → Within seen more
        → Published (P.cell_count page) seen (P.facts page) h root → Contains ((P.facts page).closure root) k
        → (g : ℕ) × Whole (P.cell_count page) seen (P.facts page) g k
        × Knows (P.may page) (P.cell_count page) more (P.facts page) g k }
{}

/// The handle of the asked key is known too.
pub fn asked_known<P: Rows>()
    ensures { (page : P) (seen more : List Mark) (h : ℕ) (root : Key) → Within seen more
        → Published (P.cell_count page) seen (P.facts page) h root
        → Knows (P.may page) (P.cell_count page) more (P.facts page) h root }
{}
