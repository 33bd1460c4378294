//! What holds of the records of every lawful board: every list of set words, each of which may stand by them all.
ghost use Rattle.std.specs.Prelude.{◌≡◌, ℕ, ◌+◌, ◌<◌, ◌≤◌, List, Contains};
ghost use Rattle.word_board.specs.Marks.{Within, Lawful};
ghost use Rattle.word_board.specs.declared.view.Mark.{Mark};
ghost use Rattle.node_set.specs.Keys.{Key, Spells};
ghost use Rattle.type_record.specs.declared.entry.Entry.{Entry};
ghost use Rattle.key_rows.specs.Facts.{Tells, IsOtherWord};
ghost use Rattle.key_rows.specs.Rows.{WordSet, IsWordOf, LevelSet, SetWhere, Promise, IsLoaded};
ghost use Rattle.key_rows.specs.Knowing.{Knows};

use crate::rows::Rows;

/// A word of a key's record that is set is that of its entry, and the only one that may stand there.
pub fn word_exact<P: Rows>()
    ensures { (page : P) (all : List Mark) → Lawful (P.may page) all
        → (h w word : ℕ) (k : Key) (e : Entry Key) → Spells (P.cell_count page) all h k → Tells (P.facts page) k w e
        → WordSet (P.cell_count page) all h w word
        → IsWordOf (P.cell_count page) all e word
        × ((other : ℕ) → IsWordOf (P.cell_count page) all e other → word ≡ other) }
{}

/// A level that is set keeps its promise.
pub fn level_kept<P: Rows>()
    ensures { (page : P) (all : List Mark) → Lawful (P.may page) all
        → (h level word : ℕ) (k : Key) → 1 ≤ level → level ≤ 4 → Spells (P.cell_count page) all h k
        → WordSet (P.cell_count page) all h (3 + level) word
        → Promise (P.cell_count page) all (P.facts page) level h k }
{}

/// Each key in the closure of a loaded one has a handle, level 3, and its whole record.
pub fn loaded_whole<P: Rows>()
    ensures { (page : P) (all : List Mark) → Lawful (P.may page) all
        → (k : Key) → IsLoaded (P.cell_count page) all (P.facts page) k
        → LevelSet (P.cell_count page) all 3 k
        × ((h : ℕ) × Spells (P.cell_count page) all h k
        × SetWhere (P.cell_count page) all (P.facts page) IsOtherWord h k) }
{}

/// A known handle stays known.
pub fn still_known<P: Rows>()
    ensures { (page : P) (seen more : List Mark) → Within seen more
        → (h : ℕ) (k : Key)
        → Knows (P.may page) (P.cell_count page) seen (P.facts page) h k
        → Knows (P.may page) (P.cell_count page) more (P.facts page) h k }
{}
