//! Which words may stand.
ghost use Rattle.std.specs.Prelude.{◌≡◌, ℕ, ◌+◌, ◌<◌, ◌≤◌, List};
ghost use Rattle.word_board.specs.Marks.{Within};
ghost use Rattle.word_board.specs.declared.view.Mark.{Mark};

/// The meaning of a board's words: which word may stand at which place.
pub trait Meaning {
    // The marked word may stand at its place, given the set words, which are read as a set.
    ghost may: { Self → List Mark → Mark → Type 0 };

    // What may stand still may when more words are set.
    ghost stays: { (page : Self) (xs ys : List Mark) (m : Mark) → Within xs ys → may page xs m → may page ys m };
}

/// A meaning with the numbers of cells, at most 262,144, and of journal places.
///
/// The node word of cell c is at place c, word w of its row of 32 at `cells + 32 * c + w`,
/// and journal place i at `33 * cells + i`.
pub trait Page: Meaning {
    ghost cell_count: { Self → ℕ };

    ghost journal_count: { Self → ℕ };

    ghost few: { (page : Self) → cell_count page ≤ 262144 };

    /// The number of cells, at least 1.
    fn cells(&self) -> u32
        ensures { (result ≡ cell_count self.now) × (0 < result) };

    /// The number of journal places.
    fn journal(&self) -> u32
        ensures { result ≡ journal_count self.now };
}
