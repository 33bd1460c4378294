//! A page of two classes.
ghost use Rattle.std.specs.Prelude.{◌≡◌, ℕ, ◌+◌, ◌*◌, ◌<◌, ◌≤◌, List};
ghost use Rattle.rows_tests.specs.Classes.{May, may_on, node_may, row_may, row_is, closed as classes_closed, facts as the_facts};

use key_rows::Rows;
use node_set::Nodes;
use word_board::{Meaning, Page};

/// The page of a board of so many cells, on which each key may be set.
#[derive(Drop)]
pub struct Classes {
    pub cells: u32,
    ghost some: { 0 < cells },
    ghost few: { cells ≤ 262144 },
}

impl Meaning for Classes {
    ghost may = { λ page all m. May page.cells all m };

    ghost stays = { λ page xs ys m within may. may_on page.cells xs ys m within may };
}

impl Page for Classes {
    ghost cell_count = { λ page. page.cells };

    ghost journal_count = { λ page. 0 };

    ghost few = { λ page. page.few };

    fn cells(&self) -> u32 {
        self.cells
    }

    fn journal(&self) -> u32 {
        0
    }
}

impl Nodes for Classes {
    ghost node_rule = { λ page all m may low. may.1 low };
}

impl Rows for Classes {
    ghost facts = { λ page. the_facts };

    ghost closed = { λ page. classes_closed };

    ghost granted = { λ page all k. Unit {0} };

    ghost granted_stays = { λ page xs ys k within given. given };

    ghost part_granted = { λ page all k. Unit {0} };

    ghost part_granted_stays = { λ page xs ys k within given. given };

    ghost row_rule = { λ page all m c w once may low at holds. row_is page.cells all m c w may at };

    ghost may_row = { λ page all m rule. row_may page.cells all m rule };

    ghost may_node = { λ page all m n k low rule is makes given. node_may page.cells all m low rule };

    ghost may_further = { λ page all m h row k low rule is spells has given. node_may page.cells all m low rule };
}
