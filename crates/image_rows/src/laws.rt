//! Laws of rows. Each is a function that does nothing and whose clause is the law.
ghost use Rattle.std.specs.Prelude.{◌≡◌, ◌⊎◌, ◌≤◌, ℕ, Some};
ghost use Rattle.cli_tables.specs.Heaps.{text_at};
ghost use Rattle.cli_tables.specs.Layout.{cell, row_count};
ghost use Rattle.image_rows.specs.Cells.{text};
ghost use Rattle.image_rows.specs.Rows.{ArePassed};

use cli_tables::Tables;

/// In a file that passes the checks of its rows, the name and the namespace of a definition are the texts at the indexes in
/// its TypeDef row.
pub fn type_names_are_texts(_tables: &Tables<'_>)
    ensures { ArePassed _tables.now → (row column : ℕ) → 1 ≤ row → row ≤ row_count _tables.now.tables 2 → (column ≡ 1) ⊎ (column ≡ 2) →
        text_at _tables.now.strings (cell _tables.now.tables 2 row column) ≡ Some (text _tables.now 2 row column) }
{}
