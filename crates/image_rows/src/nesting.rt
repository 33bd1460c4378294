//! Which type definition encloses which (ECMA-335 II.22.32).
ghost use Rattle.std.specs.Prelude.{◌≡◌, slice_set, IfOk};
ghost use Rattle.image_rows.specs.Nesting as spec;

use crate::table_numbers::{NESTED_CLASS, TYPE_DEF};
use cli_tables::Tables;
use clr_base::Memory;
use sqlite_items::Items;
use std::alloc::Global;

/// The column NestedClass, a row of TypeDef.
const NESTED: u8 = 0;

/// The column EnclosingClass, a row of TypeDef.
const ENCLOSING: u8 = 1;

/// Sets the row of the definition around the one in the row `nested`, where there is such a row. One that doesn't stand
/// before it counts as none.
fn set_enclosing(rows: &mut Items<u32>, nested: u32, enclosing: u32)
    ensures { rows.new ≡ slice_set rows.old nested (spec.if_before nested enclosing) }
{
    if nested as usize >= rows.len() {
        return;
    }
    let outer = if enclosing < nested { enclosing } else { 0 };
    rows.set(nested as usize, outer);
}

/// For each row of TypeDef, by its number, the row of the definition that encloses it, 0 where there is none. It stands
/// before that row. Takes memory for a number a row, and time in the rows of TypeDef and NestedClass, in whatever order
/// these stand.
#[tactic(auto, unfolding(crate::specs::Nesting::enclosing_rows))]
pub fn enclosing_rows(alloc: Global, tables: &Tables<'_>) -> Result<Items<u32>, Memory>
    ensures { IfOk result (λ rows. rows ≡ spec.enclosing_rows tables.now) }
{
    let count = tables.row_count(TYPE_DEF) as usize + 1;
    let mut rows = Items::from_vec(vec![in alloc; 0; count]?);
    // From the last row to the first: of two rows with the same nested definition the first counts.
    for k in (0..tables.row_count(NESTED_CLASS)).rev() {
        let nested = tables.cell(NESTED_CLASS, k + 1, NESTED);
        let enclosing = tables.cell(NESTED_CLASS, k + 1, ENCLOSING);
        set_enclosing(&mut rows, nested, enclosing);
    }
    Ok(rows)
}
