//! The full names of type definitions (ECMA-335 II.22.37).
ghost use Rattle.std.specs.Prelude.{◌≡◌, ◌-◌, ◌++◌, ◌≤◌, codes, map, IfOk, OnOk};
ghost use Rattle.std.specs.List.{range_with_len};
ghost use Rattle.cli_tables.specs.Layout.{row_count};
ghost use Rattle.image_rows.specs.Cells.{rows_of};
ghost use Rattle.image_rows.specs.Nesting.{enclosing_row};
ghost use Rattle.image_rows.specs.TypeNames as spec;

use crate::cells::text;
use crate::nesting::enclosing_rows;
use crate::table_numbers::TYPE_DEF;
use cli_tables::Tables;
use clr_base::{Memory, Text};
use sqlite_items::Items;
use std::alloc::Global;

/// The column Name of TypeDef.
const NAME: u8 = 1;

/// The column Namespace of TypeDef.
const NAMESPACE: u8 = 2;

/// A name behind its namespace and a dot; the name alone where the namespace is empty.
pub(crate) fn qualified(alloc: Global, namespace: &str, name: &str) -> Result<Text, Memory>
    ensures { IfOk result (λ text. text ≡ spec.qualified namespace.now name.now) }
{
    if namespace.is_empty() {
        return Ok(Text::from_str(alloc, name)?);
    }
    Ok(Text::joined(alloc, namespace, ".", name)?)
}

/// Appends the name of a type that stands in the one whose name the text is.
pub(crate) fn push_nested(text: &mut Text, name: &str) -> Result<(), Memory>
    ensures { OnOk result (text.new ≡ text.old ++ codes "+" ++ name.now) }
{
    text.push_str("+")?;
    text.push_str(name)?;
    Ok(())
}

/// The name of a type behind that of the type that it stands in.
fn nested(alloc: Global, around: &str, name: &str) -> Result<Text, Memory>
    ensures { IfOk result (λ text. text ≡ around.now ++ codes "+" ++ name.now) }
{
    Ok(Text::joined(alloc, around, "+", name)?)
}

/// The full name of the definition in a row, by those of the definitions before it. `outer` is the row of the definition
/// around it, 0 where there is none.
#[tactic(auto, unfolding(cli_tables::specs::Schema::columns))]
fn full_name(
    alloc: Global,
    tables: &Tables<'_>,
    before: &[Text],
    row: u32,
    outer: u32,
) -> Result<Text, Memory>
    requires first { 1 ≤ row }
    requires last { row ≤ row_count tables.now.tables 2 }
    requires outer { outer ≡ enclosing_row tables.now row }
    requires before { before.now ≡ map (spec.full_name tables.now) (range_with_len 1 (row - 1)) }
    ensures { IfOk result (λ text. text ≡ spec.full_name tables.now row) }
{
    let name = text(tables, TYPE_DEF, row, NAME);
    if outer == 0 {
        return qualified(alloc, text(tables, TYPE_DEF, row, NAMESPACE), name);
    }
    let full = nested(alloc, before[outer as usize - 1].as_str(), name)?;
    Ok(full)
}

/// The full names of the definitions in all rows of TypeDef, from the first row on. Each is made once, by a copy of the
/// name around it. Takes memory and time in the length of these names, and in the rows of TypeDef and NestedClass.
pub fn full_names(alloc: Global, tables: &Tables<'_>) -> Result<Items<Text>, Memory>
    ensures { IfOk result (λ names. names ≡ map (spec.full_name tables.now) (rows_of tables.now 2)) }
{
    let enclosing = enclosing_rows(alloc, tables)?;
    let mut names = Items::new(alloc);
    for row in 0..tables.row_count(TYPE_DEF) {
        let outer = enclosing.as_slice()[row as usize + 1];
        let name = full_name(alloc, tables, names.as_slice(), row + 1, outer)?;
        names.push(name)?;
    }
    Ok(names)
}
