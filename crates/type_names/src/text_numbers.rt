//! The numbers of the texts in a column, each index of `#Strings` read once.
ghost use Rattle.std.specs.Prelude.{◌≡◌, ◌+◌, ◌<◌, ◌≤◌, length, map, IfOk, OnOk};
ghost use Rattle.std.specs.Str.{bytes_eq};
ghost use Rattle.cli_tables.specs.Schema.{columns};
ghost use Rattle.core_types.specs.Names.{id_in, with_one, with_all};
ghost use Rattle.image_rows.specs.Cells as cells;
ghost use Rattle.type_names.specs.Numbering as spec;

use cli_tables::Tables;
use clr_base::{Memory, NameId};
use core_types::Names;
use image_rows::text_by;
use indexmap::IndexMap;
use sqlite_items::Items;
use std::alloc::Global;
use type_tree::with_room;

/// The number of the text at an index, which is read and numbered where its number isn't noted yet.
fn number_at(
    alloc: Global,
    names: &mut Names,
    noted: &mut IndexMap<u32, NameId>,
    tables: &Tables<'_>,
    index: u32,
) -> Result<NameId, Memory>
    requires room { length names.old < 4294967295 }
    requires noted { spec.AreNoted tables.now names.old noted.old }
    ensures names { OnOk result (names.new ≡ with_one bytes_eq names.old (cells.text_by tables.now index)) }
    ensures number { IfOk result (λ id. id ≡ id_in names.old (cells.text_by tables.now index)) }
    ensures noted { OnOk result (spec.AreNoted tables.now names.new noted.new) }
{
    if let Some(id) = noted.get(&index) {
        return Ok(*id);
    }
    let id = names.number(alloc, text_by(tables, index))?;
    noted.insert(index, id)?;
    Ok(id)
}

/// The numbers of the texts in a column, row by row. New texts come behind the names. Takes time in the rows and in the
/// length of the texts at different indexes.
pub(crate) fn number_column(
    alloc: Global,
    names: &mut Names,
    tables: &Tables<'_>,
    table: u8,
    column: u8,
) -> Result<Items<NameId>, Memory>
    requires column { column < length (columns table) }
    requires room { length names.old ≤ 4278190080 }
    ensures names { OnOk result (names.new ≡ with_all bytes_eq names.old (spec.column_texts tables.now table column)) }
    ensures numbers { IfOk result (λ ids. spec.IsSettled names.new (λ ns. map (id_in ns) (spec.column_texts tables.now table column)) ids) }
    ensures few { OnOk result (length names.new ≤ length names.old + 16777215) }
{
    let count = tables.row_count(table);
    let mut noted = IndexMap::new(alloc);
    let mut ids = with_room(alloc, count as usize)?;
    for row in 0..count {
        let index = tables.cell(table, row + 1, column);
        let id = number_at(alloc, names, &mut noted, tables, index)?;
        ids.push(id)?;
    }
    Ok(ids)
}
