//! Types by the definition around them, their namespace and their name.
ghost use Rattle.std.specs.Prelude.{◌≡◌, ◌+◌, get_or, length, IfOk};
ghost use Rattle.cli_tables.specs.Layout.{row_count};
ghost use Rattle.core_types.specs.CoreTable.{core_defs};
ghost use Rattle.image_rows.specs.Nesting.{enclosing_row};
ghost use Rattle.type_names.specs.TypeKeys as spec;

use crate::type_keys::{FirstPlaces, TypeKey};
use crate::type_texts::NameColumns;
use cli_tables::Tables;
use clr_base::Memory;
use core_types::DEF_COUNT;
use image_rows::{TYPE_DEF, enclosing_rows};
use sqlite_items::Items;
use std::alloc::Global;

/// What so many types are called, by their namespaces and names and by the rows of the definitions around them, in front of
/// which one number stands.
fn keys(
    alloc: Global,
    around: &[u32],
    columns: &NameColumns,
    count: usize,
) -> Result<Items<TypeKey>, Memory>
    requires around { length around.now ≡ count + 1 }
    requires namespaces { length columns.now.namespaces ≡ count }
    requires names { length columns.now.names ≡ count }
    ensures { IfOk result (λ keys. keys ≡ spec.keys_of (λ i. get_or around.now (i + 1) 0) columns.now count) }
{
    let mut keys = Items::new(alloc);
    for place in 0..count {
        keys.push(TypeKey {
            around: around[place + 1],
            namespace: columns.namespaces.as_slice()[place].0,
            name: columns.names.as_slice()[place].0,
        })?;
    }
    Ok(keys)
}

/// The first place of each name among a file's definitions; the first row stands at 0. Takes memory for some numbers a row,
/// and time in the rows of TypeDef and NestedClass.
pub(crate) fn first_defs(
    alloc: Global,
    tables: &Tables<'_>,
    columns: &NameColumns,
) -> Result<FirstPlaces, Memory>
    requires namespaces { length columns.now.namespaces ≡ row_count tables.now.tables 2 }
    requires names { length columns.now.names ≡ row_count tables.now.tables 2 }
    ensures { IfOk result (spec.Finds (spec.keys_of (λ i. enclosing_row tables.now (i + 1)) columns.now (row_count tables.now.tables 2))) }
{
    let count = tables.row_count(TYPE_DEF) as usize;
    let enclosing = enclosing_rows(alloc, tables)?;
    let keys = keys(alloc, enclosing.as_slice(), columns, count)?;
    FirstPlaces::new(alloc, keys.as_slice())
}

/// The first place of each name among the core's definitions, which is its number.
pub(crate) fn first_core_types(alloc: Global, columns: &NameColumns) -> Result<FirstPlaces, Memory>
    requires namespaces { length columns.now.namespaces ≡ core_defs }
    requires names { length columns.now.names ≡ core_defs }
    ensures { IfOk result (spec.Finds (spec.keys_of (λ i. 0) columns.now core_defs)) }
{
    let keys = keys(alloc, &[0; DEF_COUNT + 1], columns, DEF_COUNT)?;
    FirstPlaces::new(alloc, keys.as_slice())
}
