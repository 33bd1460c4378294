//! The signatures that a file's rows have, in their order.
ghost use Rattle.std.specs.Prelude.{◌≡◌, ◌++◌, ◌<◌, ◌≤◌, length, map, OnOk};
ghost use Rattle.cli_tables.specs.Schema.{columns};
ghost use Rattle.type_tree.specs.declared.tree.Key.TheVariants as key;
ghost use Rattle.type_tree.specs.declared.tree.Ty.TheVariants as ty;
ghost use Rattle.world_build.specs.Signatures as spec;
ghost use Rattle.type_members.specs.Trees.{AreNumbered};

use cli_tables::Tables;
use clr_base::Memory;
use image_rows::{RowOf, owners};
use sqlite_items::{Boxed, Items};
use std::alloc::Global;
use type_members::{def_type, type_at_row};
use type_names::TypeRows;
use type_tree::{Key, KeyList, Ty};

/// Appends the types that the rows of a table are: TypeDef, TypeRef or TypeSpec (ECMA-335 II.22.37 to II.22.39).
pub fn push_types(
    alloc: Global,
    types: &TypeRows,
    tables: &Tables<'_>,
    table: u8,
    keys: &mut KeyList,
) -> Result<(), Memory>
    requires { AreNumbered types.now }
    ensures { OnOk result (keys.new ≡ keys.old ++ map key.Tree (spec.types_in types.now tables.now table)) }
{
    for row in 0..tables.row_count(table) {
        let row = row + 1;
        let t = type_at_row(alloc, types, tables, Some(RowOf { table, row }))?;
        keys.push(Key::Tree(t))?;
    }
    Ok(())
}

/// Appends the arrays of the types that the rows of a table are.
pub fn push_arrays(
    alloc: Global,
    types: &TypeRows,
    tables: &Tables<'_>,
    table: u8,
    keys: &mut KeyList,
) -> Result<(), Memory>
    requires { AreNumbered types.now }
    ensures { OnOk result (keys.new ≡ keys.old ++ map (λ t. key.Tree (ty.Array t)) (spec.types_in types.now tables.now table)) }
{
    for row in 0..tables.row_count(table) {
        let row = row + 1;
        let t = type_at_row(alloc, types, tables, Some(RowOf { table, row }))?;
        keys.push(Key::Tree(Ty::Array(Boxed::new(alloc, t)?)))?;
    }
    Ok(())
}

/// Appends the types that own the rows of a table: Field by the column 4 of TypeDef, MethodDef by the column 5 (II.22.37).
pub fn push_owners(
    alloc: Global,
    types: &TypeRows,
    tables: &Tables<'_>,
    column: u8,
    table: u8,
    keys: &mut KeyList,
) -> Result<(), Memory>
    requires numbered { AreNumbered types.now }
    requires column { column < length (columns 0x02) }
    ensures { OnOk result (keys.new ≡ keys.old ++ map key.Tree (spec.owners_in types.now tables.now column table)) }
{
    let owners = owners(alloc, tables, column, table)?;
    for row in 0..tables.row_count(table) {
        let def = owners.as_slice()[row as usize];
        keys.push(Key::Tree(def_type(types, Items::new(alloc), false, def)))?;
    }
    Ok(())
}
