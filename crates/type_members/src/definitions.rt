//! The definitions of files (ECMA-335 II.22.37), with the rows that tell more of them.
ghost use Rattle.std.specs.Prelude.{◌≡◌, ◌≤◌, ◌<◌, IfOk};
ghost use Rattle.cli_tables.specs.Layout.{row_count};
ghost use Rattle.type_members.specs.Definitions as spec;
ghost use Rattle.type_members.specs.MemberTable.{run_at};
ghost use Rattle.type_members.specs.RowIndexes.{AreFileRows, Indexes};
ghost use Rattle.type_members.specs.Trees.{AreNumbered};

use crate::file_rows::FileRows;
use crate::formals::{formals_of, type_owner};
use crate::indexed_rows::{first_cell, types_in};
use crate::member_table::Run;
use crate::members::name_at;
use crate::row_index::RowIndex;
use crate::signature_trees::type_at_row;
use cli_tables::{CodedIndex, Tables};
use clr_base::Memory;
use core_types::METHOD_COUNT;
use image_rows::{
    CLASS_LAYOUT, FIELD, FIELD_LIST, INTERFACE_IMPL, METHOD_DEF, METHOD_LIST, TYPE_DEF, before_run,
    coded, run_len,
};
use sqlite_items::Items;
use std::alloc::Global;
use type_names::{FileNames, TypeRows};
use type_tree::{Def, Impl, Ty, TyList};

/// The columns of TypeDef: its flags, and what it extends.
const FLAGS: u8 = 0;

const EXTENDS: u8 = 3;

/// The column Interface of InterfaceImpl, a coded index TypeDefOrRef.
const INTERFACE: u8 = 1;

/// The columns of ClassLayout: PackingSize, ClassSize, and Parent.
const PACKING_SIZE: u8 = 0;

const CLASS_SIZE: u8 = 1;

const PARENT: u8 = 2;

/// What a definition extends, nothing where its row is 0.
#[tactic(auto, unfolding(crate::specs::Definitions::parent_of, cli_tables::specs::Schema::columns))]
fn parent_of(
    alloc: Global,
    types: &TypeRows,
    tables: &Tables<'_>,
    row: u32,
) -> Result<Option<Ty>, Memory>
    requires numbered { AreNumbered types.now }
    requires first { 1 ≤ row }
    requires last { row ≤ row_count tables.now.tables 0x02 }
    ensures { IfOk result (λ parent. parent ≡ spec.parent_of types.now tables.now row) }
{
    match coded(
        CodedIndex::TypeDefOrRef,
        tables.cell(TYPE_DEF, row, EXTENDS),
    ) {
        Some(parent) => Ok(Some(type_at_row(alloc, types, tables, Some(parent))?)),
        None => Ok(None),
    }
}

/// The interfaces that the InterfaceImpl rows of a definition name (II.22.23), given an index of them by their class.
#[tactic(auto, unfolding(crate::specs::Definitions::interfaces_of, cli_tables::specs::Schema::columns))]
fn interfaces_of(
    alloc: Global,
    types: &TypeRows,
    tables: &Tables<'_>,
    interfaces: &RowIndex,
    row: u32,
) -> Result<TyList, Memory>
    requires numbered { AreNumbered types.now }
    requires interfaces { Indexes tables.now 0x09 0 interfaces.now }
    ensures { IfOk result (λ found. found ≡ spec.interfaces_of types.now tables.now row) }
{
    let rows = interfaces.rows(row);
    types_in(alloc, types, tables, INTERFACE_IMPL, INTERFACE, rows)
}

/// A column, PackingSize or ClassSize, of the first ClassLayout row of a definition (II.22.8), 0 without one, given an index
/// of these rows by their parent.
#[tactic(auto, unfolding(crate::specs::Definitions::layout_of, cli_tables::specs::Schema::columns))]
fn layout_of(tables: &Tables<'_>, class_layouts: &RowIndex, column: u8, row: u32) -> u32
    requires column { column < 2 }
    requires layouts { Indexes tables.now 0x0F 2 class_layouts.now }
    ensures { result ≡ spec.layout_of tables.now column row }
{
    match first_cell(tables, class_layouts, CLASS_LAYOUT, PARENT, column, row) {
        Some(number) => number,
        None => 0,
    }
}

/// The run of the definition in a TypeDef row, where files before its own have so many fields and methods.
#[tactic(auto, unfolding(crate::specs::MemberTable::run_at, cli_tables::specs::Schema::columns))]
pub fn run_of(tables: &Tables<'_>, fields_before: u32, methods_before: u32, row: u32) -> Run
    requires fields { fields_before ≤ 268435440 }
    requires methods { methods_before ≤ 268435440 }
    requires first { 1 ≤ row }
    requires last { row ≤ row_count tables.now.tables 0x02 }
    ensures { result ≡ run_at fields_before methods_before tables.now row }
{
    let methods_before = METHOD_COUNT as u32 + methods_before;
    Run {
        first_field: fields_before + before_run(tables, FIELD_LIST, FIELD, row),
        fields: run_len(tables, FIELD_LIST, FIELD, row),
        first_method: methods_before + before_run(tables, METHOD_LIST, METHOD_DEF, row),
        methods: run_len(tables, METHOD_LIST, METHOD_DEF, row),
    }
}

/// The definition in a TypeDef row of the file with a number, from 1, with its run of members and its MethodImpl rows. Takes
/// time in the rows that tell of it and in the signatures that these name.
#[tactic(auto, unfolding(crate::specs::Definitions::def_of, cli_tables::specs::Schema::columns))]
pub fn def_of(
    alloc: Global,
    names: &FileNames,
    tables: &Tables<'_>,
    rows: &FileRows,
    file: u32,
    run: Run,
    impls: Items<Impl>,
    row: u32,
) -> Result<Def, Memory>
    requires numbered { AreNumbered names.now.types }
    requires rows { AreFileRows tables.now rows.now }
    requires first { 1 ≤ row }
    requires last { row ≤ row_count tables.now.tables 0x02 }
    requires few { row ≤ 16777215 }
    ensures { IfOk result (λ def. def ≡ spec.def_of names.now tables.now file run impls row) }
{
    let types = &names.types;
    Ok(Def {
        name: name_at(names.defs.as_slice(), row),
        file,
        flags: tables.cell(TYPE_DEF, row, FLAGS),
        formals: formals_of(
            alloc,
            types,
            tables,
            &rows.params,
            &rows.constraints,
            type_owner(row),
        )?,
        parent: parent_of(alloc, types, tables, row)?,
        interfaces: interfaces_of(alloc, types, tables, &rows.interfaces, row)?,
        first_field: run.first_field,
        fields: run.fields,
        first_method: run.first_method,
        methods: run.methods,
        impls,
        packing: layout_of(tables, &rows.class_layouts, PACKING_SIZE, row),
        least_size: layout_of(tables, &rows.class_layouts, CLASS_SIZE, row),
    })
}
