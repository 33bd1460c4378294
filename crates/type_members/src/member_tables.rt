//! The members of a world by their definitions: those of the core library, then those of each file.
ghost use Rattle.std.specs.Prelude.{◌≡◌, ◌++◌, ◌≤◌, [], length, map, IfOk, OnOk};
ghost use Rattle.std.proofs.Math.ListN.{replicate};
ghost use Rattle.cli_tables.specs.Layout.{row_count};
ghost use Rattle.image_rows.specs.Cells.{rows_of};
ghost use Rattle.core_types.specs.CoreLibrary as library;
ghost use Rattle.type_members.specs.MemberTable as spec;
ghost use Rattle.type_members.specs.Members as members;
ghost use Rattle.type_members.specs.Trees.{AreNumbered};
ghost use Rattle.type_names.specs.WorldNames.{all_file_names};

use crate::definitions::run_of;
use crate::file_rows::FileRows;
use crate::member_table::{MemberTable, Run};
use crate::members::{push_fields, push_methods};
use cli_tables::Tables;
use clr_base::Memory;
use image_rows::{FIELD, METHOD_DEF, TYPE_DEF};
use sqlite_items::Items;
use std::alloc::Global;
use type_names::FileNames;
use type_tree::{Def, Method, with_room};

/// The run of a definition of the core library.
fn core_run(def: &Def) -> Run
    ensures { result ≡ spec.core_run def.now }
{
    Run {
        first_field: def.first_field,
        fields: def.fields,
        first_method: def.first_method,
        methods: def.methods,
    }
}

/// How many rows of a table files have.
fn rows_in(files: &[Tables<'_>], table: u8) -> usize {
    let mut count: usize = 0;
    for tables in files {
        count = count.saturating_add(tables.row_count(table) as usize);
    }
    count
}

/// The members of the core library, which has no fields and no generic methods, with room for those of files.
fn core_members(
    alloc: Global,
    defs: &[Def],
    core_methods: Items<Method>,
    files: &[Tables<'_>],
) -> Result<MemberTable, Memory>
    ensures runs { IfOk result (λ table. table.runs ≡ map spec.core_run defs.now) }
    ensures methods { IfOk result (λ table. table.methods ≡ core_methods) }
    ensures generics { IfOk result (λ table. table.generics ≡ replicate (length core_methods) 0) }
    ensures fields { IfOk result (λ table. table.fields ≡ []) }
{
    let mut runs = Items::new(alloc);
    for def in defs {
        runs.push(core_run(def))?;
    }
    let none = Items::from_vec(vec![in alloc; 0; core_methods.len()]?);
    let more = rows_in(files, METHOD_DEF);
    let mut generics = with_room(alloc, more.saturating_add(none.len()))?;
    generics.append(none)?;
    let mut methods = with_room(alloc, more.saturating_add(core_methods.len()))?;
    methods.append(core_methods)?;
    Ok(MemberTable {
        runs,
        methods,
        generics,
        fields: with_room(alloc, rows_in(files, FIELD))?,
    })
}

/// Appends the runs of a file's definitions, of which it has so many, where files before it have so many fields and methods.
fn push_runs(
    runs: &mut Items<Run>,
    tables: &Tables<'_>,
    defs: u32,
    fields_before: u32,
    methods_before: u32,
) -> Result<(), Memory>
    requires defs { defs ≡ row_count tables.now.tables 0x02 }
    requires fields { fields_before ≤ 268435440 }
    requires methods { methods_before ≤ 268435440 }
    ensures { OnOk result (runs.new ≡ runs.old ++ map (spec.run_at fields_before methods_before tables.now) (rows_of tables.now 0x02)) }
{
    for row in 0..defs {
        runs.push(run_of(tables, fields_before, methods_before, row + 1))?;
    }
    Ok(())
}

/// Appends the methods and the fields of a file.
fn push_members(
    alloc: Global,
    table: &mut MemberTable,
    names: &FileNames,
    tables: &Tables<'_>,
) -> Result<(), Memory>
    requires { AreNumbered names.now.types }
    ensures runs { OnOk result (table.new.runs ≡ table.old.runs) }
    ensures methods { OnOk result (table.new.methods ≡ table.old.methods ++ members.file_methods names.now tables.now) }
    ensures generics { OnOk result (table.new.generics ≡ table.old.generics ++ members.file_generics tables.now) }
    ensures fields { OnOk result (table.new.fields ≡ table.old.fields ++ members.file_fields names.now tables.now) }
{
    let rows = FileRows::new(alloc, tables)?;
    push_methods(
        alloc,
        names,
        tables,
        &rows,
        &mut table.methods,
        &mut table.generics,
    )?;
    push_fields(alloc, names, tables, &rows, &mut table.fields)?;
    Ok(())
}

/// The methods and fields of the core library and of files, by their definitions. Takes memory for each member and its
/// signature, and time in the rows of the files and in their signatures.
pub fn all_members(
    alloc: Global,
    core_defs: &[Def],
    core_methods: Items<Method>,
    files: &[Tables<'_>],
    names: &[FileNames],
) -> Result<MemberTable, Memory>
    requires few { length files.now ≤ 16 }
    requires defs { core_defs.now ≡ library.defs }
    requires methods { core_methods ≡ library.methods }
    requires names { names.now ≡ all_file_names files.now }
    ensures { IfOk result (λ table. table ≡ spec.member_table files.now) }
{
    let mut table = core_members(alloc, core_defs, core_methods, files)?;
    let mut fields = 0;
    let mut methods = 0;
    for file in 0..files.len() {
        let tables = &files[file];
        let defs = tables.row_count(TYPE_DEF);
        push_runs(&mut table.runs, tables, defs, fields, methods)?;
        push_members(alloc, &mut table, &names[file], tables)?;
        fields += tables.row_count(FIELD);
        methods += tables.row_count(METHOD_DEF);
    }
    Ok(table)
}
