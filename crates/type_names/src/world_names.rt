//! The names of a world, and what the rows of its files are called.
ghost use Rattle.std.specs.Prelude.{◌≡◌, ◌+◌, ◌<◌, ◌≤◌, Some, length, map, slice_get, IfOk, OnOk};
ghost use Rattle.std.specs.Option.{IfSome};
ghost use Rattle.std.specs.Str.{bytes_eq};
ghost use Rattle.cli_tables.specs.Layout.{row_count};
ghost use Rattle.image_rows.specs.Cells.{rows_of};
ghost use Rattle.core_types.specs.CoreLibrary as library;
ghost use Rattle.core_types.specs.Names.{id_in, with_all};
ghost use Rattle.type_names.specs.Numbering as numbering;
ghost use Rattle.image_rows.specs.TypeNames.{full_name, name_of_ref as ref_text};
ghost use Rattle.type_names.specs.Resolution.{all_places};
ghost use Rattle.type_names.specs.WorldNames as spec;

use crate::def_numbers::DefNumbers;
use crate::file_names::FileNames;
use crate::resolution::DefPlace;
use crate::text_numbers::number_column;
use crate::type_rows::{Target, TypeRows};
use cli_tables::Tables;
use clr_base::{Memory, NameId};
use core_types::Names;
use image_rows::{FIELD, METHOD_DEF, TYPE_DEF, TYPE_REF, full_names, name_of_ref};
use sqlite_items::Items;
use std::alloc::Global;

/// The column Name of Field.
const FIELD_NAME: u8 = 1;

/// The column Name of MethodDef.
const METHOD_NAME: u8 = 3;

/// The names of a world, and what the rows of each of its files are called.
#[derive(Drop)]
pub struct WorldNames {
    pub names: Names,
    pub files: Items<FileNames>,
}

/// The numbers of the full names of a file's definitions, row by row. New ones come behind the names.
fn number_defs(
    alloc: Global,
    names: &mut Names,
    tables: &Tables<'_>,
) -> Result<Items<NameId>, Memory>
    requires { length names.old ≤ 4278190080 }
    ensures names { OnOk result (names.new ≡ with_all bytes_eq names.old (map (full_name tables.now) (rows_of tables.now 2))) }
    ensures numbers { IfOk result (λ ids. numbering.IsSettled names.new (λ ns. map (id_in ns) (map (full_name tables.now) (rows_of tables.now 2))) ids) }
    ensures few { OnOk result (length names.new ≤ length names.old + 16777215) }
{
    let texts = full_names(alloc, tables)?;
    let mut ids = Items::new(alloc);
    for row in 0..tables.row_count(TYPE_DEF) {
        let text = &texts.as_slice()[row as usize];
        ids.push(names.number(alloc, text.as_str())?)?;
    }
    Ok(ids)
}

/// What the reference in a row names: the number of its definition, or that of its own name, which comes behind the others
/// where it is new.
fn target(
    alloc: Global,
    names: &mut Names,
    defs: &DefNumbers<'_>,
    tables: &Tables<'_>,
    row: u32,
    place: Option<DefPlace>,
) -> Result<Target, Memory>
    requires first { 1 ≤ row }
    requires last { row ≤ row_count tables.now.tables 1 }
    requires room { length names.old < 4294967295 }
    requires placed { IfSome place (numbering.IsPlaced defs.now) }
    ensures names { OnOk result (names.new ≡ with_all bytes_eq names.old (numbering.missing_text (ref_text tables.now row) place)) }
    ensures target { IfOk result (λ t. numbering.IsSettled names.new (λ ns. spec.target_in ns defs.now (ref_text tables.now row) place) t) }
{
    match place {
        Some(place) => Ok(Target::Def(defs.number(place))),
        None => {
            let name = name_of_ref(alloc, tables, row)?;
            Ok(Target::Missing(names.number(alloc, name.as_str())?))
        }
    }
}

/// What a file's references name, row by row. The names of those that are missing come behind the others.
fn targets(
    alloc: Global,
    names: &mut Names,
    defs: &DefNumbers<'_>,
    tables: &Tables<'_>,
    file: u32,
    resolved: &[Items<Option<DefPlace>>],
) -> Result<Items<Target>, Memory>
    requires file { slice_get defs.now file ≡ Some tables.now }
    requires resolved { resolved.now ≡ all_places defs.now }
    requires room { length names.old ≤ 4278190080 }
    ensures names { OnOk result (names.new ≡ with_all bytes_eq names.old (map (ref_text tables.now) (spec.missing_refs defs.now file tables.now))) }
    ensures targets { IfOk result (λ ts. numbering.IsSettled names.new (λ ns. map (spec.target_of_in ns defs.now file tables.now) (rows_of tables.now 1)) ts) }
    ensures few { OnOk result (length names.new ≤ length names.old + 16777215) }
{
    let places = resolved[file as usize].as_slice();
    let mut targets = Items::new(alloc);
    for row in 0..tables.row_count(TYPE_REF) {
        let place = places[row as usize];
        targets.push(target(alloc, names, defs, tables, row + 1, place)?)?;
    }
    Ok(targets)
}

/// What the rows of a file are called. New names come behind the others: the full names of its definitions, the names of
/// its missing references, those of its fields, those of its methods.
#[tactic(auto, unfolding(cli_tables::specs::Schema::columns))]
fn file_names(
    alloc: Global,
    names: &mut Names,
    defs: &DefNumbers<'_>,
    tables: &Tables<'_>,
    file: u32,
    resolved: &[Items<Option<DefPlace>>],
) -> Result<FileNames, Memory>
    requires file { slice_get defs.now file ≡ Some tables.now }
    requires resolved { resolved.now ≡ all_places defs.now }
    requires room { length names.old ≤ 4227858435 }
    ensures names { OnOk result (names.new ≡ with_all bytes_eq names.old (spec.file_texts defs.now (file, tables.now))) }
    ensures rows { IfOk result (λ rows. numbering.IsSettled names.new (λ ns. spec.file_names_in ns defs.now file tables.now) rows) }
    ensures few { OnOk result (length names.new ≤ length names.old + 67108860) }
{
    let def_names = number_defs(alloc, names, tables)?;
    let refs = targets(alloc, names, defs, tables, file, resolved)?;
    let fields = number_column(alloc, names, tables, FIELD, FIELD_NAME)?;
    let methods = number_column(alloc, names, tables, METHOD_DEF, METHOD_NAME)?;
    Ok(FileNames {
        defs: def_names,
        types: TypeRows {
            first_def: defs.first(file),
            defs: tables.row_count(TYPE_DEF),
            refs,
        },
        fields,
        methods,
    })
}

/// How many names files are expected to give: half as many as they have definitions, fields and methods.
fn expected_names(files: &[Tables<'_>]) -> usize {
    let mut count: usize = 0;
    for tables in files {
        for table in [TYPE_DEF, FIELD, METHOD_DEF] {
            count = count.saturating_add(tables.row_count(table) as usize);
        }
    }
    count / 2
}

/// The names of a world and what the rows of its files are called, by the core's names and by what each TypeRef row of
/// each file names. Takes memory for the names and a few numbers a row, and time in the rows and in the length of the
/// names.
pub fn name_files(
    alloc: Global,
    core: Names,
    files: &[Tables<'_>],
    resolved: &[Items<Option<DefPlace>>],
) -> Result<WorldNames, Memory>
    requires few { length files.now ≤ 16 }
    requires core { core ≡ library.names }
    requires resolved { resolved.now ≡ all_places files.now }
    ensures names { IfOk result (λ w. w.names ≡ spec.names files.now) }
    ensures files { IfOk result (λ w. w.files ≡ spec.all_file_names files.now) }
{
    let defs = DefNumbers::new(alloc, files)?;
    let mut names = core;
    names.reserve(expected_names(files))?;
    let _empty = names.number(alloc, "")?;
    let mut rows = Items::new(alloc);
    for file in 0..files.len() {
        rows.push(file_names(
            alloc,
            &mut names,
            &defs,
            &files[file],
            file as u32,
            resolved,
        )?)?;
    }
    Ok(WorldNames { names, files: rows })
}
