//! Which definition each reference to a type names, for all references of all files (ECMA-335 II.7.3, II.22.38).
ghost use Rattle.std.specs.Prelude.{◌≡◌, ◌≤◌, Some, length, map, slice_get, IfOk, OnOk};
ghost use Rattle.image_rows.specs.Cells.{rows_of};
ghost use Rattle.type_names.specs.Resolution as resolution;
ghost use Rattle.type_names.specs.TypeFinders as spec;
ghost use Rattle.type_names.specs.TypeTexts as texts;

use crate::definitions_by_name::{first_core_types, first_defs};
use crate::resolution::DefPlace;
use crate::type_finder::TypeFinder;
use crate::type_keys::FirstPlaces;
use crate::type_texts::{FileTexts, core_texts, file_texts};
use cli_tables::Tables;
use clr_base::Memory;
use core_types::Names;
use image_rows::{MOST_SCOPES, TYPE_REF};
use sqlite_items::Items;
use std::alloc::Global;

/// The numbers of each file's texts. New texts come behind the names.
fn all_texts(
    alloc: Global,
    names: &mut Names,
    files: &[Tables<'_>],
) -> Result<Items<FileTexts>, Memory>
    requires few { length files.now ≤ 16 }
    requires room { length names.old ≤ 1000 }
    ensures extends { OnOk result (texts.Extends names.old names.new) }
    ensures texts { IfOk result (spec.AreTexts names.new files.now) }
{
    let mut texts = Items::new(alloc);
    for tables in files {
        texts.push(file_texts(alloc, names, tables)?)?;
    }
    Ok(texts)
}

/// The definitions of each file by their names.
fn all_defs(
    alloc: Global,
    files: &[Tables<'_>],
    texts: &[FileTexts],
) -> Result<Items<FirstPlaces>, Memory>
    requires { spec.AreSized files.now texts.now }
    ensures { IfOk result (spec.AreIndexed files.now texts.now) }
{
    let mut defs = Items::new(alloc);
    for file in 0..files.len() {
        defs.push(first_defs(alloc, &files[file], &texts[file].defs)?)?;
    }
    Ok(defs)
}

/// What finds the types of the core and of files. Takes memory for the texts by which they are found and for some numbers a
/// row, and time in the rows and in the length of the texts at different indexes.
fn finder<'a>(alloc: Global, files: &'a [Tables<'a>]) -> Result<TypeFinder<'a>, Memory>
    requires { length files.now ≤ 16 }
    ensures finder { IfOk result spec.IsFinder }
    ensures files { IfOk result (λ f. f.files.now ≡ files.now) }
{
    let mut names = Names::new(alloc);
    let core = core_texts(alloc, &mut names)?;
    let texts = all_texts(alloc, &mut names, files)?;
    let core_types = first_core_types(alloc, &core.types)?;
    let defs = all_defs(alloc, files, texts.as_slice())?;
    Ok(TypeFinder {
        files,
        names,
        core,
        core_types,
        texts,
        defs,
    })
}

/// What each reference of a file names, row by row.
#[tactic(auto, unfolding(crate::specs::Resolution::resolved))]
fn file_places(
    alloc: Global,
    types: &TypeFinder<'_>,
    tables: &Tables<'_>,
    file: u32,
) -> Result<Items<Option<DefPlace>>, Memory>
    requires finder { spec.IsFinder types.now }
    requires there { slice_get types.now.files.now file ≡ Some tables.now }
    ensures { IfOk result (λ places. places ≡ map (resolution.resolved types.now.files.now file tables.now) (rows_of tables.now 1)) }
{
    let mut places = Items::new(alloc);
    for row in 0..tables.row_count(TYPE_REF) {
        places.push(types.resolved_within(tables, file, row + 1, MOST_SCOPES))?;
    }
    Ok(places)
}

/// Which definition each reference to a type names, file by file and row by row. Takes memory for the texts of the names by
/// which types are found and for some numbers a row, and time in the rows and in the length of the texts at different
/// indexes of `#Strings`; a reference takes constant time for each scope that it goes through.
pub fn resolve_files(
    alloc: Global,
    files: &[Tables<'_>],
) -> Result<Items<Items<Option<DefPlace>>>, Memory>
    requires { length files.now ≤ 16 }
    ensures { IfOk result (λ found. found ≡ resolution.all_places files.now) }
{
    let types = finder(alloc, files)?;
    let mut found = Items::new(alloc);
    for file in 0..files.len() {
        found.push(file_places(alloc, &types, &files[file], file as u32)?)?;
    }
    Ok(found)
}
