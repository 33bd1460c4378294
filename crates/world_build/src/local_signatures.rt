//! The local variables of a file's methods (ECMA-335 II.22.36, II.23.2.6).
ghost use Rattle.std.specs.Prelude.{◌≡◌, ◌+◌, ◌≤◌, ◌++◌, length, map, IfOk, OnOk};
ghost use Rattle.std.specs.Option.{option_map, option_map_or};
ghost use Rattle.cli_tables.specs.Layout.{row_count};
ghost use Rattle.type_tree.specs.declared.tree.Key.TheVariants as key;
ghost use Rattle.image_files.specs.Signatures as signatures;
ghost use Rattle.world_build.specs.Signatures as spec;
ghost use Rattle.type_members.specs.Trees.{AreNumbered, tree as tree_of};

use cli_sigs::{SigTyList, read_locals};
use cli_tables::Tables;
use clr_base::{Memory, SigId};
use image_rows::{LOCALS_CODE, STAND_ALONE_SIG, begins_with, blob_by, row_counts, value_or};
use sqlite_items::Items;
use std::alloc::Global;
use type_members::tree;
use type_names::TypeRows;
use type_tree::{Key, KeyList, Locals};

/// The types of the local variables that the blob at an index lists (II.23.2.6), none where it doesn't begin with 07.
#[tactic(auto, unfolding(image_files::specs::Signatures::locals_by))]
fn locals_by(alloc: Global, tables: &Tables<'_>, index: u32) -> Result<Option<SigTyList>, Memory>
    ensures { IfOk result (λ listed. listed ≡ signatures.locals_by tables.now index) }
{
    let blob = blob_by(tables, index);
    if !begins_with(LOCALS_CODE, blob) {
        return Ok(None);
    }
    let read = read_locals(alloc, blob, &row_counts(tables));
    Ok(Some(value_or(read, Items::new(alloc))?))
}

/// Appends the trees of some local variables.
fn push_trees(
    alloc: Global,
    types: &TypeRows,
    listed: &SigTyList,
    keys: &mut KeyList,
) -> Result<(), Memory>
    requires { AreNumbered types.now }
    ensures { OnOk result (keys.new ≡ keys.old ++ map (λ t. key.Tree (tree_of types.now t)) listed.now) }
{
    for sig in listed.as_slice() {
        keys.push(Key::Tree(tree(alloc, types, sig)?))?;
    }
    Ok(())
}

/// Appends the local variables of a row, and tells where they stand, the first having a number.
#[tactic(auto, unfolding(cli_tables::specs::Schema::columns))]
fn push_row(
    alloc: Global,
    types: &TypeRows,
    tables: &Tables<'_>,
    row: u32,
    first: u32,
    keys: &mut KeyList,
) -> Result<Option<Locals>, Memory>
    requires numbered { AreNumbered types.now }
    requires first { 1 ≤ row }
    requires last { row ≤ row_count tables.now.tables 0x11 }
    requires few { length (signatures.listed (signatures.locals_in tables.now row)) ≤ 16777215 }
    ensures keys { OnOk result (keys.new ≡ keys.old ++ map (λ t. key.Tree (tree_of types.now t)) (signatures.listed (signatures.locals_in tables.now row))) }
    ensures place { IfOk result (λ place. place ≡ option_map (λ ts. record { first = record { 0 = first }; count = length ts }) (signatures.locals_in tables.now row)) }
{
    let index = tables.cell(STAND_ALONE_SIG, row, 0);
    let Some(listed) = locals_by(alloc, tables, index)? else {
        return Ok(None);
    };
    push_trees(alloc, types, &listed, keys)?;
    Ok(Some(Locals {
        first: SigId(first),
        count: listed.len() as u32,
    }))
}

/// How many local variables stand at a place.
fn count_at(place: Option<Locals>) -> u32
    ensures { result ≡ option_map_or (λ locals. locals.count) place 0 }
{
    match place {
        Some(locals) => locals.count,
        None => 0,
    }
}

/// Appends the local variables of all rows, and tells where those of each row stand, the file's first signature having a
/// number and so many signatures of rows standing before them.
#[tactic(auto, unfolding(crate::specs::Signatures::local_keys, crate::specs::Signatures::locals_of))]
pub fn push_locals(
    alloc: Global,
    types: &TypeRows,
    tables: &Tables<'_>,
    first: u32,
    row_sigs: u32,
    keys: &mut KeyList,
) -> Result<Items<Option<Locals>>, Memory>
    requires numbered { AreNumbered types.now }
    requires rows { row_sigs ≡ signatures.row_sigs tables.now }
    requires few { first + signatures.sigs_in tables.now ≤ 16777215 }
    ensures keys { OnOk result (keys.new ≡ keys.old ++ spec.local_keys types.now tables.now) }
    ensures places { IfOk result (λ places. places ≡ spec.locals_of tables.now first) }
{
    let mut places = Items::new(alloc);
    let mut next = first + row_sigs;
    for row in 0..tables.row_count(STAND_ALONE_SIG) {
        let place = push_row(alloc, types, tables, row + 1, next, keys)?;
        next += count_at(place);
        places.push(place)?;
    }
    Ok(places)
}
