//! The names of type references (ECMA-335 II.22.38).
ghost use Rattle.std.specs.Prelude.{◌≡◌, ◌≤◌, IfOk};
ghost use Rattle.cli_tables.specs.Layout.{row_count};
ghost use Rattle.image_rows.specs.TypeNames as spec;

use crate::cells::{RowOf, coded, text};
use crate::definition_names::{push_nested, qualified};
use crate::table_numbers::TYPE_REF;
use cli_tables::{CodedIndex, Tables};
use clr_base::{Memory, Text};
use std::alloc::Global;

/// The column ResolutionScope of TypeRef.
const SCOPE: u8 = 0;

/// The column Name of TypeRef.
const NAME: u8 = 1;

/// The column Namespace of TypeRef.
const NAMESPACE: u8 = 2;

/// The most scopes that one goes through, the last one counted.
pub const MOST_SCOPES: u8 = 64;

/// Where the reference in a row is resolved.
#[tactic(auto, unfolding(cli_tables::specs::Schema::columns))]
pub fn scope(tables: &Tables<'_>, row: u32) -> Option<RowOf>
    requires first { 1 ≤ row }
    requires last { row ≤ row_count tables.now.tables 1 }
    ensures { result ≡ spec.scope tables.now row }
{
    coded(
        CodedIndex::ResolutionScope,
        tables.cell(TYPE_REF, row, SCOPE),
    )
}

/// The row of the reference around the one in a row, 0 where there is none.
fn outer(tables: &Tables<'_>, row: u32) -> u32
    requires first { 1 ≤ row }
    requires last { row ≤ row_count tables.now.tables 1 }
    ensures exact { result ≡ spec.outer tables.now row }
    ensures last { result ≤ row_count tables.now.tables 1 }
{
    match scope(tables, row) {
        Some(s) if s.table == TYPE_REF && s.row <= tables.row_count(TYPE_REF) => s.row,
        _ => 0,
    }
}

/// Whether the scopes of the reference in a row come to an end with so many of them at most.
#[tactic(auto, unfolding(crate::specs::TypeNames::ends_within))]
fn ends_within(tables: &Tables<'_>, row: u32, most: u8) -> bool
    requires first { 1 ≤ row }
    requires last { row ≤ row_count tables.now.tables 1 }
    ensures { result ≡ spec.ends_within most tables.now row }
{
    if most == 0 {
        return scope(tables, row).is_none();
    }
    let outer = outer(tables, row);
    outer == 0 || ends_within(tables, outer, most - 1)
}

/// The name in a row.
#[tactic(auto, unfolding(cli_tables::specs::Schema::columns))]
fn own_name<'a>(tables: &Tables<'a>, row: u32) -> &'a str
    requires first { 1 ≤ row }
    requires last { row ≤ row_count tables.now.tables 1 }
    ensures { result.now ≡ spec.ref_name tables.now row }
{
    text(tables, TYPE_REF, row, NAME)
}

/// The name in a row behind its namespace.
#[tactic(auto, unfolding(cli_tables::specs::Schema::columns))]
fn own_full_name(alloc: Global, tables: &Tables<'_>, row: u32) -> Result<Text, Memory>
    requires first { 1 ≤ row }
    requires last { row ≤ row_count tables.now.tables 1 }
    ensures { IfOk result (λ name. name ≡ spec.qualified (spec.ref_namespace tables.now row) (spec.ref_name tables.now row)) }
{
    let namespace = text(tables, TYPE_REF, row, NAMESPACE);
    qualified(alloc, namespace, own_name(tables, row))
}

/// The name of the reference in a row behind those of the references around it, of which at most so many are looked at.
#[tactic(auto, unfolding(crate::specs::TypeNames::ref_name_within))]
fn name_within(alloc: Global, tables: &Tables<'_>, row: u32, most: u8) -> Result<Text, Memory>
    requires first { 1 ≤ row }
    requires last { row ≤ row_count tables.now.tables 1 }
    ensures { IfOk result (λ name. name ≡ spec.ref_name_within most tables.now row) }
{
    if most == 0 {
        return own_full_name(alloc, tables, row);
    }
    let outer = outer(tables, row);
    if outer == 0 {
        return own_full_name(alloc, tables, row);
    }
    let mut name = name_within(alloc, tables, outer, most - 1)?;
    push_nested(&mut name, own_name(tables, row))?;
    Ok(name)
}

/// The name of the reference in a row where it names no definition: a nested one is named behind the reference around it,
/// where the scopes come to an end. Takes time and memory in the length of the name.
#[tactic(auto, unfolding(crate::specs::TypeNames::name_of_ref))]
pub fn name_of_ref(alloc: Global, tables: &Tables<'_>, row: u32) -> Result<Text, Memory>
    requires first { 1 ≤ row }
    requires last { row ≤ row_count tables.now.tables 1 }
    ensures { IfOk result (λ name. name ≡ spec.name_of_ref tables.now row) }
{
    if ends_within(tables, row, MOST_SCOPES) {
        name_within(alloc, tables, row, MOST_SCOPES)
    } else {
        own_full_name(alloc, tables, row)
    }
}
