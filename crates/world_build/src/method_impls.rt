//! The methods that MethodImpl rows put in the place of others (ECMA-335 II.22.27).
ghost use Rattle.std.specs.Prelude.{◌≡◌, ◌<◌, ◌≤◌, map, IfOk};
ghost use Rattle.cli_tables.specs.Layout.{row_count};
ghost use Rattle.world_build.specs.MemberRefs.{members_of_refs};
ghost use Rattle.world_build.specs.References as spec;
ghost use Rattle.type_members.specs.RowIndexes.{AreRows, Indexes};

use crate::named_members::{method_only, named_member, named_owner};
use crate::reader::Reader;
use cli_tables::CodedIndex;
use clr_base::Memory;
use image_rows::{METHOD_IMPL, RowOf, coded};
use sqlite_items::Items;
use std::alloc::Global;
use type_members::RowIndex;
use type_tree::{Impl, Member};

/// The columns MethodBody and MethodDeclaration of MethodImpl.
const METHOD_BODY: u8 = 1;

const METHOD_DECLARATION: u8 = 2;

/// The row that has the method in a column, MethodBody or MethodDeclaration, of a MethodImpl row.
#[tactic(auto, unfolding(cli_tables::specs::Schema::columns))]
fn impl_member(reader: &Reader<'_, '_>, row: u32, column: u8) -> Option<RowOf>
    requires first { 1 ≤ row }
    requires last { row ≤ row_count reader.now.tables.tables 0x19 }
    requires column { column < 3 }
    ensures { result ≡ spec.impl_member reader.now row column }
{
    let index = reader.tables().cell(METHOD_IMPL, row, column);
    coded(CodedIndex::MethodDefOrRef, index)
}

/// The body and the declaration in a MethodImpl row, given the members of all MemberRef rows.
#[tactic(auto, unfolding(crate::specs::References::impl_of))]
fn impl_of(
    alloc: Global,
    reader: &Reader<'_, '_>,
    refs: &[Member],
    row: u32,
) -> Result<Impl, Memory>
    requires first { 1 ≤ row }
    requires last { row ≤ row_count reader.now.tables.tables 0x19 }
    requires refs { refs.now ≡ members_of_refs reader.now }
    ensures { IfOk result (λ found. found ≡ spec.impl_of reader.now row) }
{
    let body = impl_member(reader, row, METHOD_BODY);
    let declaration = impl_member(reader, row, METHOD_DECLARATION);
    Ok(Impl {
        body: method_only(named_member(reader, refs, body)),
        owner: named_owner(alloc, reader, declaration)?,
        declaration: method_only(named_member(reader, refs, declaration)),
    })
}

/// The bodies and the declarations in some MethodImpl rows.
fn impls_in(
    alloc: Global,
    reader: &Reader<'_, '_>,
    refs: &[Member],
    rows: &[u32],
) -> Result<Items<Impl>, Memory>
    requires refs { refs.now ≡ members_of_refs reader.now }
    requires rows { AreRows reader.now.tables 0x19 rows.now }
    ensures { IfOk result (λ impls. impls ≡ map (spec.impl_of reader.now) rows.now) }
{
    let mut impls = Items::new(alloc);
    for row in rows {
        impls.push(impl_of(alloc, reader, refs, *row)?)?;
    }
    Ok(impls)
}

/// Those of the definition in a TypeDef row, in order, given the members of all MemberRef rows and an index of MethodImpl
/// rows by their class. Takes memory and time in these rows and in the signatures of the types that own the declarations.
#[tactic(auto, unfolding(crate::specs::References::impls_of))]
pub fn impls_of(
    alloc: Global,
    reader: &Reader<'_, '_>,
    refs: &[Member],
    method_impls: &RowIndex,
    row: u32,
) -> Result<Items<Impl>, Memory>
    requires refs { refs.now ≡ members_of_refs reader.now }
    requires rows { Indexes reader.now.tables 0x19 0 method_impls.now }
    ensures { IfOk result (λ impls. impls ≡ spec.impls_of reader.now row) }
{
    let rows = method_impls.rows(row);
    impls_in(alloc, reader, refs, rows)
}
