//! The methods that MethodSpec rows name, with their arguments (ECMA-335 II.22.29).
ghost use Rattle.std.specs.Prelude.{◌≡◌, ◌≤◌, IfOk};
ghost use Rattle.cli_tables.specs.Layout.{row_count};
ghost use Rattle.world_build.specs.MemberRefs.{members_of_refs};
ghost use Rattle.world_build.specs.References as spec;

use crate::named_members::{method_only, named_member, named_owner};
use crate::reader::Reader;
use crate::references::method_member;
use cli_sigs::read_method_spec;
use cli_tables::{CodedIndex, Tables};
use clr_base::{Memory, MethId};
use image_rows::{METHOD_SPEC, RowOf, blob, coded, row_counts, value_or};
use sqlite_items::Items;
use std::alloc::Global;
use type_members::trees;
use type_tree::{Key, Member, MethKey, Ty, TyList};

/// The columns of MethodSpec: Method and Instantiation.
const METHOD: u8 = 0;

const INSTANTIATION: u8 = 1;

/// The row that has the method of a MethodSpec row.
#[tactic(auto, unfolding(cli_tables::specs::Schema::columns))]
fn spec_row(tables: &Tables<'_>, row: u32) -> Option<RowOf>
    requires first { 1 ≤ row }
    requires last { row ≤ row_count tables.now.tables 0x2B }
    ensures { result ≡ spec.spec_row tables.now row }
{
    coded(
        CodedIndex::MethodDefOrRef,
        tables.cell(METHOD_SPEC, row, METHOD),
    )
}

/// The arguments of the method in a MethodSpec row.
#[tactic(auto, unfolding(crate::specs::References::spec_args, cli_tables::specs::Schema::columns))]
fn spec_args(alloc: Global, reader: &Reader<'_, '_>, row: u32) -> Result<TyList, Memory>
    requires first { 1 ≤ row }
    requires last { row ≤ row_count reader.now.tables.tables 0x2B }
    ensures { IfOk result (λ args. args ≡ spec.spec_args reader.now row) }
{
    let tables = reader.tables();
    let bytes = blob(tables, METHOD_SPEC, row, INSTANTIATION);
    let read = read_method_spec(alloc, bytes, &row_counts(tables));
    let sigs = value_or(read, Items::new(alloc))?;
    trees(alloc, reader.types(), sigs.as_slice())
}

/// The method in a MethodSpec row, none where it is missing, given the members of all MemberRef rows.
#[tactic(auto, unfolding(crate::specs::References::spec_method))]
fn spec_method(reader: &Reader<'_, '_>, refs: &[Member], row: u32) -> Option<MethId>
    requires first { 1 ≤ row }
    requires last { row ≤ row_count reader.now.tables.tables 0x2B }
    requires refs { refs.now ≡ members_of_refs reader.now }
    ensures { result ≡ spec.spec_method reader.now row }
{
    let named = spec_row(reader.tables(), row);
    method_only(named_member(reader, refs, named))
}

/// The member in a MethodSpec row, given the members of all MemberRef rows. Takes no memory and constant time.
#[tactic(auto, unfolding(crate::specs::References::method_spec))]
pub fn method_spec(reader: &Reader<'_, '_>, refs: &[Member], row: u32) -> Member
    requires first { 1 ≤ row }
    requires last { row ≤ row_count reader.now.tables.tables 0x2B }
    requires refs { refs.now ≡ members_of_refs reader.now }
    ensures { result ≡ spec.method_spec reader.now row }
{
    method_member(spec_method(reader, refs, row))
}

/// The key of a method with its owner and its arguments; the owner's type where the method is missing.
fn spec_key_at(owner: Ty, args: TyList, method: Option<MethId>) -> Key
    ensures { result ≡ spec.spec_key_at owner args method }
{
    match method {
        Some(method) => Key::Meth(MethKey {
            owner,
            method,
            args,
        }),
        None => Key::Tree(owner),
    }
}

/// The key of the method in a MethodSpec row, given the members of all MemberRef rows. Takes memory and time in the
/// signatures that the row names.
#[tactic(auto, unfolding(crate::specs::References::spec_key))]
pub fn spec_key(
    alloc: Global,
    reader: &Reader<'_, '_>,
    refs: &[Member],
    row: u32,
) -> Result<Key, Memory>
    requires first { 1 ≤ row }
    requires last { row ≤ row_count reader.now.tables.tables 0x2B }
    requires refs { refs.now ≡ members_of_refs reader.now }
    ensures { IfOk result (λ key. key ≡ spec.spec_key reader.now row) }
{
    let owner = named_owner(alloc, reader, spec_row(reader.tables(), row))?;
    let args = spec_args(alloc, reader, row)?;
    Ok(spec_key_at(owner, args, spec_method(reader, refs, row)))
}
