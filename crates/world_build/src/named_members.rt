//! The members that coded indexes MethodDefOrRef mean (ECMA-335 II.24.2.6), and the types that own them.
ghost use Rattle.std.specs.Prelude.{◌≡◌, IfOk};
ghost use Rattle.world_build.specs.MemberRefs.{members_of_refs};
ghost use Rattle.world_build.specs.References as spec;

use crate::reader::Reader;
use crate::references::ref_owner;
use clr_base::{Memory, MethId};
use image_rows::{MEMBER_REF, METHOD_DEF, METHOD_LIST, RowOf, loose};
use sqlite_items::Items;
use std::alloc::Global;
use type_members::{def_type, nothing};
use type_tree::{Member, Ty};

/// The member of a MethodDef row: none where no definition owns the row.
#[tactic(auto, unfolding(cli_tables::specs::Schema::columns))]
fn def_member(reader: &Reader<'_, '_>, row: u32) -> Member
    ensures { result ≡ spec.def_member reader.now row }
{
    let tables = reader.tables();
    if row <= loose(tables, METHOD_LIST, METHOD_DEF) {
        return Member::Lost;
    }
    if row > tables.row_count(METHOD_DEF) {
        return Member::Lost;
    }
    Member::Method(reader.method(row))
}

/// The member of a MemberRef row, given those of all of them.
fn ref_member(reader: &Reader<'_, '_>, refs: &[Member], row: u32) -> Member
    requires { refs.now ≡ members_of_refs reader.now }
    ensures { result ≡ spec.ref_member reader.now row }
{
    if row < 1 || row > reader.tables().row_count(MEMBER_REF) {
        return Member::Lost;
    }
    refs[row as usize - 1]
}

/// The member in a row of MethodDef or of MemberRef, none where the row is none, given the members of all MemberRef rows.
/// Takes no memory and constant time.
#[tactic(auto, unfolding(crate::specs::References::named_member))]
pub fn named_member(reader: &Reader<'_, '_>, refs: &[Member], named: Option<RowOf>) -> Member
    requires { refs.now ≡ members_of_refs reader.now }
    ensures { result ≡ spec.named_member reader.now named }
{
    match named {
        Some(r) if r.table == METHOD_DEF => def_member(reader, r.row),
        Some(r) => ref_member(reader, refs, r.row),
        None => Member::Lost,
    }
}

/// The type that owns a MethodDef row.
fn def_owner(alloc: Global, reader: &Reader<'_, '_>, row: u32) -> Ty
    ensures { result ≡ spec.def_owner reader.now row }
{
    if row < 1 || row > reader.tables().row_count(METHOD_DEF) {
        return nothing(false);
    }
    def_type(reader.types(), Items::new(alloc), false, reader.owner(row))
}

/// The type that owns a MemberRef row.
fn ref_owner_or_none(alloc: Global, reader: &Reader<'_, '_>, row: u32) -> Result<Ty, Memory>
    ensures { IfOk result (λ t. t ≡ spec.ref_owner_or_none reader.now row) }
{
    if row < 1 || row > reader.tables().row_count(MEMBER_REF) {
        return Ok(nothing(false));
    }
    ref_owner(alloc, reader, row)
}

/// The type that owns the member in a row of MethodDef or of MemberRef, as the row names it.
#[tactic(auto, unfolding(crate::specs::References::named_owner))]
pub fn named_owner(
    alloc: Global,
    reader: &Reader<'_, '_>,
    named: Option<RowOf>,
) -> Result<Ty, Memory>
    ensures { IfOk result (λ t. t ≡ spec.named_owner reader.now named) }
{
    match named {
        Some(r) if r.table == METHOD_DEF => Ok(def_owner(alloc, reader, r.row)),
        Some(r) => ref_owner_or_none(alloc, reader, r.row),
        None => Ok(nothing(false)),
    }
}

/// The method that a member is.
pub fn method_only(member: Member) -> Option<MethId>
    ensures { result ≡ spec.method_only member }
{
    match member {
        Member::Method(method) => Some(method),
        _ => None,
    }
}
