//! The members that MemberRef rows name (ECMA-335 II.22.25), and the types that own them.
ghost use Rattle.std.specs.Prelude.{◌≡◌, ◌≤◌, IfOk};
ghost use Rattle.cli_tables.specs.Layout.{row_count};
ghost use Rattle.type_tree.specs.Kinds as kinds;
ghost use Rattle.world_build.specs.References as spec;

use crate::reader::Reader;
use cli_sigs::{SigMethod, SigTy, read_field, read_method};
use cli_tables::{CodedIndex, Tables};
use clr_base::{FieldId, Memory, MethId, NameId};
use image_rows::{FIELD_CODE, MEMBER_REF, begins_with, blob, coded, text};
use std::alloc::Global;
use type_members::{field_in, method_in, open_of, tree, type_at_row};
use type_tree::{Member, Ty};

/// The columns of MemberRef: Class, Name and Signature.
pub const CLASS: u8 = 0;

pub const NAME: u8 = 1;

pub const SIGNATURE: u8 = 2;

/// The type that owns the member in a MemberRef row: the missing type with the empty name where its parent is a method, a
/// module or none.
#[tactic(auto, unfolding(crate::specs::References::ref_owner, cli_tables::specs::Schema::columns))]
pub fn ref_owner(alloc: Global, reader: &Reader<'_, '_>, row: u32) -> Result<Ty, Memory>
    requires first { 1 ≤ row }
    requires last { row ≤ row_count reader.now.tables.tables 0x0A }
    ensures { IfOk result (λ t. t ≡ spec.ref_owner reader.now row) }
{
    let class = reader.tables().cell(MEMBER_REF, row, CLASS);
    let parent = coded(CodedIndex::MemberRefParent, class);
    type_at_row(alloc, reader.types(), reader.tables(), parent)
}

/// What the blob of a MemberRef row says, read as the signature of a method.
#[tactic(auto, unfolding(crate::specs::References::ref_method_sig, cli_tables::specs::Schema::columns))]
fn ref_method_sig(alloc: Global, tables: &Tables<'_>, row: u32) -> Result<SigMethod, Memory>
    requires first { 1 ≤ row }
    requires last { row ≤ row_count tables.now.tables 0x0A }
    ensures { IfOk result (λ sig. sig ≡ spec.ref_method_sig tables.now row) }
{
    method_in(alloc, tables, blob(tables, MEMBER_REF, row, SIGNATURE))
}

/// What the blob of a MemberRef row says, read as the signature of a field.
#[tactic(auto, unfolding(crate::specs::References::ref_field_sig, cli_tables::specs::Schema::columns))]
fn ref_field_sig(alloc: Global, tables: &Tables<'_>, row: u32) -> Result<SigTy, Memory>
    requires first { 1 ≤ row }
    requires last { row ≤ row_count tables.now.tables 0x0A }
    ensures { IfOk result (λ sig. sig ≡ spec.ref_field_sig tables.now row) }
{
    field_in(alloc, tables, blob(tables, MEMBER_REF, row, SIGNATURE))
}

/// The name of the member in a MemberRef row.
#[tactic(auto, unfolding(crate::specs::References::ref_name_id, cli_tables::specs::Schema::columns))]
fn ref_name_id(reader: &Reader<'_, '_>, row: u32) -> NameId
    requires first { 1 ≤ row }
    requires last { row ≤ row_count reader.now.tables.tables 0x0A }
    ensures { result ≡ spec.ref_name_id reader.now row }
{
    reader.name(text(reader.tables(), MEMBER_REF, row, NAME))
}

/// The number of the definition at the head of a type.
fn head(ty: &Ty) -> Option<u32>
    ensures { result ≡ kinds.head ty.now }
{
    match ty {
        Ty::Inst(def, _) => Some(def.0),
        _ => None,
    }
}

/// The field of the parent's definition that a MemberRef row names.
fn found_field(alloc: Global, reader: &Reader<'_, '_>, row: u32) -> Result<Option<FieldId>, Memory>
    requires first { 1 ≤ row }
    requires last { row ≤ row_count reader.now.tables.tables 0x0A }
    ensures { IfOk result (λ field. field ≡ spec.found_field reader.now row) }
{
    let owner = ref_owner(alloc, reader, row)?;
    let Some(def) = head(&owner) else {
        return Ok(None);
    };
    let sig = ref_field_sig(alloc, reader.tables(), row)?;
    let ty = tree(alloc, reader.types(), &sig)?;
    Ok(reader.own_field(def, ref_name_id(reader, row), &ty))
}

/// The method of the parent's definition that a MemberRef row names.
fn found_method(alloc: Global, reader: &Reader<'_, '_>, row: u32) -> Result<Option<MethId>, Memory>
    requires first { 1 ≤ row }
    requires last { row ≤ row_count reader.now.tables.tables 0x0A }
    ensures { IfOk result (λ method. method ≡ spec.found_method reader.now row) }
{
    let owner = ref_owner(alloc, reader, row)?;
    let Some(def) = head(&owner) else {
        return Ok(None);
    };
    let sig = ref_method_sig(alloc, reader.tables(), row)?;
    let wanted = open_of(alloc, reader.types(), &sig)?;
    Ok(reader.own_method(def, ref_name_id(reader, row), &wanted))
}

/// A field that may be missing.
fn field_member(field: Option<FieldId>) -> Member
    ensures { result ≡ spec.field_member field }
{
    match field {
        Some(field) => Member::Field(field),
        None => Member::Lost,
    }
}

/// A method that may be missing.
pub fn method_member(method: Option<MethId>) -> Member
    ensures { result ≡ spec.method_member method }
{
    match method {
        Some(method) => Member::Method(method),
        None => Member::Lost,
    }
}

/// The member in a MemberRef row: the first of the parent's definition that has its name and its signature. Those that the
/// definition inherits aren't looked at. Takes memory and time in the signatures that the row names, and time in those of
/// the members that have the name.
#[tactic(auto, unfolding(crate::specs::References::member_ref, cli_tables::specs::Schema::columns))]
pub fn member_ref(alloc: Global, reader: &Reader<'_, '_>, row: u32) -> Result<Member, Memory>
    requires first { 1 ≤ row }
    requires last { row ≤ row_count reader.now.tables.tables 0x0A }
    ensures { IfOk result (λ member. member ≡ spec.member_ref reader.now row) }
{
    let bytes = blob(reader.tables(), MEMBER_REF, row, SIGNATURE);
    if begins_with(FIELD_CODE, bytes) {
        Ok(field_member(found_field(alloc, reader, row)?))
    } else {
        Ok(method_member(found_method(alloc, reader, row)?))
    }
}
