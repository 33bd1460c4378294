//! Methods and fields of files (ECMA-335 II.22.26, II.22.15).
ghost use Rattle.std.specs.Prelude.{◌≡◌, ◌-◌, ◌<◌, ◌≤◌, ◌++◌, ◌^◌, get_or, length, IfOk, OnOk};
ghost use Rattle.cli_tables.specs.Layout.{row_count};
ghost use Rattle.type_members.specs.Members as spec;
ghost use Rattle.type_members.specs.RowIndexes.{AreFileRows, Indexes};
ghost use Rattle.type_members.specs.Trees.{AreNumbered, empty_name};

use crate::file_rows::FileRows;
use crate::formals::{formals_of, method_owner};
use crate::indexed_rows::first_cell;
use crate::row_index::RowIndex;
use crate::signature_trees::{EMPTY_NAME, tree, trees};
use cli_sigs::{SigMethod, SigTy, read_field, read_method};
use cli_tables::Tables;
use clr_base::{DefId, Memory, NameId};
use image_rows::{
    FIELD, FIELD_LAYOUT, FIELD_LIST, METHOD_DEF, METHOD_LIST, blob, owners, row_counts, value_or,
};
use sqlite_items::{Items, at};
use std::alloc::Global;
use type_names::{FileNames, TypeRows};
use type_tree::{Field, Method};

/// The columns of MethodDef (II.22.26) that tell of its flags and its signature.
const METHOD_FLAGS: u8 = 2;

const METHOD_SIGNATURE: u8 = 4;

/// The columns of Field that tell of its flags and its signature.
const FIELD_FLAGS: u8 = 0;

const FIELD_SIGNATURE: u8 = 2;

/// The columns of FieldLayout (II.22.16): Offset, and Field.
const OFFSET: u8 = 0;

const LAID_FIELD: u8 = 1;

/// What stands for a method's signature where the blob is none.
fn no_method(alloc: Global) -> SigMethod
    ensures { result ≡ spec.no_method }
{
    SigMethod {
        has_this: false,
        vararg: false,
        generic: 0,
        ret: SigTy::BuiltIn(1),
        params: Items::new(alloc),
    }
}

/// What a blob says, read as the signature of a method (II.23.2.1, II.23.2.2); where it is none, which is not so in a file that
/// passes its checks, the signature of a method without parameters that returns void.
pub fn method_in(alloc: Global, tables: &Tables<'_>, blob: &[u8]) -> Result<SigMethod, Memory>
    requires { length blob.now < 2 ^ 32 }
    ensures { IfOk result (λ sig. sig ≡ spec.method_in tables.now blob.now) }
{
    let read = read_method(alloc, blob, &row_counts(tables));
    value_or(read, no_method(alloc))
}

/// What a blob says, read as the signature of a field (II.23.2.4); where it is none, the odd type 0.
pub fn field_in(alloc: Global, tables: &Tables<'_>, blob: &[u8]) -> Result<SigTy, Memory>
    requires { length blob.now < 2 ^ 32 }
    ensures { IfOk result (λ sig. sig ≡ spec.field_in tables.now blob.now) }
{
    let read = read_field(alloc, blob, &row_counts(tables));
    value_or(read, SigTy::Odd(0))
}

/// What the blob of a MethodDef row says.
#[tactic(auto, unfolding(crate::specs::Members::method_sig, cli_tables::specs::Schema::columns))]
fn method_sig(alloc: Global, tables: &Tables<'_>, row: u32) -> Result<SigMethod, Memory>
    requires first { 1 ≤ row }
    requires last { row ≤ row_count tables.now.tables 0x06 }
    ensures { IfOk result (λ sig. sig ≡ spec.method_sig tables.now row) }
{
    method_in(
        alloc,
        tables,
        blob(tables, METHOD_DEF, row, METHOD_SIGNATURE),
    )
}

/// What the blob of a Field row says.
#[tactic(auto, unfolding(crate::specs::Members::field_sig, cli_tables::specs::Schema::columns))]
fn field_sig(alloc: Global, tables: &Tables<'_>, row: u32) -> Result<SigTy, Memory>
    requires first { 1 ≤ row }
    requires last { row ≤ row_count tables.now.tables 0x04 }
    ensures { IfOk result (λ sig. sig ≡ spec.field_sig tables.now row) }
{
    field_in(alloc, tables, blob(tables, FIELD, row, FIELD_SIGNATURE))
}

/// The name of a row, among those of its table.
pub(crate) fn name_at(names: &[NameId], row: u32) -> NameId
    ensures { result ≡ get_or names.now (row - 1) empty_name }
{
    let name = at(names, row.saturating_sub(1) as usize).copied();
    name.unwrap_or(EMPTY_NAME)
}

/// The definition in the TypeDef row that owns a member, or 0 where none does.
fn owner_id(types: &TypeRows, def: u32) -> DefId
    requires { AreNumbered types.now }
    ensures { result ≡ spec.owner_id types.now def }
{
    if def >= 1 && def <= types.defs {
        DefId(types.first_def + (def - 1))
    } else {
        DefId(0)
    }
}

/// The method in a row, of the definition in a TypeDef row or of none, which is 0, by its signature.
#[tactic(auto, unfolding(crate::specs::Members::method_of, cli_tables::specs::Schema::columns))]
fn method_of(
    alloc: Global,
    names: &FileNames,
    tables: &Tables<'_>,
    rows: &FileRows,
    sig: &SigMethod,
    def: u32,
    row: u32,
) -> Result<Method, Memory>
    requires numbered { AreNumbered names.now.types }
    requires first { 1 ≤ row }
    requires last { row ≤ row_count tables.now.tables 0x06 }
    requires few { row ≤ 16777215 }
    requires rows { AreFileRows tables.now rows.now }
    requires sig { sig.now ≡ spec.method_sig tables.now row }
    ensures { IfOk result (λ method. method ≡ spec.method_of names.now tables.now def row) }
{
    let types = &names.types;
    let flags = tables.cell(METHOD_DEF, row, METHOD_FLAGS);
    let owner = method_owner(row);
    let formals = formals_of(alloc, types, tables, &rows.params, &rows.constraints, owner)?;
    Ok(Method {
        name: name_at(names.methods.as_slice(), row),
        def: owner_id(types, def),
        flags,
        has_this: sig.has_this,
        vararg: sig.vararg,
        formals,
        ret: tree(alloc, types, &sig.ret)?,
        params: trees(alloc, types, sig.params.as_slice())?,
    })
}

/// The offset in the first FieldLayout row of a field (II.22.16), given an index of these rows by their field.
#[tactic(auto, unfolding(cli_tables::specs::Schema::columns))]
fn place_of(tables: &Tables<'_>, field_layouts: &RowIndex, row: u32) -> Option<u32>
    requires { Indexes tables.now 0x10 1 field_layouts.now }
    ensures { result ≡ spec.place_of tables.now row }
{
    first_cell(tables, field_layouts, FIELD_LAYOUT, LAID_FIELD, OFFSET, row)
}

/// The field in a row, of the definition in a TypeDef row or of none, which is 0.
#[tactic(auto, unfolding(crate::specs::Members::field_of, cli_tables::specs::Schema::columns))]
fn field_of(
    alloc: Global,
    names: &FileNames,
    tables: &Tables<'_>,
    rows: &FileRows,
    def: u32,
    row: u32,
) -> Result<Field, Memory>
    requires numbered { AreNumbered names.now.types }
    requires first { 1 ≤ row }
    requires last { row ≤ row_count tables.now.tables 0x04 }
    requires rows { AreFileRows tables.now rows.now }
    ensures { IfOk result (λ field. field ≡ spec.field_of names.now tables.now def row) }
{
    let sig = field_sig(alloc, tables, row)?;
    Ok(Field {
        name: name_at(names.fields.as_slice(), row),
        def: owner_id(&names.types, def),
        flags: tables.cell(FIELD, row, FIELD_FLAGS),
        ty: tree(alloc, &names.types, &sig)?,
        place: place_of(tables, &rows.field_layouts, row),
    })
}

/// Appends the methods of a file, and how many generic parameters their signatures tell.
#[tactic(auto, unfolding(crate::specs::Members::file_methods, crate::specs::Members::file_generics, cli_tables::specs::Schema::columns))]
pub fn push_methods(
    alloc: Global,
    names: &FileNames,
    tables: &Tables<'_>,
    rows: &FileRows,
    methods: &mut Items<Method>,
    generics: &mut Items<u32>,
) -> Result<(), Memory>
    requires numbered { AreNumbered names.now.types }
    requires rows { AreFileRows tables.now rows.now }
    ensures methods { OnOk result (methods.new ≡ methods.old ++ spec.file_methods names.now tables.now) }
    ensures generics { OnOk result (generics.new ≡ generics.old ++ spec.file_generics tables.now) }
{
    let owners = owners(alloc, tables, METHOD_LIST, METHOD_DEF)?;
    for row in 0..tables.row_count(METHOD_DEF) {
        let sig = method_sig(alloc, tables, row + 1)?;
        let def = owners.as_slice()[row as usize];
        methods.push(method_of(alloc, names, tables, rows, &sig, def, row + 1)?)?;
        generics.push(sig.generic)?;
    }
    Ok(())
}

/// Appends the fields of a file.
#[tactic(auto, unfolding(crate::specs::Members::file_fields, cli_tables::specs::Schema::columns))]
pub fn push_fields(
    alloc: Global,
    names: &FileNames,
    tables: &Tables<'_>,
    rows: &FileRows,
    fields: &mut Items<Field>,
) -> Result<(), Memory>
    requires numbered { AreNumbered names.now.types }
    requires rows { AreFileRows tables.now rows.now }
    ensures { OnOk result (fields.new ≡ fields.old ++ spec.file_fields names.now tables.now) }
{
    let owners = owners(alloc, tables, FIELD_LIST, FIELD)?;
    for row in 0..tables.row_count(FIELD) {
        let def = owners.as_slice()[row as usize];
        fields.push(field_of(alloc, names, tables, rows, def, row + 1)?)?;
    }
    Ok(())
}
