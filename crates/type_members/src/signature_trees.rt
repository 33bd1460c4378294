//! The trees of types that a file's rows and signatures mean.
ghost use Rattle.std.specs.Prelude.{◌≡◌, IfOk};
ghost use Rattle.cli_tables.specs.Layout.{IsCell};
ghost use Rattle.type_members.specs.Trees as spec;
ghost use Rattle.type_members.specs.Trees.{AreNumbered};

use cli_sigs::{SigTy, read_type_spec};
use cli_tables::{CodedIndex, Tables};
use clr_base::{DefId, Memory, NameId};
use core_types::{CoreType, NAME_COUNT};
use image_rows::{RowOf, TYPE_DEF, TYPE_REF, TYPE_SPEC, blob, coded, row_counts, value_or};
use sqlite_items::{Boxed, Items, at};
use std::alloc::Global;
use type_names::{Target, TypeRows};
use type_tree::{Ty, TyList, with_room};

/// The number of the empty name, which stands behind the names of the core.
pub(crate) const EMPTY_NAME: NameId = NameId(NAME_COUNT as u32);

/// The type of the core that a built-in code means (II.23.1.16).
#[tactic(auto, unfolding(crate::specs::Trees::built_in))]
fn built_in(code: u8) -> CoreType
    ensures { result ≡ spec.built_in code }
{
    match code {
        0x01 => CoreType::Void,
        0x02 => CoreType::Boolean,
        0x03 => CoreType::Char,
        0x04 => CoreType::SByte,
        0x05 => CoreType::Byte,
        0x06 => CoreType::Int16,
        0x07 => CoreType::UInt16,
        0x08 => CoreType::Int32,
        0x09 => CoreType::UInt32,
        0x0a => CoreType::Int64,
        0x0b => CoreType::UInt64,
        0x0c => CoreType::Single,
        0x0d => CoreType::Double,
        0x0e => CoreType::String,
        0x18 => CoreType::IntPtr,
        0x19 => CoreType::UIntPtr,
        _ => CoreType::Object,
    }
}

/// What stands for a row that doesn't exist, which is not so in a file that passes its checks.
pub fn nothing(value: bool) -> Ty
    ensures { result ≡ spec.nothing value }
{
    Ty::Missing(EMPTY_NAME, value)
}

/// The type that a reference means, with arguments, by whether the signature calls it a value type. One that is missing
/// keeps no arguments.
fn target_type(args: TyList, value: bool, target: Option<Target>) -> Ty
    ensures { result ≡ spec.target_type args value target }
{
    match target {
        None => nothing(value),
        Some(Target::Def(def)) => Ty::Inst(def, args),
        Some(Target::Missing(name)) => Ty::Missing(name, value),
    }
}

/// The type of the definition in a TypeDef row, with arguments.
pub fn def_type(types: &TypeRows, args: TyList, value: bool, row: u32) -> Ty
    requires { AreNumbered types.now }
    ensures { result ≡ spec.def_type types.now args value row }
{
    if row >= 1 && row <= types.defs {
        Ty::Inst(DefId(types.first_def + (row - 1)), args)
    } else {
        nothing(value)
    }
}

/// The type that a TypeDef or a TypeRef row means, with arguments.
fn row_type(types: &TypeRows, args: TyList, value: bool, row: Option<RowOf>) -> Ty
    requires { AreNumbered types.now }
    ensures { result ≡ spec.row_type types.now args value row }
{
    let Some(r) = row else {
        return nothing(value);
    };
    if r.table == TYPE_DEF {
        def_type(types, args, value, r.row)
    } else if r.table == TYPE_REF {
        let target = at(types.refs.as_slice(), r.row.saturating_sub(1) as usize);
        target_type(args, value, target.copied())
    } else {
        nothing(value)
    }
}

/// The tree of a signature's type. Takes memory and time in the signature's length.
#[cycle(tree)]
#[tactic(auto, unfolding(crate::specs::Trees::tree, crate::specs::Trees::trees))]
pub fn tree(alloc: Global, types: &TypeRows, sig: &SigTy) -> Result<Ty, Memory>
    requires { AreNumbered types.now }
    ensures { IfOk result (λ t. t ≡ spec.tree types.now sig.now) }
{
    match sig {
        SigTy::BuiltIn(code) => Ok(Ty::Inst(built_in(*code).def(), Items::new(alloc))),
        SigTy::Inst(index, value, parts) => {
            let args = trees(alloc, types, parts.as_slice())?;
            let row = coded(CodedIndex::TypeDefOrRef, *index);
            Ok(row_type(types, args, *value, row))
        }
        SigTy::Array(part) => {
            let part = tree(alloc, types, part.get())?;
            Ok(Ty::Array(Boxed::new(alloc, part)?))
        }
        SigTy::ByRef(part) => {
            let part = tree(alloc, types, part.get())?;
            Ok(Ty::ByRef(Boxed::new(alloc, part)?))
        }
        SigTy::Ptr(part) => {
            let part = tree(alloc, types, part.get())?;
            Ok(Ty::Ptr(Boxed::new(alloc, part)?))
        }
        SigTy::Var(n) => Ok(Ty::Var(*n)),
        SigTy::MVar(n) => Ok(Ty::MVar(*n)),
        SigTy::Odd(code) => Ok(Ty::Odd(*code)),
    }
}

/// The tree of each of some types.
#[cycle(tree)]
#[tactic(auto, unfolding(crate::specs::Trees::tree, crate::specs::Trees::trees))]
pub fn trees(alloc: Global, types: &TypeRows, sigs: &[SigTy]) -> Result<TyList, Memory>
    requires { AreNumbered types.now }
    ensures { IfOk result (λ ts. ts ≡ spec.trees types.now sigs.now) }
{
    let mut done = with_room(alloc, sigs.len())?;
    for sig in sigs {
        done.push(tree(alloc, types, sig)?)?;
    }
    Ok(done)
}

/// The signature of a TypeSpec row.
#[tactic(auto, unfolding(crate::specs::Trees::spec_sig))]
fn spec_sig(alloc: Global, tables: &Tables<'_>, row: u32) -> Result<SigTy, Memory>
    requires { IsCell tables.now.tables 0x1B row 0 }
    ensures { IfOk result (λ sig. sig ≡ spec.spec_sig tables.now row) }
{
    let bytes = blob(tables, TYPE_SPEC, row, 0);
    let read = read_type_spec(alloc, bytes, &row_counts(tables));
    value_or(read, SigTy::Odd(0))
}

/// The type of a TypeSpec row.
fn spec_type(alloc: Global, types: &TypeRows, tables: &Tables<'_>, row: u32) -> Result<Ty, Memory>
    requires { AreNumbered types.now }
    ensures { IfOk result (λ t. t ≡ spec.spec_type types.now tables.now row) }
{
    if row < 1 || row > tables.row_count(TYPE_SPEC) {
        return Ok(nothing(false));
    }
    tree(alloc, types, &spec_sig(alloc, tables, row)?)
}

/// The type that a row of TypeDef, TypeRef or TypeSpec means; for no row, or one of another table, the missing type with the
/// empty name.
#[tactic(auto, unfolding(crate::specs::Trees::type_at_row))]
pub fn type_at_row(
    alloc: Global,
    types: &TypeRows,
    tables: &Tables<'_>,
    row: Option<RowOf>,
) -> Result<Ty, Memory>
    requires { AreNumbered types.now }
    ensures { IfOk result (λ t. t ≡ spec.type_at_row types.now tables.now row) }
{
    match row {
        Some(r) if r.table == TYPE_SPEC => spec_type(alloc, types, tables, r.row),
        _ => Ok(row_type(types, Items::new(alloc), false, row)),
    }
}

/// The type that a coded index means.
pub(crate) fn coded_type(
    alloc: Global,
    types: &TypeRows,
    tables: &Tables<'_>,
    index: u32,
) -> Result<Ty, Memory>
    requires { AreNumbered types.now }
    ensures { IfOk result (λ t. t ≡ spec.coded_type types.now tables.now index) }
{
    type_at_row(alloc, types, tables, coded(CodedIndex::TypeDefOrRef, index))
}
