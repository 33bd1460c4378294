//! All signatures of a file, in their order.
ghost use Rattle.std.specs.Prelude.{◌≡◌, ◌+◌, ◌≤◌, ◌++◌, map, IfOk, OnOk};
ghost use Rattle.type_tree.specs.declared.tree.Key.TheVariants as key;
ghost use Rattle.type_tree.specs.declared.tree.Ty.TheVariants as ty;
ghost use Rattle.image_rows.specs.Cells.{rows_of};
ghost use Rattle.image_files.specs.Signatures as signatures;
ghost use Rattle.world_build.specs.MemberRefs.{members_of_refs as all_refs};
ghost use Rattle.world_build.specs.References as references;
ghost use Rattle.world_build.specs.Signatures as spec;
ghost use Rattle.type_members.specs.Trees.{AreNumbered};

use crate::local_signatures::push_locals;
use crate::method_specs::spec_key;
use crate::reader::Reader;
use crate::references::ref_owner;
use crate::row_signatures::{push_arrays, push_owners, push_types};
use cli_tables::Tables;
use clr_base::Memory;
use image_files::row_sigs;
use image_rows::{
    FIELD, FIELD_LIST, MEMBER_REF, METHOD_DEF, METHOD_LIST, METHOD_SPEC, TYPE_DEF, TYPE_REF,
    TYPE_SPEC,
};
use sqlite_items::Items;
use std::alloc::Global;
use type_names::TypeRows;
use type_tree::{Key, KeyList, Locals, Member};

/// Appends the types that rows are, and the array of each of them.
#[tactic(auto, unfolding(crate::specs::Signatures::row_types))]
fn push_row_types(
    alloc: Global,
    types: &TypeRows,
    tables: &Tables<'_>,
    keys: &mut KeyList,
) -> Result<(), Memory>
    requires { AreNumbered types.now }
    ensures { OnOk result (keys.new ≡ keys.old ++ map key.Tree (spec.row_types types.now tables.now) ++ map (λ t. key.Tree (ty.Array t)) (spec.row_types types.now tables.now)) }
{
    push_types(alloc, types, tables, TYPE_DEF, keys)?;
    push_types(alloc, types, tables, TYPE_REF, keys)?;
    push_types(alloc, types, tables, TYPE_SPEC, keys)?;
    push_arrays(alloc, types, tables, TYPE_DEF, keys)?;
    push_arrays(alloc, types, tables, TYPE_REF, keys)?;
    push_arrays(alloc, types, tables, TYPE_SPEC, keys)?;
    Ok(())
}

/// Appends the owner of each MemberRef row.
fn push_ref_owners(alloc: Global, reader: &Reader<'_, '_>, keys: &mut KeyList) -> Result<(), Memory>
    ensures { OnOk result (keys.new ≡ keys.old ++ map (λ row. key.Tree (references.ref_owner reader.now row)) (rows_of reader.now.tables 0x0A)) }
{
    for row in 0..reader.tables().row_count(MEMBER_REF) {
        keys.push(Key::Tree(ref_owner(alloc, reader, row + 1)?))?;
    }
    Ok(())
}

/// Appends the key of each MethodSpec row.
fn push_spec_keys(
    alloc: Global,
    reader: &Reader<'_, '_>,
    refs: &[Member],
    keys: &mut KeyList,
) -> Result<(), Memory>
    requires { refs.now ≡ all_refs reader.now }
    ensures { OnOk result (keys.new ≡ keys.old ++ map (references.spec_key reader.now) (rows_of reader.now.tables 0x2B)) }
{
    for row in 0..reader.tables().row_count(METHOD_SPEC) {
        keys.push(spec_key(alloc, reader, refs, row + 1)?)?;
    }
    Ok(())
}

/// Appends the keys of a file's members: the owners' types, and of a MethodSpec row its method's.
#[tactic(auto, unfolding(crate::specs::Signatures::member_keys, cli_tables::specs::Schema::columns))]
fn push_members(
    alloc: Global,
    reader: &Reader<'_, '_>,
    refs: &[Member],
    keys: &mut KeyList,
) -> Result<(), Memory>
    requires { refs.now ≡ all_refs reader.now }
    ensures { OnOk result (keys.new ≡ keys.old ++ spec.member_keys reader.now) }
{
    let types = reader.types();
    let tables = reader.tables();
    push_owners(alloc, types, tables, FIELD_LIST, FIELD, keys)?;
    push_owners(alloc, types, tables, METHOD_LIST, METHOD_DEF, keys)?;
    push_ref_owners(alloc, reader, keys)?;
    push_spec_keys(alloc, reader, refs, keys)
}

/// Appends the signatures of a file: the types of its rows, the arrays of these, its members, its local variables. Tells
/// where the local variables of each StandAloneSig row stand, where the file's first signature has a number. Given are the
/// members of its MemberRef rows. Takes memory and time in the rows and in what their signatures hold.
#[tactic(auto, unfolding(crate::specs::Signatures::file_keys))]
pub fn push_signatures(
    alloc: Global,
    reader: &Reader<'_, '_>,
    refs: &[Member],
    first: u32,
    keys: &mut KeyList,
) -> Result<Items<Option<Locals>>, Memory>
    requires refs { refs.now ≡ all_refs reader.now }
    requires few { first + signatures.sigs_in reader.now.tables ≤ 16777215 }
    ensures keys { OnOk result (keys.new ≡ keys.old ++ spec.file_keys reader.now) }
    ensures places { IfOk result (λ places. places ≡ spec.locals_of reader.now.tables first) }
{
    let types = reader.types();
    let tables = reader.tables();
    push_row_types(alloc, types, tables, keys)?;
    push_members(alloc, reader, refs, keys)?;
    push_locals(alloc, types, tables, first, row_sigs(tables), keys)
}
