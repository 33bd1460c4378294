//! What a world keeps of a file: where its rows are numbered, and what they name.
ghost use Rattle.std.specs.Prelude.{◌≡◌, map, IfOk};
ghost use Rattle.image_rows.specs.Cells.{rows_of};
ghost use Rattle.world_build.specs.MemberRefs.{members_of_refs as all_refs};
ghost use Rattle.world_build.specs.References as references;
ghost use Rattle.world_build.specs.Signatures.{locals_of};
ghost use Rattle.world_build.specs.World as spec;

use crate::method_specs::method_spec;
use crate::reader::Reader;
use clr_base::{Bytes, FieldId, Memory, MethId, SigId};
use image_rows::{
    FIELD, FIELD_LIST, METHOD_DEF, METHOD_LIST, METHOD_SPEC, TYPE_DEF, TYPE_REF, TYPE_SPEC, loose,
};
use sqlite_items::Items;
use std::alloc::Global;
use type_tree::{Locals, Member, WorldFile};

/// The numbers of a file's first signature, field and method.
#[derive(Clone, Copy)]
pub struct Firsts {
    pub sig: u32,
    pub field: u32,
    pub method: u32,
}

/// The method of each MethodSpec row, as a member.
fn method_specs(
    alloc: Global,
    reader: &Reader<'_, '_>,
    refs: &[Member],
) -> Result<Items<Member>, Memory>
    requires { refs.now ≡ all_refs reader.now }
    ensures { IfOk result (λ found. found ≡ map (references.method_spec reader.now) (rows_of reader.now.tables 0x2B)) }
{
    let mut found = Items::new(alloc);
    for row in 0..reader.tables().row_count(METHOD_SPEC) {
        found.push(method_spec(reader, refs, row + 1))?;
    }
    Ok(found)
}

/// What is kept of a file with these bytes, by the numbers of its first rows, the members of its MemberRef rows, and
/// where its local variables stand. Takes memory for the file's bytes and a few numbers a row.
#[tactic(auto, unfolding(crate::specs::World::file_of, cli_tables::specs::Schema::columns))]
pub fn file_tokens(
    alloc: Global,
    reader: &Reader<'_, '_>,
    bytes: &[u8],
    firsts: Firsts,
    refs: Items<Member>,
    locals: Items<Option<Locals>>,
) -> Result<WorldFile, Memory>
    requires refs { refs ≡ all_refs reader.now }
    requires locals { locals ≡ locals_of reader.now.tables firsts.sig }
    ensures { IfOk result (λ file. file ≡ spec.file_of reader.now bytes.now firsts.sig firsts.field firsts.method) }
{
    let tables = reader.tables();
    Ok(WorldFile {
        first_sig: SigId(firsts.sig),
        type_defs: tables.row_count(TYPE_DEF),
        type_refs: tables.row_count(TYPE_REF),
        type_specs: tables.row_count(TYPE_SPEC),
        first_field: FieldId(firsts.field),
        fields: tables.row_count(FIELD),
        loose_fields: loose(tables, FIELD_LIST, FIELD),
        first_method: MethId(firsts.method),
        methods: tables.row_count(METHOD_DEF),
        loose_methods: loose(tables, METHOD_LIST, METHOD_DEF),
        method_specs: method_specs(alloc, reader, refs.as_slice())?,
        member_refs: refs,
        locals,
        users: Bytes::from_slice(alloc, tables.users())?,
        bytes: Bytes::from_slice(alloc, bytes)?,
    })
}
