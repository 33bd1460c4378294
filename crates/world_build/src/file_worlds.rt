//! What each file adds to a world.
ghost use Rattle.std.specs.Prelude.{◌≡◌, ◌+◌, ◌≤◌, ◌++◌, [], ◌∷◌, true, length, map, OnOk};
ghost use Rattle.world_build.specs.Bodies as bodies;
ghost use Rattle.image_rows.specs.Cells.{rows_of};
ghost use Rattle.image_files.specs.Counts.{are_few, totals_of};
ghost use Rattle.core_types.specs.CoreTable.{core_methods};
ghost use Rattle.type_members.specs.Definitions as definitions;
ghost use Rattle.image_files.specs.Images.{bytes_of_each, tables_in};
ghost use Rattle.type_members.specs.MemberIndexes.{IsIndexOf};
ghost use Rattle.type_members.specs.MemberTable as table;
ghost use Rattle.world_build.specs.References as references;
ghost use Rattle.image_files.specs.Signatures.{sigs_in};
ghost use Rattle.world_build.specs.Signatures as signatures;
ghost use Rattle.type_members.specs.Trees.{AreNumbered};
ghost use Rattle.world_build.specs.World as spec;
ghost use Rattle.type_names.specs.WorldNames as names_of;

use crate::bodies::file_bodies;
use crate::file_definitions::push_definitions;
use crate::file_signatures::push_signatures;
use crate::file_tokens::{Firsts, file_tokens};
use crate::member_refs::members_of_refs;
use crate::reader::Reader;
use cli_tables::Tables;
use clr_base::Memory;
use core_types::{METHOD_COUNT, Names};
use image_rows::{FIELD, METHOD_DEF};
use sqlite_items::Items;
use std::alloc::Global;
use type_members::{MemberIndex, MemberTable};
use type_names::FileNames;
use type_tree::{BodyPlace, Def, KeyList, WorldFile};

/// The parts of a world to which each file adds its own.
#[derive(Drop)]
pub struct Growing {
    pub defs: Items<Def>,
    /// Where the body of each method stands.
    pub bodies: Items<Option<BodyPlace>>,
    pub sigs: KeyList,
    pub files: Items<WorldFile>,
}

/// How many fields and methods the files before one have.
#[derive(Clone, Copy)]
struct Before {
    fields: u32,
    methods: u32,
}

/// Adds a file, counted from 0: its definitions, where the bodies of its methods stand, its signatures, what its tokens name.
fn push_file(
    alloc: Global,
    reader: &Reader<'_, '_>,
    names: &FileNames,
    bytes: &[u8],
    file: u32,
    before: Before,
    parts: &mut Growing,
) -> Result<(), Memory>
    requires numbered { AreNumbered names.now.types }
    requires file { file ≤ 16 }
    requires fields { before.fields ≤ 16777215 }
    requires methods { before.methods ≤ 16777215 }
    requires sigs { length parts.old.sigs + sigs_in reader.now.tables ≤ 16777215 }
    ensures defs { OnOk result (parts.new.defs ≡ parts.old.defs ++ map (λ row. definitions.def_of names.now reader.now.tables (file + 1) (table.run_at before.fields before.methods reader.now.tables row) (references.impls_of reader.now row) row) (rows_of reader.now.tables 0x02)) }
    ensures bodies { OnOk result (parts.new.bodies ≡ parts.old.bodies ++ bodies.file_bodies bytes.now (file + 1) reader.now.tables) }
    ensures sigs { OnOk result (parts.new.sigs ≡ parts.old.sigs ++ signatures.file_keys reader.now) }
    ensures files { OnOk result (parts.new.files ≡ parts.old.files ++ spec.file_of reader.now bytes.now (length parts.old.sigs) before.fields (core_methods + before.methods) ∷ []) }
{
    let firsts = Firsts {
        sig: parts.sigs.len() as u32,
        field: before.fields,
        method: METHOD_COUNT as u32 + before.methods,
    };
    let refs = members_of_refs(alloc, reader)?;
    push_definitions(
        alloc,
        reader,
        refs.as_slice(),
        names,
        file + 1,
        before.fields,
        before.methods,
        &mut parts.defs,
    )?;
    let bodies = file_bodies(alloc, bytes, file + 1, reader.tables())?;
    parts.bodies.append(bodies)?;
    let locals = push_signatures(alloc, reader, refs.as_slice(), firsts.sig, &mut parts.sigs)?;
    parts
        .files
        .push(file_tokens(alloc, reader, bytes, firsts, refs, locals)?)?;
    Ok(())
}

/// Adds all files, by the names and the members of the world and by what the rows of each file are called. Takes memory for
/// the files' bytes, and memory and time in their rows and signatures.
pub fn push_files(
    alloc: Global,
    names: &Names,
    members: &MemberTable,
    index: &MemberIndex,
    called: &[FileNames],
    files: &[Vec<u8>],
    tables: &[Tables<'_>],
    parts: &mut Growing,
) -> Result<(), Memory>
    requires images { tables.now ≡ tables_in (bytes_of_each files.now) }
    requires count { length tables.now ≤ 16 }
    requires few { are_few (totals_of tables.now) ≡ true }
    requires names { names.now ≡ names_of.names tables.now }
    requires members { members.now ≡ table.member_table tables.now }
    requires index { IsIndexOf members.now index.now }
    requires called { called.now ≡ names_of.all_file_names tables.now }
    requires sigs { length parts.old.sigs ≡ 3 }
    ensures defs { OnOk result (parts.new.defs ≡ parts.old.defs ++ table.of_each (spec.file_defs tables.now) tables.now) }
    ensures bodies { OnOk result (parts.new.bodies ≡ parts.old.bodies ++ spec.of_bytes (λ b k m. bodies.file_bodies b (k + 1) m) 0 (bytes_of_each files.now)) }
    ensures sigs { OnOk result (parts.new.sigs ≡ parts.old.sigs ++ table.of_each (λ k m. signatures.file_keys (spec.reader tables.now k m)) tables.now) }
    ensures files { OnOk result (parts.new.files ≡ parts.old.files ++ spec.of_bytes (λ b k m. spec.world_file tables.now b k m ∷ []) 0 (bytes_of_each files.now)) }
{
    let mut before = Before {
        fields: 0,
        methods: 0,
    };
    for file in 0..tables.len() {
        let own = &tables[file];
        let called = &called[file];
        let first_method = METHOD_COUNT as u32 + before.methods;
        let types = &called.types;
        let reader = Reader::new(alloc, names, members, index, types, own, first_method)?;
        let bytes = files[file].as_slice();
        push_file(alloc, &reader, called, bytes, file as u32, before, parts)?;
        before.fields += own.row_count(FIELD);
        before.methods += own.row_count(METHOD_DEF);
    }
    Ok(())
}
