//! The world of files that pass their checks, before its roots.
ghost use Rattle.std.specs.Prelude.{◌≡◌, ◌≤◌, [], true, length, IfOk};
ghost use Rattle.std.proofs.Math.ListN.{replicate};
ghost use Rattle.image_files.specs.Counts.{are_few, totals_of};
ghost use Rattle.image_files.specs.Images.{bytes_of_each, tables_in};
ghost use Rattle.world_build.specs.Signatures as signatures;
ghost use Rattle.world_build.specs.World as spec;

use crate::file_worlds::{Growing, push_files};
use cli_tables::Tables;
use clr_base::Memory;
use core_types::{CoreType, core_library, plain};
use image_files::row_sigs;
use image_rows::STAND_ALONE_SIG;
use sqlite_items::{Boxed, Items};
use std::alloc::Global;
use type_members::{MemberIndex, all_members};
use type_names::{name_files, resolve_files};
use type_tree::{BodyPlace, Def, Key, KeyList, Ty, WorldParts, with_room};

/// System.String, System.Type, System.String[].
#[tactic(auto, unfolding(crate::specs::Signatures::well_known))]
fn well_known(alloc: Global) -> Result<KeyList, Memory>
    ensures { IfOk result (λ keys. keys ≡ signatures.well_known) }
{
    let mut keys = Items::new(alloc);
    keys.push(Key::Tree(plain(alloc, CoreType::String)))?;
    keys.push(Key::Tree(plain(alloc, CoreType::TypeObject)))?;
    let element = Boxed::new(alloc, plain(alloc, CoreType::String))?;
    keys.push(Key::Tree(Ty::Array(element)))?;
    Ok(keys)
}

/// How many signatures the rows of files have, with four local variables for each row of StandAloneSig (ECMA-335 II.22.36).
fn expected_sigs(files: &[Tables<'_>]) -> usize {
    let mut count: usize = 0;
    for tables in files {
        let locals = (tables.row_count(STAND_ALONE_SIG) as usize).saturating_mul(4);
        count = count
            .saturating_add(row_sigs(tables) as usize)
            .saturating_add(locals);
    }
    count
}

/// The core's part of what grows: its definitions, no body for each of its `methods` methods, and the signatures that every
/// world has, with room for those of files.
fn of_core(
    alloc: Global,
    defs: Items<Def>,
    methods: usize,
    files: &[Tables<'_>],
) -> Result<Growing, Memory>
    ensures defs { IfOk result (λ parts. parts.defs ≡ defs) }
    ensures bodies { IfOk result (λ parts. parts.bodies ≡ replicate methods spec.no_body) }
    ensures sigs { IfOk result (λ parts. parts.sigs ≡ signatures.well_known) }
    ensures files { IfOk result (λ parts. parts.files ≡ []) }
{
    let none: Option<BodyPlace> = None;
    let mut sigs = with_room(alloc, expected_sigs(files).saturating_add(3))?;
    sigs.append(well_known(alloc)?)?;
    Ok(Growing {
        defs,
        bodies: Items::from_vec(vec![in alloc; none; methods]?),
        sigs,
        files: Items::new(alloc),
    })
}

/// The parts of the world of files, given with their tables, that pass their checks. Takes memory for the files' bytes,
/// their names and members, and memory and time in their rows and signatures.
#[tactic(auto, unfolding(crate::specs::World::world))]
pub fn file_world(
    alloc: Global,
    files: &[Vec<u8>],
    tables: &[Tables<'_>],
) -> Result<WorldParts, Memory>
    requires images { tables.now ≡ tables_in (bytes_of_each files.now) }
    requires count { length tables.now ≤ 16 }
    requires few { are_few (totals_of tables.now) ≡ true }
    ensures { IfOk result (λ parts. parts ≡ spec.world (bytes_of_each files.now)) }
{
    let core = core_library(alloc)?;
    let (core_names, core_defs, core_methods) = (core.names, core.defs, core.methods);
    let method_count = core_methods.len();
    let places = resolve_files(alloc, tables)?;
    let named = name_files(alloc, core_names, tables, places.as_slice())?;
    let called = named.files.as_slice();
    let members = all_members(alloc, core_defs.as_slice(), core_methods, tables, called)?;
    let index = MemberIndex::new(alloc, &members)?;
    let mut parts = of_core(alloc, core_defs, method_count, tables)?;
    push_files(
        alloc,
        &named.names,
        &members,
        &index,
        called,
        files,
        tables,
        &mut parts,
    )?;
    Ok(WorldParts {
        names: named.names.texts(alloc)?,
        defs: parts.defs,
        methods: members.methods,
        bodies: parts.bodies,
        fields: members.fields,
        sigs: parts.sigs,
        roots: Items::new(alloc),
        files: parts.files,
        value_type: CoreType::ValueType.def(),
        enumeration: CoreType::Enum.def(),
        canon: CoreType::Canon.def(),
    })
}
