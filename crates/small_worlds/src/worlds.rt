//! The world of the core library and the rows of tables.

use crate::rows::{DefRow, FieldRow, MethodRow, push_def, push_field, push_method};
use clr_base::{Bytes, DefId, FieldId, Memory, MethId, SigId};
use core_types::{CoreParts, core_library};
use sqlite_items::Items;
use std::alloc::Global;
use type_tree::{BodyPlace, World, WorldFile, WorldParts};

/// The core library with the rows behind it.
fn parts_with(
    alloc: Global,
    defs: &[DefRow],
    methods: &[MethodRow],
    fields: &[FieldRow],
) -> Result<CoreParts, Memory> {
    let mut parts = core_library(alloc)?;
    for row in defs {
        push_def(alloc, &mut parts.defs, *row)?;
    }
    for row in methods {
        push_method(alloc, &mut parts.methods, *row)?;
    }
    for row in fields {
        push_field(alloc, &mut parts.fields, *row)?;
    }
    Ok(parts)
}

/// No body for each of so many methods.
fn no_bodies(alloc: Global, methods: usize) -> Result<Items<Option<BodyPlace>>, Memory> {
    let mut bodies = Items::new(alloc);
    for _ in 0..methods {
        bodies.push(None)?;
    }
    Ok(bodies)
}

/// One file, without rows.
fn one_file(alloc: Global) -> Result<Items<WorldFile>, Memory> {
    let mut files = Items::new(alloc);
    files.push(WorldFile {
        first_sig: SigId(0),
        type_defs: 0,
        type_refs: 0,
        type_specs: 0,
        first_field: FieldId(0),
        fields: 0,
        loose_fields: 0,
        first_method: MethId(0),
        methods: 0,
        loose_methods: 0,
        member_refs: Items::new(alloc),
        method_specs: Items::new(alloc),
        locals: Items::new(alloc),
        users: Bytes::new(alloc),
        bytes: Bytes::new(alloc),
    })?;
    Ok(files)
}

fn whole(parts: WorldParts) -> Option<World> {
    if parts.is_whole() {
        Some(World::new(parts))
    } else {
        None
    }
}

/// The world of the core library and these rows, whose definitions are numbered from 36; none where it isn't
/// whole. Its methods have no bodies, and its one file has no rows.
pub fn world(
    alloc: Global,
    defs: &[DefRow],
    methods: &[MethodRow],
    fields: &[FieldRow],
) -> Result<Option<World>, Memory> {
    let CoreParts {
        names,
        defs,
        methods,
        fields,
    } = parts_with(alloc, defs, methods, fields)?;
    Ok(whole(WorldParts {
        names: names.texts(alloc)?,
        bodies: no_bodies(alloc, methods.len())?,
        defs,
        methods,
        fields,
        sigs: Items::new(alloc),
        roots: Items::new(alloc),
        files: one_file(alloc)?,
        value_type: DefId(1),
        enumeration: DefId(2),
        canon: DefId(22),
    }))
}
