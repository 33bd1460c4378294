//! A world of one definition, with one method.

use clr_base::{Bytes, DefId, FieldId, Memory, MethId, NameId, SigId, Text};
use sqlite_items::Items;
use std::alloc::Global;
use type_tree::{BodyPlace, Def, Method, Ty, World, WorldFile, WorldParts};

// The body `ldc.i4.7; ret` behind a tiny header (II.25.4.2).
const BODY: [u8; 3] = [0x0A, 0x1D, 0x2A];

fn definition(alloc: Global) -> Def {
    Def {
        name: NameId(0),
        file: 1,
        flags: 0,
        formals: Items::new(alloc),
        parent: None,
        interfaces: Items::new(alloc),
        first_field: 0,
        fields: 0,
        first_method: 0,
        methods: 1,
        impls: Items::new(alloc),
        packing: 0,
        least_size: 0,
    }
}

fn method(alloc: Global) -> Method {
    Method {
        name: NameId(0),
        def: DefId(0),
        flags: 0x10,
        has_this: false,
        vararg: false,
        formals: Items::new(alloc),
        ret: Ty::Inst(DefId(0), Items::new(alloc)),
        params: Items::new(alloc),
    }
}

fn file(alloc: Global, bytes: Bytes) -> WorldFile {
    WorldFile {
        first_sig: SigId(0),
        type_defs: 0,
        type_refs: 0,
        type_specs: 0,
        first_field: FieldId(0),
        fields: 0,
        loose_fields: 0,
        first_method: MethId(0),
        methods: 0,
        loose_methods: 0,
        member_refs: Items::new(alloc),
        method_specs: Items::new(alloc),
        locals: Items::new(alloc),
        users: Bytes::new(alloc),
        bytes,
    }
}

fn nothing(alloc: Global) -> WorldParts {
    WorldParts {
        names: Items::new(alloc),
        defs: Items::new(alloc),
        methods: Items::new(alloc),
        bodies: Items::new(alloc),
        fields: Items::new(alloc),
        sigs: Items::new(alloc),
        roots: Items::new(alloc),
        files: Items::new(alloc),
        value_type: DefId(0),
        enumeration: DefId(0),
        canon: DefId(0),
    }
}

fn fill(alloc: Global, parts: &mut WorldParts) -> Result<(), Memory> {
    parts.names.push(Text::from_str(alloc, "M")?)?;
    parts.defs.push(definition(alloc))?;
    parts.methods.push(method(alloc))?;
    parts.bodies.push(Some(BodyPlace {
        file: 1,
        start: 0,
        len: 3,
    }))?;
    parts
        .files
        .push(file(alloc, Bytes::from_slice(alloc, &BODY)?))?;
    Ok(())
}

/// A world with one method; none where memory is wanting.
pub fn world(alloc: Global) -> Option<World> {
    let mut parts = nothing(alloc);
    if fill(alloc, &mut parts).is_ok() && parts.is_whole() {
        Some(World::new(parts))
    } else {
        None
    }
}
