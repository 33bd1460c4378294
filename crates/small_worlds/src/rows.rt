//! Definitions, methods and fields as rows of tables. Methods and fields are numbered from 0, the first of
//! the table.

use crate::named::{Named, OBJECT, plain, tree, tree_if, trees};
use clr_base::{DefId, Memory, MethId, NameId};
use core_types::METHOD_COUNT;
use sqlite_items::Items;
use std::alloc::Global;
use type_tree::{Def, Field, Formal, Impl, Method};

/// The number of the table's first method in the world: the core library's methods stand before it.
pub const FIRST: u32 = METHOD_COUNT as u32;

/// A generic parameter: its flags and its constraints.
#[derive(Clone, Copy)]
pub struct FormalRow(pub u32, pub &'static [Named]);

/// One without flags and constraints.
pub const ANY: FormalRow = FormalRow(0, &[]);

/// A MethodImpl row: its body, and the owner and the number of its declaration.
#[derive(Clone, Copy)]
pub struct ImplRow(pub u32, pub Named, pub u32);

/// A definition.
#[derive(Clone, Copy)]
pub struct DefRow {
    pub flags: u32,
    /// Its one generic parameter, if any.
    pub formal: Option<FormalRow>,
    pub parent: Option<Named>,
    pub interfaces: &'static [Named],
    /// The first of its fields, and how many it has.
    pub fields: (u32, u32),
    /// The first of its methods, and how many it has.
    pub methods: (u32, u32),
    pub impls: &'static [ImplRow],
}

/// A class that has nothing.
pub const CLASS: DefRow = DefRow {
    flags: 0,
    formal: None,
    parent: Some(OBJECT),
    interfaces: &[],
    fields: (0, 0),
    methods: (0, 0),
    impls: &[],
};

/// An instance method that answers nothing: its definition, the number of its name, its flags, and its
/// parameter, if any.
#[derive(Clone, Copy)]
pub struct MethodRow(pub u32, pub u32, pub u32, pub Option<Named>);

/// The flags of a public virtual method.
pub const PLAIN: u32 = 0x46;

/// The flags of one in a slot of its own.
pub const NEW: u32 = 0x146;

/// The flags of one that is final, too.
pub const FINAL: u32 = 0x166;

/// The flags of one that is abstract, too.
pub const ABSTRACT: u32 = 0x546;

/// A field: its type, its flags, and its offset, if any.
#[derive(Clone, Copy)]
pub struct FieldRow(pub Named, pub u32, pub Option<u32>);

fn formals(alloc: Global, formal: Option<FormalRow>) -> Result<Items<Formal>, Memory> {
    let mut formals = Items::new(alloc);
    if let Some(FormalRow(flags, constraints)) = formal {
        formals.push(Formal {
            flags,
            constraints: trees(alloc, constraints)?,
        })?;
    }
    Ok(formals)
}

fn impls(alloc: Global, rows: &[ImplRow]) -> Result<Items<Impl>, Memory> {
    let mut impls = Items::new(alloc);
    for row in rows {
        impls.push(Impl {
            body: Some(MethId(FIRST.wrapping_add(row.0))),
            owner: tree(alloc, row.1)?,
            declaration: Some(MethId(FIRST.wrapping_add(row.2))),
        })?;
    }
    Ok(impls)
}

pub(crate) fn push_def(alloc: Global, defs: &mut Items<Def>, row: DefRow) -> Result<(), Memory> {
    defs.push(Def {
        name: NameId(0),
        file: 1,
        flags: row.flags,
        formals: formals(alloc, row.formal)?,
        parent: tree_if(alloc, row.parent)?,
        interfaces: trees(alloc, row.interfaces)?,
        first_field: row.fields.0,
        fields: row.fields.1,
        first_method: FIRST.wrapping_add(row.methods.0),
        methods: row.methods.1,
        impls: impls(alloc, row.impls)?,
        packing: 0,
        least_size: 0,
    })?;
    Ok(())
}

pub(crate) fn push_method(
    alloc: Global,
    methods: &mut Items<Method>,
    row: MethodRow,
) -> Result<(), Memory> {
    let mut params = Items::new(alloc);
    if let Some(param) = tree_if(alloc, row.3)? {
        params.push(param)?;
    }
    methods.push(Method {
        name: NameId(row.1),
        def: DefId(row.0),
        flags: row.2,
        has_this: true,
        vararg: false,
        formals: Items::new(alloc),
        ret: plain(alloc, 3),
        params,
    })?;
    Ok(())
}

pub(crate) fn push_field(
    alloc: Global,
    fields: &mut Items<Field>,
    row: FieldRow,
) -> Result<(), Memory> {
    fields.push(Field {
        name: NameId(0),
        def: DefId(0),
        flags: row.1,
        ty: tree(alloc, row.0)?,
        place: row.2,
    })?;
    Ok(())
}
