//! Type definitions, and their members.

use crate::tree::{Ty, TyList};
use clr_base::{DefId, MethId, NameId};
use sqlite_items::Items;

/// A type definition (ECMA-335 II.22.37).
#[derive(Drop)]
pub struct Def {
    /// Its full name: `Ns.Name`, or `Name` without a namespace; a nested one's is the outer full name,
    /// `+`, and its name.
    pub name: NameId,
    /// The number of its file, from 1; 0 is the core library.
    pub file: u32,
    /// TypeAttributes (II.23.1.15).
    pub flags: u32,
    /// Its generic parameters, in order.
    pub formals: Items<Formal>,
    /// What it extends, in its own generic parameters.
    pub parent: Option<Ty>,
    /// The interfaces that it declares, in row order and in its own generic parameters.
    pub interfaces: TyList,
    /// The first of its own fields, which stand one after the other.
    pub first_field: u32,
    /// How many fields it has.
    pub fields: u32,
    /// The first of its own methods, which stand one after the other.
    pub first_method: u32,
    /// How many methods it has.
    pub methods: u32,
    /// Its MethodImpl rows, in order (II.22.27).
    pub impls: Items<Impl>,
    /// The packing of its first ClassLayout row, 0 without one (II.22.8).
    pub packing: u32,
    /// The class size of its first ClassLayout row in bytes, 0 without one.
    pub least_size: u32,
}

/// A generic parameter of a type or a method (ECMA-335 II.22.20).
#[derive(Drop)]
pub struct Formal {
    /// GenericParamAttributes (II.23.1.7).
    pub flags: u32,
    /// What an argument must derive from (II.22.21).
    pub constraints: TyList,
}

/// A method that is named as the body of another (ECMA-335 II.22.27).
#[derive(Drop)]
pub struct Impl {
    /// The method that is run; none where that member is missing.
    pub body: Option<MethId>,
    /// The type that owns the declaration, as the row names it.
    pub owner: Ty,
    /// The method that is declared; none where that member is missing.
    pub declaration: Option<MethId>,
}

/// A method (ECMA-335 II.22.26).
#[derive(Drop)]
pub struct Method {
    pub name: NameId,
    /// The definition that owns it, or 0 where none does.
    pub def: DefId,
    /// MethodAttributes (II.23.1.10).
    pub flags: u32,
    /// Whether its signature says that it is called on an instance.
    pub has_this: bool,
    /// Whether its signature takes variable arguments.
    pub vararg: bool,
    /// Its own generic parameters, in order.
    pub formals: Items<Formal>,
    /// The type of its result.
    pub ret: Ty,
    /// The types of its parameters.
    pub params: TyList,
}

/// A field (ECMA-335 II.22.15).
#[derive(Drop)]
pub struct Field {
    pub name: NameId,
    /// The definition that owns it, or 0 where none does.
    pub def: DefId,
    /// FieldAttributes (II.23.1.5).
    pub flags: u32,
    pub ty: Ty,
    /// The offset of its first FieldLayout row in bytes (II.22.16).
    pub place: Option<u32>,
}
