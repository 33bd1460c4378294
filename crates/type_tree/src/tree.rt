//! Type trees, and the keys of what is loaded.

use clr_base::{DefId, MethId, NameId};
use sqlite_items::{Boxed, Items};

/// A list of trees. Contracts see it as the list.
pub type TyList = Items<Ty>;

/// A list of keys. Contracts see it as the list.
pub type KeyList = Items<Key>;

/// A type, as a finite tree (ECMA-335 II.23.2.12, Type). Contracts see it as plain data: trees that
/// have the same shape are equal.
#[derive(Drop)]
pub enum Ty {
    /// A definition with its arguments. A type that is not generic has none.
    Inst(DefId, Items<Ty>),
    /// An array of one dimension, which counts from 0, of this element.
    Array(Boxed<Ty>),
    /// A managed pointer to this type.
    ByRef(Boxed<Ty>),
    /// An unmanaged pointer to this type.
    Ptr(Boxed<Ty>),
    /// The generic parameter of a type with this number, from 0.
    Var(u32),
    /// The generic parameter of a method with this number, from 0.
    MVar(u32),
    /// A name that no definition has; true where the signature says that it is a value type. Its
    /// arguments are not kept.
    Missing(NameId, bool),
    /// A form that is left out, as a function pointer is, with its code in the signature.
    Odd(u8),
}

/// A method with the type that owns it and with the method's own arguments.
#[derive(Drop)]
pub struct MethKey {
    pub owner: Ty,
    pub method: MethId,
    pub args: Items<Ty>,
}

/// What is loaded: a type or a method.
#[derive(Drop)]
pub enum Key {
    Tree(Ty),
    Meth(MethKey),
}
