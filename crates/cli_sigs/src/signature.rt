//! What signatures say: trees of codes and of row numbers, as the blob has them.

use sqlite_items::{Boxed, Items};

/// A type. A code is an element type's number (II.23.1.16).
#[derive(Drop)]
pub enum SigTy {
    /// A built-in type, by its code. Void (1) stands only as a result and behind a pointer.
    BuiltIn(u8),
    /// A class or value type: the TypeDefOrRef coded index (II.23.2.8), whether the signature calls it a value type,
    /// and its generic arguments.
    Inst(u32, bool, SigTyList),
    /// A vector: one dimension, from 0.
    Array(Boxed<SigTy>),
    /// A managed pointer.
    ByRef(Boxed<SigTy>),
    /// An unmanaged pointer.
    Ptr(Boxed<SigTy>),
    /// A generic parameter of the type, by its number from 0.
    Var(u32),
    /// A generic parameter of the method, by its number from 0.
    MVar(u32),
    /// A type of which only the code is kept: an array with a shape (0x14), a typed reference (0x16), a function
    /// pointer (0x1B).
    Odd(u8),
}

/// A list of types, which contracts see as the list.
pub type SigTyList = Items<SigTy>;

/// A method's signature (II.23.2.1 to II.23.2.3).
#[derive(Drop)]
pub struct SigMethod {
    /// Whether the method has a `this`.
    pub has_this: bool,
    /// Whether it takes a variable list of arguments.
    pub vararg: bool,
    /// The number of its generic parameters.
    pub generic: u32,
    /// The result; void is the built-in type 1.
    pub ret: SigTy,
    /// The types of the parameters, `this` left out.
    pub params: SigTyList,
}

/// How many rows the tables have that a signature may name.
#[derive(Clone, Copy)]
pub struct RowCounts {
    pub type_def: u32,
    pub type_ref: u32,
    pub type_spec: u32,
}
