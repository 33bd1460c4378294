//! The types of the core library.

ghost use Rattle.std.specs.Prelude.{◌≡◌};
ghost use Rattle.core_types.specs.CoreTable as spec;

use clr_base::DefId;

/// A type of the core library. They are numbered from 0 in this order.
#[derive(Clone, Copy)]
pub enum CoreType {
    Object,
    ValueType,
    Enum,
    Void,
    Boolean,
    Char,
    SByte,
    Byte,
    Int16,
    UInt16,
    Int32,
    UInt32,
    Int64,
    UInt64,
    IntPtr,
    UIntPtr,
    Single,
    Double,
    String,
    Array,
    /// System.Type.
    TypeObject,
    RuntimeTypeHandle,
    /// System.__Canon, which stands for every reference type in a canonical form.
    Canon,
    IComparable,
    IEquatable,
    IComparer,
    IDisposable,
    Attribute,
    Exception,
    SystemException,
    ArgumentException,
    InvalidOperationException,
    Delegate,
    MulticastDelegate,
    Nullable,
    Console,
}

impl CoreType {
    /// The number of its definition.
    pub fn def(self) -> DefId
        ensures { result ≡ spec.def_id self }
    {
        DefId(self as u32)
    }
}
