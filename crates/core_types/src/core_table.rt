//! The core library as data: its definitions and methods, in order. It has no fields.

use crate::core_type::CoreType;
use clr_base::{CORE_DEF_COUNT, CORE_METHOD_COUNT};

/// What a definition is, which tells its flags (ECMA-335 II.23.1.15).
#[derive(Clone, Copy)]
pub enum DefKind {
    Class,
    Abstract,
    Sealed,
    /// A class that is abstract and sealed, so that it has no objects.
    Static,
    /// A value type, which is sealed.
    Value,
    Interface,
}

/// The generic parameter of a definition (II.23.1.7).
#[derive(Clone, Copy)]
pub enum FormalKind {
    Invariant,
    Contravariant,
}

/// A definition. Its generic parameter is the only one, and has no constraints.
#[derive(Clone, Copy)]
pub struct CoreDef {
    pub kind: DefKind,
    pub parent: Option<CoreType>,
    pub formal: Option<FormalKind>,
    /// Whether it implements IComparable`1 and IEquatable`1 of itself, in this order.
    pub is_comparable: bool,
}

/// What a method is, which tells its flags (II.23.1.10). All are public.
#[derive(Clone, Copy)]
pub enum MethodKind {
    /// Called on an instance, and not virtual.
    Instance,
    Static,
    /// Virtual, in the slot of an inherited method.
    Override,
    /// Virtual, in a slot of its own.
    NewSlot,
    /// Virtual and final, in a slot of its own.
    Final,
    /// Abstract and virtual, in a slot of its own.
    Interface,
}

/// The names of methods. They are numbered behind those of the definitions, in the order in which they
/// are first seen.
#[derive(Clone, Copy)]
pub enum MemberName {
    Ctor,
    ToString,
    Equals,
    GetHashCode,
    GetType,
    CompareTo,
    GetLength,
    GetChars,
    Concat,
    OpEquality,
    GetTypeFromHandle,
    Compare,
    Dispose,
    GetMessage,
    WriteLine,
    Write,
}

/// A type in the signature of a method.
#[derive(Clone, Copy)]
pub enum SigType {
    Core(CoreType),
    /// The generic parameter of the method's definition.
    Parameter,
}

/// The types of a method's parameters.
#[derive(Clone, Copy)]
pub enum Params {
    Zero,
    One(SigType),
    Two(SigType, SigType),
    Three(SigType, SigType, SigType),
}

/// A method. None has generic parameters.
#[derive(Clone, Copy)]
pub struct CoreMethod {
    pub name: MemberName,
    pub kind: MethodKind,
    pub ret: CoreType,
    pub params: Params,
}

/// How many definitions there are.
pub const DEF_COUNT: usize = CORE_DEF_COUNT as usize;

/// How many methods they have.
pub const METHOD_COUNT: usize = CORE_METHOD_COUNT as usize;

/// How many names there are.
pub const NAME_COUNT: usize = 52;

/// The names: the full name of each definition, and then each name of a method, in the order of
/// `MemberName`.
pub static CORE_NAMES: [&str; NAME_COUNT] = [
    "System.Object",
    "System.ValueType",
    "System.Enum",
    "System.Void",
    "System.Boolean",
    "System.Char",
    "System.SByte",
    "System.Byte",
    "System.Int16",
    "System.UInt16",
    "System.Int32",
    "System.UInt32",
    "System.Int64",
    "System.UInt64",
    "System.IntPtr",
    "System.UIntPtr",
    "System.Single",
    "System.Double",
    "System.String",
    "System.Array",
    "System.Type",
    "System.RuntimeTypeHandle",
    "System.__Canon",
    "System.IComparable`1",
    "System.IEquatable`1",
    "System.Collections.Generic.IComparer`1",
    "System.IDisposable",
    "System.Attribute",
    "System.Exception",
    "System.SystemException",
    "System.ArgumentException",
    "System.InvalidOperationException",
    "System.Delegate",
    "System.MulticastDelegate",
    "System.Nullable`1",
    "System.Console",
    ".ctor",
    "ToString",
    "Equals",
    "GetHashCode",
    "GetType",
    "CompareTo",
    "get_Length",
    "get_Chars",
    "Concat",
    "op_Equality",
    "GetTypeFromHandle",
    "Compare",
    "Dispose",
    "get_Message",
    "WriteLine",
    "Write",
];

macro_rules! core_def {
    ($kind:ident) => {
        core_def!($kind, None, None, false)
    };
    ($kind:ident, $parent:ident) => {
        core_def!($kind, Some(CoreType::$parent), None, false)
    };
    ($kind:ident, $parent:ident, Comparable) => {
        core_def!($kind, Some(CoreType::$parent), None, true)
    };
    ($kind:ident, $parent:expr, $formal:expr, $is_comparable:literal) => {
        CoreDef {
            kind: DefKind::$kind,
            parent: $parent,
            formal: $formal,
            is_comparable: $is_comparable,
        }
    };
}

/// The definitions, each at its number.
pub static CORE_DEFS: [CoreDef; DEF_COUNT] = [
    // 0 Object
    core_def!(Class),
    // 1 ValueType
    core_def!(Abstract, Object),
    // 2 Enum
    core_def!(Abstract, ValueType),
    // 3 Void
    core_def!(Value, ValueType),
    // 4 Boolean
    core_def!(Value, ValueType, Comparable),
    // 5 Char
    core_def!(Value, ValueType, Comparable),
    // 6 SByte
    core_def!(Value, ValueType, Comparable),
    // 7 Byte
    core_def!(Value, ValueType, Comparable),
    // 8 Int16
    core_def!(Value, ValueType, Comparable),
    // 9 UInt16
    core_def!(Value, ValueType, Comparable),
    // 10 Int32
    core_def!(Value, ValueType, Comparable),
    // 11 UInt32
    core_def!(Value, ValueType, Comparable),
    // 12 Int64
    core_def!(Value, ValueType, Comparable),
    // 13 UInt64
    core_def!(Value, ValueType, Comparable),
    // 14 IntPtr
    core_def!(Value, ValueType),
    // 15 UIntPtr
    core_def!(Value, ValueType),
    // 16 Single
    core_def!(Value, ValueType),
    // 17 Double
    core_def!(Value, ValueType),
    // 18 String
    core_def!(Sealed, Object, Comparable),
    // 19 Array
    core_def!(Abstract, Object),
    // 20 TypeObject
    core_def!(Sealed, Object),
    // 21 RuntimeTypeHandle
    core_def!(Value, ValueType),
    // 22 Canon
    core_def!(Class, Object),
    // 23 IComparable
    core_def!(Interface, None, Some(FormalKind::Contravariant), false),
    // 24 IEquatable
    core_def!(Interface, None, Some(FormalKind::Invariant), false),
    // 25 IComparer
    core_def!(Interface, None, Some(FormalKind::Contravariant), false),
    // 26 IDisposable
    core_def!(Interface),
    // 27 Attribute
    core_def!(Abstract, Object),
    // 28 Exception
    core_def!(Class, Object),
    // 29 SystemException
    core_def!(Class, Exception),
    // 30 ArgumentException
    core_def!(Class, SystemException),
    // 31 InvalidOperationException
    core_def!(Class, SystemException),
    // 32 Delegate
    core_def!(Abstract, Object),
    // 33 MulticastDelegate
    core_def!(Abstract, Delegate),
    // 34 Nullable
    core_def!(
        Value,
        Some(CoreType::ValueType),
        Some(FormalKind::Invariant),
        false
    ),
    // 35 Console
    core_def!(Static, Object),
];

macro_rules! sig_type {
    (Parameter) => {
        SigType::Parameter
    };
    ($t:ident) => {
        SigType::Core(CoreType::$t)
    };
}

macro_rules! params {
    () => {
        Params::Zero
    };
    ($a:ident) => {
        Params::One(sig_type!($a))
    };
    ($a:ident, $b:ident) => {
        Params::Two(sig_type!($a), sig_type!($b))
    };
    ($a:ident, $b:ident, $c:ident) => {
        Params::Three(sig_type!($a), sig_type!($b), sig_type!($c))
    };
}

macro_rules! method {
    ($kind:ident $ret:ident $name:ident($($param:ident),*)) => {
        CoreMethod {
            name: MemberName::$name,
            kind: MethodKind::$kind,
            ret: CoreType::$ret,
            params: params!($($param),*),
        }
    };
}

/// The methods of a type that can be compared with itself, and then more.
macro_rules! comparable {
    ($t:ident $(, $more:expr)* $(,)?) => {
        &[
            method!(Override String ToString()),
            method!(Override Boolean Equals(Object)),
            method!(Override Int32 GetHashCode()),
            method!(Final Int32 CompareTo($t)),
            method!(Final Boolean Equals($t)),
            $($more,)*
        ]
    };
}

/// The methods of each definition, in order.
pub static CORE_METHODS: [&[CoreMethod]; DEF_COUNT] = [
    // 0 Object
    &[
        method!(Instance Void Ctor()),
        method!(NewSlot String ToString()),
        method!(NewSlot Boolean Equals(Object)),
        method!(NewSlot Int32 GetHashCode()),
        method!(Instance TypeObject GetType()),
    ],
    // 1 ValueType
    &[
        method!(Override Boolean Equals(Object)),
        method!(Override Int32 GetHashCode()),
    ],
    // 2 Enum
    &[method!(Override String ToString())],
    // 3 Void
    &[],
    // 4 Boolean
    comparable!(Boolean),
    // 5 Char
    comparable!(Char),
    // 6 SByte
    comparable!(SByte),
    // 7 Byte
    comparable!(Byte),
    // 8 Int16
    comparable!(Int16),
    // 9 UInt16
    comparable!(UInt16),
    // 10 Int32
    comparable!(Int32),
    // 11 UInt32
    comparable!(UInt32),
    // 12 Int64
    comparable!(Int64),
    // 13 UInt64
    comparable!(UInt64),
    // 14 IntPtr
    &[],
    // 15 UIntPtr
    &[],
    // 16 Single
    &[],
    // 17 Double
    &[],
    // 18 String
    comparable!(
        String,
        method!(Instance Int32 GetLength()),
        method!(Instance Char GetChars(Int32)),
        method!(Static String Concat(String, String)),
        method!(Static String Concat(String, String, String)),
        method!(Static Boolean OpEquality(String, String)),
    ),
    // 19 Array
    &[method!(Instance Int32 GetLength())],
    // 20 TypeObject
    &[
        method!(Override String ToString()),
        method!(Static TypeObject GetTypeFromHandle(RuntimeTypeHandle)),
        method!(Static Boolean OpEquality(TypeObject, TypeObject)),
    ],
    // 21 RuntimeTypeHandle
    &[],
    // 22 Canon
    &[],
    // 23 IComparable
    &[method!(Interface Int32 CompareTo(Parameter))],
    // 24 IEquatable
    &[method!(Interface Boolean Equals(Parameter))],
    // 25 IComparer
    &[method!(Interface Int32 Compare(Parameter, Parameter))],
    // 26 IDisposable
    &[method!(Interface Void Dispose())],
    // 27 Attribute
    &[method!(Instance Void Ctor())],
    // 28 Exception
    &[
        method!(Instance Void Ctor()),
        method!(Instance Void Ctor(String)),
        method!(NewSlot String GetMessage()),
    ],
    // 29 SystemException
    &[
        method!(Instance Void Ctor()),
        method!(Instance Void Ctor(String)),
    ],
    // 30 ArgumentException
    &[
        method!(Instance Void Ctor()),
        method!(Instance Void Ctor(String)),
    ],
    // 31 InvalidOperationException
    &[
        method!(Instance Void Ctor()),
        method!(Instance Void Ctor(String)),
    ],
    // 32 Delegate
    &[],
    // 33 MulticastDelegate
    &[],
    // 34 Nullable
    &[],
    // 35 Console
    &[
        method!(Static Void WriteLine()),
        method!(Static Void WriteLine(Boolean)),
        method!(Static Void WriteLine(Char)),
        method!(Static Void WriteLine(Int32)),
        method!(Static Void WriteLine(UInt32)),
        method!(Static Void WriteLine(Int64)),
        method!(Static Void WriteLine(UInt64)),
        method!(Static Void WriteLine(String)),
        method!(Static Void WriteLine(Object)),
        method!(Static Void Write(String)),
        method!(Static Void Write(Int32)),
        method!(Static Void Write(Char)),
    ],
];
