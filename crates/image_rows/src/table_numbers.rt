//! The tables of metadata by their numbers (ECMA-335 II.22), and the columns of TypeDef that begin runs of rows.

/// Module (ECMA-335 II.22.30).
pub const MODULE: u8 = 0x00;

/// TypeRef (II.22.38).
pub const TYPE_REF: u8 = 0x01;

/// TypeDef (II.22.37).
pub const TYPE_DEF: u8 = 0x02;

/// Field (II.22.15).
pub const FIELD: u8 = 0x04;

/// MethodDef (II.22.26).
pub const METHOD_DEF: u8 = 0x06;

/// InterfaceImpl (II.22.23).
pub const INTERFACE_IMPL: u8 = 0x09;

/// MemberRef (II.22.25).
pub const MEMBER_REF: u8 = 0x0a;

/// ClassLayout (II.22.8).
pub const CLASS_LAYOUT: u8 = 0x0f;

/// FieldLayout (II.22.16).
pub const FIELD_LAYOUT: u8 = 0x10;

/// StandAloneSig (II.22.36).
pub const STAND_ALONE_SIG: u8 = 0x11;

/// MethodImpl (II.22.27).
pub const METHOD_IMPL: u8 = 0x19;

/// TypeSpec (II.22.39).
pub const TYPE_SPEC: u8 = 0x1b;

/// Assembly (II.22.2).
pub const ASSEMBLY: u8 = 0x20;

/// AssemblyRef (II.22.5).
pub const ASSEMBLY_REF: u8 = 0x23;

/// NestedClass (II.22.32).
pub const NESTED_CLASS: u8 = 0x29;

/// GenericParam (II.22.20).
pub const GENERIC_PARAM: u8 = 0x2a;

/// MethodSpec (II.22.29).
pub const METHOD_SPEC: u8 = 0x2b;

/// GenericParamConstraint (II.22.21).
pub const GENERIC_PARAM_CONSTRAINT: u8 = 0x2c;

/// The column FieldList of TypeDef: the row of a definition's first field.
pub const FIELD_LIST: u8 = 4;

/// The column MethodList of TypeDef: the row of a definition's first method.
pub const METHOD_LIST: u8 = 5;
