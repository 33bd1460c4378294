//! Numbers of the things that a world has, each a type of its own.

/// How many definitions the core library has. Their numbers come first.
pub const CORE_DEF_COUNT: u32 = 36;

/// How many methods the core library has. It has no fields.
pub const CORE_METHOD_COUNT: u32 = 98;

/// How many signatures a world has before those of its files: String, Type and String[].
pub const CORE_SIG_COUNT: u32 = 3;

/// The number of a type definition, from 0: the core library's first, then each file's TypeDef rows.
#[derive(Clone, Copy, PartialEq, Eq)]
pub struct DefId(pub u32);

/// The number of a method, from 0, counted like definitions.
#[derive(Clone, Copy, PartialEq, Eq)]
pub struct MethId(pub u32);

/// The number of a field, from 0, counted like definitions.
#[derive(Clone, Copy, PartialEq, Eq)]
pub struct FieldId(pub u32);

/// The number of a signature, from 0.
#[derive(Clone, Copy, PartialEq, Eq)]
pub struct SigId(pub u32);

/// The number of a name, from 0.
#[derive(Clone, Copy, PartialEq, Eq)]
pub struct NameId(pub u32);

/// What a loader answers for a type or method that it has loaded.
#[derive(Clone, Copy, PartialEq, Eq)]
pub struct Handle(pub u32);
