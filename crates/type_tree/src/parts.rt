//! What a world is made of.

use crate::definition::{Def, Field, Method};
use crate::tree::KeyList;
use clr_base::{Bytes, DefId, FieldId, MethId, SigId, Text};
use sqlite_items::Items;

/// What a program begins with: a signature, and a method where it is an entry.
#[derive(Clone, Copy, PartialEq, Eq)]
pub struct Root {
    pub sig: SigId,
    pub method: Option<MethId>,
}

/// The member that a token names.
#[derive(Clone, Copy, PartialEq, Eq)]
pub enum Member {
    /// The token is a type's.
    NoMember,
    Field(FieldId),
    Method(MethId),
    /// The token is a member's that is missing.
    Lost,
}

/// What a token names.
#[derive(Clone, Copy, PartialEq, Eq)]
pub struct Token {
    /// The signature of its row.
    pub sig: SigId,
    /// The signature of the array of its row's type, where the row is a type's.
    pub array: Option<SigId>,
    pub member: Member,
}

/// The local variables of a method body: a run of signatures.
#[derive(Clone, Copy, PartialEq, Eq)]
pub struct Locals {
    pub first: SigId,
    pub count: u32,
}

/// Where the header and the code of a method body stand.
#[derive(Clone, Copy)]
pub struct BodyPlace {
    /// The number of the file, from 1.
    pub file: u32,
    /// The first byte, counted from the file's own.
    pub start: u64,
    /// How many bytes there are.
    pub len: u32,
}

/// What is kept of a file. Its signatures stand one after the other: one for each TypeDef, TypeRef and
/// TypeSpec row; the array of each of these, in the same order; one for each Field, MethodDef,
/// MemberRef and MethodSpec row; one for each local variable.
#[derive(Drop)]
pub struct WorldFile {
    /// The first of its signatures.
    pub first_sig: SigId,
    /// How many TypeDef rows it has.
    pub type_defs: u32,
    /// How many TypeRef rows it has.
    pub type_refs: u32,
    /// How many TypeSpec rows it has.
    pub type_specs: u32,
    /// The field of its first Field row; the others follow.
    pub first_field: FieldId,
    /// How many Field rows it has.
    pub fields: u32,
    /// How many Field rows stand before those of its first definition: no definition owns them.
    pub loose_fields: u32,
    /// The method of its first MethodDef row; the others follow.
    pub first_method: MethId,
    /// How many MethodDef rows it has.
    pub methods: u32,
    /// How many MethodDef rows stand before those of its first definition: no definition owns them.
    pub loose_methods: u32,
    /// The member of each MemberRef row.
    pub member_refs: Items<Member>,
    /// The method of each MethodSpec row, as a member.
    pub method_specs: Items<Member>,
    /// The local variables of each StandAloneSig row, where its blob is a list of them (II.23.2.6).
    pub locals: Items<Option<Locals>>,
    /// The heap of user strings (II.24.2.4).
    pub users: Bytes,
    /// The bytes in which its method bodies stand.
    pub bytes: Bytes,
}

/// What a world is made of, each thing at its number.
#[derive(Drop)]
pub struct WorldParts {
    /// Texts, each once.
    pub names: Items<Text>,
    /// The core library's definitions, then each file's TypeDef rows.
    pub defs: Items<Def>,
    /// Methods, in the order of the definitions' files.
    pub methods: Items<Method>,
    /// Where the body of each method stands; none where its RVA is 0.
    pub bodies: Items<Option<BodyPlace>>,
    /// Fields, in the order of the definitions' files.
    pub fields: Items<Field>,
    /// System.String, System.Type, System.String[], then the signatures of each file, then those of
    /// the roots.
    pub sigs: KeyList,
    /// What the program begins with, in the order of its words.
    pub roots: Items<Root>,
    /// What is kept of each file; the file with the number 1 is the first.
    pub files: Items<WorldFile>,
    /// System.ValueType.
    pub value_type: DefId,
    /// System.Enum.
    pub enumeration: DefId,
    /// System.__Canon.
    pub canon: DefId,
}
