//! The schema of the metadata tables (ECMA-335 II.22, II.24.2.6), as data: the one place that knows their columns.
ghost use Rattle.std.specs.Prelude.{◌≡◌, ◌<◌, ◌≤◌, length};
ghost use Rattle.cli_tables.specs.Schema as spec;

/// What a column holds.
#[derive(Clone, Copy)]
pub enum Column {
    /// A number of 1 byte.
    U8,
    /// A number of 2 bytes.
    U16,
    /// A number of 4 bytes.
    U32,
    /// An index into the heap `#Strings`.
    Strings,
    /// An index into the heap `#GUID`.
    Guid,
    /// An index into the heap `#Blob`.
    Blob,
    /// A row of the table with this number, from 1.
    Row(u8),
    /// The first row, in the table with this number, of a run that goes on to the run of the next row.
    Run(u8),
    /// A row of one of several tables.
    Coded(CodedIndex),
}

/// The coded indexes (II.24.2.6): the low bits of the number are a tag, which means a table, and the rest is a row.
#[derive(Clone, Copy)]
pub enum CodedIndex {
    TypeDefOrRef,
    HasConstant,
    HasCustomAttribute,
    HasFieldMarshal,
    HasDeclSecurity,
    MemberRefParent,
    HasSemantics,
    MethodDefOrRef,
    MemberForwarded,
    Implementation,
    CustomAttributeType,
    ResolutionScope,
    TypeOrMethodDef,
}

/// The most columns that a table has.
pub const MOST_COLUMNS: usize = 9;

/// How many table numbers the schema has, from 0 on.
pub const TABLE_COUNT: usize = 45;

/// How many bits the tag of each coded index has, in the order of `CodedIndex`.
pub static TAG_BITS: [u8; 13] = [2, 2, 5, 1, 2, 3, 1, 1, 1, 2, 3, 2, 1];

/// The tables that each coded index may mean, by tag. A tag that isn't used has no table.
pub static CODED_TABLES: [&[Option<u8>]; 13] = [
    // TypeDefOrRef
    &[Some(0x02), Some(0x01), Some(0x1b)],
    // HasConstant
    &[Some(0x04), Some(0x08), Some(0x17)],
    // HasCustomAttribute
    &[
        Some(0x06),
        Some(0x04),
        Some(0x01),
        Some(0x02),
        Some(0x08),
        Some(0x09),
        Some(0x0a),
        Some(0x00),
        Some(0x0e),
        Some(0x17),
        Some(0x14),
        Some(0x11),
        Some(0x1a),
        Some(0x1b),
        Some(0x20),
        Some(0x23),
        Some(0x26),
        Some(0x27),
        Some(0x28),
        Some(0x2a),
        Some(0x2c),
        Some(0x2b),
    ],
    // HasFieldMarshal
    &[Some(0x04), Some(0x08)],
    // HasDeclSecurity
    &[Some(0x02), Some(0x06), Some(0x20)],
    // MemberRefParent
    &[Some(0x02), Some(0x01), Some(0x1a), Some(0x06), Some(0x1b)],
    // HasSemantics
    &[Some(0x14), Some(0x17)],
    // MethodDefOrRef
    &[Some(0x06), Some(0x0a)],
    // MemberForwarded
    &[Some(0x04), Some(0x06)],
    // Implementation
    &[Some(0x26), Some(0x23), Some(0x27)],
    // CustomAttributeType
    &[None, None, Some(0x06), Some(0x0a), None],
    // ResolutionScope
    &[Some(0x00), Some(0x1a), Some(0x23), Some(0x01)],
    // TypeOrMethodDef
    &[Some(0x02), Some(0x06)],
];

/// The columns of each table, by its number. A table that isn't known has none.
pub static TABLES: [&[Column]; TABLE_COUNT] = [
    // 0x00 Module
    &[
        Column::U16, // Generation
        Column::Strings, // Name
        Column::Guid, // Mvid
        Column::Guid, // EncId
        Column::Guid, // EncBaseId
    ],
    // 0x01 TypeRef
    &[
        Column::Coded(CodedIndex::ResolutionScope), // ResolutionScope
        Column::Strings, // Name
        Column::Strings, // Namespace
    ],
    // 0x02 TypeDef
    &[
        Column::U32, // Flags
        Column::Strings, // Name
        Column::Strings, // Namespace
        Column::Coded(CodedIndex::TypeDefOrRef), // Extends
        Column::Run(0x04), // FieldList
        Column::Run(0x06), // MethodList
    ],
    // 0x03
    &[],
    // 0x04 Field
    &[
        Column::U16, // Flags
        Column::Strings, // Name
        Column::Blob, // Signature
    ],
    // 0x05
    &[],
    // 0x06 MethodDef
    &[
        Column::U32, // RVA
        Column::U16, // ImplFlags
        Column::U16, // Flags
        Column::Strings, // Name
        Column::Blob, // Signature
        Column::Run(0x08), // ParamList
    ],
    // 0x07
    &[],
    // 0x08 Param
    &[
        Column::U16, // Flags
        Column::U16, // Sequence
        Column::Strings, // Name
    ],
    // 0x09 InterfaceImpl
    &[
        Column::Row(0x02), // Class
        Column::Coded(CodedIndex::TypeDefOrRef), // Interface
    ],
    // 0x0a MemberRef
    &[
        Column::Coded(CodedIndex::MemberRefParent), // Class
        Column::Strings, // Name
        Column::Blob, // Signature
    ],
    // 0x0b Constant
    &[
        Column::U8, // Type
        Column::U8, // Padding
        Column::Coded(CodedIndex::HasConstant), // Parent
        Column::Blob, // Value
    ],
    // 0x0c CustomAttribute
    &[
        Column::Coded(CodedIndex::HasCustomAttribute), // Parent
        Column::Coded(CodedIndex::CustomAttributeType), // Type
        Column::Blob, // Value
    ],
    // 0x0d FieldMarshal
    &[
        Column::Coded(CodedIndex::HasFieldMarshal), // Parent
        Column::Blob, // NativeType
    ],
    // 0x0e DeclSecurity
    &[
        Column::U16, // Action
        Column::Coded(CodedIndex::HasDeclSecurity), // Parent
        Column::Blob, // PermissionSet
    ],
    // 0x0f ClassLayout
    &[
        Column::U16, // PackingSize
        Column::U32, // ClassSize
        Column::Row(0x02), // Parent
    ],
    // 0x10 FieldLayout
    &[
        Column::U32, // Offset
        Column::Row(0x04), // Field
    ],
    // 0x11 StandAloneSig
    &[
        Column::Blob, // Signature
    ],
    // 0x12 EventMap
    &[
        Column::Row(0x02), // Parent
        Column::Run(0x14), // EventList
    ],
    // 0x13
    &[],
    // 0x14 Event
    &[
        Column::U16, // EventFlags
        Column::Strings, // Name
        Column::Coded(CodedIndex::TypeDefOrRef), // EventType
    ],
    // 0x15 PropertyMap
    &[
        Column::Row(0x02), // Parent
        Column::Run(0x17), // PropertyList
    ],
    // 0x16
    &[],
    // 0x17 Property
    &[
        Column::U16, // Flags
        Column::Strings, // Name
        Column::Blob, // Type
    ],
    // 0x18 MethodSemantics
    &[
        Column::U16, // Semantics
        Column::Row(0x06), // Method
        Column::Coded(CodedIndex::HasSemantics), // Association
    ],
    // 0x19 MethodImpl
    &[
        Column::Row(0x02), // Class
        Column::Coded(CodedIndex::MethodDefOrRef), // MethodBody
        Column::Coded(CodedIndex::MethodDefOrRef), // MethodDeclaration
    ],
    // 0x1a ModuleRef
    &[
        Column::Strings, // Name
    ],
    // 0x1b TypeSpec
    &[
        Column::Blob, // Signature
    ],
    // 0x1c ImplMap
    &[
        Column::U16, // MappingFlags
        Column::Coded(CodedIndex::MemberForwarded), // MemberForwarded
        Column::Strings, // ImportName
        Column::Row(0x1a), // ImportScope
    ],
    // 0x1d FieldRVA
    &[
        Column::U32, // RVA
        Column::Row(0x04), // Field
    ],
    // 0x1e
    &[],
    // 0x1f
    &[],
    // 0x20 Assembly
    &[
        Column::U32, // HashAlgId
        Column::U16, // Major
        Column::U16, // Minor
        Column::U16, // Build
        Column::U16, // Revision
        Column::U32, // Flags
        Column::Blob, // PublicKey
        Column::Strings, // Name
        Column::Strings, // Culture
    ],
    // 0x21 AssemblyProcessor
    &[
        Column::U32, // Processor
    ],
    // 0x22 AssemblyOS
    &[
        Column::U32, // PlatformId
        Column::U32, // Major
        Column::U32, // Minor
    ],
    // 0x23 AssemblyRef
    &[
        Column::U16, // Major
        Column::U16, // Minor
        Column::U16, // Build
        Column::U16, // Revision
        Column::U32, // Flags
        Column::Blob, // PublicKeyOrToken
        Column::Strings, // Name
        Column::Strings, // Culture
        Column::Blob, // HashValue
    ],
    // 0x24 AssemblyRefProcessor
    &[
        Column::U32, // Processor
        Column::Row(0x23), // AssemblyRef
    ],
    // 0x25 AssemblyRefOS
    &[
        Column::U32, // PlatformId
        Column::U32, // Major
        Column::U32, // Minor
        Column::Row(0x23), // AssemblyRef
    ],
    // 0x26 File
    &[
        Column::U32, // Flags
        Column::Strings, // Name
        Column::Blob, // HashValue
    ],
    // 0x27 ExportedType
    &[
        Column::U32, // Flags
        Column::U32, // TypeDefId
        Column::Strings, // Name
        Column::Strings, // Namespace
        Column::Coded(CodedIndex::Implementation), // Implementation
    ],
    // 0x28 ManifestResource
    &[
        Column::U32, // Offset
        Column::U32, // Flags
        Column::Strings, // Name
        Column::Coded(CodedIndex::Implementation), // Implementation
    ],
    // 0x29 NestedClass
    &[
        Column::Row(0x02), // NestedClass
        Column::Row(0x02), // EnclosingClass
    ],
    // 0x2a GenericParam
    &[
        Column::U16, // Number
        Column::U16, // Flags
        Column::Coded(CodedIndex::TypeOrMethodDef), // Owner
        Column::Strings, // Name
    ],
    // 0x2b MethodSpec
    &[
        Column::Coded(CodedIndex::MethodDefOrRef), // Method
        Column::Blob, // Instantiation
    ],
    // 0x2c GenericParamConstraint
    &[
        Column::Row(0x2a), // Owner
        Column::Coded(CodedIndex::TypeDefOrRef), // Constraint
    ],
];

impl CodedIndex {
    /// The tables that it may mean, by tag.
    #[tactic(auto, unfolding(crate::specs::Schema::tables_of))]
    pub fn tables(self) -> &'static [Option<u8>]
        ensures { result.now ≡ spec.tables_of self }
    {
        CODED_TABLES[self as usize]
    }

    /// How many bits its tag has.
    #[tactic(auto, unfolding(crate::specs::Schema::tag_bits))]
    pub fn tag_bits(self) -> u8
        ensures exact { result ≡ spec.tag_bits self }
        ensures small { result ≤ 5 }
    {
        TAG_BITS[self as usize]
    }
}

/// The columns of a table, none where it isn't known.
pub fn columns_of(table: u8) -> &'static [Column]
    ensures { result.now ≡ spec.columns table }
{
    let table = table as usize;
    if table < TABLE_COUNT {
        TABLES[table]
    } else {
        &[]
    }
}
