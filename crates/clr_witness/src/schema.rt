//! The schema of the tables (ECMA-335 II.22, II.24.2.6).
use cli_tables::{CodedIndex, Column, TABLE_COUNT, columns_of};
use clr_base::Memory;

/// The coded indexes by their names.
pub static CODED: [(&str, CodedIndex); 13] = [
    ("TypeDefOrRef", CodedIndex::TypeDefOrRef),
    ("HasConstant", CodedIndex::HasConstant),
    ("HasCustomAttribute", CodedIndex::HasCustomAttribute),
    ("HasFieldMarshal", CodedIndex::HasFieldMarshal),
    ("HasDeclSecurity", CodedIndex::HasDeclSecurity),
    ("MemberRefParent", CodedIndex::MemberRefParent),
    ("HasSemantics", CodedIndex::HasSemantics),
    ("MethodDefOrRef", CodedIndex::MethodDefOrRef),
    ("MemberForwarded", CodedIndex::MemberForwarded),
    ("Implementation", CodedIndex::Implementation),
    ("CustomAttributeType", CodedIndex::CustomAttributeType),
    ("ResolutionScope", CodedIndex::ResolutionScope),
    ("TypeOrMethodDef", CodedIndex::TypeOrMethodDef),
];

/// The name of a coded index: they stand above in the order in which they are declared.
fn name_of(coded: CodedIndex) -> &'static str {
    match CODED.get(coded as usize) {
        Some((name, _)) => name,
        None => "no name",
    }
}

fn push_column(out: &mut String, column: Column) -> Result<(), Memory> {
    match column {
        Column::U8 => out.push_str(" 1")?,
        Column::U16 => out.push_str(" 2")?,
        Column::U32 => out.push_str(" 4")?,
        Column::Strings => out.push_str(" #Strings")?,
        Column::Guid => out.push_str(" #GUID")?,
        Column::Blob => out.push_str(" #Blob")?,
        Column::Row(table) => write!(out, " {table:02x}")?,
        Column::Run(table) => write!(out, " {table:02x}..")?,
        Column::Coded(coded) => write!(out, " {}", name_of(coded))?,
    }
    Ok(())
}

fn push_table(out: &mut String, table: u8) -> Result<(), Memory> {
    write!(out, "\n  table {table:02x}:")?;
    for column in columns_of(table) {
        push_column(out, *column)?;
    }
    Ok(())
}

fn push_coded(out: &mut String, name: &str, coded: CodedIndex) -> Result<(), Memory> {
    write!(out, "\n  coded {name}, tag of {}:", coded.tag_bits())?;
    for table in coded.tables() {
        match table {
            Some(table) => write!(out, " {table:02x}")?,
            None => out.push_str(" -")?,
        }
    }
    Ok(())
}

/// `schema`: the columns of each table, and the tag and the tables of each coded index.
pub fn push_schema(out: &mut String) -> Result<(), Memory> {
    for table in 0..TABLE_COUNT {
        push_table(out, table as u8)?;
    }
    for (name, coded) in &CODED {
        push_coded(out, name, *coded)?;
    }
    Ok(())
}
