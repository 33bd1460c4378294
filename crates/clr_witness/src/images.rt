//! PE images and metadata (ECMA-335 II.24, II.25).
use crate::words::{bytes_of, split_word};
use cli_tables::{TABLE_COUNT, Tables, TextFaults, columns_of};
use clr_base::{FaultKind, ImageFault, Memory};
use pe_image::{body_at, metadata};
use std::alloc::Global;

fn push_fault(out: &mut String, fault: ImageFault) -> Result<(), Memory> {
    let (kind, place) = (fault.kind, fault.place);
    Ok(write!(out, " = {kind:?} at 0x{place:x}")?)
}

/// `image HEX`: where the metadata and the section headers of an image lie.
pub fn push_image(alloc: Global, out: &mut String, request: &str) -> Result<(), Memory> {
    let bytes = bytes_of(alloc, request)?;
    match metadata(&bytes) {
        Ok(places) => {
            write!(out, " = metadata at 0x{:x}, ", places.meta_start)?;
            write!(out, "{} bytes; sections at ", places.meta_len)?;
            Ok(write!(out, "0x{:x}, {}", places.sections_at, places.section_count)?)
        }
        Err(fault) => push_fault(out, fault),
    }
}

/// The bytes of the body at an RVA.
fn push_body_at(alloc: Global, out: &mut String, bytes: &[u8], rva: u32) -> Result<(), Memory> {
    let places = match metadata(bytes) {
        Ok(places) => places,
        Err(fault) => return push_fault(out, fault),
    };
    match body_at(bytes, &places, rva) {
        Ok(body) => Ok(write!(out, " = {}", hex::encode(alloc, body)?)?),
        Err(fault) => push_fault(out, fault),
    }
}

/// `code RVA HEX`: the header and the code of the body at an RVA, in hex, of an image.
pub fn push_code(alloc: Global, out: &mut String, request: &str) -> Result<(), Memory> {
    let (rva, image) = split_word(request);
    let bytes = bytes_of(alloc, image)?;
    push_body_at(
        alloc,
        out,
        &bytes,
        u32::from_str_radix(rva, 16).unwrap_or(0),
    )
}

/// A cell, where the table has the row and the column.
fn push_cell(
    out: &mut String,
    tables: &Tables<'_>,
    table: u8,
    row: u32,
    column: u8,
) -> Result<(), Memory> {
    if row == 0 || tables.row_count(table) < row {
        return Ok(());
    }
    if columns_of(table).len() <= usize::from(column) {
        return Ok(());
    }
    Ok(write!(out, " {:x}", tables.cell(table, row, column))?)
}

fn push_row(out: &mut String, tables: &Tables<'_>, table: u8, row: u32) -> Result<(), Memory> {
    write!(out, "\n  {table:02x} row {row}:")?;
    for column in 0..u8::MAX {
        push_cell(out, tables, table, row, column)?;
    }
    Ok(())
}

fn push_table(out: &mut String, tables: &Tables<'_>, table: u8) -> Result<(), Memory> {
    for row in 0..tables.row_count(table) {
        push_row(out, tables, table, row + 1)?;
    }
    Ok(())
}

/// The text, the blob and the user string at an index, by their lengths or faults.
fn push_heaps(out: &mut String, tables: &Tables<'_>, index: u32) -> Result<(), Memory> {
    let text = tables.string(index);
    let blob = tables.blob(index).map(|blob| blob.len());
    let user = tables.user_string(index).map(|user| user.len());
    Ok(write!(out, "\n  {index}: {text:?}, {blob:?}, {user:?}")?)
}

/// The first indexes of which the heaps are looked at.
const INDEXES: u32 = 18;

fn push_contents(out: &mut String, tables: &Tables<'_>) -> Result<(), Memory> {
    for table in 0..TABLE_COUNT {
        push_table(out, tables, table as u8)?;
    }
    write!(out, "\n  #US of {} bytes", tables.users().len())?;
    for index in 0..INDEXES {
        push_heaps(out, tables, index)?;
    }
    Ok(())
}

/// `tables HEX`: the rows of metadata, and what stands at the first indexes of its heaps.
pub fn push_tables(alloc: Global, out: &mut String, request: &str) -> Result<(), Memory> {
    let bytes = bytes_of(alloc, request)?;
    match Tables::read(&bytes) {
        Ok(tables) => push_contents(out, &tables),
        Err(fault) => push_fault(out, fault),
    }
}

fn fault_word(fault: Option<FaultKind>) -> &'static str {
    match fault {
        None => " ok",
        Some(FaultKind::BadText) => " BadText",
        Some(FaultKind::BadIndex) => " BadIndex",
        Some(_) => " another",
    }
}

/// `texts HEX`: what is wrong with the text at each index of a heap, up to two past its end.
pub fn push_texts(alloc: Global, out: &mut String, request: &str) -> Result<(), Memory> {
    let heap = bytes_of(alloc, request)?;
    let faults = TextFaults::read(alloc, &heap)?;
    out.push_str(" =")?;
    for index in 0..heap.len() as u32 {
        out.push_str(fault_word(faults.fault(index)))?;
    }
    out.push_str(fault_word(faults.fault(heap.len() as u32)))?;
    Ok(out.push_str(fault_word(faults.fault(u32::MAX)))?)
}
