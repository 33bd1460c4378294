//! Drafts that are written, and drafts that aren't.
use crate::smallest::smallest_image;
use cli_tables::TABLE_COUNT;
use clr_base::Bytes;
use image_write::{Draft, TableList, WriteFault, write_image};
use sqlite_items::Items;
use std::alloc::{AllocError, Global};
use std::test::Fail;

/// Tables with these cells.
fn tables(alloc: Global, rows: &[(usize, &[u32])]) -> Result<TableList, AllocError> {
    let mut tables = Items::new(alloc);
    for t in 0..TABLE_COUNT {
        let mut cells = Items::new(alloc);
        for (table, list) in rows {
            if *table == t {
                cells = Items::from_slice(alloc, list)?;
            }
        }
        tables.push(cells)?;
    }
    Ok(tables)
}

/// Module, and `<Module>`.
const ROWS: [(usize, &[u32]); 2] = [(0x00, &[0, 1, 1, 0, 0]), (0x02, &[0, 7, 0, 0, 1, 1])];

/// The draft of the smallest image but for its tables.
fn with_tables(alloc: Global, tables: TableList) -> Result<Draft, AllocError> {
    Ok(Draft {
        plus: false,
        heap_sizes: 0,
        tables,
        strings: Bytes::from_slice(alloc, b"\0m.dll\0<Module>\0")?,
        blobs: Bytes::new(alloc),
        users: Bytes::new(alloc),
        guids: Bytes::from_slice(alloc, &[0; 16])?,
        bodies: Bytes::new(alloc),
    })
}

/// The image of a draft that fits, or none.
fn image(alloc: Global, draft: &Draft) -> Option<Vec<u8>> {
    if draft.fits() {
        write_image(alloc, draft).ok()
    } else {
        None
    }
}

/// Whether a draft is written as these bytes.
fn is_written_as(alloc: Global, draft: &Draft, wanted: &[u8]) -> bool {
    match image(alloc, draft) {
        Some(image) => image.as_slice() == wanted,
        None => false,
    }
}

#[test]
fn the_smallest_draft(rt: HostRuntime) -> Result<(), Fail> {
    let wanted = smallest_image(rt.alloc())?;
    let draft = with_tables(rt.alloc(), tables(rt.alloc(), &ROWS)?)?;
    assert!(rt; is_written_as(rt.alloc(), &draft, &wanted));
    Ok(())
}

/// Cells of a table, and whether a draft with them fits: two rows of TypeSpec; tables that the schema doesn't know; a row that
/// isn't whole; a cell that is wider than its column; an RVA past the bodies.
const FITTING: [(usize, &[u32], bool); 6] = [
    (0x1b, &[1, 2], true),
    (0x03, &[1], false),
    (0x1e, &[1], false),
    (0x1c, &[1, 2], false),
    (0x1b, &[65_536], false),
    (0x1d, &[1, 1], false),
];

/// Whether a draft with these cells fits.
fn fits(alloc: Global, table: usize, cells: &[u32]) -> Result<bool, AllocError> {
    let draft = with_tables(alloc, tables(alloc, &[(table, cells)])?)?;
    Ok(draft.fits())
}

#[test]
fn drafts_that_fit(rt: HostRuntime) -> Result<(), Fail> {
    let mut are_as_wanted = true;
    for (table, cells, wanted) in FITTING {
        are_as_wanted &= fits(rt.alloc(), table, cells)? == wanted;
    }
    assert!(rt; are_as_wanted);
    Ok(())
}

/// As many rows of AssemblyProcessor as are asked for, of one cell each.
fn crowded(alloc: Global, rows: usize) -> Result<TableList, AllocError> {
    let mut tables = Items::new(alloc);
    for table in 0..TABLE_COUNT {
        let rows = if table == 0x21 { rows } else { 0 };
        tables.push(Items::from_vec(vec![in alloc; 0; rows]?))?;
    }
    Ok(tables)
}

/// Why a draft that fits isn't written.
fn refusal(alloc: Global, draft: &Draft) -> Option<WriteFault> {
    if draft.fits() {
        write_image(alloc, draft).err()
    } else {
        None
    }
}

#[test]
fn more_rows_than_a_token_names(rt: HostRuntime) -> Result<(), Fail> {
    let draft = with_tables(rt.alloc(), crowded(rt.alloc(), 16_777_216)?)?;
    assert!(rt; refusal(rt.alloc(), &draft) == Some(WriteFault::TooManyRows(0x21)));
    Ok(())
}
