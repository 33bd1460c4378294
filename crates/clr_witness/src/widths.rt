//! The widths of columns and rows (ECMA-335 II.24.2.6), by HeapSizes and counts of rows.
use crate::numbers::named;
use crate::schema::CODED;
use crate::words::split_word;
use cli_tables::{Column, TABLE_COUNT, columns_of, width_of};
use clr_base::Memory;

/// The counts that words such as `02=65536` give: a table's number in hex and its rows. Other tables have none.
fn counts_of(words: &str) -> [u32; TABLE_COUNT] {
    let mut counts = [0; TABLE_COUNT];
    for word in words.split(' ') {
        let (table, rows) = word.split_once('=').unwrap_or((word, ""));
        let table = usize::from_str_radix(table, 16).unwrap_or(TABLE_COUNT);
        if let Some(count) = counts.get_mut(table) {
            *count = rows.parse::<u32>().unwrap_or(0);
        }
    }
    counts
}

/// The column of a name: a heap's, a table's number in hex, or a coded index's.
fn column_of(name: &str) -> Option<Column> {
    match name {
        "#Strings" => Some(Column::Strings),
        "#GUID" => Some(Column::Guid),
        "#Blob" => Some(Column::Blob),
        _ => match u8::from_str_radix(name, 16) {
            Ok(table) => Some(Column::Row(table)),
            Err(_) => named(&CODED, name).map(Column::Coded),
        },
    }
}

/// `width COLUMN SIZES TABLE=ROWS..`: the bytes of the column.
pub fn push_width(out: &mut String, request: &str) -> Result<(), Memory> {
    let (name, rest) = split_word(request);
    let (sizes, counts) = split_word(rest);
    let (Some(column), Ok(sizes)) = (column_of(name), sizes.parse::<u8>()) else {
        return Ok(out.push_str(" = no column")?);
    };
    let width = width_of(&counts_of(counts), sizes, column);
    Ok(write!(out, " = {width}")?)
}

fn row_width(counts: &[u32], sizes: u8, table: u8) -> u32 {
    let mut width: u32 = 0;
    for column in columns_of(table) {
        width = width.saturating_add(u32::from(width_of(counts, sizes, *column)));
    }
    width
}

/// `rows SIZES TABLE=ROWS..`: the bytes of a row of each table, 0 where the table isn't known.
pub fn push_rows(out: &mut String, request: &str) -> Result<(), Memory> {
    let (sizes, counts) = split_word(request);
    let Ok(sizes) = sizes.parse::<u8>() else {
        return Ok(out.push_str(" = no sizes")?);
    };
    let counts = counts_of(counts);
    out.push_str(" =")?;
    for table in 0..TABLE_COUNT {
        write!(out, " {}", row_width(&counts, sizes, table as u8))?;
    }
    Ok(())
}
