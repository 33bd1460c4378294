//! What an assembly is to hold.

use clr_base::Bytes;
use sqlite_items::Items;

/// The cells of a table, row after row.
pub type CellList = Items<u32>;

/// The tables by their numbers (ECMA-335 II.22).
pub type TableList = Items<CellList>;

/// The tables and heaps of an assembly, and the bytes behind its metadata.
#[derive(Drop)]
pub struct Draft {
    /// PE32+ instead of PE32.
    pub plus: bool,
    /// Which heap indexes are wide though their heap is short: 1 of `#Strings`, 2 of `#GUID`, 4 of `#Blob`.
    pub heap_sizes: u8,
    /// The 45 tables. A cell is the number that is written, but for the RVA of a method (table 0x06, column 0) and of a
    /// field's data (0x1D, column 0): it is 0 for none, or an offset in `bodies` plus 1.
    pub tables: TableList,
    /// `#Strings`.
    pub strings: Bytes,
    /// `#Blob`.
    pub blobs: Bytes,
    /// `#US`.
    pub users: Bytes,
    /// `#GUID`.
    pub guids: Bytes,
    /// Method bodies and data of fields.
    pub bodies: Bytes,
}
