//! Metadata as tables and heaps.
ghost use Rattle.std.specs.Prelude.{◌≡◌, ◌<◌, ◌≤◌, ◌^◌, ℕ, length, IfOk, Ok, Err, Some, None, MatchResult};
ghost use Rattle.clr_base.specs.Checks.{outcome};
ghost use Rattle.clr_base.specs.declared.image_fault.FaultKind.TheVariants.{BadIndex};
ghost use Rattle.cli_tables.specs.Heaps.{string_at, blob_at};
ghost use Rattle.cli_tables.specs.Layout as spec;
ghost use Rattle.cli_tables.specs.Metadata.{read_of, header_checks, streams_of, part};
ghost use Rattle.cli_tables.specs.Places.{ArePlaces};
ghost use Rattle.cli_tables.specs.Streams.{AreInside, IsInside};
ghost use Rattle.cli_tables.specs.TextFaults.{AreTextFaults};

use crate::cells::read_cell;
use crate::heaps::{blob_in, string_in};
use crate::layout::{TablePlace, read_layout};
use crate::root::read_root;
use crate::schema::TABLE_COUNT;
use crate::streams::{Range, Streams, read_streams};
use crate::text_faults::TextFaults;
use clr_base::{FaultKind, ImageFault};
use std::alloc::{AllocError, Global};
use std::marker::Model;

/// Metadata (ECMA-335 II.24): the tables of `#~` and the heaps. It is seen as the contents of its streams; where each
/// table and column stands was worked out once.
#[derive(Drop)]
pub struct Tables<'a> {
    tables: &'a [u8],
    strings: &'a [u8],
    users: &'a [u8],
    blobs: &'a [u8],
    places: [TablePlace; TABLE_COUNT],
}

impl<'a> Model for Tables<'a> {
    ghost use Rattle.cli_tables.specs.Metadata.{Metadata};
    ghost use Rattle.cli_tables.specs.Places.{ArePlaces};

    ghost Value = { Metadata };

    ghost view = { λ t. record { tables = t.tables.now; strings = t.strings.now; users = t.users.now; blobs = t.blobs.now } };

    ghost invariant = { λ t. ArePlaces t.tables.now t.places };
}

/// The bytes of a stream.
fn part_of(meta: &[u8], range: Option<Range>) -> &[u8]
    requires { IsInside meta.now range }
    ensures { result.now ≡ part meta.now range }
{
    match range {
        None => &[],
        Some(range) => {
            let start = range.start as usize;
            &meta[start..start + range.len as usize]
        }
    }
}

/// The streams behind the root.
#[tactic(auto, using(clr_base::proofs::Checks::outcome_failed, clr_base::proofs::Checks::outcome_passed, clr_base::proofs::Checks::outcome_value), unfolding(crate::specs::Metadata::streams_of))]
fn find_streams(meta: &[u8]) -> Result<Streams, ImageFault>
    ensures exact { result ≡ outcome (header_checks meta.now) (streams_of meta.now) }
    ensures inside { IfOk result (λ streams. AreInside meta.now streams) }
{
    let root = read_root(meta)?;
    read_streams(meta, root.headers_at, root.stream_count)
}

/// How many rows a table has, by the places.
#[tactic(auto, unfolding(crate::specs::Layout::row_count), using(crate::proofs::CellLemmas::rows_few))]
fn rows_of(stream: &[u8], places: &[TablePlace; TABLE_COUNT], table: u8) -> u32
    requires { ArePlaces stream.now places.now }
    ensures exact { result ≡ spec.row_count stream.now table }
    ensures few { result ≤ 16777215 }
{
    let table = table as usize;
    if table < TABLE_COUNT {
        places[table].rows
    } else {
        0
    }
}

/// The number in a cell, by the places.
fn cell_in(
    stream: &[u8],
    places: &[TablePlace; TABLE_COUNT],
    table: u8,
    row: u32,
    column: u8,
) -> u32
    requires places { ArePlaces stream.now places.now }
    requires cell { spec.IsCell stream.now table row column }
    ensures { result ≡ spec.cell stream.now table row column }
{
    read_cell(stream, &places[table as usize], table, row, column)
}

impl<'a> Tables<'a> {
    /// Reads metadata: its root, its stream headers and the header of its tables. A fault is the first, with its place.
    /// Takes no memory, and time in the number of tables and streams.
    #[tactic(auto, using(clr_base::proofs::Checks::outcome_failed, clr_base::proofs::Checks::outcome_passed, clr_base::proofs::Checks::outcome_value), unfolding(crate::specs::Metadata::tables_checks, crate::specs::Metadata::contents))]
    pub fn read(meta: &'a [u8]) -> Result<Tables<'a>, ImageFault>
        ensures { result ≡ read_of meta.now }
    {
        let streams = find_streams(meta)?;
        let Some(range) = streams.tables else {
            return Err(ImageFault::new(FaultKind::BadStreams, 0));
        };
        let tables = part_of(meta, streams.tables);
        let Some(places) = read_layout(tables) else {
            return Err(ImageFault::new(FaultKind::BadTables, range.start as usize));
        };
        Ok(Tables {
            tables,
            strings: part_of(meta, streams.strings),
            users: part_of(meta, streams.users),
            blobs: part_of(meta, streams.blobs),
            places,
        })
    }

    /// How many rows a table has, 0 where the schema doesn't know it. Takes no memory and constant time.
    pub fn row_count(&self, table: u8) -> u32
        ensures exact { result ≡ spec.row_count self.now.tables table }
        ensures few { result ≤ 16777215 }
    {
        rows_of(self.tables, &self.places, table)
    }

    /// The number in a cell: of a row, from 1, and a column, from 0. Takes no memory and constant time.
    pub fn cell(&self, table: u8, row: u32, column: u8) -> u32
        requires { spec.IsCell self.now.tables table row column }
        ensures { result ≡ spec.cell self.now.tables table row column }
    {
        cell_in(self.tables, &self.places, table, row, column)
    }

    /// The text at an index of `#Strings`, empty at 0. `BadIndex` where the index or the zero that ends the text is
    /// outside the heap, `BadText` where the bytes aren't UTF-8. Takes no memory, and time in the text's length.
    pub fn string(&self, index: u32) -> Result<&'a str, FaultKind>
        ensures { MatchResult result (λ text. string_at self.now.strings index ≡ Ok text.now) (λ kind. string_at self.now.strings index ≡ Err kind) }
    {
        string_in(self.strings, index)
    }

    /// What is wrong with the text at each index of `#Strings`, for callers that check many. Takes memory for each byte of the
    /// heap, and time in its length.
    pub fn text_faults(&self, alloc: Global) -> Result<TextFaults, AllocError>
        ensures { IfOk result (λ faults. AreTextFaults self.now.strings faults) }
    {
        TextFaults::read(alloc, self.strings)
    }

    /// The blob at an index of `#Blob`, empty at 0. `BadIndex` where its length or its content leaves the heap. Takes no
    /// memory and constant time.
    pub fn blob(&self, index: u32) -> Result<&'a [u8], FaultKind>
        ensures short { IfOk result (λ blob. length blob.now < 2 ^ 29) }
        ensures exact { MatchResult result (λ blob. blob_at self.now.blobs index ≡ Some blob.now) (λ kind. (kind ≡ BadIndex) × (blob_at self.now.blobs index ≡ None)) }
    {
        blob_in(self.blobs, index)
    }

    /// The blob at an index of `#US`, with its last byte. `BadIndex` where its length or its content leaves the heap. Takes
    /// no memory and constant time.
    pub fn user_string(&self, index: u32) -> Result<&'a [u8], FaultKind>
        ensures short { IfOk result (λ blob. length blob.now < 2 ^ 29) }
        ensures exact { MatchResult result (λ blob. blob_at self.now.users index ≡ Some blob.now) (λ kind. (kind ≡ BadIndex) × (blob_at self.now.users index ≡ None)) }
    {
        blob_in(self.users, index)
    }

    /// The bytes of `#US`, none where there is no such stream. Takes no memory and constant time.
    pub fn users(&self) -> &'a [u8]
        ensures { result.now ≡ self.now.users }
    {
        self.users
    }
}
