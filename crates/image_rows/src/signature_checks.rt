//! The checks of a file's signatures, in order (ECMA-335 II.23.2).
ghost use Rattle.std.specs.Prelude.{◌≡◌, ◌<◌, ◌^◌, length, IfOk, OnOk};
ghost use Rattle.cli_tables.specs.Schema.{columns};
ghost use Rattle.image_rows.specs.Blobs as blobs;
ghost use Rattle.image_rows.specs.BitNotes.{HavePassed};
ghost use Rattle.image_rows.specs.Refusals.{Gives};
ghost use Rattle.image_rows.specs.SignatureChecks as spec;

use crate::bit_notes::{is_noted, note};
use crate::blobs::{FIELD_CODE, LOCALS_CODE, begins_with, row_counts};
use crate::cells::blob_by;
use crate::refusal::Refusal;
use crate::rows::token;
use cli_sigs::{
    RowCounts, check_field, check_method, check_method_spec, check_type_spec, count_locals,
};
use cli_tables::Tables;
use clr_base::{FaultKind, check};
use std::alloc::{AllocError, Global};

/// What signature stands in a column.
#[derive(Clone, Copy)]
pub enum SigKind {
    Field,
    Method,
    /// A field's or a method's.
    Member,
    /// The types of local variables, asked only of what begins as these do.
    Locals,
    Type,
    /// The arguments of a generic method.
    Arguments,
}

/// A column of signatures.
#[derive(Clone, Copy)]
pub struct SigColumn {
    pub table: u8,
    pub column: u8,
    pub kind: SigKind,
}

/// The columns of signatures, in order: those of Field, MethodDef, MemberRef, StandAloneSig, TypeSpec and MethodSpec
/// (II.22.15, II.22.26, II.22.25, II.22.36, II.22.39, II.22.29).
pub const SIG_COLUMNS: [SigColumn; 6] = [
    SigColumn {
        table: 0x04,
        column: 2,
        kind: SigKind::Field,
    },
    SigColumn {
        table: 0x06,
        column: 4,
        kind: SigKind::Method,
    },
    SigColumn {
        table: 0x0a,
        column: 2,
        kind: SigKind::Member,
    },
    SigColumn {
        table: 0x11,
        column: 0,
        kind: SigKind::Locals,
    },
    SigColumn {
        table: 0x1b,
        column: 0,
        kind: SigKind::Type,
    },
    SigColumn {
        table: 0x2b,
        column: 1,
        kind: SigKind::Arguments,
    },
];

/// Whether a blob is a signature of a kind.
#[tactic(auto, unfolding(crate::specs::SignatureChecks::is_signature), using(crate::proofs::Signed::read_or_not))]
fn is_signature(counts: &RowCounts, kind: SigKind, blob: &[u8]) -> bool
    requires { length blob.now < 2 ^ 32 }
    ensures { result ≡ spec.is_signature counts.now kind blob.now }
{
    match kind {
        SigKind::Field => check_field(blob, counts).is_ok(),
        SigKind::Method => check_method(blob, counts).is_ok(),
        SigKind::Member if begins_with(FIELD_CODE, blob) => check_field(blob, counts).is_ok(),
        SigKind::Member => check_method(blob, counts).is_ok(),
        SigKind::Locals if begins_with(LOCALS_CODE, blob) => count_locals(blob, counts).is_ok(),
        SigKind::Locals => true,
        SigKind::Type => check_type_spec(blob, counts).is_ok(),
        SigKind::Arguments => check_method_spec(blob, counts).is_ok(),
    }
}

/// Whether the blob at an index is a signature of a kind, by a check. The index of one that is a signature is noted, but not of
/// an empty blob, so that notes reach no further than the heap.
// Most indexes of a column are noted, so the check stays out of the loop over its rows.
#[inline(never)]
#[tactic(auto, unfolding(crate::specs::SignatureChecks::is_signature_by))]
fn check_and_note(
    tables: &Tables<'_>,
    counts: &RowCounts,
    kind: SigKind,
    noted: &mut Vec<u8>,
    index: u32,
) -> Result<bool, AllocError>
    requires counts { counts.now ≡ blobs.row_counts tables.now }
    requires noted { HavePassed (spec.is_signature_by tables.now kind) noted.old.items }
    ensures exact { IfOk result (λ good. good ≡ spec.is_signature_by tables.now kind index) }
    ensures noted { OnOk result (HavePassed (spec.is_signature_by tables.now kind) noted.new.items) }
{
    let blob = blob_by(tables, index);
    let good = is_signature(counts, kind, blob);
    if good && !blob.is_empty() {
        note(noted, index)?;
    }
    Ok(good)
}

/// Whether the blob at an index is a signature of a kind. It is checked where the index isn't noted yet.
fn is_signature_by(
    tables: &Tables<'_>,
    counts: &RowCounts,
    kind: SigKind,
    noted: &mut Vec<u8>,
    index: u32,
) -> Result<bool, AllocError>
    requires counts { counts.now ≡ blobs.row_counts tables.now }
    requires noted { HavePassed (spec.is_signature_by tables.now kind) noted.old.items }
    ensures exact { IfOk result (λ good. good ≡ spec.is_signature_by tables.now kind index) }
    ensures noted { OnOk result (HavePassed (spec.is_signature_by tables.now kind) noted.new.items) }
{
    if is_noted(noted, index) {
        return Ok(true);
    }
    check_and_note(tables, counts, kind, noted, index)
}

/// The signatures in a column, row by row. Takes time in the rows and in the length of the blobs at different indexes.
#[inline(never)]
#[tactic(auto, unfolding(crate::specs::SignatureChecks::column_signature_checks, crate::specs::SignatureChecks::row_signature_checks))]
fn check_column(alloc: Global, tables: &Tables<'_>, column: SigColumn) -> Result<(), Refusal>
    requires { column.column < length (columns column.table) }
    ensures { Gives result (spec.column_signature_checks tables.now column) }
{
    let counts = row_counts(tables);
    let mut noted = Vec::new(alloc);
    for row in 0..tables.row_count(column.table) {
        let index = tables.cell(column.table, row + 1, column.column);
        let good = is_signature_by(tables, &counts, column.kind, &mut noted, index)?;
        let place = token(column.table, row + 1);
        check(good, FaultKind::BadSignature, place)?;
    }
    Ok(())
}

/// All signatures of a file. The fault is the first that they have. Takes memory for at most two bits for each byte of
/// `#Blob`, and time in the rows and in the length of the blobs.
#[tactic(auto, unfolding(crate::specs::SignatureChecks::signature_checks))]
pub fn check_signatures(alloc: Global, tables: &Tables<'_>) -> Result<(), Refusal>
    ensures { Gives result (spec.signature_checks tables.now) }
{
    for column in SIG_COLUMNS {
        check_column(alloc, tables, column)?;
    }
    Ok(())
}
