//! Blobs of signatures, and what is read of them (ECMA-335 II.23.2, II.24.2.4).
ghost use Rattle.std.specs.Prelude.{◌≡◌, ℕ, Result, IfOk};
ghost use Rattle.cli_sigs.specs.Signatures.{Answers};
ghost use Rattle.image_rows.specs.Blobs as spec;

use crate::table_numbers::{TYPE_DEF, TYPE_REF, TYPE_SPEC};
use cli_sigs::{RowCounts, SigFault};
use cli_tables::Tables;
use clr_base::Memory;

/// The code that a field's signature begins with (II.23.2.4).
pub const FIELD_CODE: u8 = 0x06;

/// The code that the types of local variables begin with (II.23.2.6).
pub const LOCALS_CODE: u8 = 0x07;

/// How many rows the tables have that a signature may name.
pub fn row_counts(tables: &Tables<'_>) -> RowCounts
    ensures { result ≡ spec.row_counts tables.now }
{
    RowCounts {
        type_def: tables.row_count(TYPE_DEF),
        type_ref: tables.row_count(TYPE_REF),
        type_spec: tables.row_count(TYPE_SPEC),
    }
}

/// What was read, or `otherwise` where the blob is no signature, which is not so in a file that passes its checks.
pub fn value_or<T: Drop>(read: Result<T, SigFault>, otherwise: T) -> Result<T, Memory>
    ensures { (held : Result T ℕ) → Answers read held → IfOk result (λ x. x ≡ spec.value_or otherwise held) }
{
    match read {
        Ok(value) => Ok(value),
        Err(SigFault::Bad(_)) => Ok(otherwise),
        Err(SigFault::Memory) => Err(Memory),
    }
}

/// Whether a blob begins with a code.
pub fn begins_with(code: u8, blob: &[u8]) -> bool
    ensures { result ≡ spec.begins_with code blob.now }
{
    match blob {
        [first, ..] => *first == code,
        [] => false,
    }
}
