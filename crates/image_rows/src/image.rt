//! A whole file.
ghost use Rattle.std.specs.Prelude.{◌≡◌, ◌+◌, ◌≤◌, length, slice_range, IfOk, IsErrOf, IsOk};
ghost use Rattle.image_rows.specs.Image.{image_of, tables_of};
ghost use Rattle.image_rows.specs.Refusals.{GivesOutcome};
ghost use Rattle.image_rows.specs.Rows.{ArePassed};
ghost use Rattle.image_rows.specs.SignatureChecks.{AreSigned};

use crate::refusal::Refusal;
use crate::rows::check_rows;
use crate::signature_checks::check_signatures;
use cli_tables::Tables;
use clr_base::ImageFault;
use pe_image::{Places, metadata};
use std::alloc::Global;

/// The bytes of the metadata.
fn metadata_part(bytes: &[u8], places: Places) -> &[u8]
    requires { places.meta_start + places.meta_len ≤ length bytes.now }
    ensures { result.now ≡ slice_range bytes.now places.meta_start (places.meta_start + places.meta_len) }
{
    let start = places.meta_start as usize;
    let end = start + places.meta_len as usize;
    &bytes[start..end]
}

/// The metadata of a file whose headers, streams and tables pass their checks, or the first fault. Takes no memory.
pub fn read_tables(bytes: &[u8]) -> Result<Tables<'_>, ImageFault>
    ensures { result ≡ tables_of bytes.now }
{
    let places = metadata(bytes)?;
    Tables::read(metadata_part(bytes, places))
}

/// The metadata of a file that passes all its checks, or the first fault. Takes the memory that the checks of rows
/// and of signatures take, so that want of memory hides no fault of headers, streams or tables.
pub fn read_image(alloc: Global, bytes: &[u8]) -> Result<Tables<'_>, Refusal>
    ensures exact { GivesOutcome result (image_of bytes.now) }
    ensures memory { IsErrOf result Refusal.Memory → IsOk (tables_of bytes.now) }
    ensures rows { IfOk result (λ m. ArePassed m) }
    ensures signatures { IfOk result (λ m. AreSigned m) }
{
    let tables = read_tables(bytes)?;
    check_rows(alloc, &tables)?;
    check_signatures(alloc, &tables)?;
    Ok(tables)
}
