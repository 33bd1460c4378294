//! Where the metadata of a file lies.
ghost use Rattle.std.specs.Prelude.{◌≡◌};
ghost use Rattle.pe_image.specs.Metadata.{metadata_of};

use crate::headers::read_headers;
use crate::sections::SectionTable;
use clr_base::{FaultKind, ImageFault, read_u32};

/// The length of the CLI header (ECMA-335 II.25.3.3) in bytes.
const CLI_HEADER_LEN: u32 = 72;

/// The place in the file and the length of the metadata, and the place and number of the section headers, in bytes
/// from the file's begin.
#[derive(Clone, Copy)]
pub struct Places {
    pub meta_start: u64,
    pub meta_len: u32,
    pub sections_at: u64,
    pub section_count: u16,
}

/// Where the metadata lies, or the first fault of the file's headers. Takes no memory, and time in the number of
/// sections.
#[tactic(auto, using(clr_base::proofs::Checks::outcome_failed, clr_base::proofs::Checks::outcome_passed, clr_base::proofs::Checks::outcome_value), unfolding(crate::specs::Metadata::range_checks, crate::specs::Metadata::places))]
pub fn metadata(bytes: &[u8]) -> Result<Places, ImageFault>
    ensures { result ≡ metadata_of bytes.now }
{
    let headers = read_headers(bytes)?;
    let table = SectionTable {
        at: headers.sections_at,
        count: headers.section_count,
    };
    let Some(cli_header) = table.place_of(bytes, headers.cli_rva, CLI_HEADER_LEN as u64) else {
        return Err(ImageFault::new(FaultKind::OutsideFile, headers.cli_rva as usize));
    };
    let rva = read_u32(bytes, cli_header + 8);
    let len = read_u32(bytes, cli_header + 12);
    let Some(start) = table.place_of(bytes, rva, len as u64) else {
        return Err(ImageFault::new(FaultKind::OutsideFile, rva as usize));
    };
    Ok(Places {
        meta_start: start as u64,
        meta_len: len,
        sections_at: headers.sections_at as u64,
        section_count: headers.section_count,
    })
}
