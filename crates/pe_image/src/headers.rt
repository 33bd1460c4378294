//! The headers of a PE file, up to its section table (PE Format; ECMA-335 II.25.2).
ghost use Rattle.std.specs.Prelude.{◌≡◌, ◌+◌, ◌*◌, ◌≤◌, length, IfOk};
ghost use Rattle.clr_base.specs.Checks.{outcome};
ghost use Rattle.pe_image.specs.Metadata.{header_checks, headers_of};

use clr_base::{FaultKind, ImageFault, read_u16, read_u32};

/// `MZ`.
const DOS_SIGNATURE: u16 = 0x5a4d;

/// `PE` and two zeros.
const PE_SIGNATURE: u32 = 0x4550;

const PE32: u16 = 0x10b;

const PE32_PLUS: u16 = 0x20b;

/// What the headers say of the parts behind them.
#[derive(Clone, Copy)]
pub struct Headers {
    pub sections_at: usize,
    pub section_count: u16,
    pub cli_rva: u32,
}

/// Reads the headers. A fault is the first that they have.
#[tactic(auto, unfolding(crate::specs::Metadata::header_checks, crate::specs::Headers::pe_at, crate::specs::Headers::optional_size, crate::specs::Headers::magic, crate::specs::Headers::directories, crate::specs::Headers::directory_count, crate::specs::Headers::cli_rva, crate::specs::Headers::section_count))]
pub fn read_headers(bytes: &[u8]) -> Result<Headers, ImageFault>
    ensures exact { result ≡ outcome (header_checks bytes.now) (headers_of bytes.now) }
    ensures table { IfOk result (λ h. h.sections_at + 40 * h.section_count ≤ length bytes.now) }
{
    if bytes.len() < 64 || read_u16(bytes, 0) != DOS_SIGNATURE {
        return Err(ImageFault::new(FaultKind::NotPe, 0));
    }
    let pe_at = read_u32(bytes, 0x3c) as usize;
    if bytes.len() < pe_at + 24 || read_u32(bytes, pe_at) != PE_SIGNATURE {
        return Err(ImageFault::new(FaultKind::NotPe, pe_at));
    }
    let section_count = read_u16(bytes, pe_at + 6);
    let optional_size = read_u16(bytes, pe_at + 20) as usize;
    let optional_at = pe_at + 24;
    let sections_at = optional_at + optional_size;
    if bytes.len() < sections_at || optional_size < 2 {
        return Err(ImageFault::new(FaultKind::NotPe, optional_at));
    }
    let directories = match read_u16(bytes, optional_at) {
        PE32 => 96,
        PE32_PLUS => 112,
        _ => return Err(ImageFault::new(FaultKind::NotPe, optional_at)),
    };
    if optional_size < directories + 120
        || read_u32(bytes, optional_at + directories - 4) < 15
        || read_u32(bytes, optional_at + directories + 112) == 0
    {
        return Err(ImageFault::new(FaultKind::NoCli, optional_at));
    }
    if bytes.len() < sections_at + 40 * section_count as usize {
        return Err(ImageFault::new(FaultKind::NotPe, sections_at));
    }
    Ok(Headers {
        sections_at,
        section_count,
        cli_rva: read_u32(bytes, optional_at + directories + 112),
    })
}
