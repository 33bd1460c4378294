//! The headers of the file (PE Format; ECMA-335 II.25.2, II.25.3).
ghost use Rattle.std.specs.Prelude.{◌≡◌, ◌++◌, OnOk};
ghost use Rattle.image_write.specs.Image as spec;

use crate::pieces::{number, push_structure};
use std::alloc::AllocError;

/// `MZ`.
const DOS_SIGNATURE: u64 = 0x5a4d;

/// `PE` and two zeros.
const PE_SIGNATURE: u64 = 0x4550;

/// `.text`.
const SECTION_NAME: u64 = 0x74_7865_742e;

#[tactic(auto, unfolding(crate::specs::Image::dos_header))]
fn push_dos_header(out: &mut Vec<u8>) -> Result<(), AllocError>
    ensures { OnOk result (out.new.items ≡ out.old.items ++ spec.dos_header) }
{
    push_structure(out, 64, &[number(0, 2, DOS_SIGNATURE), number(60, 4, 64)])
}

#[tactic(auto, unfolding(crate::specs::Image::file_header))]
fn push_file_header(out: &mut Vec<u8>, plus: bool) -> Result<(), AllocError>
    ensures { OnOk result (out.new.items ≡ out.old.items ++ spec.file_header plus) }
{
    let optional_len = if plus { 240 } else { 224 };
    let fields = [
        number(0, 4, PE_SIGNATURE),
        number(4, 2, 0x14c),
        number(6, 2, 1),
        number(20, 2, optional_len),
        number(22, 2, 0x2102),
    ];
    push_structure(out, 24, &fields)
}

#[tactic(auto, unfolding(crate::specs::Image::optional_header))]
fn push_optional_header(out: &mut Vec<u8>, plus: bool) -> Result<(), AllocError>
    ensures { OnOk result (out.new.items ≡ out.old.items ++ spec.optional_header plus) }
{
    let (magic, directories, len) = if plus {
        (0x20b, 112, 240)
    } else {
        (0x10b, 96, 224)
    };
    let fields = [
        number(0, 2, magic),
        number(32, 4, 0x2000),
        number(36, 4, 0x200),
        number(directories - 4, 4, 16),
        number(directories + 112, 4, 0x2000),
        number(directories + 116, 4, 72),
    ];
    push_structure(out, len, &fields)
}

/// The one section, of `len` bytes, and zeros up to its place in the file.
#[tactic(auto, unfolding(crate::specs::Image::section_header))]
fn push_section_header(out: &mut Vec<u8>, plus: bool, len: usize) -> Result<(), AllocError>
    ensures { OnOk result (out.new.items ≡ out.old.items ++ spec.section_header plus len) }
{
    let fields = [
        number(0, 8, SECTION_NAME),
        number(8, 4, len as u64),
        number(12, 4, 0x2000),
        number(16, 4, len as u64),
        number(20, 4, 0x200),
    ];
    push_structure(out, if plus { 184 } else { 200 }, &fields)
}

/// The CLI header, with the length of the metadata behind it.
#[tactic(auto, unfolding(crate::specs::Image::cli_header))]
fn push_cli_header(out: &mut Vec<u8>, len: usize) -> Result<(), AllocError>
    ensures { OnOk result (out.new.items ≡ out.old.items ++ spec.cli_header len) }
{
    let fields = [
        number(0, 4, 72),
        number(4, 2, 2),
        number(6, 2, 5),
        number(8, 4, 0x2048),
        number(12, 4, len as u64),
        number(16, 4, 1),
    ];
    push_structure(out, 72, &fields)
}

/// Appends the headers of a file with one section, which holds the CLI header and metadata of so many bytes.
#[tactic(auto, unfolding(crate::specs::Image::file_headers))]
pub(crate) fn push_file_headers(
    out: &mut Vec<u8>,
    plus: bool,
    section_len: usize,
    metadata_len: usize,
) -> Result<(), AllocError>
    ensures { OnOk result (out.new.items ≡ out.old.items ++ spec.file_headers plus section_len metadata_len) }
{
    push_dos_header(out)?;
    push_file_header(out, plus)?;
    push_optional_header(out, plus)?;
    push_section_header(out, plus, section_len)?;
    push_cli_header(out, metadata_len)
}
