//! Method bodies in the file (ECMA-335 II.25.4).
ghost use Rattle.std.specs.Prelude.{◌≡◌, ◌+◌, ◌*◌, ◌<◌, ◌≤◌, ◌^◌, length, Ok, Some, None, IfOk, IfErr, IfSome};
ghost use Rattle.std.specs.List.{find};
ghost use Rattle.std.specs.Option.{option_copied};
ghost use Rattle.clr_base.specs.declared.image_fault.FaultKind.TheVariants.{OutsideFile};
ghost use Rattle.pe_image.specs.Bodies as spec;
ghost use Rattle.pe_image.specs.Bodies.{body_len, body_of};
ghost use Rattle.pe_image.specs.Metadata.{metadata_of};
ghost use Rattle.pe_image.specs.Sections.{covers, sections};

use crate::locate::Places;
use crate::sections::{Section, SectionTable};
use clr_base::{FaultKind, ImageFault, read_u32};

/// The length of a fat header in bytes.
const FAT_HEADER_LEN: u64 = 12;

/// The length of the body at a place, header and code.
#[tactic(auto, unfolding(crate::specs::Bodies::body_len))]
fn len_of_body(bytes: &[u8], at: usize) -> Option<u64>
    requires { at < length bytes.now }
    ensures exact { result ≡ body_len bytes.now at }
    ensures short { IfSome result (λ n. n < 2 ^ 33) }
{
    let first = bytes[at];
    match first % 4 {
        2 => Some(1 + u64::from(first / 4)),
        3 if at + 12 <= bytes.len() => Some(FAT_HEADER_LEN + u64::from(read_u32(bytes, at + 4))),
        _ => None,
    }
}

/// Where the header and the code of a method body stand in the file.
#[derive(Clone, Copy)]
pub struct BodyRange {
    /// The first byte, counted from the file's own.
    pub start: usize,
    /// How many bytes there are. They lie in the raw data of one section, whose length has 32 bits.
    pub len: u32,
}

/// Where the body at an RVA stands, by the first section that covers it.
#[tactic(auto, unfolding(crate::specs::Bodies::range_by, crate::specs::Sections::place_by))]
pub fn find_range(bytes: &[u8], section: Option<Section>, rva: u32) -> Option<BodyRange>
    requires { section ≡ find (covers rva) (sections bytes.now) }
    ensures exact { result ≡ spec.body_range bytes.now rva }
    ensures inside { IfSome result (λ range. range.start + range.len ≤ length bytes.now) }
{
    let section = section?;
    let first = section.place_in(bytes, rva, 1)?;
    let len = len_of_body(bytes, first)?;
    let start = section.place_in(bytes, rva, len)?;
    Some(BodyRange {
        start,
        len: len as u32,
    })
}

/// Where the header and the code of the method body at an RVA stand. None where either leaves the file, and where the first
/// byte begins no header. Takes no memory, and time in the number of sections.
pub fn body_range(bytes: &[u8], places: &Places, rva: u32) -> Option<BodyRange>
    requires { metadata_of bytes.now ≡ Ok places.now }
    ensures exact { result ≡ spec.body_range bytes.now rva }
    ensures inside { IfSome result (λ range. range.start + range.len ≤ length bytes.now) }
{
    let table = SectionTable {
        at: places.sections_at as usize,
        count: places.section_count,
    };
    find_range(bytes, table.section_of(bytes, rva), rva)
}

/// The header and code of the method body at an RVA. `OutsideFile` with the RVA where either leaves the file, or where
/// the first byte begins no header. Takes no memory, and time in the number of sections.
pub fn body_at<'a>(bytes: &'a [u8], places: &Places, rva: u32) -> Result<&'a [u8], ImageFault>
    requires { metadata_of bytes.now ≡ Ok places.now }
    ensures body { IfOk result (λ body. body_of bytes.now rva ≡ Some body.now) }
    ensures none { IfErr result (λ fault. body_of bytes.now rva ≡ None) }
    ensures fault { IfErr result (λ fault. fault ≡ record { kind = OutsideFile; place = rva }) }
{
    match body_range(bytes, places, rva) {
        Some(range) => Ok(&bytes[range.start..range.start + range.len as usize]),
        None => Err(ImageFault::new(FaultKind::OutsideFile, rva as usize)),
    }
}
