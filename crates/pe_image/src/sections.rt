//! The section table, and where the bytes at an RVA lie in the file.
ghost use Rattle.std.specs.Prelude.{◌≡◌, ◌+◌, ◌*◌, ◌<◌, ◌≤◌, ◌^◌, length, max, IfOk, IfSome};
ghost use Rattle.std.specs.List.{find};
ghost use Rattle.pe_image.specs.Sections.{section_at, covers, table_at, place_in, place_by};

use clr_base::{Memory, read_u32};
use std::alloc::Global;

/// The length of a section header in bytes.
const SECTION_HEADER_LEN: usize = 40;

/// What the table says of a section.
#[derive(Clone, Copy)]
pub struct Section {
    pub virtual_size: u32,
    pub address: u32,
    pub raw_size: u32,
    pub raw_at: u32,
}

#[tactic(auto, unfolding(crate::specs::Sections::section_at))]
fn read_section(bytes: &[u8], at: usize) -> Section
    requires { at + 40 ≤ length bytes.now }
    ensures { result ≡ section_at bytes.now at }
{
    Section {
        virtual_size: read_u32(bytes, at + 8),
        address: read_u32(bytes, at + 12),
        raw_size: read_u32(bytes, at + 16),
        raw_at: read_u32(bytes, at + 20),
    }
}

impl Section {
    /// The first address past the section.
    pub fn end(&self) -> u64
        ensures { result ≡ self.now.address + max self.now.virtual_size self.now.raw_size }
    {
        u64::from(self.address) + u64::from(self.virtual_size.max(self.raw_size))
    }

    fn covers(&self, rva: u32) -> bool
        ensures { result ≡ covers rva self.now }
    {
        self.address <= rva && u64::from(rva) < self.end()
    }

    /// The place in the file of bytes in the section.
    pub fn place_in(&self, bytes: &[u8], rva: u32, len: u64) -> Option<usize>
        requires covered { self.now.address ≤ rva }
        requires short { len < 2 ^ 33 }
        ensures exact { result ≡ place_in bytes.now rva len self.now }
        ensures inside { IfSome result (λ at. at + len ≤ length bytes.now) }
        ensures raw { IfSome result (λ _. len < 2 ^ 32) }
    {
        let offset = u64::from(rva - self.address);
        let place = u64::from(self.raw_at) + offset;
        if offset + len <= u64::from(self.raw_size) && place + len <= bytes.len() as u64 {
            Some(place as usize)
        } else {
            None
        }
    }
}

/// The place of the section headers in the file, and their number.
#[derive(Clone, Copy)]
pub struct SectionTable {
    pub at: usize,
    pub count: u16,
}

impl SectionTable {
    /// All sections, in the order of the file.
    pub fn read(self, alloc: Global, bytes: &[u8]) -> Result<Vec<Section>, Memory>
        requires { self.at + 40 * self.count ≤ length bytes.now }
        ensures exact { IfOk result (λ all. all.items ≡ table_at bytes.now self.at self.count) }
        ensures few { IfOk result (λ all. length all.items < 2 ^ 16) }
    {
        Ok(
            (0..self.count)
                .map(|k| read_section(bytes, self.at + SECTION_HEADER_LEN * k as usize))
                .collect(alloc)?,
        )
    }

    /// The first section that covers an RVA.
    pub fn section_of(self, bytes: &[u8], rva: u32) -> Option<Section>
        requires { self.at + 40 * self.count ≤ length bytes.now }
        ensures exact { result ≡ find (covers rva) (table_at bytes.now self.at self.count) }
        ensures starts_before { IfSome result (λ s. s.address ≤ rva) }
    {
        (0..self.count)
            .map(|k| read_section(bytes, self.at + SECTION_HEADER_LEN * k as usize))
            .find(|s| s.covers(rva))
    }

    /// The place in the file of `len` bytes at an RVA.
    #[tactic(auto, unfolding(crate::specs::Sections::place_by))]
    pub fn place_of(self, bytes: &[u8], rva: u32, len: u64) -> Option<usize>
        requires table { self.at + 40 * self.count ≤ length bytes.now }
        requires short { len < 2 ^ 33 }
        ensures exact { result ≡ place_by bytes.now (table_at bytes.now self.at self.count) rva len }
        ensures inside { IfSome result (λ at. at + len ≤ length bytes.now) }
        ensures raw { IfSome result (λ _. len < 2 ^ 32) }
    {
        let section = self.section_of(bytes, rva)?;
        section.place_in(bytes, rva, len)
    }
}
