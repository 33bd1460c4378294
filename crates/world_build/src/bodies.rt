//! Where the bodies of a file's methods stand (ECMA-335 II.22.26, II.25.4).
ghost use Rattle.std.specs.Prelude.{◌≡◌, ◌≤◌, IfOk};
ghost use Rattle.cli_tables.specs.Layout.{row_count};
ghost use Rattle.pe_image.specs.Metadata.{metadata_of};
ghost use Rattle.world_build.specs.Bodies as spec;
ghost use Rattle.world_build.specs.Bodies.{AreOf};

use cli_tables::Tables;
use clr_base::Memory;
use image_rows::METHOD_DEF;
use pe_image::{BodyRange, SectionMap, metadata};
use sqlite_items::Items;
use std::alloc::Global;
use type_tree::{BodyPlace, with_room};

/// The column RVA of MethodDef (II.22.26).
const RVA: u8 = 0;

/// Where a body stands in the file with a number, from 1. One that is refused has no bytes.
fn place_in(file: u32, range: Option<BodyRange>) -> BodyPlace
    ensures { result ≡ spec.place_in file range }
{
    match range {
        Some(range) => BodyPlace {
            file,
            start: range.start as u64,
            len: range.len,
        },
        None => BodyPlace {
            file,
            start: 0,
            len: 0,
        },
    }
}

/// The sections of a file, sorted; none of one whose headers fail.
fn sections_of(alloc: Global, bytes: &[u8]) -> Result<Option<SectionMap>, Memory>
    ensures { IfOk result (λ sections. AreOf (metadata_of bytes.now) bytes.now sections) }
{
    match metadata(bytes) {
        Ok(places) => Ok(Some(SectionMap::new(alloc, bytes, &places)?)),
        Err(_) => Ok(None),
    }
}

/// The body at an RVA; there is none in a file whose headers fail, which is not read.
fn range_if(bytes: &[u8], sections: &Option<SectionMap>, rva: u32) -> Option<BodyRange>
    requires { AreOf (metadata_of bytes.now) bytes.now sections.now }
    ensures { result ≡ spec.range_if (metadata_of bytes.now) bytes.now rva }
{
    match sections {
        Some(sections) => sections.range(bytes, rva),
        None => None,
    }
}

/// The place of the body of the method in a row, none where its RVA is 0.
#[tactic(auto, unfolding(crate::specs::Bodies::body_of, cli_tables::specs::Schema::columns))]
fn body_of(
    bytes: &[u8],
    sections: &Option<SectionMap>,
    file: u32,
    tables: &Tables<'_>,
    row: u32,
) -> Option<BodyPlace>
    requires sections { AreOf (metadata_of bytes.now) bytes.now sections.now }
    requires first { 1 ≤ row }
    requires last { row ≤ row_count tables.now.tables 6 }
    ensures { result ≡ spec.body_of bytes.now file tables.now row }
{
    let rva = tables.cell(METHOD_DEF, row, RVA);
    if rva == 0 {
        return None;
    }
    Some(place_in(file, range_if(bytes, sections, rva)))
}

/// The places of the bodies of all methods of a file, row by row, by its sections.
#[tactic(auto, unfolding(crate::specs::Bodies::file_bodies), using(clr_base::proofs::Ranges::rows_more))]
fn bodies_in(
    alloc: Global,
    bytes: &[u8],
    sections: &Option<SectionMap>,
    file: u32,
    tables: &Tables<'_>,
) -> Result<Items<Option<BodyPlace>>, Memory>
    requires { AreOf (metadata_of bytes.now) bytes.now sections.now }
    ensures { IfOk result (λ bodies. bodies ≡ spec.file_bodies bytes.now file tables.now) }
{
    let count = tables.row_count(METHOD_DEF);
    let mut bodies = with_room(alloc, count as usize)?;
    for row in 0..count {
        bodies.push(body_of(bytes, sections, file, tables, row + 1))?;
    }
    Ok(bodies)
}

/// The places of the bodies of all methods of the file with a number, from 1, row by row.
pub fn file_bodies(
    alloc: Global,
    bytes: &[u8],
    file: u32,
    tables: &Tables<'_>,
) -> Result<Items<Option<BodyPlace>>, Memory>
    ensures { IfOk result (λ bodies. bodies ≡ spec.file_bodies bytes.now file tables.now) }
{
    let sections = sections_of(alloc, bytes)?;
    bodies_in(alloc, bytes, &sections, file, tables)
}
