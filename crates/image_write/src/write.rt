//! Drafts as images.
ghost use Rattle.std.specs.Prelude.{◌≡◌, ◌++◌, IfOk, IfErr, OnOk, MatchOption, None, true};
ghost use Rattle.image_write.specs.Fitting.{fits, crowded};
ghost use Rattle.image_write.specs.Image.{image_of};
ghost use Rattle.image_write.specs.Layouts.{IsLayout};
ghost use Rattle.image_write.specs.ReadBack.{ReadsBack};
ghost use Rattle.image_write.specs.declared.write_fault.WriteFault.TheVariants.{Memory, TooManyRows};

use crate::draft::Draft;
use crate::headers::push_file_headers;
use crate::layout::{Layout, layout_of, row_count};
use crate::metadata::push_metadata;
use crate::write_fault::WriteFault;
use cli_tables::TABLE_COUNT;
use std::alloc::{AllocError, Global};

/// The most rows that a token can name.
const MOST_ROWS: usize = 16_777_215;

/// The first table with more rows than a token can name.
#[tactic(auto, unfolding(crate::specs::Fitting::crowded))]
fn crowded_table(draft: &Draft) -> Option<u8>
    ensures { result ≡ crowded draft.now }
{
    (0..TABLE_COUNT as u8).find(|t| row_count(draft, *t) > MOST_ROWS)
}

#[tactic(auto, unfolding(crate::specs::Image::image_of))]
fn push_image(out: &mut Vec<u8>, draft: &Draft, layout: &Layout) -> Result<(), AllocError>
    requires { IsLayout draft.now layout.now }
    ensures { OnOk result (out.new.items ≡ out.old.items ++ image_of draft.now) }
{
    let bodies = draft.bodies.as_slice();
    let section_len = 72 + layout.metadata_len + bodies.len();
    push_file_headers(out, draft.plus, section_len, layout.metadata_len)?;
    push_metadata(out, draft, layout)?;
    out.extend_from_slice(bodies)
}

/// The image of a draft that fits. Read back, it has the draft's heaps and cells; an RVA cell has become the RVA of its
/// byte of `bodies`. `TooManyRows` comes exactly where a table has more than 16,777,215 rows, for the first
/// such table. Takes one allocation, of the image's length, and time linear in it.
pub fn write_image(alloc: Global, draft: &Draft) -> Result<Vec<u8>, WriteFault>
    requires { fits draft.now ≡ true }
    ensures image { IfOk result (λ image. image.items ≡ image_of draft.now) }
    ensures reads_back { IfOk result (λ image. ReadsBack draft.now image.items) }
    ensures few { OnOk result (crowded draft.now ≡ None) }
    ensures fault { IfErr result (λ fault. MatchOption (crowded draft.now) (fault ≡ Memory) (λ t. fault ≡ TooManyRows t)) }
{
    let Some(layout) = layout_of(draft) else {
        unreachable!()
    };
    if let Some(table) = crowded_table(draft) {
        return Err(WriteFault::TooManyRows(table));
    }
    let len = 584 + layout.metadata_len + draft.bodies.as_slice().len();
    let mut image = Vec::with_capacity(alloc, len)?;
    push_image(&mut image, draft, &layout)?;
    Ok(image)
}
