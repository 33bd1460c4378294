//! Several files.
ghost use Rattle.std.specs.Prelude.{◌≡◌, ◌<◌, ◌^◌, All, List, length, true, IfOk, IsErrOf, IsOk, OnOk};
ghost use Rattle.cli_tables.specs.Metadata.{Metadata};
ghost use Rattle.image_files.specs.Counts.{are_few, totals_of, with_file};
ghost use Rattle.image_files.specs.Images.{GivesImages, RanOut, bytes_of_each, images_of, next_image_of};
ghost use Rattle.image_rows.specs.Image.{tables_of};
ghost use Rattle.image_rows.specs.Refusals.{GivesOutcome};
ghost use Rattle.image_rows.specs.Rows.{ArePassed};
ghost use Rattle.image_rows.specs.SignatureChecks.{AreSigned};
ghost use Rattle.image_files.specs.Images.{tables_in};

use crate::counts::{Totals, count_file};
use cli_tables::Tables;
use clr_base::ImageFault;
use image_rows::{Refusal, read_image};
use sqlite_items::Items;
use std::alloc::{AllocError, Global};

// `Image` is the first fault of the first file that has one, with the file's number, counted from 1.
/// Why files aren't taken.
#[derive(Clone, Copy, Debug, PartialEq, Eq)]
pub enum ImagesFault {
    Image(u32, ImageFault),
    Memory,
}

impl From<AllocError> for ImagesFault {
    ghost use Rattle.image_files.specs.declared.images.ImagesFault.TheVariants as fault;

    ghost from_gives = { λ _ e. e ≡ fault.Memory };

    fn from(_error: AllocError) -> ImagesFault {
        ImagesFault::Memory
    }
}

/// The metadata of a file that passes all its checks, by the counts of the files before it, or its first fault. Adds its own
/// counts.
fn next_image<'a>(
    alloc: Global,
    totals: &mut Totals,
    bytes: &'a [u8],
) -> Result<Tables<'a>, Refusal>
    requires few { are_few totals.old ≡ true }
    ensures exact { (before : List Metadata) → totals.old ≡ totals_of before → GivesOutcome result (next_image_of before bytes.now) }
    ensures memory { IsErrOf result Refusal.Memory → IsOk (tables_of bytes.now) }
    ensures totals { IfOk result (λ image. totals.new ≡ with_file totals.old image) }
    ensures few { OnOk result (are_few totals.new ≡ true) }
    ensures rows { IfOk result (λ image. ArePassed image) }
    ensures signatures { IfOk result (λ image. AreSigned image) }
{
    let image = read_image(alloc, bytes)?;
    *totals = count_file(*totals, &image)?;
    Ok(image)
}

/// The metadata of files that all pass their checks, or the first fault of the first of them that has one. Takes the memory
/// and the time that the checks of each take; the first of these, of headers, streams and tables, take no memory.
pub fn read_images(alloc: Global, files: &[Vec<u8>]) -> Result<Items<Tables<'_>>, ImagesFault>
    requires few { length files.now < 2 ^ 32 }
    ensures exact { GivesImages result (images_of (bytes_of_each files.now)) }
    ensures memory { IsErrOf result ImagesFault.Memory → RanOut (bytes_of_each files.now) }
    ensures all { IfOk result (λ images. images ≡ tables_in (bytes_of_each files.now)) }
    ensures rows { IfOk result (All ArePassed) }
    ensures signatures { IfOk result (All AreSigned) }
    // tokens can number all that the files give
    ensures few { IfOk result (λ images. are_few (totals_of images) ≡ true) }
{
    let mut images = Items::new(alloc);
    let mut totals = Totals::of_core();
    for k in 0..files.len() {
        match next_image(alloc, &mut totals, files[k].as_slice()) {
            Ok(image) => images.push(image)?,
            Err(Refusal::Fault(fault)) => return Err(ImagesFault::Image(k as u32 + 1, fault)),
            Err(Refusal::Memory) => return Err(ImagesFault::Memory),
        }
    }
    Ok(images)
}
