//! From files and root words to a world.
ghost use Rattle.std.specs.Prelude.{◌≡◌, ◌≤◌, length, map, string_bytes};
ghost use Rattle.world_build.specs.Build as spec;
ghost use Rattle.image_files.specs.Images.{bytes_of_each};

use crate::roots::{RootForm, RootsFault, with_roots};
use crate::worlds::file_world;
use clr_base::{ImageFault, Memory, Text};
use image_files::{ImagesFault, read_images};
use std::alloc::Global;
use type_tree::World;

// `Image` is the first fault of the first file that has one, with the file's number, counted from 1; `NoName` the first root
// word that names nothing.
/// Why there is no world.
#[derive(Drop)]
pub enum BuildFault {
    Image(u32, ImageFault),
    NoName(Text),
    Memory,
}

impl From<Memory> for BuildFault {
    ghost use Rattle.world_build.specs.declared.building.BuildFault.TheVariants as fault;

    ghost from_gives = { λ _ e. e ≡ fault.Memory };

    fn from(_error: Memory) -> BuildFault {
        BuildFault::Memory
    }
}

/// The world of at most 16 files, in order, whose bytes these are, with at most 256 roots, in the order of their words. A
/// file whose checks fail is told with its number, from 1, and with the first fault; then the first word that names nothing.
/// Takes memory for the files' bytes, and memory and time in their rows and signatures, and in the roots.
pub fn build(
    alloc: Global,
    files: &[Vec<u8>],
    form: RootForm,
    roots: &[String],
) -> Result<World, BuildFault>
    requires files { length files.now ≤ 16 }
    requires roots { length roots.now ≤ 256 }
    ensures { spec.GivesWorld (bytes_of_each files.now) form (map string_bytes roots.now) result }
{
    let tables = match read_images(alloc, files) {
        Ok(tables) => tables,
        Err(ImagesFault::Image(file, fault)) => return Err(BuildFault::Image(file, fault)),
        Err(ImagesFault::Memory) => return Err(BuildFault::Memory),
    };
    let parts = file_world(alloc, files, tables.as_slice())?;
    match with_roots(alloc, World::new(parts), form, roots) {
        Ok(world) => Ok(world),
        Err(RootsFault::NoName(word)) => Err(BuildFault::NoName(word)),
        Err(RootsFault::Memory) => Err(BuildFault::Memory),
    }
}
