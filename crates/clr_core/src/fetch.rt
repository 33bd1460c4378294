//! The files of a command.
ghost use Rattle.std.specs.Prelude.{◌≡◌, length, IfErr, IfOk};
ghost use Rattle.clr_core.specs.Command.{texts_of};
ghost use Rattle.clr_core.specs.Ends.{StopsFetch, end_of_stop};
ghost use Rattle.clr_core.specs.Fetched.{AreFiles, IsCalm, shelved};
ghost use Rattle.image_files.specs.Images.{bytes_of_each};

use crate::status::Stop;
use clr_base::{FetchFault, Shelf};
use sqlite_items::Items;
use std::alloc::Global;

/// The bytes of the files of these names, each fetched once, in their order up to the first that fails. The room of the list is
/// made first, so that memory runs out at no file that is there.
pub fn fetch_all<'a, F: Shelf>(
    alloc: Global,
    names: &'a [String],
    shelf: &mut F,
) -> Result<Items<Vec<u8>>, Stop<'a>>
    ensures bytes { IfOk result (λ files. AreFiles (F.files shelf.old) (texts_of names.now) (bytes_of_each files)) }
    ensures once { IfOk result (λ _. IsCalm (shelved F.files F.calls F.given F.faults shelf.old shelf.new) (length names.now) (length names.now)) }
    ensures stopped { IfErr result (λ stop. StopsFetch (shelved F.files F.calls F.given F.faults shelf.old shelf.new) (texts_of names.now) (end_of_stop stop)) }
    ensures kept { F.files shelf.new ≡ F.files shelf.old }
{
    let Ok(mut files) = Vec::with_capacity(alloc, names.len()) else {
        return Err(Stop::Memory);
    };
    for k in 0..names.len() {
        let name = names[k].as_str();
        let bytes = match shelf.fetch(alloc, name) {
            Ok(bytes) => bytes,
            Err(FetchFault::Failed) => return Err(Stop::ReadFault(name)),
            Err(FetchFault::Memory) => return Err(Stop::Memory),
        };
        files.push(bytes).unwrap();
    }
    Ok(Items::from_vec(files))
}
