//! Lists with room for what will stand in them.
ghost use Rattle.std.specs.Prelude.{◌≡◌, [], IfOk};

use clr_base::Memory;
use sqlite_items::Items;
use std::alloc::Global;

/// No items yet, with memory for so many.
pub fn with_room<T>(alloc: Global, count: usize) -> Result<Items<T>, Memory>
    ensures { IfOk result (λ items. items ≡ []) }
{
    Ok(Items::from_vec(Vec::with_capacity(alloc, count)?))
}
