//! What is found of a key.

use load_events::LoadFault;
use sqlite_items::Items;
use type_pool::KeyId;

/// The verdict of a key, by numbers.
#[derive(Drop)]
pub enum Found {
    /// The key is good; the numbers of the members of its closure, in order.
    Good(Items<KeyId>),
    /// A member of the closure has this fault, or the closure is too large.
    Refused(LoadFault),
}
