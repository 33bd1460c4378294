//! What a thread steps with.
ghost use Rattle.std.specs.Prelude.{◌≡◌, [], ◌<◌, length};

use crate::view::View;
use std::marker::PhantomData;

/// A pass over a board: the right to step on it, with a view of what was seen. It has no bytes, and can't be copied.
#[derive(Drop)]
pub struct Seat<P> {
    pub(crate) place: atomic_table::Seat<u64, View<P>>,
    ghost free: { place.me.1 ≡ [] },
    ghost live: { 0 < length place.me.0.names },
}
