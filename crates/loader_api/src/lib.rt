//! What every loader promises to who asks it, whatever it keeps.
#![tactic(auto)]

mod laws;
mod shared;
mod stops;
mod types;
mod view;

pub use laws::{first_exactly, found_before, one_read};
pub use shared::{ForkFault, Shared};
pub use stops::LoadStop;
pub use types::Types;
pub use view::{Kept, PassView};
