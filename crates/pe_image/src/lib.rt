//! Where the CLI metadata and the method bodies of a PE image lie (PE Format; ECMA-335 II.25).
#![tactic(auto)]

mod bodies;
mod headers;
mod locate;
mod section_map;
mod sections;

pub use bodies::{BodyRange, body_at, body_range};
pub use locate::{Places, metadata};
pub use section_map::SectionMap;
