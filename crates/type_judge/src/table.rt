//! The order in which the faults of a key are tested.

use load_events::LoadFault;

/// The faults that a key can have by itself, in the order in which they are tested: by their numbers, but the
/// layout that is too deep before the one that has no value. Definitions read it too.
pub const ORDER: [LoadFault; 13] = [
    LoadFault::NotFound,
    LoadFault::Arity,
    LoadFault::BadArgument,
    LoadFault::BaseCycle,
    LoadFault::Expanding,
    LoadFault::BadParent,
    LoadFault::BadInterface,
    LoadFault::BadOverride,
    LoadFault::NoMethod,
    LoadFault::LayoutDeep,
    LoadFault::BadLayout,
    LoadFault::Constraint,
    LoadFault::NotInProfile,
];
