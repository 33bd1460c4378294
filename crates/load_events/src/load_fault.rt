//! Why a key is refused.
ghost use Rattle.std.specs.Prelude.{◌≡◌, ◌≢◌, IfSome, IfNone};
ghost use Rattle.load_events.specs.Events.{fault_number};

/// The local faults of a type or method, and `TooLarge`. Their numbers count from 1, in this order.
#[derive(Clone, Copy, PartialEq, Eq)]
pub enum LoadFault {
    /// The type, or a type on its chain of parents, is named and stands nowhere.
    NotFound,
    /// The arguments aren't as many as the formals.
    Arity,
    /// An argument or element may not be one.
    BadArgument,
    /// The chain of parents is longer than 64.
    BaseCycle,
    /// The definition's parents or interfaces expand without end.
    Expanding,
    /// The parent may not be one.
    BadParent,
    /// A declared interface may not be one.
    BadInterface,
    /// A method overrides what it may not.
    BadOverride,
    /// An interface's or an abstract method has no body.
    NoMethod,
    /// The layout has no value.
    BadLayout,
    /// Value fields nest deeper than 64.
    LayoutDeep,
    /// An argument fails a constraint.
    Constraint,
    /// The closure is too large.
    TooLarge,
    /// The profile doesn't have what the type needs.
    NotInProfile,
}

impl LoadFault {
    /// The number of a fault, from 1 to 14.
    pub fn number(self) -> u32
        ensures { result ≡ fault_number self }
    {
        match self {
            LoadFault::NotFound => 1,
            LoadFault::Arity => 2,
            LoadFault::BadArgument => 3,
            LoadFault::BaseCycle => 4,
            LoadFault::Expanding => 5,
            LoadFault::BadParent => 6,
            LoadFault::BadInterface => 7,
            LoadFault::BadOverride => 8,
            LoadFault::NoMethod => 9,
            LoadFault::BadLayout => 10,
            LoadFault::LayoutDeep => 11,
            LoadFault::Constraint => 12,
            LoadFault::TooLarge => 13,
            LoadFault::NotInProfile => 14,
        }
    }

    /// The fault of a number, or None where no fault has it.
    pub fn of_number(number: u32) -> Option<LoadFault>
        ensures some { IfSome result (λ f. fault_number f ≡ number) }
        ensures none { IfNone result ((f : LoadFault) → fault_number f ≢ number) }
    {
        let fault = match number {
            1 => LoadFault::NotFound,
            2 => LoadFault::Arity,
            3 => LoadFault::BadArgument,
            4 => LoadFault::BaseCycle,
            5 => LoadFault::Expanding,
            6 => LoadFault::BadParent,
            7 => LoadFault::BadInterface,
            8 => LoadFault::BadOverride,
            9 => LoadFault::NoMethod,
            10 => LoadFault::BadLayout,
            11 => LoadFault::LayoutDeep,
            12 => LoadFault::Constraint,
            13 => LoadFault::TooLarge,
            14 => LoadFault::NotInProfile,
            _ => return None,
        };
        Some(fault)
    }
}
