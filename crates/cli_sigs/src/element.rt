//! What the first code of a type says (II.23.1.16).
ghost use Rattle.std.specs.Prelude.{◌≡◌};
ghost use Rattle.cli_sigs.specs.Element as spec;

/// A code with no type behind it.
#[derive(Clone, Copy)]
pub(crate) enum Simple {
    BuiltIn,
    ValueType,
    Class,
    Var,
    TypedByRef,
    MVar,
}

/// A code with types behind it: each counts as one level of nesting.
#[derive(Clone, Copy)]
pub(crate) enum Constructor {
    Ptr,
    ByRef,
    Array,
    GenericInst,
    FnPtr,
    SzArray,
}

/// The simple type that a code begins.
#[tactic(auto, unfolding(crate::specs::Element::simple_of))]
pub(crate) fn simple_of(code: u8) -> Option<Simple>
    ensures { result ≡ spec.simple_of code }
{
    match code {
        0x02..=0x0e | 0x18 | 0x19 | 0x1c => Some(Simple::BuiltIn),
        0x11 => Some(Simple::ValueType),
        0x12 => Some(Simple::Class),
        0x13 => Some(Simple::Var),
        0x16 => Some(Simple::TypedByRef),
        0x1e => Some(Simple::MVar),
        _ => None,
    }
}

/// The constructor that a code begins.
#[tactic(auto, unfolding(crate::specs::Element::constructor_of))]
pub(crate) fn constructor_of(code: u8) -> Option<Constructor>
    ensures { result ≡ spec.constructor_of code }
{
    match code {
        0x0f => Some(Constructor::Ptr),
        0x10 => Some(Constructor::ByRef),
        0x14 => Some(Constructor::Array),
        0x15 => Some(Constructor::GenericInst),
        0x1b => Some(Constructor::FnPtr),
        0x1d => Some(Constructor::SzArray),
        _ => None,
    }
}
