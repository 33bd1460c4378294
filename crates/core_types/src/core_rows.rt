//! How the table of the core library is read, and the flags that its kinds stand for.

ghost use Rattle.std.specs.Prelude.{◌≡◌, ◌<◌, ◌≤◌, length};
ghost use Rattle.core_types.specs.CoreLibrary as library;
ghost use Rattle.core_types.specs.CoreTable as spec;

use crate::core_table::{
    CORE_DEFS, CORE_METHODS, CORE_NAMES, CoreDef, CoreMethod, DefKind, FormalKind, MemberName,
    MethodKind,
};

/// The name with a number.
pub fn core_name(number: usize) -> &'static str
    requires { number < spec.core_names }
    ensures { result.now ≡ spec.text number }
{
    CORE_NAMES[number]
}

/// The row of the definition with a number.
#[tactic(auto, unfolding(crate::specs::CoreTable::row))]
pub fn def_row(number: usize) -> CoreDef
    requires { number < spec.core_defs }
    ensures { result ≡ spec.row number }
{
    CORE_DEFS[number]
}

/// The rows of the methods of the definition with a number.
pub fn method_rows(number: usize) -> &'static [CoreMethod]
    requires { number < spec.core_defs }
    ensures { result.now ≡ spec.method_rows number }
{
    CORE_METHODS[number]
}

/// How many methods the definition with a number has.
#[tactic(auto, using(crate::proofs::CoreFacts::few))]
pub(crate) fn method_count(number: usize) -> u32
    requires { number < spec.core_defs }
    ensures exact { result ≡ length (spec.method_rows number) }
    ensures small { result ≤ 12 }
{
    method_rows(number).len() as u32
}

impl MemberName {
    /// Its number among the names of methods.
    pub fn number(self) -> u32
        ensures exact { result ≡ spec.member_number self }
        ensures small { result < 16 }
    {
        self as u32
    }
}

impl DefKind {
    /// TypeAttributes (II.23.1.15).
    pub fn flags(self) -> u32
        ensures { result ≡ library.def_flags self }
    {
        match self {
            DefKind::Class => 0x0,
            DefKind::Abstract => 0x80,
            DefKind::Sealed | DefKind::Value => 0x100,
            DefKind::Static => 0x180,
            DefKind::Interface => 0xa0,
        }
    }
}

impl FormalKind {
    /// GenericParamAttributes (II.23.1.7).
    pub fn flags(self) -> u32
        ensures { result ≡ library.formal_flags self }
    {
        match self {
            FormalKind::Invariant => 0,
            FormalKind::Contravariant => 2,
        }
    }
}

impl MethodKind {
    /// MethodAttributes (II.23.1.10).
    pub fn flags(self) -> u32
        ensures { result ≡ library.method_flags self }
    {
        match self {
            MethodKind::Instance => 0x6,
            MethodKind::Static => 0x16,
            MethodKind::Override => 0x46,
            MethodKind::NewSlot => 0x146,
            MethodKind::Final => 0x166,
            MethodKind::Interface => 0x546,
        }
    }

    /// Whether a method is called on an instance.
    pub fn has_this(self) -> bool
        ensures { result ≡ library.has_this self }
    {
        !matches!(self, MethodKind::Static)
    }
}
