//! What a typed place holds: an argument, a local variable, a field or an element.

ghost use Rattle.std.specs.Prelude.{◌≡◌, ◌≤◌, IsTrue};
ghost use Rattle.obj_heap.specs.Calls.{is_width};
ghost use Rattle.cil_state.specs.Forms as spec;

use crate::value::Value;
use cil_ops::ConvOp;

/// How an integer stands in a place (ECMA-335 I.12.1, III.1.1.1): its bits, and whether fewer than 32 are widened by
/// their sign or by zeros. `Boolean` is `U1` and `Char` is `U2`. 32 and 64 bits are not widened, so they stand for
/// signed and unsigned integers alike, and `I8` for native integers too.
#[derive(Clone, Copy)]
pub enum IntKind {
    I1,
    U1,
    I2,
    U2,
    I4,
    I8,
}

/// What a place without a type's name holds: an integer, or a reference to an object.
#[derive(Clone, Copy)]
pub enum Scalar {
    Int(IntKind),
    Ref,
}

/// What a typed place holds. `H` names exact types.
#[derive(Clone, Copy)]
pub enum Form<H> {
    Scalar(Scalar),
    /// An address (`ByRef`).
    Addr,
    /// A value of an exact value type, of so many bytes.
    Val(H, u32),
    /// What the profile doesn't have: a floating number, an unmanaged pointer, or what isn't read.
    Outside,
}

/// An argument or a local variable.
#[derive(Drop)]
pub struct Variable<H> {
    pub form: Form<H>,
    pub value: Value<H>,
}

impl IntKind {
    /// The bytes that it takes.
    pub fn width(self) -> u8
        ensures value { result ≡ spec.int_width self }
        ensures few { result ≤ 8 }
        ensures allowed { IsTrue (is_width result) }
    {
        match self {
            IntKind::I1 | IntKind::U1 => 1,
            IntKind::I2 | IntKind::U2 => 2,
            IntKind::I4 => 4,
            IntKind::I8 => 8,
        }
    }

    /// The conversion that cuts a number to what such a place holds, and widens it again.
    pub fn conversion(self) -> ConvOp
        ensures { result ≡ spec.conversion self }
    {
        match self {
            IntKind::I1 => ConvOp::ToI1,
            IntKind::U1 => ConvOp::ToU1,
            IntKind::I2 => ConvOp::ToI2,
            IntKind::U2 => ConvOp::ToU2,
            IntKind::I4 => ConvOp::ToI4,
            IntKind::I8 => ConvOp::ToI8,
        }
    }

    /// Whether it has 64 bits.
    pub fn is_wide(self) -> bool
        ensures { result ≡ spec.is_wide self }
    {
        matches!(self, IntKind::I8)
    }
}

impl Scalar {
    /// The bytes that it takes; a reference takes eight.
    pub fn width(self) -> u8
        ensures value { result ≡ spec.width self }
        ensures few { result ≤ 8 }
        ensures allowed { IsTrue (is_width result) }
    {
        match self {
            Scalar::Int(kind) => kind.width(),
            Scalar::Ref => 8,
        }
    }
}
