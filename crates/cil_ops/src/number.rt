//! The numbers of the evaluation stack.

/// A number on the evaluation stack (ECMA-335 III.1.1): signed, in two's complement. An unsigned number stands there
/// by its bits.
#[derive(Clone, Copy, PartialEq, Eq)]
pub enum Num {
    /// `int32`: 32 bits.
    I4(i32),
    /// `int64` and `native int`: 64 bits.
    I8(i64),
}

impl Num {
    ghost use Rattle.std.specs.Prelude.{◌≡◌};
    ghost use Rattle.cil_ops.specs.Number.{integer_of};

    /// The integer that the number stands for.
    pub fn to_i64(self) -> i64
        ensures { result ≡ integer_of self }
    {
        match self {
            Num::I4(a) => a as i64,
            Num::I8(a) => a,
        }
    }
}
