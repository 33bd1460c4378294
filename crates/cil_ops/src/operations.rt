//! The operations, one variant an instruction.

/// An instruction that takes two numbers and gives one.
#[derive(Clone, Copy)]
pub enum BinOp {
    /// `add` (ECMA-335 III.3.1): the sum, wrapped.
    Add,
    /// `sub` (III.3.64): the difference, wrapped.
    Sub,
    /// `mul` (III.3.48): the product, wrapped.
    Mul,
    /// `div` (III.3.31): the quotient, truncated toward zero.
    Div,
    /// `div.un` (III.3.32): the quotient of unsigned numbers.
    DivUn,
    /// `rem` (III.3.55): the remainder, with the sign of the first operand.
    Rem,
    /// `rem.un` (III.3.56): the remainder of unsigned numbers.
    RemUn,
    /// `and` (III.3.3), bit by bit.
    And,
    /// `or` (III.3.53), bit by bit.
    Or,
    /// `xor` (III.3.67), bit by bit.
    Xor,
    /// `shl` (III.3.58): the first operand moved left by the second, an `I4`.
    Shl,
    /// `shr` (III.3.59): the first operand moved right by the second, its sign kept.
    Shr,
    /// `shr.un` (III.3.60): the first operand moved right by the second, with zeros from the left.
    ShrUn,
    /// `add.ovf` (III.3.2): the sum, or Overflow.
    AddOvf,
    /// `add.ovf.un` (III.3.2): the sum of unsigned numbers, or Overflow.
    AddOvfUn,
    /// `mul.ovf` (III.3.49): the product, or Overflow.
    MulOvf,
    /// `mul.ovf.un` (III.3.49): the product of unsigned numbers, or Overflow.
    MulOvfUn,
    /// `sub.ovf` (III.3.65): the difference, or Overflow.
    SubOvf,
    /// `sub.ovf.un` (III.3.65): the difference of unsigned numbers, or Overflow.
    SubOvfUn,
}

/// A comparison of two numbers of one width, as `ceq`, `cgt`, `clt` and the conditional branches make it.
#[derive(Clone, Copy)]
pub enum CmpOp {
    /// `ceq`, `beq`.
    Eq,
    /// `bne.un`.
    NeUn,
    /// `bge`.
    Ge,
    /// `bge.un`, of unsigned numbers.
    GeUn,
    /// `cgt`, `bgt`.
    Gt,
    /// `cgt.un`, `bgt.un`, of unsigned numbers.
    GtUn,
    /// `ble`.
    Le,
    /// `ble.un`, of unsigned numbers.
    LeUn,
    /// `clt`, `blt`.
    Lt,
    /// `clt.un`, `blt.un`, of unsigned numbers.
    LtUn,
}

/// An instruction that takes one number and gives one.
#[derive(Clone, Copy)]
pub enum ConvOp {
    /// `conv.i1` (ECMA-335 III.3.27): the lowest 8 bits as a signed number, an `I4`.
    ToI1,
    /// `conv.i2`: the lowest 16 bits as a signed number, an `I4`.
    ToI2,
    /// `conv.i4`: the lowest 32 bits, an `I4`.
    ToI4,
    /// `conv.i8`: the same integer, an `I8`.
    ToI8,
    /// `conv.u1`: the lowest 8 bits as an unsigned number, an `I4`.
    ToU1,
    /// `conv.u2`: the lowest 16 bits as an unsigned number, an `I4`.
    ToU2,
    /// `conv.u4`: the lowest 32 bits, an `I4`.
    ToU4,
    /// `conv.u8`: the unsigned number with the same bits, an `I8`.
    ToU8,
    /// `conv.i`, as `conv.i8`.
    ToI,
    /// `conv.u`, as `conv.u8`.
    ToU,
    /// `neg` (III.3.50): the negated number, wrapped, of the same width.
    Neg,
    /// `not` (III.3.52): each bit the other way, of the same width.
    Not,
}

impl BinOp {
    ghost use Rattle.std.specs.Prelude.{◌≡◌};
    ghost use Rattle.cil_ops.specs.Binary.{is_shift};

    /// Whether the second operand counts the places to shift by.
    pub fn is_shift(self) -> bool
        ensures { result ≡ is_shift self }
    {
        matches!(self, BinOp::Shl | BinOp::Shr | BinOp::ShrUn)
    }
}
