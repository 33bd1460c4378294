//! Instructions that take two numbers.
ghost use Rattle.std.specs.Prelude.{◌≡◌, ◌↔◌, IsTrue};
ghost use Rattle.cil_ops.specs.Binary.{binary_of, is_mixed};
ghost use Rattle.cil_ops.specs.Faults.{DividesByZero, Overflows};

use crate::fault::OpFault;
use crate::number::Num;
use crate::operations::BinOp;
use crate::{int32, int64};

/// What the instruction gives for the operands `a` and `b`, of which `b` is the upper one on the stack
/// (ECMA-335 III.1.5, III.3): a number of `a`'s width.
///
/// Mixed comes where `b` isn't an `I4` at a shift, or the widths differ at another instruction; else DivideByZero where a
/// divisor is 0; else Overflow where a quotient, a remainder's quotient or the result of an `.ovf` instruction doesn't fit.
pub fn binary(op: BinOp, a: Num, b: Num) -> Result<Num, OpFault>
    ensures value { result ≡ binary_of op a b }
    ensures mixed { (result ≡ Err OpFault.Mixed) ↔ IsTrue (is_mixed op a b) }
    ensures divide_by_zero { (result ≡ Err OpFault.DivideByZero) ↔ DividesByZero op a b }
    ensures overflow { (result ≡ Err OpFault.Overflow) ↔ Overflows op a b }
{
    match (a, b) {
        (Num::I4(a), Num::I4(b)) => int32::compute(op, a, b).map(Num::I4),
        (Num::I8(a), Num::I8(b)) if !op.is_shift() => int64::compute(op, a, b).map(Num::I8),
        (Num::I8(a), Num::I4(count)) if op.is_shift() => {
            int64::compute(op, a, count as i64).map(Num::I8)
        }
        _ => Err(OpFault::Mixed),
    }
}
