//! Comparisons of two numbers.
ghost use Rattle.std.specs.Prelude.{◌≡◌, ◌≢◌, ◌↔◌};
ghost use Rattle.cil_ops.specs.Number.{width_of};
ghost use Rattle.cil_ops.specs.Compare.{compare_of};

use crate::fault::OpFault;
use crate::number::Num;
use crate::operations::CmpOp;
use crate::{int32, int64};

/// Whether the comparison holds of `a` and `b`, of which `b` is the upper one on the stack (ECMA-335 III.1.5, III.3).
///
/// The one error is Mixed, where the widths differ.
pub fn compare(op: CmpOp, a: Num, b: Num) -> Result<bool, OpFault>
    ensures value { result ≡ compare_of op a b }
    ensures mixed { (result ≡ Err OpFault.Mixed) ↔ (width_of a ≢ width_of b) }
{
    match (a, b) {
        (Num::I4(a), Num::I4(b)) => Ok(int32::compares(op, a, b)),
        (Num::I8(a), Num::I8(b)) => Ok(int64::compares(op, a, b)),
        _ => Err(OpFault::Mixed),
    }
}
