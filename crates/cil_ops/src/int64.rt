//! The operations on numbers of 64 bits.
ghost use Rattle.std.specs.Prelude.{◌≡◌, pos, if◌then◌else◌};
ghost use Rattle.std.specs.Int.{w64};
ghost use Rattle.std.specs.Option.{option_map};
ghost use Rattle.std.specs.Ordering.{int_eq};
ghost use Rattle.cil_ops.specs.Number.{signed};
ghost use Rattle.cil_ops.specs.Binary.{binary_at};
ghost use Rattle.cil_ops.specs.Compare.{compare_at};

use crate::fault::OpFault;
use crate::operations::{BinOp, CmpOp};

/// An instruction on two integers of 64 bits.
#[tactic(auto, using(crate::proofs::Wrapping::wrapping))]
pub fn compute(op: BinOp, a: i64, b: i64) -> Result<i64, OpFault>
    ensures { result ≡ binary_at w64 op a b }
{
    let (a_bits, b_bits) = (a.cast_unsigned(), b.cast_unsigned());
    let shift = b_bits % 64;
    match op {
        BinOp::Add => Ok(a.wrapping_add(b)),
        BinOp::Sub => Ok(a.wrapping_sub(b)),
        BinOp::Mul => Ok(a.wrapping_mul(b)),
        BinOp::Div => a.checked_div(b).ok_or(division_fault(b)),
        BinOp::Rem => a.checked_rem(b).ok_or(division_fault(b)),
        BinOp::DivUn => signed_bits(a_bits.checked_div(b_bits)).ok_or(OpFault::DivideByZero),
        BinOp::RemUn => signed_bits(a_bits.checked_rem(b_bits)).ok_or(OpFault::DivideByZero),
        BinOp::And => Ok(a & b),
        BinOp::Or => Ok(a | b),
        BinOp::Xor => Ok(a ^ b),
        BinOp::Shl => Ok(a << shift),
        BinOp::Shr => Ok(a >> shift),
        BinOp::ShrUn => Ok((a_bits >> shift).cast_signed()),
        BinOp::AddOvf => a.checked_add(b).ok_or(OpFault::Overflow),
        BinOp::SubOvf => a.checked_sub(b).ok_or(OpFault::Overflow),
        BinOp::MulOvf => a.checked_mul(b).ok_or(OpFault::Overflow),
        BinOp::AddOvfUn => signed_bits(a_bits.checked_add(b_bits)).ok_or(OpFault::Overflow),
        BinOp::SubOvfUn => signed_bits(a_bits.checked_sub(b_bits)).ok_or(OpFault::Overflow),
        BinOp::MulOvfUn => signed_bits(a_bits.checked_mul(b_bits)).ok_or(OpFault::Overflow),
    }
}

/// Why there is no quotient by this divisor.
fn division_fault(divisor: i64) -> OpFault
    ensures { result ≡ (if int_eq divisor (pos 0) then OpFault.DivideByZero else OpFault.Overflow) }
{
    if divisor == 0 {
        OpFault::DivideByZero
    } else {
        OpFault::Overflow
    }
}

/// The number with the bits of an unsigned one.
fn signed_bits(bits: Option<u64>) -> Option<i64>
    ensures { result ≡ option_map (signed w64) bits }
{
    bits.map(u64::cast_signed)
}

/// A comparison of two integers of 64 bits.
pub fn compares(op: CmpOp, a: i64, b: i64) -> bool
    ensures { result ≡ compare_at w64 op a b }
{
    let (a_bits, b_bits) = (a.cast_unsigned(), b.cast_unsigned());
    match op {
        CmpOp::Eq => a == b,
        CmpOp::NeUn => a != b,
        CmpOp::Ge => a >= b,
        CmpOp::Gt => a > b,
        CmpOp::Le => a <= b,
        CmpOp::Lt => a < b,
        CmpOp::GeUn => a_bits >= b_bits,
        CmpOp::GtUn => a_bits > b_bits,
        CmpOp::LeUn => a_bits <= b_bits,
        CmpOp::LtUn => a_bits < b_bits,
    }
}
