//! Conversions, `neg` and `not`.
ghost use Rattle.std.specs.Prelude.{◌≡◌, ◌^◌, pos, neg_ℤ, ◌-ℤ◌};
ghost use Rattle.std.specs.Int.{int_wrap, int_rem_euclid, w64};
ghost use Rattle.cil_ops.specs.Number.{width_of, integer_of, as_wide_as, unsigned};
ghost use Rattle.cil_ops.specs.Convert.{convert_of};

use crate::number::Num;
use crate::operations::ConvOp;

/// What the instruction gives for the number `a` (ECMA-335 III.3.27, III.3.50, III.3.52).
#[tactic(auto, using(crate::proofs::Wrapping::residues))]
pub fn convert(op: ConvOp, a: Num) -> Num
    ensures { result ≡ convert_of op a }
{
    let integer = a.to_i64();
    match op {
        ConvOp::ToI1 => Num::I4(low_8(integer).cast_signed() as i32),
        ConvOp::ToI2 => Num::I4(low_16(integer).cast_signed() as i32),
        ConvOp::ToI4 | ConvOp::ToU4 => Num::I4(low_32(integer).cast_signed()),
        ConvOp::ToU1 => Num::I4(low_8(integer) as i32),
        ConvOp::ToU2 => Num::I4(low_16(integer) as i32),
        ConvOp::ToI8 | ConvOp::ToI => Num::I8(integer),
        ConvOp::ToU8 | ConvOp::ToU => Num::I8(zero_extended(a)),
        ConvOp::Neg => negated(a),
        ConvOp::Not => complement(a),
    }
}

/// The lowest 8 bits, as an unsigned number.
fn low_8(integer: i64) -> u8
    ensures { pos result ≡ int_rem_euclid integer (pos (2 ^ 8)) }
{
    integer.rem_euclid(0x100) as u8
}

/// The lowest 16 bits, as an unsigned number.
fn low_16(integer: i64) -> u16
    ensures { pos result ≡ int_rem_euclid integer (pos (2 ^ 16)) }
{
    integer.rem_euclid(0x1_0000) as u16
}

/// The lowest 32 bits, as an unsigned number.
fn low_32(integer: i64) -> u32
    ensures { pos result ≡ int_rem_euclid integer (pos (2 ^ 32)) }
{
    integer.rem_euclid(0x1_0000_0000) as u32
}

/// The number with the same bits and zeros above them.
#[tactic(auto, using(crate::proofs::Wrapping::wrapping))]
fn zero_extended(a: Num) -> i64
    ensures { result ≡ int_wrap w64 (pos (unsigned (width_of a) (integer_of a))) }
{
    match a {
        Num::I4(a) => a.cast_unsigned() as i64,
        Num::I8(a) => a,
    }
}

#[tactic(auto, using(crate::proofs::Wrapping::wrapping))]
fn negated(a: Num) -> Num
    ensures { result ≡ as_wide_as a (int_wrap (width_of a) (neg_ℤ (integer_of a))) }
{
    match a {
        Num::I4(a) => Num::I4(a.wrapping_neg()),
        Num::I8(a) => Num::I8(a.wrapping_neg()),
    }
}

fn complement(a: Num) -> Num
    ensures { result ≡ as_wide_as a (neg_ℤ (integer_of a) -ℤ pos 1) }
{
    match a {
        Num::I4(a) => Num::I4(!a),
        Num::I8(a) => Num::I8(!a),
    }
}
