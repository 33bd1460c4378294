//! Which instruction of the instruction set (ECMA-335 III.3, III.4) does what.

ghost use Rattle.std.specs.Prelude.{◌≡◌};
ghost use Rattle.cil_plain.specs.Coding as spec;

use crate::op::{Branch, Plain};
use cil_code::Opcode;
use cil_ops::{BinOp, CmpOp, ConvOp, Num, convert};
use cil_state::{IntKind, Scalar};

/// What a branch asks before it goes; none for an instruction that is no branch to one target.
pub fn branch_of(opcode: Opcode) -> Option<Branch>
    ensures { result ≡ spec.branch_of opcode }
{
    match opcode {
        Opcode::BrS | Opcode::Br => Some(Branch::Always),
        Opcode::BrfalseS | Opcode::Brfalse => Some(Branch::If(false)),
        Opcode::BrtrueS | Opcode::Brtrue => Some(Branch::If(true)),
        Opcode::BeqS | Opcode::Beq => Some(Branch::Where(CmpOp::Eq)),
        Opcode::BgeS | Opcode::Bge => Some(Branch::Where(CmpOp::Ge)),
        Opcode::BgtS | Opcode::Bgt => Some(Branch::Where(CmpOp::Gt)),
        Opcode::BleS | Opcode::Ble => Some(Branch::Where(CmpOp::Le)),
        Opcode::BltS | Opcode::Blt => Some(Branch::Where(CmpOp::Lt)),
        Opcode::BneUnS | Opcode::BneUn => Some(Branch::Where(CmpOp::NeUn)),
        Opcode::BgeUnS | Opcode::BgeUn => Some(Branch::Where(CmpOp::GeUn)),
        Opcode::BgtUnS | Opcode::BgtUn => Some(Branch::Where(CmpOp::GtUn)),
        Opcode::BleUnS | Opcode::BleUn => Some(Branch::Where(CmpOp::LeUn)),
        Opcode::BltUnS | Opcode::BltUn => Some(Branch::Where(CmpOp::LtUn)),
        _ => None,
    }
}

/// An instruction on two numbers, on one, or that compares.
fn operation_of(opcode: Opcode) -> Option<Plain>
    ensures { result ≡ spec.operation_of opcode }
{
    match opcode {
        Opcode::Add => Some(Plain::Binary(BinOp::Add)),
        Opcode::Sub => Some(Plain::Binary(BinOp::Sub)),
        Opcode::Mul => Some(Plain::Binary(BinOp::Mul)),
        Opcode::Div => Some(Plain::Binary(BinOp::Div)),
        Opcode::DivUn => Some(Plain::Binary(BinOp::DivUn)),
        Opcode::Rem => Some(Plain::Binary(BinOp::Rem)),
        Opcode::RemUn => Some(Plain::Binary(BinOp::RemUn)),
        Opcode::And => Some(Plain::Binary(BinOp::And)),
        Opcode::Or => Some(Plain::Binary(BinOp::Or)),
        Opcode::Xor => Some(Plain::Binary(BinOp::Xor)),
        Opcode::Shl => Some(Plain::Binary(BinOp::Shl)),
        Opcode::Shr => Some(Plain::Binary(BinOp::Shr)),
        Opcode::ShrUn => Some(Plain::Binary(BinOp::ShrUn)),
        Opcode::AddOvf => Some(Plain::Binary(BinOp::AddOvf)),
        Opcode::AddOvfUn => Some(Plain::Binary(BinOp::AddOvfUn)),
        Opcode::MulOvf => Some(Plain::Binary(BinOp::MulOvf)),
        Opcode::MulOvfUn => Some(Plain::Binary(BinOp::MulOvfUn)),
        Opcode::SubOvf => Some(Plain::Binary(BinOp::SubOvf)),
        Opcode::SubOvfUn => Some(Plain::Binary(BinOp::SubOvfUn)),
        Opcode::Neg => Some(Plain::Convert(ConvOp::Neg)),
        Opcode::Not => Some(Plain::Convert(ConvOp::Not)),
        Opcode::ConvI1 => Some(Plain::Convert(ConvOp::ToI1)),
        Opcode::ConvI2 => Some(Plain::Convert(ConvOp::ToI2)),
        Opcode::ConvI4 => Some(Plain::Convert(ConvOp::ToI4)),
        Opcode::ConvI8 => Some(Plain::Convert(ConvOp::ToI8)),
        Opcode::ConvU1 => Some(Plain::Convert(ConvOp::ToU1)),
        Opcode::ConvU2 => Some(Plain::Convert(ConvOp::ToU2)),
        Opcode::ConvU4 => Some(Plain::Convert(ConvOp::ToU4)),
        Opcode::ConvU8 => Some(Plain::Convert(ConvOp::ToU8)),
        Opcode::ConvI => Some(Plain::Convert(ConvOp::ToI)),
        Opcode::ConvU => Some(Plain::Convert(ConvOp::ToU)),
        Opcode::Ceq => Some(Plain::Compare(CmpOp::Eq)),
        Opcode::Cgt => Some(Plain::Compare(CmpOp::Gt)),
        Opcode::CgtUn => Some(Plain::Compare(CmpOp::GtUn)),
        Opcode::Clt => Some(Plain::Compare(CmpOp::Lt)),
        Opcode::CltUn => Some(Plain::Compare(CmpOp::LtUn)),
        _ => None,
    }
}

/// The number of an argument or a local, which has two bytes at most.
fn number(operand: u64) -> u32
    ensures { result ≡ spec.number operand }
{
    (operand % 0x1_0000_0000) as u32
}

/// An instruction on an argument or a local.
fn variable_of(opcode: Opcode, operand: u64) -> Option<Plain>
    ensures { result ≡ spec.variable_of opcode operand }
{
    match opcode {
        Opcode::Ldarg0 => Some(Plain::LoadArg(0)),
        Opcode::Ldarg1 => Some(Plain::LoadArg(1)),
        Opcode::Ldarg2 => Some(Plain::LoadArg(2)),
        Opcode::Ldarg3 => Some(Plain::LoadArg(3)),
        Opcode::Ldloc0 => Some(Plain::LoadLocal(0)),
        Opcode::Ldloc1 => Some(Plain::LoadLocal(1)),
        Opcode::Ldloc2 => Some(Plain::LoadLocal(2)),
        Opcode::Ldloc3 => Some(Plain::LoadLocal(3)),
        Opcode::Stloc0 => Some(Plain::StoreLocal(0)),
        Opcode::Stloc1 => Some(Plain::StoreLocal(1)),
        Opcode::Stloc2 => Some(Plain::StoreLocal(2)),
        Opcode::Stloc3 => Some(Plain::StoreLocal(3)),
        Opcode::LdargS | Opcode::Ldarg => Some(Plain::LoadArg(number(operand))),
        Opcode::StargS | Opcode::Starg => Some(Plain::StoreArg(number(operand))),
        Opcode::LdlocS | Opcode::Ldloc => Some(Plain::LoadLocal(number(operand))),
        Opcode::StlocS | Opcode::Stloc => Some(Plain::StoreLocal(number(operand))),
        _ => None,
    }
}

/// A constant, or an instruction on the top of the stack.
fn constant_of(opcode: Opcode, operand: u64) -> Option<Plain>
    ensures { result ≡ spec.constant_of opcode operand }
{
    let bits = Num::I8(operand.cast_signed());
    match opcode {
        Opcode::Nop | Opcode::Break => Some(Plain::Nop),
        Opcode::Ldnull => Some(Plain::Null),
        Opcode::LdcI4M1 => Some(Plain::Const(Num::I4(-1))),
        Opcode::LdcI40 => Some(Plain::Const(Num::I4(0))),
        Opcode::LdcI41 => Some(Plain::Const(Num::I4(1))),
        Opcode::LdcI42 => Some(Plain::Const(Num::I4(2))),
        Opcode::LdcI43 => Some(Plain::Const(Num::I4(3))),
        Opcode::LdcI44 => Some(Plain::Const(Num::I4(4))),
        Opcode::LdcI45 => Some(Plain::Const(Num::I4(5))),
        Opcode::LdcI46 => Some(Plain::Const(Num::I4(6))),
        Opcode::LdcI47 => Some(Plain::Const(Num::I4(7))),
        Opcode::LdcI48 => Some(Plain::Const(Num::I4(8))),
        Opcode::LdcI4S => Some(Plain::Const(convert(ConvOp::ToI1, bits))),
        Opcode::LdcI4 => Some(Plain::Const(convert(ConvOp::ToI4, bits))),
        Opcode::LdcI8 => Some(Plain::Const(bits)),
        Opcode::Dup => Some(Plain::Dup),
        Opcode::Pop => Some(Plain::Pop),
        Opcode::Throw => Some(Plain::Throw),
        _ => None,
    }
}

/// What an instruction does in a frame, with its operand. None for a branch, which has a target, and for what asks a
/// loader or is outside of the profile.
pub fn plain_of(opcode: Opcode, operand: u64) -> Option<Plain>
    ensures { result ≡ spec.plain_of opcode operand }
{
    if let Some(op) = constant_of(opcode, operand) {
        return Some(op);
    }
    if let Some(op) = variable_of(opcode, operand) {
        return Some(op);
    }
    operation_of(opcode)
}

/// What `ldelem` with a width or of references asks for (III.4.8); none for any other instruction.
pub fn loaded_element(opcode: Opcode) -> Option<Scalar>
    ensures { result ≡ spec.loaded_element opcode }
{
    match opcode {
        Opcode::LdelemI1 => Some(Scalar::Int(IntKind::I1)),
        Opcode::LdelemU1 => Some(Scalar::Int(IntKind::U1)),
        Opcode::LdelemI2 => Some(Scalar::Int(IntKind::I2)),
        Opcode::LdelemU2 => Some(Scalar::Int(IntKind::U2)),
        Opcode::LdelemI4 | Opcode::LdelemU4 => Some(Scalar::Int(IntKind::I4)),
        Opcode::LdelemI8 | Opcode::LdelemI => Some(Scalar::Int(IntKind::I8)),
        Opcode::LdelemRef => Some(Scalar::Ref),
        _ => None,
    }
}

/// What `stelem` with a width or of references stores (III.4.27); none for any other instruction.
pub fn stored_element(opcode: Opcode) -> Option<Scalar>
    ensures { result ≡ spec.stored_element opcode }
{
    match opcode {
        Opcode::StelemI1 => Some(Scalar::Int(IntKind::I1)),
        Opcode::StelemI2 => Some(Scalar::Int(IntKind::I2)),
        Opcode::StelemI4 => Some(Scalar::Int(IntKind::I4)),
        Opcode::StelemI8 | Opcode::StelemI => Some(Scalar::Int(IntKind::I8)),
        Opcode::StelemRef => Some(Scalar::Ref),
        _ => None,
    }
}
