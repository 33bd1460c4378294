//! The integer operations (ECMA-335 III.3): numbers are written `i4:-1` and `i8:5`.
use crate::words::split_word;
use cil_ops::{BinOp, CmpOp, ConvOp, Num, binary, compare, convert};
use clr_base::Memory;

static BINARY: [(&str, BinOp); 19] = [
    ("add", BinOp::Add),
    ("sub", BinOp::Sub),
    ("mul", BinOp::Mul),
    ("div", BinOp::Div),
    ("div.un", BinOp::DivUn),
    ("rem", BinOp::Rem),
    ("rem.un", BinOp::RemUn),
    ("and", BinOp::And),
    ("or", BinOp::Or),
    ("xor", BinOp::Xor),
    ("shl", BinOp::Shl),
    ("shr", BinOp::Shr),
    ("shr.un", BinOp::ShrUn),
    ("add.ovf", BinOp::AddOvf),
    ("add.ovf.un", BinOp::AddOvfUn),
    ("mul.ovf", BinOp::MulOvf),
    ("mul.ovf.un", BinOp::MulOvfUn),
    ("sub.ovf", BinOp::SubOvf),
    ("sub.ovf.un", BinOp::SubOvfUn),
];

/// Comparisons by the branches that make them.
static COMPARISONS: [(&str, CmpOp); 10] = [
    ("beq", CmpOp::Eq),
    ("bne.un", CmpOp::NeUn),
    ("bge", CmpOp::Ge),
    ("bge.un", CmpOp::GeUn),
    ("bgt", CmpOp::Gt),
    ("bgt.un", CmpOp::GtUn),
    ("ble", CmpOp::Le),
    ("ble.un", CmpOp::LeUn),
    ("blt", CmpOp::Lt),
    ("blt.un", CmpOp::LtUn),
];

static CONVERSIONS: [(&str, ConvOp); 12] = [
    ("conv.i1", ConvOp::ToI1),
    ("conv.i2", ConvOp::ToI2),
    ("conv.i4", ConvOp::ToI4),
    ("conv.i8", ConvOp::ToI8),
    ("conv.u1", ConvOp::ToU1),
    ("conv.u2", ConvOp::ToU2),
    ("conv.u4", ConvOp::ToU4),
    ("conv.u8", ConvOp::ToU8),
    ("conv.i", ConvOp::ToI),
    ("conv.u", ConvOp::ToU),
    ("neg", ConvOp::Neg),
    ("not", ConvOp::Not),
];

/// What a table has for a name.
pub fn named<T: Copy>(table: &[(&str, T)], name: &str) -> Option<T> {
    for (known, value) in table {
        if *known == name {
            return Some(*value);
        }
    }
    None
}

/// The number that a word spells.
fn number(word: &str) -> Option<Num> {
    let (width, digits) = word.split_once(':')?;
    match width {
        "i4" => digits.parse::<i32>().ok().map(Num::I4),
        "i8" => digits.parse::<i64>().ok().map(Num::I8),
        _ => None,
    }
}

fn push_number(out: &mut String, number: Num) -> Result<(), Memory> {
    match number {
        Num::I4(a) => write!(out, " i4:{a}")?,
        Num::I8(a) => write!(out, " i8:{a}")?,
    }
    Ok(())
}

fn push_result(out: &mut String, op: BinOp, a: Num, b: &str) -> Result<(), Memory> {
    let Some(b) = number(b) else {
        return Ok(out.push_str(" no number")?);
    };
    match binary(op, a, b) {
        Ok(number) => push_number(out, number),
        Err(fault) => Ok(write!(out, " {fault}")?),
    }
}

fn push_truth(out: &mut String, op: CmpOp, a: Num, b: &str) -> Result<(), Memory> {
    let Some(b) = number(b) else {
        return Ok(out.push_str(" no number")?);
    };
    match compare(op, a, b) {
        Ok(truth) => Ok(write!(out, " {truth}")?),
        Err(fault) => Ok(write!(out, " {fault}")?),
    }
}

fn push_converted(out: &mut String, op: ConvOp, a: &str) -> Result<(), Memory> {
    match number(a) {
        Some(a) => push_number(out, convert(op, a)),
        None => Ok(out.push_str(" no number")?),
    }
}

/// `op NAME LEFT RIGHT..`: the result for each right operand.
pub fn push_binary(out: &mut String, request: &str) -> Result<(), Memory> {
    let (name, operands) = split_word(request);
    let (left, rights) = split_word(operands);
    let (Some(op), Some(left)) = (named(&BINARY, name), number(left)) else {
        return Ok(out.push_str(" = no operation")?);
    };
    out.push_str(" =")?;
    for right in rights.split(' ') {
        push_result(out, op, left, right)?;
    }
    Ok(())
}

/// `compare NAME LEFT RIGHT..`: whether the comparison holds for each right operand.
pub fn push_compare(out: &mut String, request: &str) -> Result<(), Memory> {
    let (name, operands) = split_word(request);
    let (left, rights) = split_word(operands);
    let (Some(op), Some(left)) = (named(&COMPARISONS, name), number(left)) else {
        return Ok(out.push_str(" = no comparison")?);
    };
    out.push_str(" =")?;
    for right in rights.split(' ') {
        push_truth(out, op, left, right)?;
    }
    Ok(())
}

/// `convert NAME NUMBER..`: what each number becomes.
pub fn push_convert(out: &mut String, request: &str) -> Result<(), Memory> {
    let (name, numbers) = split_word(request);
    let Some(op) = named(&CONVERSIONS, name) else {
        return Ok(out.push_str(" = no conversion")?);
    };
    out.push_str(" =")?;
    for number in numbers.split(' ') {
        push_converted(out, op, number)?;
    }
    Ok(())
}
