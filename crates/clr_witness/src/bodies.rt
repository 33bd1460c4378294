//! Method bodies (ECMA-335 II.25.4).
use crate::instructions::name_of;
use crate::words::bytes_of;
use cil_code::{Body, Instr, Op, decode};
use clr_base::Memory;
use std::alloc::Global;

fn push_coded(out: &mut String, op: Op, operand: u64) -> Result<(), Memory> {
    write!(out, " {}", name_of(op.opcode))?;
    if op.operand.width() > 0 {
        write!(out, " 0x{operand:x}")?;
    }
    Ok(())
}

fn push_instr(out: &mut String, instr: &Instr) -> Result<(), Memory> {
    for prefix in instr.prefixes.as_slice() {
        push_coded(out, prefix.op, prefix.operand)?;
    }
    push_coded(out, instr.op, instr.operand)?;
    for target in instr.targets.as_slice() {
        write!(out, " 0x{target:x}")?;
    }
    Ok(())
}

fn push_decoded(out: &mut String, body: &Body) -> Result<(), Memory> {
    let (stack, init, locals) = (body.max_stack, body.init, body.locals);
    write!(out, " = stack {stack}, init {init}, locals 0x{locals:x}")?;
    for placed in body.code.as_slice() {
        write!(out, "\n  {}:", placed.place)?;
        push_instr(out, &placed.instr)?;
    }
    Ok(())
}

/// `body HEX`: its header and its instructions, each at its place.
pub fn push_body(alloc: Global, out: &mut String, request: &str) -> Result<(), Memory> {
    let bytes = bytes_of(alloc, request)?;
    match decode(alloc, &bytes) {
        Ok(body) => push_decoded(out, &body),
        Err(fault) => Ok(write!(out, " = {fault}")?),
    }
}
