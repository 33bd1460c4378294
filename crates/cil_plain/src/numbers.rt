//! Arithmetic, conversions and comparisons (ECMA-335 III.1.5, III.3).

ghost use Rattle.std.specs.Prelude.{◌≡◌};
ghost use Rattle.cil_state.specs.Meets.{Meets};
ghost use Rattle.cil_plain.specs.Numbers as spec;

use cil_ops::{BinOp, CmpOp, ConvOp, Num, OpFault};
use cil_state::{Operand, Stack, Stop, Trap, Value, as_number, both, pop_operand};
use obj_heap::ObjRef;

/// The trap of an operation without a result.
fn trap_of(fault: OpFault) -> Trap
    ensures { result ≡ spec.trap_of fault }
{
    match fault {
        OpFault::DivideByZero => Trap::DivideByZero,
        OpFault::Overflow => Trap::Overflow,
        OpFault::Mixed => Trap::InvalidProgram,
    }
}

fn compute(op: BinOp, a: Num, b: Num) -> Result<Num, Trap>
    ensures { result ≡ spec.computed op a b }
{
    match cil_ops::binary(op, a, b) {
        Ok(n) => Ok(n),
        Err(fault) => Err(trap_of(fault)),
    }
}

pub(crate) fn binary(op: BinOp, stack: &mut Stack) -> Result<(), Stop>
    ensures { Meets result (λ _. stack.new) (spec.binary op stack.old) }
{
    let b = as_number(pop_operand(stack));
    let a = as_number(pop_operand(stack));
    let operands = both(b, a)?;
    let n = compute(op, operands.lower, operands.upper)?;
    Ok(stack.push(Value::Number(n))?)
}

pub(crate) fn convert(op: ConvOp, stack: &mut Stack) -> Result<(), Stop>
    ensures { Meets result (λ _. stack.new) (spec.convert op stack.old) }
{
    let n = as_number(pop_operand(stack))?;
    Ok(stack.push(Value::Number(cil_ops::convert(op, n)))?)
}

/// The operand where a number or a reference is wanted.
fn comparable(operand: Operand) -> Result<Operand, Trap>
    ensures { result ≡ spec.comparable operand }
{
    match operand {
        Operand::Number(_) | Operand::Ref(_) => Ok(operand),
        Operand::Addr(_) => Err(Trap::NotInProfile),
        Operand::Missing | Operand::Val => Err(Trap::InvalidProgram),
    }
}

fn is_same(a: Option<ObjRef>, b: Option<ObjRef>) -> bool
    ensures { result ≡ spec.is_same a b }
{
    match (a, b) {
        (None, None) => true,
        (Some(a), Some(b)) => a.0 == b.0,
        _ => false,
    }
}

/// A comparison of two references, of which it is known whether they are the same.
fn refs_compared(op: CmpOp, same: bool) -> Result<bool, Trap>
    ensures { result ≡ spec.refs_compared op same }
{
    match op {
        CmpOp::Eq => Ok(same),
        CmpOp::NeUn | CmpOp::GtUn => Ok(!same),
        _ => Err(Trap::NotInProfile),
    }
}

fn of_one_kind(op: CmpOp, a: Operand, b: Operand) -> Result<bool, Trap>
    ensures { result ≡ spec.of_one_kind op a b }
{
    match (a, b) {
        (Operand::Number(a), Operand::Number(b)) => match cil_ops::compare(op, a, b) {
            Ok(holds) => Ok(holds),
            Err(fault) => Err(trap_of(fault)),
        },
        (Operand::Ref(a), Operand::Ref(b)) => refs_compared(op, is_same(a, b)),
        _ => Err(Trap::InvalidProgram),
    }
}

/// Takes two operands off the stack, and answers whether the comparison holds of them.
pub(crate) fn pop_compared(op: CmpOp, stack: &mut Stack) -> Result<bool, Stop>
    ensures { Meets result (λ holds. (holds, stack.new)) (spec.pop_compared op stack.old) }
{
    let b = comparable(pop_operand(stack));
    let a = comparable(pop_operand(stack));
    let operands = both(b, a)?;
    Ok(of_one_kind(op, operands.lower, operands.upper)?)
}

pub(crate) fn compare(op: CmpOp, stack: &mut Stack) -> Result<(), Stop>
    ensures { Meets result (λ _. stack.new) (spec.compare op stack.old) }
{
    let holds = pop_compared(op, stack)?;
    let n = if holds { 1 } else { 0 };
    Ok(stack.push(Value::Number(Num::I4(n)))?)
}
