//! Branches (ECMA-335 III.3.5 to III.3.18, III.3.66). The frame's place is already that of the next instruction.

ghost use Rattle.std.specs.Prelude.{◌≡◌};
ghost use Rattle.cil_state.specs.Meets.{Meets};
ghost use Rattle.cil_plain.specs.Branches as spec;

use crate::numbers::pop_compared;
use crate::op::Target;
use cil_ops::{CmpOp, Num};
use cil_state::{Frame, Operand, Stop, Trap, pop_operand};
use clr_base::Handle;

/// Goes to a target. InvalidProgram where no instruction begins there.
pub(crate) fn jump(target: Target, frame: &mut Frame<Handle>) -> Result<(), Stop>
    ensures { Meets result (λ _. frame.new) (spec.jump target frame.old) }
{
    match target {
        Some(place) => {
            frame.place = place;
            Ok(())
        }
        None => Err(Stop::Trap(Trap::InvalidProgram)),
    }
}

fn goes(taken: bool, target: Target, frame: &mut Frame<Handle>) -> Result<(), Stop>
    ensures { Meets result (λ _. frame.new) (spec.goes taken target frame.old) }
{
    if taken { jump(target, frame) } else { Ok(()) }
}

/// Whether the operand is neither 0 nor null.
fn as_truth(operand: Operand) -> Result<bool, Trap>
    ensures { result ≡ spec.as_truth operand }
{
    match operand {
        Operand::Number(Num::I4(n)) => Ok(n != 0),
        Operand::Number(Num::I8(n)) => Ok(n != 0),
        Operand::Ref(r) => Ok(r.is_some()),
        Operand::Addr(_) => Err(Trap::NotInProfile),
        Operand::Missing | Operand::Val => Err(Trap::InvalidProgram),
    }
}

/// Whether a branch that goes at that truth is taken.
fn is_taken(truth: bool, is_true: bool) -> bool
    ensures { result ≡ spec.is_taken truth is_true }
{
    if truth { is_true } else { !is_true }
}

pub(crate) fn jump_if(truth: bool, target: Target, frame: &mut Frame<Handle>) -> Result<(), Stop>
    ensures { Meets result (λ _. frame.new) (spec.jump_if truth target frame.old) }
{
    let is_true = as_truth(pop_operand(&mut frame.stack))?;
    goes(is_taken(truth, is_true), target, frame)
}

pub(crate) fn jump_where(op: CmpOp, target: Target, frame: &mut Frame<Handle>) -> Result<(), Stop>
    ensures { Meets result (λ _. frame.new) (spec.jump_where op target frame.old) }
{
    let holds = pop_compared(op, &mut frame.stack)?;
    goes(holds, target, frame)
}

/// The number of a case: the operand's bits as an unsigned number.
fn as_case(operand: Operand) -> Result<u32, Trap>
    ensures { result ≡ spec.as_case operand }
{
    match operand {
        Operand::Number(Num::I4(n)) => Ok(n.cast_unsigned()),
        Operand::Addr(_) => Err(Trap::NotInProfile),
        Operand::Number(Num::I8(_)) | Operand::Ref(_) | Operand::Missing | Operand::Val => {
            Err(Trap::InvalidProgram)
        }
    }
}

/// Goes to the target of a case, and on where there is none.
pub(crate) fn switch(targets: &[Target], frame: &mut Frame<Handle>) -> Result<(), Stop>
    ensures { Meets result (λ _. frame.new) (spec.switch targets.now frame.old) }
{
    let case = as_case(pop_operand(&mut frame.stack))?;
    match targets.get(case as usize) {
        Some(target) => jump(*target, frame),
        None => Ok(()),
    }
}
