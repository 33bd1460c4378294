//! One instruction.

ghost use Rattle.cil_state.specs.Meets.{Meets};
ghost use Rattle.cil_state.specs.State.{same_handle};
ghost use Rattle.cil_plain.specs.Plain as spec;

use crate::branches::{jump, jump_if, jump_where, switch};
use crate::locals::{drop_top, dup, load, store};
use crate::numbers::{binary, compare, convert};
use crate::op::Plain;
use cil_state::{Frame, Stack, State, Stop, Trap, Value, as_ref, pop_operand};
use clr_base::Handle;
use std::alloc::Global;

/// Throws the object on top of the stack.
fn throw(stack: &mut Stack) -> Result<(), Stop>
    ensures { Meets result (λ _. stack.new) (spec.throw stack.old) }
{
    let thrown = as_ref(pop_operand(stack))?;
    match thrown {
        Some(object) => Err(Stop::Trap(Trap::Thrown(object))),
        None => Err(Stop::Trap(Trap::NullReference)),
    }
}

/// Executes one instruction in the running frame, whose place is already that of the next one.
pub fn local(alloc: Global, op: &Plain, frame: &mut Frame<Handle>) -> Result<(), Stop>
    ensures { Meets result (λ _. frame.new) (spec.local same_handle op.now frame.old) }
{
    match op {
        Plain::Nop => Ok(()),
        Plain::Const(n) => Ok(frame.stack.push(Value::Number(*n))?),
        Plain::Null => Ok(frame.stack.push(Value::Ref(None))?),
        Plain::LoadArg(n) => load(alloc, *n, frame.args.as_slice(), &mut frame.stack),
        Plain::StoreArg(n) => store(*n, &mut frame.args, &mut frame.stack),
        Plain::LoadLocal(n) => load(alloc, *n, frame.locals.as_slice(), &mut frame.stack),
        Plain::StoreLocal(n) => store(*n, &mut frame.locals, &mut frame.stack),
        Plain::Dup => dup(alloc, &mut frame.stack),
        Plain::Pop => drop_top(&mut frame.stack),
        Plain::Binary(op) => binary(*op, &mut frame.stack),
        Plain::Convert(op) => convert(*op, &mut frame.stack),
        Plain::Compare(op) => compare(*op, &mut frame.stack),
        Plain::Jump(target) => jump(*target, frame),
        Plain::JumpIf(truth, target) => jump_if(*truth, *target, frame),
        Plain::JumpWhere(op, target) => jump_where(*op, *target, frame),
        Plain::Switch(targets) => switch(targets.as_slice(), frame),
        Plain::Throw => throw(&mut frame.stack),
    }
}

/// Executes one instruction of the running frame.
pub fn plain(alloc: Global, op: &Plain, state: &mut State<Handle>) -> Result<(), Stop>
    ensures { Meets result (λ _. state.new) (spec.plain same_handle op.now state.old) }
{
    local(alloc, op, &mut state.top)
}
