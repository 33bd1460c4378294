//! Arguments and locals (ECMA-335 III.3.38, III.3.43, III.3.61, III.3.63), `dup` and `pop` (III.3.34, III.3.54).

ghost use Rattle.std.specs.Prelude.{◌≡◌};
ghost use Rattle.cil_state.specs.Meets.{Meets};
ghost use Rattle.cil_state.specs.State.{same_handle};
ghost use Rattle.cil_plain.specs.Locals as spec;

use cil_state::{Form, Stack, Stop, Trap, Value, Variable, assigned, copy_of, loaded, variable};
use clr_base::Handle;
use sqlite_items::Items;
use std::alloc::Global;

/// Pushes what a variable holds.
pub(crate) fn load(
    alloc: Global,
    number: u32,
    variables: &[Variable<Handle>],
    stack: &mut Stack,
) -> Result<(), Stop>
    ensures { Meets result (λ _. stack.new) (spec.load number variables.now stack.old) }
{
    let variable = variable(variables, number)?;
    let value = loaded(alloc, variable)?;
    Ok(stack.push(value)?)
}

/// Takes the top value off the stack. InvalidProgram where there is none.
fn pop_value(stack: &mut Stack) -> Result<Value<Handle>, Stop>
    ensures { Meets result (λ v. (v, stack.new)) (spec.popped stack.old) }
{
    match stack.pop() {
        Some(value) => Ok(value),
        None => Err(Stop::Trap(Trap::InvalidProgram)),
    }
}

/// NotInProfile where the profile doesn't have the form.
fn in_profile(form: Form<Handle>) -> Result<(), Trap>
    ensures { result ≡ spec.in_profile form }
{
    match form {
        Form::Outside => Err(Trap::NotInProfile),
        Form::Scalar(_) | Form::Addr | Form::Val(_, _) => Ok(()),
    }
}

/// Stores the top of the stack to a variable.
pub(crate) fn store(
    number: u32,
    variables: &mut Items<Variable<Handle>>,
    stack: &mut Stack,
) -> Result<(), Stop>
    ensures { Meets result (λ _. (variables.new, stack.new)) (spec.store same_handle number variables.old stack.old) }
{
    let at = number as usize;
    let Some(variable) = variables.get(at) else {
        return Err(Stop::Trap(Trap::InvalidProgram));
    };
    let form = variable.form;
    in_profile(form)?;
    let value = pop_value(stack)?;
    let value = assigned(form, value)?;
    variables.set(at, Variable { form, value });
    Ok(())
}

pub(crate) fn dup(alloc: Global, stack: &mut Stack) -> Result<(), Stop>
    ensures { Meets result (λ _. stack.new) (spec.dup stack.old) }
{
    let value = pop_value(stack)?;
    let copy = copy_of(alloc, &value)?;
    stack.push(value)?;
    Ok(stack.push(copy)?)
}

pub(crate) fn drop_top(stack: &mut Stack) -> Result<(), Stop>
    ensures { Meets result (λ _. stack.new) (spec.drop_top stack.old) }
{
    let _ = pop_value(stack)?;
    Ok(())
}
