//! Fields of objects (ECMA-335 III.4.10, III.4.28). That the object has the field is asked before.

ghost use Rattle.std.specs.Prelude.{◌≡◌};
ghost use Rattle.cil_state.specs.Meets.{Meets};
ghost use Rattle.cil_plain.specs.Fields as spec;

use crate::access::{bits, load_at, made, store_at};
use cil_state::{Operands, Scalar, Stack, State, Stop, as_ref, both, pop_operand};
use clr_base::Handle;
use obj_heap::{Address, ObjRef};

/// Takes a reference off the stack: the operand of `ldfld` and of `ldlen`.
pub fn pop_object(stack: &mut Stack) -> Result<Option<ObjRef>, Stop>
    ensures { Meets result (λ r. (r, stack.new)) (spec.pop_object stack.old) }
{
    Ok(as_ref(pop_operand(stack))?)
}

/// Takes the operands of `stfld` off the stack: what is written, above the object.
pub fn pop_store(scalar: Scalar, stack: &mut Stack) -> Result<Operands<u64, Option<ObjRef>>, Stop>
    ensures { Meets result (λ t. (t, stack.new)) (spec.pop_store scalar stack.old) }
{
    let value = bits(scalar, pop_operand(stack));
    let object = as_ref(pop_operand(stack));
    Ok(both(value, object)?)
}

/// Pushes what the field at an offset holds.
pub fn load_field(
    scalar: Scalar,
    offset: u32,
    reference: Option<ObjRef>,
    state: &mut State<Handle>,
) -> Result<(), Stop>
    ensures { Meets result (λ _. state.new) (spec.load_field scalar offset reference state.old) }
{
    let object = made(&state.heap, reference)?;
    let value = load_at(&state.heap, Address { object, offset }, scalar)?;
    Ok(state.top.stack.push(value)?)
}

/// Writes to the field at an offset.
pub fn store_field(
    scalar: Scalar,
    offset: u32,
    operands: Operands<u64, Option<ObjRef>>,
    state: &mut State<Handle>,
) -> Result<(), Stop>
    ensures { Meets result (λ _. state.new) (spec.store_field scalar offset operands state.old) }
{
    let object = made(&state.heap, operands.lower)?;
    store_at(
        &mut state.heap,
        Address { object, offset },
        scalar,
        operands.upper,
    )
}
