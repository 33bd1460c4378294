//! Elements of arrays (ECMA-335 III.4.7, III.4.12, III.4.26). What the elements of the array are is asked before.

ghost use Rattle.std.specs.Prelude.{◌≡◌, ◌<◌, IfOk};
ghost use Rattle.cil_state.specs.Meets.{Meets};
ghost use Rattle.cil_state.specs.Operands.{below};
ghost use Rattle.cil_plain.specs.Elements as spec;

use crate::access::{bits, load_at, made, store_at};
use cil_ops::Num;
use cil_state::{
    Operands, Scalar, Stack, State, Stop, Trap, Value, as_number, as_ref, both, pop_operand,
};
use clr_base::Handle;
use obj_heap::{Address, HEAP_LIMIT, Heap, ObjRef};

/// An index above its array.
pub type Indexed = Operands<Num, Option<ObjRef>>;

fn pop_indexed(stack: &mut Stack) -> Result<Indexed, Trap>
    ensures operands { result ≡ spec.indexed stack.old }
    ensures rest { stack.new ≡ below (below stack.old) }
{
    let index = as_number(pop_operand(stack));
    let array = as_ref(pop_operand(stack));
    both(index, array)
}

/// Takes the operands of `ldelem` off the stack: an index above the array.
pub fn pop_element(stack: &mut Stack) -> Result<Indexed, Stop>
    ensures { Meets result (λ t. (t, stack.new)) (spec.pop_element stack.old) }
{
    Ok(pop_indexed(stack)?)
}

/// Takes the operands of `stelem` off the stack: what is written, above the index, above the array.
pub fn pop_element_store(scalar: Scalar, stack: &mut Stack) -> Result<Operands<u64, Indexed>, Stop>
    ensures { Meets result (λ t. (t, stack.new)) (spec.pop_element_store scalar stack.old) }
{
    let value = bits(scalar, pop_operand(stack));
    let indexed = pop_indexed(stack);
    Ok(both(value, indexed)?)
}

/// Whether an instruction may take an element of the one kind for one of the other: integers have the same width.
fn is_alike(element: Scalar, scalar: Scalar) -> bool
    ensures { result ≡ spec.is_alike element scalar }
{
    match (element, scalar) {
        (Scalar::Int(kind), Scalar::Int(other)) => kind.width() == other.width(),
        (Scalar::Ref, Scalar::Ref) => true,
        _ => false,
    }
}

fn are_elements(elements: Option<Scalar>, scalar: Scalar) -> bool
    ensures { result ≡ spec.are_elements elements scalar }
{
    match elements {
        Some(element) => is_alike(element, scalar),
        None => false,
    }
}

/// The number of an element of so many. IndexRange where there is none.
fn in_range(index: Num, count: u32) -> Result<u32, Trap>
    ensures value { result ≡ spec.in_range index count }
    ensures below { IfOk result (λ k. k < HEAP_LIMIT) }
{
    let index = index.to_i64();
    if index < 0 || index >= i64::from(count) || index >= HEAP_LIMIT as i64 {
        return Err(Trap::IndexRange);
    }
    Ok(index as u32)
}

/// The place of an element. `elements` is what the elements of the array are; none where the object is no array, or its
/// elements are neither integers nor references.
fn element(
    elements: Option<Scalar>,
    scalar: Scalar,
    indexed: Indexed,
    heap: &Heap<Handle>,
) -> Result<Address, Trap>
    ensures { result ≡ spec.element elements scalar indexed heap.now }
{
    let object = made(heap, indexed.lower)?;
    if !are_elements(elements, scalar) {
        return Err(Trap::InvalidProgram);
    }
    let number = in_range(indexed.upper, heap.length_of(object))?;
    let offset = 16 + u32::from(scalar.width()) * number;
    Ok(Address { object, offset })
}

/// Pushes an element of an array.
pub fn load_element(
    elements: Option<Scalar>,
    scalar: Scalar,
    indexed: Indexed,
    state: &mut State<Handle>,
) -> Result<(), Stop>
    ensures { Meets result (λ _. state.new) (spec.load_element elements scalar indexed state.old) }
{
    let place = element(elements, scalar, indexed, &state.heap)?;
    let value = load_at(&state.heap, place, scalar)?;
    Ok(state.top.stack.push(value)?)
}

/// Writes an element of an array. `fits` says whether it may stand there, which is asked of a reference.
pub fn store_element(
    elements: Option<Scalar>,
    scalar: Scalar,
    fits: bool,
    operands: Operands<u64, Indexed>,
    state: &mut State<Handle>,
) -> Result<(), Stop>
    ensures { Meets result (λ _. state.new) (spec.store_element elements scalar fits operands state.old) }
{
    let place = element(elements, scalar, operands.lower, &state.heap)?;
    if !fits {
        return Err(Stop::Trap(Trap::ArrayMismatch));
    }
    store_at(&mut state.heap, place, scalar, operands.upper)
}

/// Pushes the number of an array's elements. `is_array` says whether the object is an array.
pub fn load_length(
    is_array: bool,
    reference: Option<ObjRef>,
    state: &mut State<Handle>,
) -> Result<(), Stop>
    ensures { Meets result (λ _. state.new) (spec.load_length is_array reference state.old) }
{
    let object = made(&state.heap, reference)?;
    if !is_array {
        return Err(Stop::Trap(Trap::InvalidProgram));
    }
    let length = i64::from(state.heap.length_of(object));
    Ok(state.top.stack.push(Value::Number(Num::I8(length)))?)
}
