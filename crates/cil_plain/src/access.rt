//! Places in objects: what they hold as values on the stack, and values as what they hold (ECMA-335 III.1.1.1).

ghost use Rattle.std.specs.Prelude.{◌≡◌, IsTrue, IfOk};
ghost use Rattle.cil_state.specs.Meets.{Meets};
ghost use Rattle.cil_state.specs.Forms.{width};
ghost use Rattle.obj_heap.specs.Calls as objects;
ghost use Rattle.cil_plain.specs.Access as spec;

use cil_ops::{Num, convert};
use cil_state::{IntKind, Operand, Scalar, Stop, Trap, Value, as_integer, as_ref};
use clr_base::Handle;
use obj_heap::{Address, Heap, ObjRef, PlaceKind};

/// The object of a reference. NullReference where there is none.
pub fn made(heap: &Heap<Handle>, reference: Option<ObjRef>) -> Result<ObjRef, Trap>
    ensures value { result ≡ spec.made heap.now reference }
    ensures made { IfOk result (λ r. IsTrue (objects.is_made heap.now r)) }
{
    match reference {
        None => Err(Trap::NullReference),
        Some(object) => match heap.find(u64::from(object.0)) {
            Some(object) => Ok(object),
            None => Err(Trap::NullReference),
        },
    }
}

/// The name of the exact type of the object that a reference names; none of null.
pub fn type_of(heap: &Heap<Handle>, reference: Option<ObjRef>) -> Option<Handle>
    ensures { result ≡ spec.type_of heap.now reference }
{
    match made(heap, reference) {
        Ok(object) => Some(heap.handle_of(object)),
        Err(_) => None,
    }
}

/// Whether a place of that kind may be taken for one that holds this.
fn holds(scalar: Scalar, kind: PlaceKind) -> bool
    ensures { result ≡ spec.holds scalar kind }
{
    match (scalar, kind) {
        (Scalar::Int(_), PlaceKind::Numbers) => true,
        (Scalar::Ref, PlaceKind::Reference) => true,
        _ => false,
    }
}

/// Whether the bytes at a place are what is asked for there.
fn is_there(heap: &Heap<Handle>, place: Address, scalar: Scalar) -> bool
    ensures value { result ≡ spec.is_there heap.now place scalar }
    ensures inside { IsTrue result → IsTrue (objects.is_inside heap.now place (width scalar)) }
{
    holds(scalar, heap.kind_at(place, scalar.width()))
}

/// What the bytes of a place stand for. An integer of fewer than 32 bits is widened, by its sign or by zeros.
fn held(heap: &Heap<Handle>, scalar: Scalar, bits: u64) -> Value<Handle>
    ensures { result ≡ spec.held heap.now scalar bits }
{
    match scalar {
        Scalar::Int(kind) => {
            Value::Number(convert(kind.conversion(), Num::I8(bits.cast_signed())))
        }
        Scalar::Ref => Value::Ref(heap.find(bits)),
    }
}

/// The value at a place. InvalidProgram where the place isn't in its object, or has bytes of a reference where an
/// integer is asked for, or no reference where one is.
pub fn load_at(heap: &Heap<Handle>, place: Address, scalar: Scalar) -> Result<Value<Handle>, Stop>
    ensures { Meets result (λ v. v) (spec.load_at heap.now place scalar) }
{
    if !is_there(heap, place, scalar) {
        return Err(Stop::Trap(Trap::InvalidProgram));
    }
    Ok(held(heap, scalar, heap.read_at(place, scalar.width())))
}

/// Writes to a place. InvalidProgram as at `load_at`.
pub fn store_at(
    heap: &mut Heap<Handle>,
    place: Address,
    scalar: Scalar,
    bits: u64,
) -> Result<(), Stop>
    ensures { Meets result (λ _. heap.new) (spec.store_at heap.old place scalar bits) }
{
    if !is_there(heap, place, scalar) {
        return Err(Stop::Trap(Trap::InvalidProgram));
    }
    heap.write_at(place, scalar.width(), bits);
    Ok(())
}

fn int_bits(kind: IntKind, number: Num) -> Result<u64, Trap>
    ensures { result ≡ spec.int_bits kind number }
{
    match (kind.is_wide(), number) {
        (true, Num::I8(_)) | (false, Num::I4(_)) => Ok(number.to_i64().cast_unsigned()),
        _ => Err(Trap::InvalidProgram),
    }
}

/// What a store of the operand writes, of which the place takes the lowest bytes. InvalidProgram where the operand
/// isn't what the place holds.
pub(crate) fn bits(scalar: Scalar, operand: Operand) -> Result<u64, Trap>
    ensures { result ≡ spec.bits scalar operand }
{
    match scalar {
        Scalar::Int(kind) => int_bits(kind, as_integer(operand)?),
        Scalar::Ref => match as_ref(operand)? {
            Some(object) => Ok(u64::from(object.0)),
            None => Ok(0),
        },
    }
}
