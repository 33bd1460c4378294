//! Operands: what an instruction that asks for no exact type sees of the values on the stack.

ghost use Rattle.std.specs.Prelude.{◌≡◌};
ghost use Rattle.cil_state.specs.Operands as spec;

use crate::state::Stack;
use crate::trap::Trap;
use crate::value::{Addr, Value};
use cil_ops::Num;
use clr_base::Handle;
use obj_heap::ObjRef;

/// What stands on top of a stack, but for the content of a value of an exact value type.
#[derive(Clone, Copy)]
pub enum Operand {
    /// Nothing: the stack is empty.
    Missing,
    Number(Num),
    Ref(Option<ObjRef>),
    Addr(Option<Addr>),
    /// A value of an exact value type.
    Val,
}

/// Two operands, of which the upper one was pushed last.
#[derive(Clone, Copy)]
pub struct Operands<A, B> {
    pub upper: A,
    pub lower: B,
}

/// A value as an operand.
pub fn seen(value: &Value<Handle>) -> Operand
    ensures { result ≡ spec.operand value.now }
{
    match value {
        Value::Number(n) => Operand::Number(*n),
        Value::Ref(r) => Operand::Ref(*r),
        Value::Addr(a) => Operand::Addr(*a),
        Value::Val(_, _) => Operand::Val,
    }
}

/// Takes the top value off the stack. An empty stack stays empty.
pub fn pop_operand(stack: &mut Stack) -> Operand
    ensures top { result ≡ spec.top stack.old }
    ensures rest { stack.new ≡ spec.below stack.old }
{
    match stack.pop() {
        None => Operand::Missing,
        Some(value) => seen(&value),
    }
}

/// The operand where a number is wanted: an address traps NotInProfile there, and anything else InvalidProgram.
pub fn as_number(operand: Operand) -> Result<Num, Trap>
    ensures { result ≡ spec.as_number operand }
{
    match operand {
        Operand::Number(n) => Ok(n),
        Operand::Addr(_) => Err(Trap::NotInProfile),
        Operand::Missing | Operand::Ref(_) | Operand::Val => Err(Trap::InvalidProgram),
    }
}

/// The operand where a place wants an integer: anything else traps InvalidProgram.
pub fn as_integer(operand: Operand) -> Result<Num, Trap>
    ensures { result ≡ spec.as_integer operand }
{
    match operand {
        Operand::Number(n) => Ok(n),
        Operand::Addr(_) | Operand::Missing | Operand::Ref(_) | Operand::Val => {
            Err(Trap::InvalidProgram)
        }
    }
}

/// The operand where a reference is wanted: anything else traps InvalidProgram.
pub fn as_ref(operand: Operand) -> Result<Option<ObjRef>, Trap>
    ensures { result ≡ spec.as_ref operand }
{
    match operand {
        Operand::Ref(r) => Ok(r),
        Operand::Addr(_) | Operand::Missing | Operand::Number(_) | Operand::Val => {
            Err(Trap::InvalidProgram)
        }
    }
}

/// The operand where an address is wanted: anything else traps InvalidProgram.
pub fn as_addr(operand: Operand) -> Result<Option<Addr>, Trap>
    ensures { result ≡ spec.as_addr operand }
{
    match operand {
        Operand::Addr(a) => Ok(a),
        Operand::Ref(_) | Operand::Missing | Operand::Number(_) | Operand::Val => {
            Err(Trap::InvalidProgram)
        }
    }
}

/// Two operands, unless one of them traps. Where both do, NotInProfile comes first.
pub fn both<A: Copy, B: Copy>(
    upper: Result<A, Trap>,
    lower: Result<B, Trap>,
) -> Result<Operands<A, B>, Trap>
    ensures { result ≡ spec.both upper lower }
{
    match (upper, lower) {
        (Ok(upper), Ok(lower)) => Ok(Operands { upper, lower }),
        (Ok(_), Err(trap)) => Err(trap),
        (Err(trap), Ok(_)) => Err(trap),
        (Err(trap), Err(other)) => Err(first(trap, other)),
    }
}

/// Of two traps at one point, of which neither comes later than InvalidProgram, the one that comes first.
fn first(trap: Trap, other: Trap) -> Trap
    ensures { result ≡ spec.first trap other }
{
    if other.is_profile() { other } else { trap }
}
