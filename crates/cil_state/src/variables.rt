//! Arguments and local variables: their zero, and what loads and stores do (ECMA-335 III.1.1.1, III.3.38, III.3.63).

ghost use Rattle.std.specs.Prelude.{◌≡◌, Ok, slice_get};
ghost use Rattle.cil_state.specs.Meets.{Meets};
ghost use Rattle.cil_state.specs.Forms as spec;
ghost use Rattle.cil_state.specs.State.{same_handle};

use crate::form::{Form, IntKind, Scalar, Variable};
use crate::operand::{Operand, as_addr, as_integer, as_ref, seen};
use crate::trap::{Stop, Trap};
use crate::value::{Value, copy_of};
use cil_ops::{Num, convert};
use clr_base::Handle;
use sqlite_items::Items;
use std::alloc::Global;

/// The zero of a form.
pub fn zero_of(alloc: Global, form: Form<Handle>) -> Result<Value<Handle>, Stop>
    ensures { Meets result (λ v. v) (Ok (spec.zero form)) }
{
    match form {
        Form::Scalar(Scalar::Int(kind)) => Ok(Value::Number(if kind.is_wide() {
            Num::I8(0)
        } else {
            Num::I4(0)
        })),
        Form::Scalar(Scalar::Ref) | Form::Outside => Ok(Value::Ref(None)),
        Form::Addr => Ok(Value::Addr(None)),
        Form::Val(of, size) => {
            let mut bytes = Vec::new(alloc);
            bytes.resize(size as usize, 0)?;
            Ok(Value::Val(of, Items::from_vec(bytes)))
        }
    }
}

/// Variables of these forms, each with its zero.
pub fn zeroed(alloc: Global, forms: &[Form<Handle>]) -> Result<Items<Variable<Handle>>, Stop>
    ensures { Meets result (λ vs. vs) (Ok (spec.zeroed forms.now)) }
{
    let mut variables = Items::new(alloc);
    for form in forms {
        let value = zero_of(alloc, *form)?;
        variables.push(Variable { form: *form, value })?;
    }
    Ok(variables)
}

/// The variable with that number. InvalidProgram where there is none.
pub fn variable(variables: &[Variable<Handle>], number: u32) -> Result<&Variable<Handle>, Stop>
    ensures { Meets result (λ v. v.now) (spec.variable variables.now number) }
{
    match variables.get(number as usize) {
        Some(variable) => Ok(variable),
        None => Err(Stop::Trap(Trap::InvalidProgram)),
    }
}

/// The value of a variable. NotInProfile where the profile doesn't have its form.
pub fn loaded(alloc: Global, variable: &Variable<Handle>) -> Result<Value<Handle>, Stop>
    ensures { Meets result (λ v. v) (spec.loaded variable.now) }
{
    match variable.form {
        Form::Outside => Err(Stop::Trap(Trap::NotInProfile)),
        Form::Scalar(_) | Form::Addr | Form::Val(_, _) => copy_of(alloc, &variable.value),
    }
}

/// What a place of that kind keeps of a number: its lowest bits, widened again. InvalidProgram where one has 64 bits
/// and the other hasn't.
pub fn kept(kind: IntKind, number: Num) -> Result<Num, Trap>
    ensures { result ≡ spec.kept kind number }
{
    match (kind.is_wide(), number) {
        (true, Num::I8(_)) | (false, Num::I4(_)) => Ok(convert(kind.conversion(), number)),
        _ => Err(Trap::InvalidProgram),
    }
}

fn scalar_assigned(scalar: Scalar, operand: Operand) -> Result<Value<Handle>, Stop>
    ensures { Meets result (λ v. v) (spec.scalar_assigned scalar operand) }
{
    match scalar {
        Scalar::Int(kind) => {
            let number = as_integer(operand)?;
            Ok(Value::Number(kept(kind, number)?))
        }
        Scalar::Ref => Ok(Value::Ref(as_ref(operand)?)),
    }
}

fn struct_assigned(of: Handle, value: Value<Handle>) -> Result<Value<Handle>, Stop>
    ensures { Meets result (λ v. v) (spec.struct_assigned same_handle of value) }
{
    match value {
        Value::Val(given, bytes) if given.0 == of.0 => Ok(Value::Val(given, bytes)),
        _ => Err(Stop::Trap(Trap::InvalidProgram)),
    }
}

/// What a variable of that form has after a store of the value. NotInProfile where the profile doesn't have the form;
/// else InvalidProgram where the value isn't one of the form.
pub fn assigned(form: Form<Handle>, value: Value<Handle>) -> Result<Value<Handle>, Stop>
    ensures { Meets result (λ v. v) (spec.assigned same_handle form value) }
{
    match form {
        Form::Scalar(scalar) => scalar_assigned(scalar, seen(&value)),
        Form::Addr => Ok(Value::Addr(as_addr(seen(&value))?)),
        Form::Val(of, _) => struct_assigned(of, value),
        Form::Outside => Err(Stop::Trap(Trap::NotInProfile)),
    }
}
