//! What stands on the evaluation stack.

ghost use Rattle.std.specs.Prelude.{Ok};
ghost use Rattle.cil_state.specs.Meets.{Meets};

use crate::trap::Stop;
use cil_ops::Num;
use clr_base::Handle;
use obj_heap::ObjRef;
use sqlite_items::Items;
use std::alloc::Global;

/// What an address points into. A frame is named by its number, from the first frame of the job on, from 0; an
/// argument or a local by its number in the frame; a static field by its number among those that the job has.
#[derive(Clone, Copy)]
pub enum Place {
    Object(ObjRef),
    Argument(u32, u32),
    Local(u32, u32),
    Static(u32),
}

/// An address that isn't null: a place, and an offset in bytes from its first byte on.
#[derive(Clone, Copy)]
pub struct Addr {
    pub place: Place,
    pub offset: u32,
}

/// A value on the evaluation stack (ECMA-335 III.1.1). `H` names exact types.
#[derive(Drop)]
pub enum Value<H> {
    /// A number of 32 or of 64 bits; `native int` has 64.
    Number(Num),
    /// A reference to an object, or null.
    Ref(Option<ObjRef>),
    /// An address, or the null address.
    Addr(Option<Addr>),
    /// A value of an exact value type: its name, and the value's bytes. A reference among them has eight.
    Val(H, Items<u8>),
}

/// The same value once more.
pub fn copy_of(alloc: Global, value: &Value<Handle>) -> Result<Value<Handle>, Stop>
    ensures { Meets result (λ v. v) (Ok value.now) }
{
    match value {
        Value::Number(n) => Ok(Value::Number(*n)),
        Value::Ref(r) => Ok(Value::Ref(*r)),
        Value::Addr(a) => Ok(Value::Addr(*a)),
        Value::Val(of, bytes) => {
            let bytes = Items::from_slice(alloc, bytes.as_slice())?;
            Ok(Value::Val(*of, bytes))
        }
    }
}
