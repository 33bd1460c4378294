//! What is fixed of the core's types.

ghost use Rattle.std.specs.Prelude.{◌≡◌};
ghost use Rattle.field_layout.specs.Fields as spec;

use clr_base::DefId;
use type_tree::{Def, World};

/// The core's types by their numbers.
const BOOLEAN: u32 = 4;

const CHAR: u32 = 5;

const SBYTE: u32 = 6;

const BYTE: u32 = 7;

const INT16: u32 = 8;

const UINT16: u32 = 9;

const INT32: u32 = 10;

const UINT32: u32 = 11;

const INT64: u32 = 12;

const UINT64: u32 = 13;

const INT_PTR: u32 = 14;

const UINT_PTR: u32 = 15;

const SINGLE: u32 = 16;

const DOUBLE: u32 = 17;

const RUNTIME_TYPE_HANDLE: u32 = 21;

const EXCEPTION: u32 = 28;

/// The bytes of a built-in value type, and of System.RuntimeTypeHandle, by the core's numbers.
fn core_width(number: u32) -> Option<u32>
    ensures { result ≡ spec.core_width number }
{
    match number {
        BOOLEAN | SBYTE | BYTE => Some(1),
        CHAR | INT16 | UINT16 => Some(2),
        INT32 | UINT32 | SINGLE => Some(4),
        INT64 | UINT64 | INT_PTR | UINT_PTR | DOUBLE | RUNTIME_TYPE_HANDLE => Some(8),
        _ => None,
    }
}

/// The size and alignment of a definition that is built in.
pub(crate) fn width(world: &World, id: DefId) -> Option<u32>
    ensures { result ≡ spec.width world.now id }
{
    if id.0 < world.def_count() && world.def(id).file == 0 {
        core_width(id.0)
    } else {
        None
    }
}

/// Whether a definition is System.Exception.
pub(crate) fn is_exception(id: DefId, def: &Def) -> bool
    ensures { result ≡ spec.is_exception id def.now }
{
    def.file == 0 && id.0 == EXCEPTION
}
