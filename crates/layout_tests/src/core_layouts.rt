//! Layouts of the core's types, by their numbers.
use crate::layouts::{told, worked};
use clr_base::Memory;
use field_layout::layout;
use small_worlds::{Named, tree};
use std::alloc::Global;
use std::test::Fail;
use type_tree::World;

/// End, size and alignment.
type Extent = [u32; 3];

const CLASS: Extent = [8, 8, 8];

const EMPTY: Extent = [0, 1, 1];

const INTERFACE: Extent = [0, 0, 8];

const EXCEPTION: Extent = [16, 16, 8];

const BYTES_1: Extent = [1, 1, 1];

const BYTES_2: Extent = [2, 2, 2];

const BYTES_4: Extent = [4, 4, 4];

const BYTES_8: Extent = [8, 8, 8];

const CORE: [(Named, Extent); 36] = [
    // Object, ValueType, Enum, Void
    (Named::Plain(0), CLASS),
    (Named::Plain(1), CLASS),
    (Named::Plain(2), CLASS),
    (Named::Plain(3), EMPTY),
    // Boolean, Char, SByte, Byte, Int16, UInt16, Int32, UInt32, Int64, UInt64
    (Named::Plain(4), BYTES_1),
    (Named::Plain(5), BYTES_2),
    (Named::Plain(6), BYTES_1),
    (Named::Plain(7), BYTES_1),
    (Named::Plain(8), BYTES_2),
    (Named::Plain(9), BYTES_2),
    (Named::Plain(10), BYTES_4),
    (Named::Plain(11), BYTES_4),
    (Named::Plain(12), BYTES_8),
    (Named::Plain(13), BYTES_8),
    // IntPtr, UIntPtr, Single, Double
    (Named::Plain(14), BYTES_8),
    (Named::Plain(15), BYTES_8),
    (Named::Plain(16), BYTES_4),
    (Named::Plain(17), BYTES_8),
    // String, Array, Type, RuntimeTypeHandle, __Canon
    (Named::Plain(18), CLASS),
    (Named::Plain(19), CLASS),
    (Named::Plain(20), CLASS),
    (Named::Plain(21), BYTES_8),
    (Named::Plain(22), CLASS),
    // IComparable`1, IEquatable`1, IComparer`1, IDisposable
    (Named::Of(23, 10), INTERFACE),
    (Named::Of(24, 10), INTERFACE),
    (Named::Of(25, 10), INTERFACE),
    (Named::Plain(26), INTERFACE),
    // Attribute, Exception, SystemException, ArgumentException, InvalidOperationException
    (Named::Plain(27), CLASS),
    (Named::Plain(28), EXCEPTION),
    (Named::Plain(29), EXCEPTION),
    (Named::Plain(30), EXCEPTION),
    (Named::Plain(31), EXCEPTION),
    // Delegate, MulticastDelegate, Nullable`1, Console
    (Named::Plain(32), CLASS),
    (Named::Plain(33), CLASS),
    (Named::Of(34, 10), EMPTY),
    (Named::Plain(35), CLASS),
];

/// The number of the first type that is answered otherwise.
fn first_wrong(alloc: Global, world: &World) -> Result<usize, Memory> {
    for (number, (named, extent)) in CORE.iter().enumerate() {
        let t = tree(alloc, *named)?;
        let expected = [0, extent[0], extent[1], extent[2], 0, 0, 0, 0, 0];
        if told(layout(alloc, world, &t)?) != expected {
            return Ok(number);
        }
    }
    Ok(CORE.len())
}

/// It, where the parts of the world are whole.
fn answered(alloc: Global) -> Result<Option<usize>, Memory> {
    match worked(alloc)? {
        Some(world) => Ok(Some(first_wrong(alloc, &world)?)),
        None => Ok(None),
    }
}

// None of the 36 is answered otherwise.
#[test]
fn layouts_of_the_core(rt: HostRuntime) -> Result<(), Fail> {
    assert_eq!(rt; answered(rt.alloc())?, Some(36));
    Ok(())
}
