//! Layouts in a world of the core library and a few definitions.
ghost use Rattle.std.specs.Prelude.{◌<◌, length, IfOk};

use clr_base::{DefId, Memory};
use field_layout::{LayoutAnswer, Notes, layout, layout_in};
use small_worlds::{CLASS, DefRow, FieldRow, Named, OBJECT, tree, world};
use sqlite_items::{Items, at};
use std::alloc::Global;
use std::test::Fail;
use type_pool::{Id, Node, Pool};
use type_tree::World;

const BYTE: Named = Named::Plain(7);

const INT: Named = Named::Plain(10);

const FIELDS: [FieldRow; 26] = [
    // 36: class L { byte a; object o; long b; short c; }
    FieldRow(BYTE, 0, None),
    FieldRow(OBJECT, 0, None),
    FieldRow(Named::Plain(12), 0, None),
    FieldRow(Named::Plain(8), 0, None),
    // 37: class M : L { int x; static int y; }
    FieldRow(INT, 0, None),
    FieldRow(INT, 0x10, None),
    // 38: struct S { G<S> g; }
    FieldRow(Named::Of(39, 38), 0, None),
    // 39: struct G<T> { T x; }
    FieldRow(Named::Argument, 0, None),
    // 40: struct P<T> { T a; T b; }
    FieldRow(Named::Argument, 0, None),
    FieldRow(Named::Argument, 0, None),
    // 41: enum E : int
    FieldRow(INT, 0, None),
    // 42: a sequential class { byte a; E e; }
    FieldRow(BYTE, 0, None),
    FieldRow(Named::Plain(41), 0, None),
    // 43: an explicit struct { [0] object o; [8] int i; }
    FieldRow(OBJECT, 0, Some(0)),
    FieldRow(INT, 0, Some(8)),
    // 44: an explicit class { [4] object o; }; 45: an explicit class { int i; } without an offset
    FieldRow(OBJECT, 0, Some(4)),
    FieldRow(INT, 0, None),
    // 46: an explicit class { int i; [0] S s; } without the offset of i; 47: a class over 45; 48: one over 46
    FieldRow(INT, 0, None),
    FieldRow(Named::Plain(38), 0, Some(0)),
    // 49: an interface { int i; }
    FieldRow(INT, 0, None),
    // 50: class { const int a; int b; }
    FieldRow(INT, 0x40, None),
    FieldRow(INT, 0, None),
    // 51: an explicit struct { [0] object o; [4] int i; }
    FieldRow(OBJECT, 0, Some(0)),
    FieldRow(INT, 0, Some(4)),
    // 52: class { byte a; G<int> g; }
    FieldRow(BYTE, 0, None),
    FieldRow(Named::Of(39, 10), 0, None),
];

const DEFS: [DefRow; 17] = [
    DefRow {
        fields: (0, 4),
        ..CLASS
    },
    DefRow {
        parent: Some(Named::Plain(36)),
        fields: (4, 2),
        ..CLASS
    },
    DefRow {
        flags: 8,
        parent: Some(Named::Plain(1)),
        fields: (6, 1),
        ..CLASS
    },
    DefRow {
        flags: 8,
        parent: Some(Named::Plain(1)),
        fields: (7, 1),
        ..CLASS
    },
    DefRow {
        flags: 8,
        parent: Some(Named::Plain(1)),
        fields: (8, 2),
        ..CLASS
    },
    DefRow {
        parent: Some(Named::Plain(2)),
        fields: (10, 1),
        ..CLASS
    },
    DefRow {
        flags: 8,
        fields: (11, 2),
        ..CLASS
    },
    DefRow {
        flags: 0x10,
        parent: Some(Named::Plain(1)),
        fields: (13, 2),
        ..CLASS
    },
    DefRow {
        flags: 0x10,
        fields: (15, 1),
        ..CLASS
    },
    DefRow {
        flags: 0x10,
        fields: (16, 1),
        ..CLASS
    },
    DefRow {
        flags: 0x10,
        fields: (17, 2),
        ..CLASS
    },
    DefRow {
        parent: Some(Named::Plain(45)),
        fields: (19, 0),
        ..CLASS
    },
    DefRow {
        parent: Some(Named::Plain(46)),
        fields: (19, 0),
        ..CLASS
    },
    DefRow {
        flags: 0x20,
        fields: (19, 1),
        ..CLASS
    },
    DefRow {
        fields: (20, 2),
        ..CLASS
    },
    DefRow {
        flags: 0x10,
        parent: Some(Named::Plain(1)),
        fields: (22, 2),
        ..CLASS
    },
    DefRow {
        fields: (24, 2),
        ..CLASS
    },
];

/// What is answered: 0, end, size, alignment, whether there are references, and the offsets; 1 for Deep; 2 for Bad.
pub(crate) type Answer = [u32; 9];

const CASES: [(Named, Answer); 24] = [
    (Named::Plain(36), [0, 27, 32, 8, 1, 26, 8, 16, 24]),
    (Named::Plain(37), [0, 32, 32, 8, 0, 28, 0, 0, 0]),
    (Named::Plain(38), [1, 0, 0, 0, 0, 0, 0, 0, 0]),
    (Named::Of(39, 10), [0, 4, 4, 4, 0, 0, 0, 0, 0]),
    (Named::Of(39, 36), [0, 8, 8, 8, 1, 0, 0, 0, 0]),
    (Named::Of(40, 7), [0, 2, 2, 1, 0, 0, 1, 0, 0]),
    (Named::Plain(41), [0, 4, 4, 4, 0, 0, 0, 0, 0]),
    (Named::Plain(42), [0, 16, 16, 8, 0, 8, 12, 0, 0]),
    (Named::Plain(43), [0, 12, 16, 8, 1, 0, 8, 0, 0]),
    (Named::Plain(44), [2, 0, 0, 0, 0, 0, 0, 0, 0]),
    (Named::Plain(45), [2, 0, 0, 0, 0, 0, 0, 0, 0]),
    (OBJECT, [0, 8, 8, 8, 0, 0, 0, 0, 0]),
    (BYTE, [0, 1, 1, 1, 0, 0, 0, 0, 0]),
    (Named::Plain(21), [0, 8, 8, 8, 0, 0, 0, 0, 0]),
    (Named::Plain(28), [0, 16, 16, 8, 0, 0, 0, 0, 0]),
    (Named::Plain(30), [0, 16, 16, 8, 0, 0, 0, 0, 0]),
    (Named::Plain(3), [0, 0, 1, 1, 0, 0, 0, 0, 0]),
    (Named::Plain(46), [1, 0, 0, 0, 0, 0, 0, 0, 0]),
    (Named::Plain(47), [2, 0, 0, 0, 0, 0, 0, 0, 0]),
    (Named::Plain(48), [1, 0, 0, 0, 0, 0, 0, 0, 0]),
    (Named::Plain(49), [0, 0, 0, 8, 0, 8, 0, 0, 0]),
    (Named::Plain(50), [0, 12, 16, 8, 0, 8, 0, 0, 0]),
    (Named::Plain(51), [2, 0, 0, 0, 0, 0, 0, 0, 0]),
    (Named::Plain(52), [0, 13, 16, 8, 0, 12, 8, 0, 0]),
];

/// The world of these definitions.
pub(crate) fn worked(alloc: Global) -> Result<Option<World>, Memory> {
    world(alloc, &DEFS, &[], &FIELDS)
}

fn offset(offsets: &[u32], field: usize) -> u32 {
    match at(offsets, field) {
        Some(offset) => *offset,
        None => 0,
    }
}

pub(crate) fn told(answer: LayoutAnswer) -> Answer {
    match answer {
        LayoutAnswer::Laid(layout) => {
            let offsets = layout.offsets.as_slice();
            [
                0,
                layout.end,
                layout.size,
                layout.align,
                u32::from(layout.has_refs),
                offset(offsets, 0),
                offset(offsets, 1),
                offset(offsets, 2),
                offset(offsets, 3),
            ]
        }
        LayoutAnswer::Deep => [1, 0, 0, 0, 0, 0, 0, 0, 0],
        LayoutAnswer::Bad => [2, 0, 0, 0, 0, 0, 0, 0, 0],
    }
}

/// The number of the first case that is answered otherwise.
fn first_wrong(alloc: Global, world: &World) -> Result<usize, Memory> {
    for (number, case) in CASES.iter().enumerate() {
        let t = tree(alloc, case.0)?;
        if told(layout(alloc, world, &t)?) != case.1 {
            return Ok(number);
        }
    }
    Ok(CASES.len())
}

/// `P<P<..>>` for a definition P, so many levels over a tree.
fn deeper(
    pool: &mut Pool,
    alloc: Global,
    head: u32,
    mut last: Id,
    levels: usize,
) -> Result<Id, Memory>
    requires { last.0 < length pool.old }
    ensures { IfOk result (λ id. id.0 < length pool.new) }
{
    for _ in 0..levels {
        let mut args = Items::new(alloc);
        args.push(last)?;
        last = pool.intern(Node::Inst(DefId(head), args))?;
    }
    Ok(last)
}

/// How many trees there are for so many levels over a byte, before and after they are laid out; what is answered, and the size.
fn nested(alloc: Global, world: &World, head: u32, levels: usize) -> Result<[u64; 4], Memory> {
    let mut pool = Pool::new(alloc);
    let mut notes = Notes::new(alloc);
    let byte = pool.intern(Node::Inst(DefId(7), Items::new(alloc)))?;
    let last = deeper(&mut pool, alloc, head, byte, levels)?;
    let before = pool.len() as u64;
    let answer = layout_in(&mut pool, alloc, world, &mut notes, last)?;
    let told = told(answer);
    Ok([
        before,
        pool.len() as u64,
        u64::from(told[0]),
        u64::from(told[2]),
    ])
}

/// The first case that is answered otherwise, and what types of many levels are answered.
fn tell(alloc: Global) -> Result<[u64; 17], Memory> {
    match worked(alloc)? {
        Some(world) => told_of(alloc, &world),
        None => Ok([0; 17]),
    }
}

fn told_of(alloc: Global, world: &World) -> Result<[u64; 17], Memory> {
    let first = first_wrong(alloc, world)? as u64;
    let a = nested(alloc, world, 40, 20)?;
    let b = nested(alloc, world, 40, 63)?;
    let c = nested(alloc, world, 39, 64)?;
    let d = nested(alloc, world, 39, 65)?;
    Ok([
        first, a[0], a[1], a[2], a[3], b[0], b[1], b[2], b[3], c[0], c[1], c[2], c[3], d[0], d[1],
        d[2], d[3],
    ])
}

// A type that doubles 20 times takes 2^20 bytes; 63 times it has no layout, and no more trees than levels and a variable. 64
// fields on a path are good, 65 too deep.
#[test]
fn layouts_of_types(rt: HostRuntime) -> Result<(), Fail> {
    assert_eq!(rt;
        tell(rt.alloc())?,
        [
            24, 21, 22, 0, 1048576, 64, 65, 2, 0, 65, 66, 0, 1, 66, 67, 1, 0
        ]
    );
    Ok(())
}
