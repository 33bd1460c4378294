//! Subs and constraints, in a world of the core library and a few definitions.

use clr_base::Memory;
use small_worlds::{
    ANY, ARGUMENT, CLASS, DefRow, FormalRow, MethodRow, Named, OBJECT, tree, world,
};
use std::alloc::Global;
use std::test::Fail;
use type_subs::{key_fails_constraint, sub_tree};
use type_tree::{Key, World};

/// The number of the name `.ctor`.
const CONSTRUCTOR: u32 = 36;

/// Constructors: public; private; public, of an abstract class; public and static.
const METHODS: [MethodRow; 4] = [
    MethodRow(36, CONSTRUCTOR, 6, None),
    MethodRow(37, CONSTRUCTOR, 1, None),
    MethodRow(38, CONSTRUCTOR, 6, None),
    MethodRow(48, CONSTRUCTOR, 0x16, None),
];

const DEFS: [DefRow; 13] = [
    // 36: class { public .ctor(); }; 37: class { private .ctor(); }; 38: abstract class { public .ctor(); }
    DefRow {
        methods: (0, 1),
        ..CLASS
    },
    DefRow {
        methods: (1, 1),
        ..CLASS
    },
    DefRow {
        flags: 0x80,
        methods: (2, 1),
        ..CLASS
    },
    // 39: struct; 40: interface I<T>; 41: class B<T> : I<T>; 42: class D : B<string>
    DefRow {
        parent: Some(Named::Plain(1)),
        ..CLASS
    },
    DefRow {
        flags: 0xA0,
        formal: Some(ANY),
        parent: None,
        ..CLASS
    },
    DefRow {
        formal: Some(ANY),
        interfaces: &[Named::ArgumentIn(&[40])],
        ..CLASS
    },
    DefRow {
        parent: Some(Named::Of(41, 18)),
        ..CLASS
    },
    // 43: class<T> where T : class; 44: where T : struct; 45: where T : new(); 46: where T : I<T>
    DefRow {
        formal: Some(FormalRow(4, &[])),
        ..CLASS
    },
    DefRow {
        formal: Some(FormalRow(8, &[])),
        ..CLASS
    },
    DefRow {
        formal: Some(FormalRow(0x10, &[])),
        ..CLASS
    },
    DefRow {
        formal: Some(FormalRow(0, &[Named::ArgumentIn(&[40])])),
        ..CLASS
    },
    // 47: class E : I<E>; 48: class { static .ctor(); }
    DefRow {
        interfaces: &[Named::Of(40, 47)],
        ..CLASS
    },
    DefRow {
        methods: (3, 1),
        ..CLASS
    },
];

/// Whether the first is a sub of the second.
const SUBS: [(Named, Named, bool); 14] = [
    (Named::Array(18, 1), Named::Array(0, 1), true),
    (Named::Array(10, 1), Named::Array(0, 1), false),
    (Named::Array(18, 2), Named::Array(0, 2), true),
    (Named::Array(10, 2), Named::Array(0, 2), false),
    (Named::Array(10, 2), Named::Array(0, 1), true),
    (Named::Array(0, 1), Named::Array(18, 1), false),
    (Named::Array(18, 1), Named::Plain(19), true),
    (Named::Array(18, 1), OBJECT, true),
    (Named::Array(42, 1), Named::Array(0, 2), false),
    (Named::Plain(42), Named::Of(40, 18), true),
    (Named::Plain(42), Named::Of(40, 0), false),
    (Named::Plain(10), OBJECT, true),
    (OBJECT, Named::Plain(10), false),
    (Named::Of(41, 10), Named::Of(40, 10), true),
];

/// Whether the argument fails a constraint; System.__Canon is 22.
const FAILS: [(Named, bool); 15] = [
    (Named::Of(43, 18), false),
    (Named::Of(43, 10), true),
    (Named::Of(44, 39), false),
    (Named::Of(44, 18), true),
    (Named::Of(44, 22), false),
    (Named::Of(45, 36), false),
    (Named::Of(45, 37), true),
    (Named::Of(45, 38), true),
    (Named::Of(45, 48), true),
    (Named::Of(45, 47), true),
    (Named::Of(45, 39), false),
    (Named::Of(46, 47), false),
    (Named::Of(46, 36), true),
    (Named::Of(46, 42), true),
    (Named::Plain(47), false),
];

fn is_sub(alloc: Global, world: &World, first: Named, second: Named) -> Result<bool, Memory> {
    let first = tree(alloc, first)?;
    let second = tree(alloc, second)?;
    sub_tree(alloc, world, &first, &second)
}

fn fails(alloc: Global, world: &World, named: Named) -> Result<bool, Memory> {
    let key = Key::Tree(tree(alloc, named)?);
    key_fails_constraint(alloc, world, &key)
}

/// The number of the first pair, and of the first type, that is answered otherwise.
fn first_wrong(alloc: Global, world: &World) -> Result<[usize; 2], Memory> {
    for (number, case) in SUBS.iter().enumerate() {
        if is_sub(alloc, world, case.0, case.1)? != case.2 {
            return Ok([number, 0]);
        }
    }
    for (number, case) in FAILS.iter().enumerate() {
        if fails(alloc, world, case.0)? != case.1 {
            return Ok([SUBS.len(), number]);
        }
    }
    Ok([SUBS.len(), FAILS.len()])
}

fn tell(alloc: Global) -> Result<[usize; 2], Memory> {
    match world(alloc, &DEFS, &METHODS, &[])? {
        Some(world) => first_wrong(alloc, &world),
        None => Ok([99, 99]),
    }
}

// Arrays fit by their elements where these are reference types, and interfaces come with the arguments of a parent. Each flag,
// and a constraint type in the generic parameter itself, is failed by what it says; a private, a static and an abstract class's
// constructor count for none, and a key with System.__Canon fails nothing.
#[test]
fn subs_and_constraints(rt: HostRuntime) -> Result<(), Fail> {
    assert_eq!(rt; tell(rt.alloc())?, [14, 15]);
    Ok(())
}
