//! Virtual slots in a world of the core library and a few definitions.

use clr_base::{DefId, Memory, MethId};
use method_slots::SlotEntry;
use slot_chains::{Notes, SlotAnswer, chain_within, level_of, slot_number, slots_at};
use small_worlds::{
    ABSTRACT, ANY, ARGUMENT, CLASS, DefRow, FINAL, FIRST, ImplRow, MethodRow, NEW, Named, PLAIN,
    STRING, world,
};
use sqlite_items::at;
use std::alloc::Global;
use std::test::Fail;
use type_pool::Pool;
use type_tree::World;

const METHODS: [MethodRow; 14] = [
    // 36: class B<T> { newslot M(string); newslot M(T); }
    MethodRow(36, 1, NEW, Some(STRING)),
    MethodRow(36, 1, NEW, Some(ARGUMENT)),
    // 37: class D<U> : B<U> { M(string); }; 38: class X : D<string> { }
    MethodRow(37, 1, PLAIN, Some(STRING)),
    // 39: class F { newslot final M(string); }; 40: class H : F { M(string); }; 41: class I : F { newslot M(string); }
    MethodRow(39, 1, FINAL, Some(STRING)),
    MethodRow(40, 1, PLAIN, Some(STRING)),
    MethodRow(41, 1, NEW, Some(STRING)),
    // 42: abstract class K { newslot abstract M(string); }; 43: the same that isn't abstract; 44: class L : K { };
    // 45: class N : K { M(string); }
    MethodRow(42, 1, ABSTRACT, Some(STRING)),
    MethodRow(43, 1, ABSTRACT, Some(STRING)),
    MethodRow(45, 1, PLAIN, Some(STRING)),
    // 46: class Y : X { M(string); }
    MethodRow(46, 1, PLAIN, Some(STRING)),
    // 47: class P : X { newslot V(string), twice, the second named W; and both as bodies of M(T) of B<string> }
    MethodRow(47, 2, NEW, Some(STRING)),
    MethodRow(47, 3, NEW, Some(STRING)),
    // 48: class Q : X { newslot V(string), as the body of M(T) of B, without arguments }
    MethodRow(48, 2, NEW, Some(STRING)),
    // 49: class R : F { newslot V(string), as the body of the final M(string) }
    MethodRow(49, 2, NEW, Some(STRING)),
];

const DEFS: [DefRow; 14] = [
    DefRow {
        formal: Some(ANY),
        methods: (0, 2),
        ..CLASS
    },
    DefRow {
        formal: Some(ANY),
        parent: Some(Named::ArgumentIn(&[36])),
        methods: (2, 1),
        ..CLASS
    },
    DefRow {
        parent: Some(Named::Of(37, 18)),
        methods: (3, 0),
        ..CLASS
    },
    DefRow {
        methods: (3, 1),
        ..CLASS
    },
    DefRow {
        parent: Some(Named::Plain(39)),
        methods: (4, 1),
        ..CLASS
    },
    DefRow {
        parent: Some(Named::Plain(39)),
        methods: (5, 1),
        ..CLASS
    },
    DefRow {
        flags: 0x80,
        methods: (6, 1),
        ..CLASS
    },
    DefRow {
        methods: (7, 1),
        ..CLASS
    },
    DefRow {
        parent: Some(Named::Plain(42)),
        methods: (8, 0),
        ..CLASS
    },
    DefRow {
        parent: Some(Named::Plain(42)),
        methods: (8, 1),
        ..CLASS
    },
    DefRow {
        parent: Some(Named::Plain(38)),
        methods: (9, 1),
        ..CLASS
    },
    DefRow {
        parent: Some(Named::Plain(38)),
        methods: (10, 2),
        impls: &[
            ImplRow(10, Named::Of(36, 18), 1),
            ImplRow(11, Named::Of(36, 18), 1),
        ],
        ..CLASS
    },
    DefRow {
        parent: Some(Named::Plain(38)),
        methods: (12, 1),
        impls: &[ImplRow(12, Named::Plain(36), 1)],
        ..CLASS
    },
    DefRow {
        parent: Some(Named::Plain(39)),
        methods: (13, 1),
        impls: &[ImplRow(13, Named::Plain(39), 3)],
        ..CLASS
    },
];

/// What is answered: 0, how many slots, and the method and the owner's place in each from 3 to 6; 1 for
/// BadOverride; 2 for NoMethod.
type Told = [u64; 10];

const BAD: Told = [1, 0, 0, 0, 0, 0, 0, 0, 0, 0];

const LACKS: Told = [2, 0, 0, 0, 0, 0, 0, 0, 0, 0];

const CASES: [Told; 14] = [
    [0, 5, 0, 1, 1, 1, 0, 0, 0, 0],
    [0, 5, 2, 2, 1, 1, 0, 0, 0, 0],
    [0, 5, 2, 2, 1, 1, 0, 0, 0, 0],
    [0, 4, 3, 1, 0, 0, 0, 0, 0, 0],
    BAD,
    [0, 5, 3, 1, 5, 2, 0, 0, 0, 0],
    [0, 4, 6, 1, 0, 0, 0, 0, 0, 0],
    LACKS,
    LACKS,
    [0, 4, 8, 2, 0, 0, 0, 0, 0, 0],
    [0, 5, 2, 2, 9, 4, 0, 0, 0, 0],
    [0, 7, 2, 2, 11, 4, 10, 4, 11, 4],
    BAD,
    [0, 5, 13, 2, 13, 2, 0, 0, 0, 0],
];

/// The numbers that the methods take; 99 for none.
const NUMBERS: [u32; 14] = [3, 4, 3, 3, 3, 4, 3, 3, 3, 4, 5, 6, 5, 4];

fn method_at(entries: &[SlotEntry], slot: usize) -> u64 {
    match at(entries, slot) {
        Some(entry) => u64::from(entry.method.0.wrapping_sub(FIRST)),
        None => 0,
    }
}

fn owner_at(entries: &[SlotEntry], slot: usize) -> u64 {
    match at(entries, slot) {
        Some(entry) => u64::from(entry.owner),
        None => 0,
    }
}

fn told(answer: SlotAnswer) -> Told {
    match answer {
        SlotAnswer::Found(entries) => {
            let entries = entries.as_slice();
            [
                0,
                entries.len() as u64,
                method_at(entries, 3),
                owner_at(entries, 3),
                method_at(entries, 4),
                owner_at(entries, 4),
                method_at(entries, 5),
                owner_at(entries, 5),
                method_at(entries, 6),
                owner_at(entries, 6),
            ]
        }
        SlotAnswer::BadOverride => BAD,
        SlotAnswer::NoMethod => LACKS,
    }
}

/// What is answered of a definition; nothing where its chain of parents is too long.
fn slots_of(alloc: Global, world: &World, def: DefId) -> Result<Option<Told>, Memory> {
    if def.0 >= world.def_count() || !chain_within(world, def) {
        return Ok(None);
    }
    let mut pool = Pool::new(alloc);
    let mut notes = Notes::new(alloc);
    let place = level_of(&mut pool, alloc, world, &mut notes, def, 64)?;
    let answer = slots_at(&mut pool, alloc, world, &notes, def, place, &[])?;
    Ok(Some(told(answer)))
}

/// The number that a method takes.
fn number_of(alloc: Global, world: &World, number: u32) -> Result<u32, Memory> {
    let method = MethId(number);
    if number >= world.method_count() || !chain_within(world, world.method(method).def) {
        return Ok(99);
    }
    match slot_number(alloc, world, method)? {
        Some(number) => Ok(number),
        None => Ok(99),
    }
}

/// The number of the first definition, and of the first method, that is answered otherwise.
fn first_wrong(alloc: Global, world: &World) -> Result<[usize; 2], Memory> {
    for (number, case) in CASES.iter().enumerate() {
        if slots_of(alloc, world, DefId(36 + number as u32))? != Some(*case) {
            return Ok([number, 0]);
        }
    }
    for (number, slot) in NUMBERS.iter().enumerate() {
        if number_of(alloc, world, FIRST.wrapping_add(number as u32))? != *slot {
            return Ok([CASES.len(), number]);
        }
    }
    Ok([CASES.len(), NUMBERS.len()])
}

fn tell(alloc: Global) -> Result<[usize; 2], Memory> {
    match world(alloc, &DEFS, &METHODS, &[])? {
        Some(world) => first_wrong(alloc, &world),
        None => Ok([99, 99]),
    }
}

// Methods match in their own definition's generic parameters; the last slot that matches is taken, and the last row counts. A row
// onto a final slot is no fault, and one that names its owner without arguments is.
#[test]
fn slots_of_definitions(rt: HostRuntime) -> Result<(), Fail> {
    assert_eq!(rt; tell(rt.alloc())?, [14, 14]);
    Ok(())
}
