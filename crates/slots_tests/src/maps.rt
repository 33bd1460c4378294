//! Choices for the methods of interfaces, in a world of the core library and a few definitions.

use clr_base::{DefId, Memory};
use interface_maps::{Interface, MapAnswer, interface_map, slots};
use slot_chains::{SlotAnswer, chain_within};
use small_worlds::{
    ABSTRACT, ANY, ARGUMENT, CLASS, DefRow, FIRST, ImplRow, MethodRow, NEW, Named, STRING, world,
};
use sqlite_items::at;
use std::alloc::Global;
use std::test::Fail;
use type_tree::World;

const PRIVATE: u32 = 0x141;

const METHODS: [MethodRow; 10] = [
    // 36: interface J { M(string); }; 37: interface I<T> : J { M(T); }
    MethodRow(36, 1, ABSTRACT, Some(STRING)),
    MethodRow(37, 1, ABSTRACT, Some(ARGUMENT)),
    // 38: class B<T> : I<T>, I<string> { newslot M(T); newslot M(string); }; 39: class C : B<string> { }
    MethodRow(38, 1, NEW, Some(ARGUMENT)),
    MethodRow(38, 1, NEW, Some(STRING)),
    // 40: class D : B<string> { newslot N(string), as the body of M of I<string> }
    MethodRow(40, 2, NEW, Some(STRING)),
    // 41: class E : B<string> { newslot N(string), as the body of M(string) of B<string> }
    MethodRow(41, 2, NEW, Some(STRING)),
    // 42: class K : I<string> { }; 43: the same, abstract; 44: class L : that { newslot M(string); }
    MethodRow(44, 1, NEW, Some(STRING)),
    // 45: class N : that, I<string> { newslot M(string); }
    MethodRow(45, 1, NEW, Some(STRING)),
    // 46: class P : I<string> { private newslot M(string); }
    MethodRow(46, 1, PRIVATE, Some(STRING)),
    // 47: class Q : B<string> { newslot N(string), as the body of M of I<object> }
    MethodRow(47, 2, NEW, Some(STRING)),
];

const BASE: Named = Named::Of(38, 18);

const DEFS: [DefRow; 12] = [
    DefRow {
        flags: 0xA0,
        parent: None,
        methods: (0, 1),
        ..CLASS
    },
    DefRow {
        flags: 0xA0,
        formal: Some(ANY),
        parent: None,
        interfaces: &[Named::Plain(36)],
        methods: (1, 1),
        ..CLASS
    },
    DefRow {
        formal: Some(ANY),
        interfaces: &[Named::ArgumentIn(&[37]), Named::Of(37, 18)],
        methods: (2, 2),
        ..CLASS
    },
    DefRow {
        parent: Some(BASE),
        methods: (4, 0),
        ..CLASS
    },
    DefRow {
        parent: Some(BASE),
        methods: (4, 1),
        impls: &[ImplRow(4, Named::Of(37, 18), 1)],
        ..CLASS
    },
    DefRow {
        parent: Some(BASE),
        methods: (5, 1),
        impls: &[ImplRow(5, Named::Of(38, 18), 3)],
        ..CLASS
    },
    DefRow {
        interfaces: &[Named::Of(37, 18)],
        methods: (6, 0),
        ..CLASS
    },
    DefRow {
        flags: 0x80,
        interfaces: &[Named::Of(37, 18)],
        methods: (6, 0),
        ..CLASS
    },
    DefRow {
        parent: Some(Named::Plain(43)),
        methods: (6, 1),
        ..CLASS
    },
    DefRow {
        parent: Some(Named::Plain(43)),
        interfaces: &[Named::Of(37, 18)],
        methods: (7, 1),
        ..CLASS
    },
    DefRow {
        interfaces: &[Named::Of(37, 18)],
        methods: (8, 1),
        ..CLASS
    },
    DefRow {
        parent: Some(BASE),
        methods: (9, 1),
        impls: &[ImplRow(9, Named::Of(37, 0), 1)],
        ..CLASS
    },
];

/// What is answered: 0, how many interfaces, and the choice for the method of each of the first three, 99 for
/// none and 98 where there is no such interface; 1 for BadOverride; 2 for NoMethod.
type Told = [u64; 5];

const BAD: Told = [1, 0, 0, 0, 0];

const LACKS: Told = [2, 0, 0, 0, 0];

const CASES: [Told; 12] = [
    [0, 0, 98, 98, 98],
    [0, 1, 99, 98, 98],
    [0, 3, 3, 4, 4],
    [0, 2, 3, 4, 98],
    [0, 2, 5, 4, 98],
    [0, 2, 3, 4, 98],
    LACKS,
    [0, 2, 99, 99, 98],
    LACKS,
    [0, 2, 3, 3, 98],
    LACKS,
    BAD,
];

fn choice_at(found: &[Interface], place: usize) -> u64 {
    match at(found, place) {
        Some(face) => match at(face.choices.as_slice(), 0) {
            Some(Some(slot)) => u64::from(*slot),
            Some(None) => 99,
            None => 97,
        },
        None => 98,
    }
}

fn told(answer: MapAnswer) -> Told {
    match answer {
        MapAnswer::Found(found) => {
            let found = found.as_slice();
            [
                0,
                found.len() as u64,
                choice_at(found, 0),
                choice_at(found, 1),
                choice_at(found, 2),
            ]
        }
        MapAnswer::BadOverride => BAD,
        MapAnswer::NoMethod => LACKS,
    }
}

/// What is answered of a definition; nothing where its chain of parents is too long.
fn map_of(alloc: Global, world: &World, def: DefId) -> Result<Option<Told>, Memory> {
    if def.0 >= world.def_count() || !chain_within(world, def) {
        return Ok(None);
    }
    let (_, answer) = interface_map(alloc, world, def)?;
    Ok(Some(told(answer)))
}

/// The number of the method in slot 4 of a definition, 98 where no slots are answered.
fn fourth(alloc: Global, world: &World, def: DefId) -> Result<u32, Memory> {
    if def.0 >= world.def_count() || !chain_within(world, def) {
        return Ok(99);
    }
    match slots(alloc, world, def)? {
        SlotAnswer::Found(entries) => match at(entries.as_slice(), 4) {
            Some(entry) => Ok(entry.method.0.wrapping_sub(FIRST)),
            None => Ok(97),
        },
        _ => Ok(98),
    }
}

/// The number of the first definition that is answered otherwise; the method in slot 4 of E, and what is
/// answered of the slots of K.
fn answers(alloc: Global, world: &World) -> Result<[usize; 3], Memory> {
    for (number, case) in CASES.iter().enumerate() {
        if map_of(alloc, world, DefId(36 + number as u32))? != Some(*case) {
            return Ok([number, 0, 0]);
        }
    }
    let e = fourth(alloc, world, DefId(41))? as usize;
    let k = fourth(alloc, world, DefId(42))? as usize;
    Ok([CASES.len(), e, k])
}

fn tell(alloc: Global) -> Result<[usize; 3], Memory> {
    match world(alloc, &DEFS, &METHODS, &[])? {
        Some(world) => answers(alloc, &world),
        None => Ok([99, 99, 99]),
    }
}

// An interface that B lists twice, and exact arguments make equal, answers by its first place. A row puts a body for a method of an
// interface, or into a slot of a class. A parent's public method answers where the class declares the interface itself.
#[test]
fn choices_of_definitions(rt: HostRuntime) -> Result<(), Fail> {
    assert_eq!(rt; tell(rt.alloc())?, [12, 5, 98]);
    Ok(())
}
