//! Faults of definitions, in a world of the core library and a few definitions.

use clr_base::Memory;
use def_faults::{DefFaults, def_faults};
use small_worlds::{ARGUMENT, CLASS, DefRow, FieldRow, Named, OBJECT, world};
use sqlite_items::{Items, at};
use std::alloc::Global;
use std::test::Fail;
use type_tree::World;

/// What isn't there.
const GONE: Named = Named::Missing(false);

const DEFS: [DefRow; 22] = [
    // 36: a file's first row; 37: another class without a parent
    DefRow {
        parent: None,
        ..CLASS
    },
    DefRow {
        parent: None,
        ..CLASS
    },
    // 38: class : Gone; 39: a class over it; 40: class { Gone f; static Gone g; }, where Gone is a value type; 41: its static field alone
    DefRow {
        parent: Some(GONE),
        ..CLASS
    },
    DefRow {
        parent: Some(Named::Plain(38)),
        ..CLASS
    },
    DefRow {
        fields: (0, 1),
        ..CLASS
    },
    DefRow {
        fields: (1, 1),
        ..CLASS
    },
    // 42 and 43: each over the other, the second with a missing interface; 44: a class over them
    DefRow {
        parent: Some(Named::Plain(43)),
        ..CLASS
    },
    DefRow {
        parent: Some(Named::Plain(42)),
        interfaces: &[GONE],
        ..CLASS
    },
    DefRow {
        parent: Some(Named::Plain(42)),
        ..CLASS
    },
    // 45: class : System.String; 46: struct; 47: class over it; 48: an interface with a parent; 49: one without
    DefRow {
        parent: Some(Named::Plain(18)),
        ..CLASS
    },
    DefRow {
        parent: Some(Named::Plain(1)),
        ..CLASS
    },
    DefRow {
        parent: Some(Named::Plain(46)),
        ..CLASS
    },
    DefRow {
        flags: 0x20,
        ..CLASS
    },
    DefRow {
        flags: 0x20,
        parent: None,
        ..CLASS
    },
    // 50: a class that extends 49; 51: one that implements it; 52: one that implements a class; 53: a variable
    DefRow {
        parent: Some(Named::Plain(49)),
        ..CLASS
    },
    DefRow {
        interfaces: &[Named::Plain(49)],
        ..CLASS
    },
    DefRow {
        interfaces: &[OBJECT],
        ..CLASS
    },
    DefRow {
        interfaces: &[ARGUMENT],
        ..CLASS
    },
    // 54: class : System.MulticastDelegate; 55: one over it; 56: a class over a variable; 57: an enum
    DefRow {
        parent: Some(Named::Plain(33)),
        ..CLASS
    },
    DefRow {
        parent: Some(Named::Plain(54)),
        ..CLASS
    },
    DefRow {
        parent: Some(ARGUMENT),
        ..CLASS
    },
    DefRow {
        flags: 0x100,
        parent: Some(Named::Plain(2)),
        ..CLASS
    },
];

/// An instance field and a static one, of a missing value type.
const FIELDS: [FieldRow; 2] = [
    FieldRow(Named::Missing(true), 0, None),
    FieldRow(Named::Missing(true), 0x10, None),
];

/// From 58 on, each class extends the one before it, and 58 extends System.Object.
const CHAIN: u32 = 64;

/// Definitions with their faults: NotFound 1, BaseCycle 2, BadParent 4, BadInterface 8, NotInProfile 16, a default method 32.
const CASES: [(u32, u32); 31] = [
    (0, 0),
    (10, 0),
    (23, 0),
    (31, 0),
    (32, 16),
    (33, 16),
    (34, 16),
    (36, 0),
    (37, 4),
    (38, 1),
    (39, 1),
    (40, 1),
    (41, 0),
    (42, 3),
    (43, 11),
    (44, 3),
    (45, 4),
    (46, 0),
    (47, 4),
    (48, 4),
    (49, 0),
    (50, 4),
    (51, 0),
    (52, 8),
    (53, 8),
    (54, 16),
    (55, 16),
    (56, 4),
    (57, 0),
    (120, 0),
    (121, 2),
];

/// The definitions of the table, and then the chain.
fn defs(alloc: Global) -> Result<Items<DefRow>, Memory> {
    let mut defs = Items::from_slice(alloc, &DEFS)?;
    for place in 0..CHAIN {
        let parent = if place == 0 {
            OBJECT
        } else {
            Named::Plain(57 + place)
        };
        defs.push(DefRow {
            parent: Some(parent),
            ..CLASS
        })?;
    }
    Ok(defs)
}

fn told(faults: DefFaults) -> u32 {
    let first = u32::from(faults.not_found) | u32::from(faults.base_cycle) << 1;
    let second = u32::from(faults.bad_parent) << 2 | u32::from(faults.bad_interface) << 3;
    let third = u32::from(faults.not_in_profile) << 4 | u32::from(faults.default_method) << 5;
    first | second | third
}

/// The number of the first case that is answered otherwise.
fn first_wrong(faults: &[DefFaults]) -> usize {
    for (number, case) in CASES.iter().enumerate() {
        let found = match at(faults, case.0 as usize) {
            Some(faults) => told(*faults),
            None => 64,
        };
        if found != case.1 {
            return number;
        }
    }
    CASES.len()
}

/// How many of these there are, and the first case that is answered otherwise.
fn count(alloc: Global, world: &World) -> Result<[usize; 2], Memory> {
    let faults = def_faults(alloc, world)?;
    Ok([faults.len(), first_wrong(faults.as_slice())])
}

fn tell(alloc: Global) -> Result<[usize; 2], Memory> {
    let defs = defs(alloc)?;
    match world(alloc, defs.as_slice(), &[], &FIELDS)? {
        Some(world) => count(alloc, &world),
        None => Ok([0, 0]),
    }
}

// A chain of 64 is good, one of 65 isn't; a missing interface is found round a circle.
#[test]
fn faults_of_definitions(rt: HostRuntime) -> Result<(), Fail> {
    assert_eq!(rt; tell(rt.alloc())?, [122, 31]);
    Ok(())
}
