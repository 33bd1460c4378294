//! A verdict for each fault, in a world of the core library and a few definitions.

use clr_base::{DefId, Memory, MethId};
use key_verdicts::Verdict;
use small_worlds::{
    ABSTRACT, ANY, ARGUMENT, CLASS, DefRow, FINAL, FIRST, FieldRow, FormalRow, MethodRow, NEW,
    Named, OBJECT, PLAIN, STRING, plain, tree, world, wrap,
};
use sqlite_items::Items;
use std::alloc::Global;
use std::test::Fail;
use type_judge::{ORDER, judge};
use type_tree::{Key, MethKey, Ty, TyList, World};

const INT: u32 = 10;

/// A type that stands nowhere.
const GONE: Named = Named::Missing(false);

const STRUCT: Named = Named::Plain(1);

/// A generic parameter that asks for a reference type.
const REFERENCE: FormalRow = FormalRow(4, &[]);

const METHODS: [MethodRow; 3] = [
    MethodRow(44, 1, FINAL, Some(STRING)),
    MethodRow(45, 1, PLAIN, Some(STRING)),
    MethodRow(46, 1, ABSTRACT, Some(STRING)),
];

const FIELDS: [FieldRow; 3] = [
    FieldRow(Named::Of(48, 47), 0, None),
    FieldRow(ARGUMENT, 0, None),
    FieldRow(Named::Plain(INT), 0, None),
];

const DEFS: [DefRow; 16] = [
    // 36: class R; 37: class : Gone; 38: class G<T>; 39 and 40: each over the other
    CLASS,
    DefRow {
        parent: Some(GONE),
        ..CLASS
    },
    DefRow {
        formal: Some(ANY),
        ..CLASS
    },
    DefRow {
        parent: Some(Named::Plain(40)),
        ..CLASS
    },
    DefRow {
        parent: Some(Named::Plain(39)),
        ..CLASS
    },
    // 41: class E<T> : G<E<E<T>>>; 42: class : System.String; 43: class that implements System.Object
    DefRow {
        formal: Some(ANY),
        parent: Some(Named::ArgumentIn(&[41, 41, 38])),
        ..CLASS
    },
    DefRow {
        parent: Some(Named::Plain(18)),
        ..CLASS
    },
    DefRow {
        interfaces: &[OBJECT],
        ..CLASS
    },
    // 44: class F { newslot final M(string); }; 45: class : F { M(string); }; 46: class { newslot abstract M(string); }
    DefRow {
        methods: (0, 1),
        ..CLASS
    },
    DefRow {
        parent: Some(Named::Plain(44)),
        methods: (1, 1),
        ..CLASS
    },
    DefRow {
        methods: (2, 1),
        ..CLASS
    },
    // 47: struct S { W<S> w; }; 48: struct W<T> { T x; }; 49: explicit struct { int x; }, without an offset
    DefRow {
        flags: 8,
        parent: Some(STRUCT),
        fields: (0, 1),
        ..CLASS
    },
    DefRow {
        flags: 8,
        formal: Some(ANY),
        parent: Some(STRUCT),
        fields: (1, 1),
        ..CLASS
    },
    DefRow {
        flags: 0x10,
        parent: Some(STRUCT),
        fields: (2, 1),
        ..CLASS
    },
    // 50: class C<T> where T : class; 51: the same over System.MulticastDelegate
    DefRow {
        formal: Some(REFERENCE),
        ..CLASS
    },
    DefRow {
        formal: Some(REFERENCE),
        parent: Some(Named::Plain(33)),
        ..CLASS
    },
];

/// How many members a good key has, and 0; or the definition that the refused member instantiates, and its
/// fault.
const VERDICTS: [(Named, (u32, u32)); 19] = [
    (Named::Plain(36), (2, 0)),
    (Named::Plain(37), (37, 1)),
    (Named::Plain(38), (38, 2)),
    (Named::Of(38, 3), (38, 3)),
    (Named::Plain(39), (39, 4)),
    (Named::Of(41, INT), (41, 5)),
    (Named::Plain(42), (42, 6)),
    (Named::Plain(43), (43, 7)),
    (Named::Plain(44), (2, 0)),
    (Named::Plain(45), (45, 8)),
    (Named::Plain(46), (46, 9)),
    (Named::Plain(49), (49, 10)),
    (Named::Plain(47), (47, 11)),
    (Named::Of(50, INT), (50, 12)),
    (Named::Plain(33), (33, 14)),
    // the first of two faults: Arity before Expanding, Constraint before NotInProfile; and the latter alone
    (Named::Plain(41), (41, 2)),
    (Named::Of(51, INT), (51, 12)),
    (Named::Of(51, 18), (51, 14)),
    // an argument that is refused
    (Named::In(INT, &[50, 38]), (50, 12)),
];

/// Methods, by their number from that of the first, and whether they get an argument, which none of them has.
const OF_METHODS: [(u32, u32, bool, (u32, u32)); 3] = [
    (44, 0, false, (3, 0)),
    (44, 0, true, (0, 2)),
    (46, 2, false, (46, 9)),
];

/// The definition that a key's tree instantiates; 0 for a method.
fn head(key: &Key) -> u32 {
    match key {
        Key::Tree(Ty::Inst(def, _)) => def.0,
        _ => 0,
    }
}

fn agrees(alloc: Global, world: &World, key: &Key, wanted: (u32, u32)) -> Result<bool, Memory> {
    let found = match judge(alloc, world, key)? {
        Verdict::Good(members) => (members.len() as u32, 0),
        Verdict::Refused(member, fault) => (head(&member), fault.number()),
    };
    Ok(found.0 == wanted.0 && found.1 == wanted.1)
}

/// How many verdicts are as in the table, before the first that isn't.
fn types_agree(alloc: Global, world: &World) -> Result<usize, Memory> {
    for (number, (named, wanted)) in VERDICTS.iter().enumerate() {
        let key = Key::Tree(tree(alloc, *named)?);
        if !agrees(alloc, world, &key, *wanted)? {
            return Ok(number);
        }
    }
    Ok(VERDICTS.len())
}

fn method_key(alloc: Global, def: u32, method: u32, more: bool) -> Result<Key, Memory> {
    let mut args: TyList = Items::new(alloc);
    if more {
        args.push(plain(alloc, INT))?;
    }
    Ok(Key::Meth(MethKey {
        owner: plain(alloc, def),
        method: MethId(FIRST.wrapping_add(method)),
        args,
    }))
}

fn methods_agree(alloc: Global, world: &World) -> Result<usize, Memory> {
    for (number, (def, method, more, wanted)) in OF_METHODS.iter().enumerate() {
        let key = method_key(alloc, *def, *method, *more)?;
        if !agrees(alloc, world, &key, *wanted)? {
            return Ok(number);
        }
    }
    Ok(OF_METHODS.len())
}

/// Whether a tree of 65 levels is refused for its size.
fn deep_is_large(alloc: Global, world: &World) -> Result<bool, Memory> {
    let mut deep = tree(alloc, Named::Plain(36))?;
    for _ in 0..64 {
        deep = wrap(alloc, 38, deep)?;
    }
    agrees(alloc, world, &Key::Tree(deep), (38, 13))
}

fn agreed(alloc: Global, world: &World) -> Result<(usize, usize, bool), Memory> {
    let types = types_agree(alloc, world)?;
    let methods = methods_agree(alloc, world)?;
    Ok((types, methods, deep_is_large(alloc, world)?))
}

fn tell(alloc: Global) -> Result<(usize, usize, bool), Memory> {
    match world(alloc, &DEFS, &METHODS, &FIELDS)? {
        Some(world) => agreed(alloc, &world),
        None => Ok((99, 99, false)),
    }
}

#[test]
fn a_verdict_for_each_fault(rt: HostRuntime) -> Result<(), Fail> {
    assert_eq!(rt; tell(rt.alloc())?, (19, 3, true));
    Ok(())
}

/// The numbers of the faults, in the order in which they are tested.
const NUMBERS: [u32; 13] = [1, 2, 3, 4, 5, 6, 7, 8, 9, 11, 10, 12, 14];

fn order_agrees() -> bool {
    for i in 0..13 {
        if ORDER[i].number() != NUMBERS[i] {
            return false;
        }
    }
    true
}

#[test]
fn order_of_the_table(rt: HostRuntime) -> Result<(), Fail> {
    assert_eq!(rt; order_agrees(), true);
    Ok(())
}
