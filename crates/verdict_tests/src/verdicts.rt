//! Verdicts of keys by one fault, and the faults that keys have by themselves.
ghost use Rattle.std.specs.Prelude.{◌≡◌, ◌<◌, true, length};
ghost use Rattle.type_pool.specs.Keys.{key_below};

use clr_base::Memory;
use key_faults::{
    Notes, Told, has_arity_fault, has_bad_argument, has_bad_layout, has_deep_layout, is_expanding,
    is_not_in_profile,
};
use key_verdicts::{Judged, Local, LocalFaults, judge_in};
use load_events::LoadFault;
use small_worlds::{ANY, ARGUMENT, CLASS, DefRow, FieldRow, Named, OBJECT, tree, world};
use std::alloc::Global;
use std::collections::HashMap;
use std::test::Fail;
use type_pool::{KeyNode, Node, Pool, from_tree};
use type_relations::{MemberNotes, Members};
use type_tree::World;

/// The fault Arity alone.
#[derive(Drop)]
struct Arities;

impl LocalFaults for Arities {
    ghost use Rattle.std.specs.Prelude.{Some, None, cond};
    ghost use Rattle.load_events.specs.declared.load_fault.LoadFault.TheVariants.{Arity};
    ghost use Rattle.key_faults.specs.Shapes.{has_arity_fault};

    type Notes = ();

    ghost local = { λ s w k. cond (has_arity_fault w k) (Some Arity) None };

    ghost right = { λ s w ts notes. Unit {0} };

    fn local_fault(
        &self,
        _alloc: Global,
        world: &World,
        pool: &mut Pool,
        _notes: &mut (),
        key: &KeyNode,
    ) -> Result<Option<LoadFault>, Memory> {
        if has_arity_fault(world, pool, key) {
            Ok(Some(LoadFault::Arity))
        } else {
            Ok(None)
        }
    }

    ghost right_on = { λ s w ts us notes grows right. tt };
}

const INT: u32 = 10;

const DEFS: [DefRow; 7] = [
    // 36: class B`1; 37: class C`1 : B[C[C[!0]]]; 38: class A : B[B[A]]
    DefRow {
        formal: Some(ANY),
        ..CLASS
    },
    DefRow {
        formal: Some(ANY),
        parent: Some(Named::ArgumentIn(&[37, 37, 36])),
        ..CLASS
    },
    DefRow {
        parent: Some(Named::In(38, &[36, 36])),
        ..CLASS
    },
    // 39: class D : B, without an argument; 40: class E : D
    DefRow {
        parent: Some(Named::Plain(36)),
        ..CLASS
    },
    DefRow {
        parent: Some(Named::Plain(39)),
        ..CLASS
    },
    // 41: struct S { G[S] g; }; 42: struct G`1 { !0 x; }
    DefRow {
        flags: 8,
        parent: Some(Named::Plain(1)),
        fields: (0, 1),
        ..CLASS
    },
    DefRow {
        flags: 8,
        formal: Some(ANY),
        parent: Some(Named::Plain(1)),
        fields: (1, 1),
        ..CLASS
    },
];

const FIELDS: [FieldRow; 2] = [
    FieldRow(Named::Of(42, 41), 0, None),
    FieldRow(ARGUMENT, 0, None),
];

/// The definition that a key's tree instantiates.
fn head(pool: &Pool, key: &KeyNode) -> u32
    requires { key_below (length pool.now) key.now ≡ true }
{
    match key {
        KeyNode::Tree(id) => match pool.node(*id) {
            Node::Inst(def, _) => def.0,
            _ => 0,
        },
        KeyNode::Meth(_, _, _) => 0,
    }
}

/// How many members a good key has, and 0; or the definition of the member that is refused, and its fault.
fn judge(alloc: Global, world: &World, named: Named) -> Result<(u32, u32), Memory> {
    let mut pool = Pool::new(alloc);
    let id = from_tree(&tree(alloc, named)?, &mut pool, alloc)?;
    let members = Members {
        faults: Local { faults: Arities },
    };
    let mut notes = MemberNotes {
        canonical: HashMap::new(alloc),
        faults: (),
    };
    let key = KeyNode::Tree(id);
    match judge_in(alloc, &members, world, &mut pool, &mut notes, &key)? {
        Judged::Good(keys) => Ok((keys.len() as u32, 0)),
        Judged::Refused(key, fault) => Ok((head(&pool, &key), fault.number())),
    }
}

const VERDICTS: [(Named, (u32, u32)); 4] = [
    // A, B[B[A]], B[A], Object, B[__Canon], __Canon
    (Named::Plain(38), (6, 0)),
    // E extends D, which extends B without an argument
    (Named::Plain(40), (36, 2)),
    (Named::Plain(36), (36, 2)),
    (Named::Of(36, 40), (36, 2)),
];

/// Whether each verdict is as in the table.
fn verdicts_agree(alloc: Global, world: &World) -> Result<bool, Memory> {
    for (named, verdict) in VERDICTS {
        let found = judge(alloc, world, named)?;
        if found.0 != verdict.0 || found.1 != verdict.1 {
            return Ok(false);
        }
    }
    Ok(true)
}

/// Of a type: Arity, BadArgument, Expanding, LayoutDeep, BadLayout, NotInProfile.
type Faults = [bool; 6];

fn faults(alloc: Global, world: &World, told: &Told, named: Named) -> Result<Faults, Memory> {
    let mut pool = Pool::new(alloc);
    let id = from_tree(&tree(alloc, named)?, &mut pool, alloc)?;
    let mut notes = Notes::new(alloc);
    let key = KeyNode::Tree(id);
    let arity = has_arity_fault(world, &pool, &key);
    let argument = has_bad_argument(&pool, &key);
    let expanding = is_expanding(world, told, &pool, id);
    let outside = is_not_in_profile(world, told, &pool, id);
    let deep = has_deep_layout(&mut pool, alloc, world, &mut notes, id)?;
    let bad = has_bad_layout(&mut pool, alloc, world, &mut notes, id)?;
    Ok([arity, argument, expanding, deep, bad, outside])
}

const FAULTS: [(Named, Faults); 7] = [
    (
        Named::Of(37, INT),
        [false, false, true, false, false, false],
    ),
    (Named::Plain(37), [true, false, true, false, false, false]),
    (Named::Of(36, 3), [false, true, false, false, false, false]),
    (ARGUMENT, [false, true, false, false, false, false]),
    (Named::Plain(41), [false, false, false, true, false, false]),
    (
        Named::Of(42, INT),
        [false, false, false, false, false, false],
    ),
    (Named::Plain(33), [false, false, false, false, false, true]),
];

fn same(a: Faults, b: Faults) -> bool {
    for i in 0..6 {
        if a[i] != b[i] {
            return false;
        }
    }
    true
}

/// Whether the faults of each type are as in the table.
fn faults_agree(alloc: Global, world: &World) -> Result<bool, Memory> {
    let told = Told::of(alloc, world)?;
    for (named, wanted) in FAULTS {
        if !same(faults(alloc, world, &told, named)?, wanted) {
            return Ok(false);
        }
    }
    Ok(true)
}

fn tell(alloc: Global) -> Result<[bool; 2], Memory> {
    match world(alloc, &DEFS, &[], &FIELDS)? {
        Some(world) => Ok([verdicts_agree(alloc, &world)?, faults_agree(alloc, &world)?]),
        None => Ok([false, false]),
    }
}

#[test]
fn verdicts_and_faults_of_keys(rt: HostRuntime) -> Result<(), Fail> {
    assert_eq!(rt; tell(rt.alloc())?, [true, true]);
    Ok(())
}
