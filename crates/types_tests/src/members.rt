//! Closures of keys: by parents and interfaces, and by direct members.
ghost use Rattle.std.specs.Prelude.{◌≡◌, true, length};
ghost use Rattle.type_pool.specs.Keys.{key_below};

use clr_base::Memory;
use key_closure::closure;
use small_worlds::{CLASS, DefRow, Named, plain, world};
use std::alloc::Global;
use std::collections::HashMap;
use std::test::Fail;
use type_pool::{KeyNode, Pool, from_tree};
use type_relations::{Faults, MemberNotes, Members, Supers};
use type_tree::World;

/// A test by which each key is faulty, or none.
#[derive(Drop)]
struct Fixed(bool);

impl Faults for Fixed {
    type Notes = ();

    ghost faulty = { λ s w key. s.0 };

    ghost right = { λ s w ts notes. Unit {0} };

    fn has_fault(
        &self,
        _alloc: Global,
        _world: &World,
        _pool: &mut Pool,
        _notes: &mut (),
        _key: &KeyNode,
    ) -> Result<bool, Memory> {
        Ok(self.0)
    }

    ghost right_on = { λ s w ts us notes grows right. tt };
}

const DEFS: [DefRow; 2] = [
    // 36: class B`1; 37: class A : B[A]
    CLASS,
    DefRow {
        parent: Some(Named::Of(36, 37)),
        ..CLASS
    },
];

/// How many members the closure of A has by its direct members, where each key is faulty or none.
fn count_members(alloc: Global, world: &World, faulty: bool) -> Result<usize, Memory> {
    let mut pool = Pool::new(alloc);
    let id = from_tree(&plain(alloc, 37), &mut pool, alloc)?;
    let graph = Members {
        faults: Fixed(faulty),
    };
    let mut notes = MemberNotes {
        canonical: HashMap::new(alloc),
        faults: (),
    };
    let found = closure(
        alloc,
        &graph,
        world,
        &mut pool,
        &mut notes,
        KeyNode::Tree(id),
    )?;
    match found {
        Some(members) => Ok(members.len()),
        None => Ok(0),
    }
}

/// How many supers A has, itself counted.
fn count_supers(alloc: Global, world: &World) -> Result<usize, Memory> {
    let mut pool = Pool::new(alloc);
    let id = from_tree(&plain(alloc, 37), &mut pool, alloc)?;
    let found = closure(alloc, &Supers, world, &mut pool, &mut (), KeyNode::Tree(id))?;
    match found {
        Some(members) => Ok(members.len()),
        None => Ok(0),
    }
}

fn counts(alloc: Global, world: &World) -> Result<[usize; 3], Memory> {
    let supers = count_supers(alloc, world)?;
    let members = count_members(alloc, world, false)?;
    let alone = count_members(alloc, world, true)?;
    Ok([supers, members, alone])
}

fn tell(alloc: Global) -> Result<[usize; 3], Memory> {
    match world(alloc, &DEFS, &[], &[])? {
        Some(world) => counts(alloc, &world),
        None => Ok([0, 0, 0]),
    }
}

// A, B[A], Object; then also B[__Canon] and __Canon; A alone.
#[test]
fn closures_of_a_class_over_itself(rt: HostRuntime) -> Result<(), Fail> {
    assert_eq!(rt; tell(rt.alloc())?, [3, 5, 1]);
    Ok(())
}
