//! Tests of threads that ask for one body.
ghost use Rattle.std.specs.Prelude.{IsSome};
ghost use Rattle.code_table.specs.Table.{bytes_of};

use crate::one_method::world;
use clr_base::MethId;
use code_table::{CodeTable, Lent};
use std::alloc::Global;
use std::test::Fail;
use std::thread::{Threads, join};
use type_tree::World;

// What a worker is lent of the first method.
fn ask(alloc: Global, table: &CodeTable) -> Option<Lent<'_>>
    requires { IsSome (bytes_of table.now 0) }
{
    table.body(alloc, MethId(0)).ok()
}

// Two workers ask at once: whether both are lent the body that the table keeps. There is one, since its cell
// is set once.
fn lent_one<R: Threads + Sync>(rt: &R, alloc: Global, table: &CodeTable) -> bool
    requires { IsSome (bytes_of table.now 0) }
{
    let both = join(
        rt,
        || -> Option<Lent<'_>>
            requires { IsSome (bytes_of table.now 0) }
        { ask(alloc, table) },
        || -> Option<Lent<'_>>
            requires { IsSome (bytes_of table.now 0) }
        { ask(alloc, table) },
    );
    matches!(both, (Some(Lent::Kept(_)), Some(Lent::Kept(_))))
}

fn lent_one_of<R: Threads + Sync>(rt: &R, alloc: Global, world: &World) -> bool {
    if world.method_count() == 0 || world.body(MethId(0)).is_none() {
        return false;
    }
    match CodeTable::open(alloc, world) {
        Ok(table) => lent_one(rt, alloc, &table),
        Err(_) => false,
    }
}

fn lent_one_of_a_world<R: Threads + Sync>(rt: &R, alloc: Global) -> bool {
    match world(alloc) {
        Some(world) => lent_one_of(rt, alloc, &world),
        None => false,
    }
}

#[test]
fn two_workers_are_lent_one_body(rt: HostRuntime) -> Result<(), Fail> {
    assert!(rt; lent_one_of_a_world(&rt, rt.alloc()));
    Ok(())
}
