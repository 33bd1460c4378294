//! Trees of exponential weight in a pool.
ghost use Rattle.std.specs.Prelude.{◌<◌, length, IfOk};

use clr_base::{DefId, Memory};
use sqlite_items::Items;
use std::alloc::Global;
use std::test::Fail;
use type_pool::{Id, Node, Pool, subst};

/// A tree that has `last` twice, over one that does, and so on.
fn doubled(pool: &mut Pool, alloc: Global, mut last: Id, levels: usize) -> Result<Id, Memory>
    requires { last.0 < length pool.old }
    ensures { IfOk result (λ id. id.0 < length pool.new) }
{
    for _ in 0..levels {
        let mut parts = Items::new(alloc);
        parts.push(last)?;
        parts.push(last)?;
        last = pool.intern(Node::Inst(DefId(1), parts))?;
    }
    Ok(last)
}

/// How many trees there are for 60 levels over a variable, and then with an argument put in; the
/// depth and the weight of the last.
fn sixty_levels(alloc: Global) -> Result<[u64; 4], Memory> {
    let mut pool = Pool::new(alloc);
    let variable = pool.intern(Node::Var(0))?;
    let open = doubled(&mut pool, alloc, variable, 60)?;
    let before = pool.len() as u64;
    let argument = pool.intern(Node::Inst(DefId(7), Items::new(alloc)))?;
    let closed = subst(&mut pool, alloc, open, &[argument], &[])?;
    let mark = pool.mark(closed);
    Ok([
        before,
        pool.len() as u64,
        u64::from(mark.depth),
        u64::from(mark.weight),
    ])
}

// The tree weighs 2^61 - 1, and each of its 61 parts stands once.
#[test]
fn sixty_levels_that_double(rt: HostRuntime) -> Result<(), Fail> {
    assert_eq!(rt; sixty_levels(rt.alloc())?, [61, 122, 61, 4294967295]);
    Ok(())
}
