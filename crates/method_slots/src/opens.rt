//! The name and signature by which a method overrides another.

ghost use Rattle.std.specs.Prelude.{◌≡◌, ◌<◌, ◌↔◌, [], true, length, IfOk, IsTrue};
ghost use Rattle.type_tree.specs.Subst.{subst_all};
ghost use Rattle.type_pool.specs.Jobs.{SpellAll};
ghost use Rattle.type_pool.specs.Trees.{at_all, ids_below, Grows};
ghost use Rattle.method_slots.specs.Opens.{open_at, open_of, put_open, IsOver, SpellsOpen};

use clr_base::{Memory, NameId};
use sqlite_items::Items;
use std::alloc::Global;
use type_pool::{Id, Pool, from_tree, from_trees, subst};
use type_tree::Method;

/// What of a method is compared where it overrides another (ECMA-335 II.10.3.1), with trees named by
/// their numbers in a pool.
#[derive(Drop)]
pub struct OpenMethod {
    pub name: NameId,
    /// Whether its signature says that it is called on an instance.
    pub has_this: bool,
    /// Whether its signature takes variable arguments.
    pub vararg: bool,
    /// How many generic parameters of its own it has.
    pub formals: usize,
    /// The type of its result.
    pub ret: Id,
    /// The types of its parameters.
    pub params: Items<Id>,
}

/// What is compared of a method, in the generic parameters of its own definition.
pub fn open_method(pool: &mut Pool, alloc: Global, method: &Method) -> Result<OpenMethod, Memory>
    ensures grows { Grows pool.old pool.new }
    ensures spells { IfOk result (λ o. SpellsOpen pool.new o (open_of method.now)) }
{
    let ret = from_tree(&method.ret, pool, alloc)?;
    let params = from_trees(method.params.as_slice(), pool, alloc)?;
    Ok(OpenMethod {
        name: method.name,
        has_this: method.has_this,
        vararg: method.vararg,
        formals: method.formals.len(),
        ret,
        params,
    })
}

/// Each tree with `types` put in for the variables of a type. Recurses as deep as the trees: test their
/// marks first.
pub fn put_in_all(
    pool: &mut Pool,
    alloc: Global,
    ids: &[Id],
    types: &[Id],
) -> Result<Items<Id>, Memory>
    requires within { ids_below (length pool.old) ids.now ≡ true }
    requires types_in { ids_below (length pool.old) types.now ≡ true }
    ensures grows { Grows pool.old pool.new }
    ensures spells { IfOk result (λ rs. SpellAll pool.new rs (subst_all (at_all pool.old types.now) [] (at_all pool.old ids.now))) }
{
    let mut done = Items::new(alloc);
    for id in ids {
        done.push(subst(pool, alloc, *id, types, &[])?)?;
    }
    Ok(done)
}

/// What is compared of a method, in the generic parameters of a definition that names the method's
/// owner with the arguments `types`. Recurses as deep as the trees: test their marks first.
pub fn put_in(
    pool: &mut Pool,
    alloc: Global,
    open: &OpenMethod,
    types: &[Id],
) -> Result<OpenMethod, Memory>
    requires over { IsOver pool.old open.now }
    requires types_in { ids_below (length pool.old) types.now ≡ true }
    ensures grows { Grows pool.old pool.new }
    ensures spells { IfOk result (λ o. SpellsOpen pool.new o (put_open (at_all pool.old types.now) (open_at pool.old open.now))) }
{
    let ret = subst(pool, alloc, open.ret, types, &[])?;
    let params = put_in_all(pool, alloc, open.params.as_slice(), types)?;
    Ok(OpenMethod {
        name: open.name,
        has_this: open.has_this,
        vararg: open.vararg,
        formals: open.formals,
        ret,
        params,
    })
}

/// Whether two lists are equal, number by number.
fn same_ids(xs: &[Id], ys: &[Id]) -> bool
    ensures { IsTrue result ↔ (xs.now ≡ ys.now) }
{
    if xs.len() != ys.len() {
        return false;
    }
    for (i, x) in xs.iter().enumerate() {
        if x.0 != ys[i].0 {
            return false;
        }
    }
    true
}

/// Whether two are equal number by number.
pub(crate) fn same_numbers(a: &OpenMethod, b: &OpenMethod) -> bool
    ensures { IsTrue result ↔ (a.now ≡ b.now) }
{
    a.name.0 == b.name.0
        && a.has_this == b.has_this
        && a.vararg == b.vararg
        && a.formals == b.formals
        && a.ret.0 == b.ret.0
        && same_ids(a.params.as_slice(), b.params.as_slice())
}

/// Whether two methods match. Equal trees have equal numbers, so numbers alone are compared.
pub fn same_open(pool: &Pool, a: &OpenMethod, b: &OpenMethod) -> bool
    requires left { IsOver pool.now a.now }
    requires right { IsOver pool.now b.now }
    ensures { IsTrue result ↔ (open_at pool.now a.now ≡ open_at pool.now b.now) }
{
    pool.each_once();
    same_numbers(a, b)
}
