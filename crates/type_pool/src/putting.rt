//! Trees of a pool put in for variables.

ghost use Rattle.std.specs.Prelude.{◌≡◌, ◌<◌, ◌≤◌, true, length, map, slice_get, unwrap_or, IfOk, OnOk};
ghost use Rattle.type_tree.specs.Subst.{subst_ty};
ghost use Rattle.type_pool.specs.Trees.{at, at_all, tree_of, ids_below, parts_below, Grows, Spells};
ghost use Rattle.type_pool.specs.Jobs.{subst_by, IsPutting, SpellAll};

use crate::arena::Pool;
use crate::copying::{Memo, copy_node, note, noted};
use crate::nodes::{Id, Node};
use clr_base::Memory;
use sqlite_items::{Items, at};
use std::alloc::Global;
use std::collections::HashMap;

/// The tree at `n`, or `otherwise` past the end.
fn entry(list: &[Id], n: u32, otherwise: Id) -> Id
    ensures { result ≡ unwrap_or (slice_get list.now n) otherwise }
{
    match at(list, n as usize) {
        Some(id) => *id,
        None => otherwise,
    }
}

#[cycle(subst)]
pub(crate) fn put_in(
    pool: &mut Pool,
    alloc: Global,
    id: Id,
    types: &[Id],
    methods: &[Id],
    memo: &mut Memo,
) -> Result<Id, Memory>
    requires within { id.0 < length pool.old }
    requires job { IsPutting (subst_by pool.old types.now methods.now) types.now methods.now pool.old memo.old }
    ensures grows { Grows pool.old pool.new }
    ensures job { OnOk result (IsPutting (subst_by pool.old types.now methods.now) types.now methods.now pool.new memo.new) }
    ensures spells { IfOk result (λ r. Spells pool.new r (subst_by pool.old types.now methods.now (at pool.old id))) }
{
    if let Some(became) = noted(memo, id) {
        return Ok(became);
    }
    let node = copy_node(alloc, pool.node(id))?;
    let became = put_in_level(pool, alloc, id, node, types, methods, memo)?;
    note(memo, id, became)?;
    Ok(became)
}

#[cycle(subst)]
fn put_in_level(
    pool: &mut Pool,
    alloc: Global,
    id: Id,
    node: Node,
    types: &[Id],
    methods: &[Id],
    memo: &mut Memo,
) -> Result<Id, Memory>
    requires within { id.0 < length pool.old }
    requires level { tree_of pool.old node ≡ at pool.old id }
    requires below { parts_below id.0 node ≡ true }
    requires job { IsPutting (subst_by pool.old types.now methods.now) types.now methods.now pool.old memo.old }
    ensures grows { Grows pool.old pool.new }
    ensures job { OnOk result (IsPutting (subst_by pool.old types.now methods.now) types.now methods.now pool.new memo.new) }
    ensures spells { IfOk result (λ r. Spells pool.new r (subst_by pool.old types.now methods.now (at pool.old id))) }
{
    match node {
        Node::Inst(def, args) => {
            let parts = put_in_all(
                pool,
                alloc,
                id.0 as usize,
                args.as_slice(),
                types,
                methods,
                memo,
            )?;
            pool.intern(Node::Inst(def, parts))
        }
        Node::Array(e) => {
            let part = put_in(pool, alloc, e, types, methods, memo)?;
            pool.intern(Node::Array(part))
        }
        Node::ByRef(e) => {
            let part = put_in(pool, alloc, e, types, methods, memo)?;
            pool.intern(Node::ByRef(part))
        }
        Node::Ptr(e) => {
            let part = put_in(pool, alloc, e, types, methods, memo)?;
            pool.intern(Node::Ptr(part))
        }
        Node::Var(n) => Ok(entry(types, n, id)),
        Node::MVar(n) => Ok(entry(methods, n, id)),
        Node::Missing(_, _) => Ok(id),
        Node::Odd(_) => Ok(id),
    }
}

#[cycle(subst)]
pub(crate) fn put_in_all(
    pool: &mut Pool,
    alloc: Global,
    above: usize,
    ids: &[Id],
    types: &[Id],
    methods: &[Id],
    memo: &mut Memo,
) -> Result<Items<Id>, Memory>
    requires within { above ≤ length pool.old }
    requires below { ids_below above ids.now ≡ true }
    requires job { IsPutting (subst_by pool.old types.now methods.now) types.now methods.now pool.old memo.old }
    ensures grows { Grows pool.old pool.new }
    ensures job { OnOk result (IsPutting (subst_by pool.old types.now methods.now) types.now methods.now pool.new memo.new) }
    ensures spells { IfOk result (λ rs. SpellAll pool.new rs (map (subst_by pool.old types.now methods.now) (at_all pool.old ids.now))) }
{
    let mut done = Items::new(alloc);
    for id in ids {
        done.push(put_in(pool, alloc, *id, types, methods, memo)?)?;
    }
    Ok(done)
}

/// The tree with `types` and `methods` put in for its variables; a variable past its list stays. Recurses as deep as the
/// tree: test its mark first.
pub fn subst(
    pool: &mut Pool,
    alloc: Global,
    id: Id,
    types: &[Id],
    methods: &[Id],
) -> Result<Id, Memory>
    requires within { id.0 < length pool.old }
    requires types_in { ids_below (length pool.old) types.now ≡ true }
    requires methods_in { ids_below (length pool.old) methods.now ≡ true }
    ensures grows { Grows pool.old pool.new }
    ensures spells { IfOk result (λ r. Spells pool.new r (subst_ty (at_all pool.old types.now) (at_all pool.old methods.now) (at pool.old id))) }
{
    let mut memo = HashMap::new(alloc);
    put_in(pool, alloc, id, types, methods, &mut memo)
}
