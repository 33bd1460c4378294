//! Where System.__Canon stands.
ghost use Rattle.std.specs.Prelude.{◌≡◌, ◌<◌, ◌≤◌, ◌+◌, List, true, length, IfOk, OnOk};
ghost use Rattle.std.specs.List.{list_any};
ghost use Rattle.type_tree.specs.declared.tree.Ty.{Ty};
ghost use Rattle.type_tree.specs.World.{Facts};
ghost use Rattle.type_pool.specs.Trees.{at, at_all, ids_below, parts_below};
ghost use Rattle.type_pool.specs.Keys.{key_at, key_below};
ghost use Rattle.type_subs.specs.Canons as spec;
ghost use Rattle.type_subs.specs.Notes.{IsNoted, flag, level_has_canon};

use clr_base::Memory;
use sqlite_items::Items;
use std::alloc::Global;
use type_pool::{Id, KeyNode, Node, Pool};
use type_tree::World;

/// What was found of the trees of a pool before, and serves again for the same world and pool.
#[derive(Drop)]
pub struct ConstraintNotes {
    /// For each of the first trees, whether System.__Canon stands in it.
    pub canons: Items<bool>,
}

impl ConstraintNotes {
    /// No notes.
    pub fn new(alloc: Global) -> ConstraintNotes
        ensures { (w : Facts) (ts : List Ty) → IsNoted w ts result.canons }
    {
        ConstraintNotes {
            canons: Items::new(alloc),
        }
    }
}

fn any_flag(flags: &[bool], ids: &[Id]) -> bool
    requires { ids_below (length flags.now) ids.now ≡ true }
    ensures { result ≡ list_any (flag flags.now) ids.now }
{
    for id in ids {
        if flags[id.0 as usize] {
            return true;
        }
    }
    false
}

/// Whether it stands in the tree of a level, whose parts are noted.
fn in_level(world: &World, flags: &[bool], node: &Node) -> bool
    requires { parts_below (length flags.now) node.now ≡ true }
    ensures { result ≡ level_has_canon world.now flags.now node.now }
{
    match node {
        Node::Inst(def, args) => def.0 == world.canon().0 || any_flag(flags, args.as_slice()),
        Node::Array(part) => flags[part.0 as usize],
        Node::ByRef(part) => flags[part.0 as usize],
        Node::Ptr(part) => flags[part.0 as usize],
        Node::Var(_) => false,
        Node::MVar(_) => false,
        Node::Missing(_, _) => false,
        Node::Odd(_) => false,
    }
}

/// Notes the next tree.
fn note_next(world: &World, pool: &Pool, flags: &mut Items<bool>, next: Id) -> Result<(), Memory>
    requires next { next.0 ≡ length flags.old }
    requires more { next.0 < length pool.now }
    requires noted { IsNoted world.now pool.now flags.old }
    ensures noted { OnOk result (IsNoted world.now pool.now flags.new) }
    ensures longer { OnOk result (length flags.new ≡ length flags.old + 1) }
{
    let found = in_level(world, flags.as_slice(), pool.node(next));
    flags.push(found)?;
    Ok(())
}

/// Notes the trees up to one.
fn note_to(world: &World, pool: &Pool, flags: &mut Items<bool>, id: Id) -> Result<(), Memory>
    requires within { id.0 < length pool.now }
    requires noted { IsNoted world.now pool.now flags.old }
    ensures noted { OnOk result (IsNoted world.now pool.now flags.new) }
    ensures there { OnOk result (id.0 < length flags.new) }
{
    for next in flags.len()..id.0 as usize + 1 {
        note_next(world, pool, flags, Id(next as u32))?;
    }
    Ok(())
}

/// Whether it stands anywhere in a tree.
fn in_tree(world: &World, pool: &Pool, flags: &mut Items<bool>, id: Id) -> Result<bool, Memory>
    requires within { id.0 < length pool.now }
    requires noted { IsNoted world.now pool.now flags.old }
    ensures noted { OnOk result (IsNoted world.now pool.now flags.new) }
    ensures is { IfOk result (λ found. found ≡ spec.has_canon world.now (at pool.now id)) }
{
    note_to(world, pool, flags, id)?;
    Ok(flags.as_slice()[id.0 as usize])
}

/// Whether it stands anywhere in one of some trees.
fn in_any(world: &World, pool: &Pool, flags: &mut Items<bool>, ids: &[Id]) -> Result<bool, Memory>
    requires within { ids_below (length pool.now) ids.now ≡ true }
    requires noted { IsNoted world.now pool.now flags.old }
    ensures noted { OnOk result (IsNoted world.now pool.now flags.new) }
    ensures is { IfOk result (λ found. found ≡ spec.any_has_canon world.now (at_all pool.now ids.now)) }
{
    for id in ids {
        if in_tree(world, pool, flags, *id)? {
            return Ok(true);
        }
    }
    Ok(false)
}

/// Whether System.__Canon stands anywhere in a key. Each tree of a pool is looked at once for all keys.
pub(crate) fn has_canon(
    world: &World,
    pool: &Pool,
    flags: &mut Items<bool>,
    key: &KeyNode,
) -> Result<bool, Memory>
    requires within { key_below (length pool.now) key.now ≡ true }
    requires noted { IsNoted world.now pool.now flags.old }
    ensures noted { OnOk result (IsNoted world.now pool.now flags.new) }
    ensures is { IfOk result (λ found. found ≡ spec.key_has_canon world.now (key_at pool.now key.now)) }
{
    match key {
        KeyNode::Tree(id) => in_tree(world, pool, flags, *id),
        KeyNode::Meth(owner, _, args) => {
            if in_tree(world, pool, flags, *owner)? {
                return Ok(true);
            }
            in_any(world, pool, flags, args.as_slice())
        }
    }
}
