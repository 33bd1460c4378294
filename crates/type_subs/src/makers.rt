//! What has a public constructor without parameters.
ghost use Rattle.std.specs.Prelude.{◌≡◌, ◌<◌, length, slice_get, IsTrue};
ghost use Rattle.std.specs.List.{list_any};
ghost use Rattle.type_tree.specs.Fits.{def_fits};
ghost use Rattle.type_tree.specs.Whole.{counts};
ghost use Rattle.type_pool.specs.Trees.{at};
ghost use Rattle.type_subs.specs.Constraints as spec;
ghost use Rattle.type_subs.specs.Makers.{level_can_be_made};

use crate::levels::is_value;
use clr_base::MethId;
use type_pool::{Id, Node, Pool};
use type_tree::{Def, Method, World};

/// Of a method's flags, those that say who sees it (II.23.1.10).
const ACCESS: u32 = 7;

/// That each sees it.
const PUBLIC: u32 = 6;

/// That it is called on no instance.
const STATIC: u32 = 0x10;

/// That a definition is an interface (II.23.1.15).
const INTERFACE: u32 = 0x20;

/// That it is abstract.
const ABSTRACT: u32 = 0x80;

/// The name of constructors (II.10.5.1).
const CONSTRUCTOR: &str = ".ctor";

/// Whether a method is a public constructor of instances without parameters.
#[tactic(auto, unfolding(type_tree::specs::Lookup::name_text))]
fn is_plain_constructor(world: &World, method: &Method) -> bool
    requires { method.now.name.0 < length world.now.names }
    ensures { result ≡ spec.is_plain_constructor world.now method.now }
{
    method.flags & ACCESS == PUBLIC
        && method.flags & STATIC == 0
        && method.params.len() == 0
        && world.name(method.name) == CONSTRUCTOR
}

fn has_constructor(world: &World, def: &Def) -> bool
    requires { IsTrue (def_fits (counts world.now) def.now) }
    ensures { result ≡ list_any (spec.is_plain_constructor world.now) (spec.own_methods world.now def.now) }
{
    world.whole();
    for number in 0..def.methods {
        if is_plain_constructor(world, world.method(MethId(def.first_method + number))) {
            return true;
        }
    }
    false
}

/// Whether a definition is a class that isn't abstract and has such a constructor of its own.
fn is_made(world: &World, def: &Def) -> bool
    requires { IsTrue (def_fits (counts world.now) def.now) }
    ensures { result ≡ spec.is_made world.now def.now }
{
    def.flags & INTERFACE == 0 && def.flags & ABSTRACT == 0 && has_constructor(world, def)
}

fn is_made_node(world: &World, node: &Node) -> bool
    ensures { result ≡ level_can_be_made world.now node.now }
{
    match node {
        Node::Inst(def, _) => def.0 < world.def_count() && is_made(world, world.def(*def)),
        Node::Array(_)
        | Node::ByRef(_)
        | Node::Ptr(_)
        | Node::Var(_)
        | Node::MVar(_)
        | Node::Missing(_, _)
        | Node::Odd(_) => false,
    }
}

/// Whether a tree is a value type, or such a class.
pub(crate) fn is_new(world: &World, pool: &Pool, id: Id) -> bool
    requires { id.0 < length pool.now }
    ensures { result ≡ spec.is_new world.now (at pool.now id) }
{
    is_value(world, pool, id) || is_made_node(world, pool.node(id))
}
