//! What is compared of methods to find one by its signature (ECMA-335 II.22.25).
ghost use Rattle.std.specs.Prelude.{◌≡◌, IfOk};
ghost use Rattle.type_members.specs.MemberTable as spec;
ghost use Rattle.type_members.specs.Trees.{AreNumbered};

use crate::signature_trees::{tree, trees};
use cli_sigs::SigMethod;
use clr_base::Memory;
use std::alloc::Global;
use type_names::TypeRows;
use type_tree::{Method, Ty, TyList, same_all};

/// What is compared of a method (ECMA-335 II.23.2.1, II.23.2.2). Its trees are open: in the generic parameters of the
/// definition that owns it, and in its own.
#[derive(Drop)]
pub struct Open {
    /// Whether it is called on an instance.
    pub has_this: bool,
    /// Whether it takes variable arguments.
    pub vararg: bool,
    /// How many generic parameters its signature counts.
    pub generic: u32,
    /// The type of its result.
    pub ret: Ty,
    /// The types of its parameters.
    pub params: TyList,
}

/// What is compared of the method that a signature of some file tells. Takes memory and time in the signature's length.
#[tactic(auto, unfolding(crate::specs::MemberTable::open_of))]
pub fn open_of(alloc: Global, types: &TypeRows, sig: &SigMethod) -> Result<Open, Memory>
    requires { AreNumbered types.now }
    ensures { IfOk result (λ method. method ≡ spec.open_of types.now sig.now) }
{
    Ok(Open {
        has_this: sig.has_this,
        vararg: sig.vararg,
        generic: sig.generic,
        ret: tree(alloc, types, &sig.ret)?,
        params: trees(alloc, types, sig.params.as_slice())?,
    })
}

/// Whether some trees are the same ones in the same order.
fn same_trees(ours: &[Ty], theirs: &[Ty]) -> bool
    ensures { result ≡ spec.same_trees ours.now theirs.now }
{
    same_all(ours, theirs)
}

/// Whether a method, whose signature counts so many generic parameters, is the one that is wanted. Takes no memory, and
/// time in its signature's length.
pub fn same_open(method: &Method, generic: u32, wanted: &Open) -> bool
    ensures { result ≡ spec.same_open (spec.open_method method.now generic) wanted.now }
{
    method.has_this == wanted.has_this
        && method.vararg == wanted.vararg
        && generic == wanted.generic
        && method.ret == wanted.ret
        && same_trees(method.params.as_slice(), wanted.params.as_slice())
}
