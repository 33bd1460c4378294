//! Types as the tables of tests name them, by the numbers of their definitions.

use clr_base::{DefId, Memory, NameId};
use sqlite_items::{Boxed, Items};
use std::alloc::Global;
use type_tree::{Ty, TyList};

/// A type.
#[derive(Clone, Copy)]
pub enum Named {
    /// A definition without arguments.
    Plain(u32),
    /// A definition with one argument, which is one without.
    Of(u32, u32),
    /// The first generic parameter.
    Argument,
    /// A definition without arguments in others of one argument, the innermost first.
    In(u32, &'static [u32]),
    /// The first generic parameter in them.
    ArgumentIn(&'static [u32]),
    /// So many levels of vectors over a definition.
    Array(u32, u32),
    /// A type that no definition has, and whether it is a value type.
    Missing(bool),
}

pub const OBJECT: Named = Named::Plain(0);

pub const STRING: Named = Named::Plain(18);

pub const ARGUMENT: Named = Named::Argument;

/// A definition without arguments.
pub fn plain(alloc: Global, def: u32) -> Ty {
    Ty::Inst(DefId(def), Items::new(alloc))
}

/// A definition with one argument.
pub fn wrap(alloc: Global, def: u32, argument: Ty) -> Result<Ty, Memory> {
    let mut args: TyList = Items::new(alloc);
    args.push(argument)?;
    Ok(Ty::Inst(DefId(def), args))
}

fn wrap_in(alloc: Global, mut part: Ty, around: &[u32]) -> Result<Ty, Memory> {
    for def in around {
        part = wrap(alloc, *def, part)?;
    }
    Ok(part)
}

fn array(alloc: Global, def: u32, levels: u32) -> Result<Ty, Memory> {
    let mut part = plain(alloc, def);
    for _ in 0..levels {
        part = Ty::Array(Boxed::new(alloc, part)?);
    }
    Ok(part)
}

/// The tree of a type.
pub fn tree(alloc: Global, named: Named) -> Result<Ty, Memory> {
    match named {
        Named::Plain(def) => Ok(plain(alloc, def)),
        Named::Of(def, argument) => wrap(alloc, def, plain(alloc, argument)),
        Named::Argument => Ok(Ty::Var(0)),
        Named::In(def, around) => wrap_in(alloc, plain(alloc, def), around),
        Named::ArgumentIn(around) => wrap_in(alloc, Ty::Var(0), around),
        Named::Array(def, levels) => array(alloc, def, levels),
        Named::Missing(is_value) => Ok(Ty::Missing(NameId(0), is_value)),
    }
}

pub(crate) fn trees(alloc: Global, named: &[Named]) -> Result<TyList, Memory> {
    let mut trees = Items::new(alloc);
    for named in named {
        trees.push(tree(alloc, *named)?)?;
    }
    Ok(trees)
}

pub(crate) fn tree_if(alloc: Global, named: Option<Named>) -> Result<Option<Ty>, Memory> {
    match named {
        Some(named) => Ok(Some(tree(alloc, named)?)),
        None => Ok(None),
    }
}
