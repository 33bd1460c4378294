//! The arguments of constructed types, and which variables stand in them.

ghost use Rattle.std.specs.Prelude.{◌≡◌, [], ◌∷◌, ◌++◌, map, OnOk, IfOk};
ghost use Rattle.type_expands.specs.Links as spec;

use crate::variables::push_variables;
use clr_base::{DefId, Memory};
use sqlite_items::Items;
use std::alloc::Global;
use type_tree::{Def, Ty};

/// A variable that is an argument of a constructed type, or a proper part of one.
#[derive(Clone, Copy)]
pub struct Link {
    /// The variable.
    pub from: u32,
    /// The definition of the constructed type.
    pub to: DefId,
    /// The number of the argument.
    pub place: usize,
    /// Whether the variable is a proper part of the argument.
    pub expanding: bool,
}

/// The links of one argument.
fn push_argument(
    links: &mut Items<Link>,
    to: DefId,
    place: usize,
    argument: &Ty,
) -> Result<(), Memory>
    ensures { OnOk result (links.new ≡ links.old ++ spec.links_to to place (spec.found argument.now)) }
{
    match argument {
        Ty::Var(n) => Ok(links.push(Link {
            from: *n,
            to,
            place,
            expanding: false,
        })?),
        Ty::Inst(_, _)
        | Ty::Array(_)
        | Ty::ByRef(_)
        | Ty::Ptr(_)
        | Ty::MVar(_)
        | Ty::Missing(_, _)
        | Ty::Odd(_) => push_variables(links, to, place, argument),
    }
}

/// The links of the arguments of one constructed type.
fn push_arguments(links: &mut Items<Link>, to: DefId, arguments: &[Ty]) -> Result<(), Memory>
    ensures { OnOk result (links.new ≡ links.old ++ spec.argument_links to 0 (map spec.found arguments.now)) }
{
    for (place, argument) in arguments.iter().enumerate() {
        push_argument(links, to, place, argument)?;
    }
    Ok(())
}

/// The links of all constructed types that stand in a tree.
#[cycle(links)]
fn push_links(links: &mut Items<Link>, t: &Ty) -> Result<(), Memory>
    ensures { OnOk result (links.new ≡ links.old ++ (spec.found t.now).links) }
{
    match t {
        Ty::Inst(def, arguments) => {
            push_arguments(links, *def, arguments.as_slice())?;
            push_all_links(links, arguments.as_slice())
        }
        Ty::Array(e) | Ty::ByRef(e) | Ty::Ptr(e) => push_links(links, e.get()),
        Ty::Var(_) | Ty::MVar(_) | Ty::Missing(_, _) | Ty::Odd(_) => Ok(()),
    }
}

#[cycle(links)]
fn push_all_links(links: &mut Items<Link>, all: &[Ty]) -> Result<(), Memory>
    ensures { OnOk result (links.new ≡ links.old ++ spec.all_links all.now) }
{
    for t in all {
        push_links(links, t)?;
    }
    Ok(())
}

/// The links of a parent.
fn push_parent_links(links: &mut Items<Link>, parent: &Option<Ty>) -> Result<(), Memory>
    ensures { OnOk result (links.new ≡ links.old ++ spec.parent_links parent.now) }
{
    match parent {
        Some(parent) => push_links(links, parent),
        None => Ok(()),
    }
}

/// The links of all that a definition extends and declares.
pub(crate) fn def_links(alloc: Global, def: &Def) -> Result<Items<Link>, Memory>
    ensures { IfOk result (λ links. links ≡ spec.def_links def.now) }
{
    let mut links = Items::new(alloc);
    push_parent_links(&mut links, &def.parent)?;
    push_all_links(&mut links, def.interfaces.as_slice())?;
    Ok(links)
}
