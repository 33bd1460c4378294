//! The variables that stand in a tree.

ghost use Rattle.std.specs.Prelude.{◌≡◌, ◌++◌, map, flat_map, OnOk};
ghost use Rattle.type_expands.specs.Links as spec;

use crate::links::Link;
use clr_base::{DefId, Memory};
use sqlite_items::Items;
use type_tree::Ty;

/// A link from each variable that stands in a tree, which is no variable itself and an argument at that place.
#[cycle(variables)]
pub(crate) fn push_variables(
    links: &mut Items<Link>,
    to: DefId,
    place: usize,
    t: &Ty,
) -> Result<(), Memory>
    ensures { OnOk result (links.new ≡ links.old ++ map (spec.expanding_to to place) (spec.found t.now).variables) }
{
    match t {
        Ty::Inst(_, arguments) => push_all_variables(links, to, place, arguments.as_slice()),
        Ty::Array(e) | Ty::ByRef(e) | Ty::Ptr(e) => push_variables(links, to, place, e.get()),
        Ty::Var(n) => Ok(links.push(Link {
            from: *n,
            to,
            place,
            expanding: true,
        })?),
        Ty::MVar(_) | Ty::Missing(_, _) | Ty::Odd(_) => Ok(()),
    }
}

#[cycle(variables)]
fn push_all_variables(
    links: &mut Items<Link>,
    to: DefId,
    place: usize,
    all: &[Ty],
) -> Result<(), Memory>
    ensures { OnOk result (links.new ≡ links.old ++ flat_map (λ t. map (spec.expanding_to to place) (spec.found t).variables) all.now) }
{
    for t in all {
        push_variables(links, to, place, t)?;
    }
    Ok(())
}
