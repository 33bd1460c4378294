//! The answers for the methods of interfaces, and the fault of one without.

ghost use Rattle.std.specs.Prelude.{◌≡◌, ◌<◌, List, cond, length, IfOk};
ghost use Rattle.std.specs.List.{list_any};
ghost use Rattle.std.specs.Option.{option_or};
ghost use Rattle.type_tree.specs.declared.tree.Ty.{Ty};
ghost use Rattle.method_slots.specs.Chains.{longest_chain};
ghost use Rattle.interface_maps.specs.Choices as spec;
ghost use Rattle.interface_maps.specs.Found.{AreFound};

use clr_base::{DefId, Memory};
use sqlite_items::Items;
use std::alloc::Global;
use type_pool::{Id, Pool};
use type_tree::{Def, Method, World};

/// An interface of a definition, and what answers its methods.
#[derive(Drop)]
pub struct Interface {
    /// The interface, as a tree in the definition's own generic parameters.
    pub tree: Id,
    /// For each virtual instance method of the interface, in order, the slot of the definition that
    /// answers; None where nothing does.
    pub choices: Items<Option<u32>>,
}

/// Whether a method is public (ECMA-335 II.23.1.10).
pub(crate) fn is_public(method: &Method) -> bool
    ensures { result ≡ spec.is_public method.now }
{
    method.flags & 7 == 6
}

/// The choice of a method: what a MethodImpl row puts, else what has its name and signature, where the
/// definition itself declares the interface, else what the parent has.
pub(crate) fn choose(row: Option<u32>, named: Option<u32>, inherited: Option<u32>) -> Option<u32>
    ensures { result ≡ option_or row (option_or named inherited) }
{
    match row {
        Some(number) => Some(number),
        None => match named {
            Some(number) => Some(number),
            None => inherited,
        },
    }
}

/// Whether a definition is neither an interface nor abstract.
fn is_concrete(def: &Def) -> bool
    ensures { result ≡ spec.is_concrete def.now }
{
    def.flags & 0x20 == 0 && def.flags & 0x80 == 0
}

/// Whether nothing answers one of these methods.
fn any_open(choices: &[Option<u32>]) -> bool
    ensures { result ≡ list_any spec.is_open choices.now }
{
    choices.iter().any(|choice| choice.is_none())
}

/// Whether nothing answers a method of one of these interfaces.
fn any_lacks(found: &[Interface]) -> bool
    ensures { result ≡ list_any (λ f. list_any spec.is_open f.choices) found.now }
{
    found
        .iter()
        .any(|interface| any_open(interface.choices.as_slice()))
}

/// Whether a definition has the fault NoMethod by its interfaces: it is neither an interface nor abstract,
/// and nothing answers a method of an interface of it. These are its interfaces with their answers.
pub(crate) fn lacks_answer(world: &World, pool: &Pool, id: DefId, found: &[Interface]) -> bool
    requires exists { id.0 < length world.now.defs }
    requires found { AreFound pool.now found.now (spec.answers longest_chain world.now id.0) }
    ensures { result ≡ spec.lacks_answer world.now id.0 }
{
    is_concrete(world.def(id)) && any_lacks(found)
}

/// These interfaces, copied.
pub(crate) fn copy_found(alloc: Global, found: &[Interface]) -> Result<Items<Interface>, Memory>
    ensures { IfOk result (λ fs. fs ≡ found.now) }
{
    let mut done = Items::new(alloc);
    for one in found {
        let choices = Items::from_slice(alloc, one.choices.as_slice())?;
        let tree = one.tree;
        done.push(Interface { tree, choices })?;
    }
    Ok(done)
}
