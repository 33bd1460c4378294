//! The canonical form, in which all reference types are one.

ghost use Rattle.std.specs.Prelude.{◌≡◌, IfOk};
ghost use Rattle.type_tree.specs.Canon as spec;

use crate::copying::copy;
use crate::kinds::is_reference;
use crate::tree::{Key, MethKey, Ty, TyList};
use crate::world::World;
use clr_base::Memory;
use sqlite_items::{Boxed, Items};
use std::alloc::Global;

/// The canonical form of a tree: each argument, and an array's element, in its shared form. Every
/// other tree is its own.
#[cycle(canon)]
#[tactic(auto, using(crate::proofs::CanonLemmas::forms))]
pub fn canon_ty(alloc: Global, world: &World, t: &Ty) -> Result<Ty, Memory>
    ensures { IfOk result (λ c. c ≡ spec.canon_ty world.now t.now) }
{
    match t {
        Ty::Inst(def, args) => {
            let parts = shared_forms(alloc, world, args.as_slice())?;
            Ok(Ty::Inst(*def, parts))
        }
        Ty::Array(e) => {
            let part = shared_form(alloc, world, e.get())?;
            Ok(Ty::Array(Boxed::new(alloc, part)?))
        }
        Ty::ByRef(_) | Ty::Ptr(_) | Ty::Var(_) | Ty::MVar(_) | Ty::Missing(_, _) | Ty::Odd(_) => {
            copy(alloc, t)
        }
    }
}

/// The shared form of a tree: System.__Canon for a reference type, else its canonical form.
#[cycle(canon)]
pub fn shared_form(alloc: Global, world: &World, t: &Ty) -> Result<Ty, Memory>
    ensures { IfOk result (λ c. c ≡ spec.shared_form world.now t.now) }
{
    if is_reference(world, t) {
        Ok(Ty::Inst(world.canon(), Items::new(alloc)))
    } else {
        canon_ty(alloc, world, t)
    }
}

/// The shared form of each of some trees.
#[cycle(canon)]
pub fn shared_forms(alloc: Global, world: &World, all: &[Ty]) -> Result<TyList, Memory>
    ensures { IfOk result (λ c. c ≡ spec.shared_forms world.now all.now) }
{
    let mut done = Items::new(alloc);
    for t in all {
        done.push(shared_form(alloc, world, t)?)?;
    }
    Ok(done)
}

/// The canonical form of a key. A method key has that of its owner, and its arguments in their
/// shared forms.
pub fn canon(alloc: Global, world: &World, key: &Key) -> Result<Key, Memory>
    ensures { IfOk result (λ k. k ≡ spec.canon world.now key.now) }
{
    match key {
        Key::Tree(t) => Ok(Key::Tree(canon_ty(alloc, world, t)?)),
        Key::Meth(k) => {
            let owner = canon_ty(alloc, world, &k.owner)?;
            let args = shared_forms(alloc, world, k.args.as_slice())?;
            Ok(Key::Meth(MethKey {
                owner,
                method: k.method,
                args,
            }))
        }
    }
}

/// Whether no managed and no unmanaged pointer stands in the tree.
#[cycle(pointer_free)]
pub fn is_pointer_free(t: &Ty) -> bool
    ensures { result ≡ spec.is_pointer_free t.now }
{
    match t {
        Ty::Inst(_, args) => are_pointer_free(args.as_slice()),
        Ty::Array(e) => is_pointer_free(e.get()),
        Ty::ByRef(_) | Ty::Ptr(_) => false,
        Ty::Var(_) | Ty::MVar(_) | Ty::Missing(_, _) | Ty::Odd(_) => true,
    }
}

#[cycle(pointer_free)]
fn are_pointer_free(all: &[Ty]) -> bool
    ensures { result ≡ spec.are_pointer_free all.now }
{
    for t in all {
        if !is_pointer_free(t) {
            return false;
        }
    }
    true
}
