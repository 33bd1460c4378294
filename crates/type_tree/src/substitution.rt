//! Arguments put in for variables.

ghost use Rattle.std.specs.Prelude.{◌≡◌, IfOk};
ghost use Rattle.type_tree.specs.Subst as spec;

use crate::copying::copy;
use crate::tree::{Key, MethKey, Ty, TyList};
use clr_base::Memory;
use sqlite_items::{Boxed, Items, at};
use std::alloc::Global;

/// The tree at `n`, or `otherwise` past the end.
fn entry(alloc: Global, list: &[Ty], n: u32, otherwise: &Ty) -> Result<Ty, Memory>
    ensures { IfOk result (λ t. t ≡ spec.entry list.now n otherwise.now) }
{
    match at(list, n as usize) {
        Some(t) => copy(alloc, t),
        None => copy(alloc, otherwise),
    }
}

/// The tree with `types` put in for the variables of a type and `methods` for those of a method; a
/// variable past its list stays.
#[cycle(subst)]
pub fn subst_ty(alloc: Global, t: &Ty, types: &[Ty], methods: &[Ty]) -> Result<Ty, Memory>
    ensures { IfOk result (λ c. c ≡ spec.subst_ty types.now methods.now t.now) }
{
    match t {
        Ty::Inst(def, args) => {
            let parts = subst_all(alloc, args.as_slice(), types, methods)?;
            Ok(Ty::Inst(*def, parts))
        }
        Ty::Array(e) => {
            let part = subst_ty(alloc, e.get(), types, methods)?;
            Ok(Ty::Array(Boxed::new(alloc, part)?))
        }
        Ty::ByRef(e) => {
            let part = subst_ty(alloc, e.get(), types, methods)?;
            Ok(Ty::ByRef(Boxed::new(alloc, part)?))
        }
        Ty::Ptr(e) => {
            let part = subst_ty(alloc, e.get(), types, methods)?;
            Ok(Ty::Ptr(Boxed::new(alloc, part)?))
        }
        Ty::Var(n) => entry(alloc, types, *n, t),
        Ty::MVar(n) => entry(alloc, methods, *n, t),
        Ty::Missing(name, value) => Ok(Ty::Missing(*name, *value)),
        Ty::Odd(code) => Ok(Ty::Odd(*code)),
    }
}

/// Each of some trees with `types` and `methods` put in.
#[cycle(subst)]
pub fn subst_all(alloc: Global, all: &[Ty], types: &[Ty], methods: &[Ty]) -> Result<TyList, Memory>
    ensures { IfOk result (λ c. c ≡ spec.subst_all types.now methods.now all.now) }
{
    let mut done = Items::new(alloc);
    for t in all {
        done.push(subst_ty(alloc, t, types, methods)?)?;
    }
    Ok(done)
}

/// The key with `types` and `methods` put in for its variables; a variable past its list stays.
pub(crate) fn subst_key(
    alloc: Global,
    key: &Key,
    types: &[Ty],
    methods: &[Ty],
) -> Result<Key, Memory>
    ensures { IfOk result (λ k. k ≡ spec.subst key.now types.now methods.now) }
{
    match key {
        Key::Tree(t) => Ok(Key::Tree(subst_ty(alloc, t, types, methods)?)),
        Key::Meth(k) => {
            let owner = subst_ty(alloc, &k.owner, types, methods)?;
            let args = subst_all(alloc, k.args.as_slice(), types, methods)?;
            Ok(Key::Meth(MethKey {
                owner,
                method: k.method,
                args,
            }))
        }
    }
}

/// The key with `types` and `methods` put in for its variables; a variable past its list stays.
pub fn subst(alloc: Global, key: &Key, types: &TyList, methods: &TyList) -> Result<Key, Memory>
    ensures { IfOk result (λ k. k ≡ spec.subst key.now types.now methods.now) }
{
    subst_key(alloc, key, types.as_slice(), methods.as_slice())
}
