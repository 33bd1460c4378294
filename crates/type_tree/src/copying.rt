//! Copies: a tree, a list or a key that equals another and shares nothing with it.

ghost use Rattle.std.specs.Prelude.{◌≡◌, IfOk};

use crate::tree::{Key, MethKey, Ty, TyList};
use clr_base::Memory;
use sqlite_items::{Boxed, Items};
use std::alloc::Global;

/// A tree that equals `t`.
#[cycle(copy)]
pub fn copy(alloc: Global, t: &Ty) -> Result<Ty, Memory>
    ensures { IfOk result (λ c. c ≡ t.now) }
{
    match t {
        Ty::Inst(def, args) => Ok(Ty::Inst(*def, copy_all(alloc, args.as_slice())?)),
        Ty::Array(e) => Ok(Ty::Array(Boxed::new(alloc, copy(alloc, e.get())?)?)),
        Ty::ByRef(e) => Ok(Ty::ByRef(Boxed::new(alloc, copy(alloc, e.get())?)?)),
        Ty::Ptr(e) => Ok(Ty::Ptr(Boxed::new(alloc, copy(alloc, e.get())?)?)),
        Ty::Var(n) => Ok(Ty::Var(*n)),
        Ty::MVar(n) => Ok(Ty::MVar(*n)),
        Ty::Missing(name, value) => Ok(Ty::Missing(*name, *value)),
        Ty::Odd(code) => Ok(Ty::Odd(*code)),
    }
}

/// A list of trees that equals `all`.
#[cycle(copy)]
pub fn copy_all(alloc: Global, all: &[Ty]) -> Result<TyList, Memory>
    ensures { IfOk result (λ c. c ≡ all.now) }
{
    let mut done = Items::new(alloc);
    for t in all {
        done.push(copy(alloc, t)?)?;
    }
    Ok(done)
}

/// A key that equals `key`.
pub fn copy_key(alloc: Global, key: &Key) -> Result<Key, Memory>
    ensures { IfOk result (λ c. c ≡ key.now) }
{
    match key {
        Key::Tree(t) => Ok(Key::Tree(copy(alloc, t)?)),
        Key::Meth(k) => {
            let owner = copy(alloc, &k.owner)?;
            let args = copy_all(alloc, k.args.as_slice())?;
            Ok(Key::Meth(MethKey {
                owner,
                method: k.method,
                args,
            }))
        }
    }
}
