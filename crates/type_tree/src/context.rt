//! The key of a context and a signature.

ghost use Rattle.std.specs.Prelude.{◌≡◌, IfOk};
ghost use Rattle.std.specs.Option.{option_copied};
ghost use Rattle.type_tree.specs.Context as spec;

use crate::copying::copy_key;
use crate::substitution::subst_key;
use crate::tree::{Key, Ty};
use clr_base::Memory;
use std::alloc::Global;

/// The arguments of a type, none where it is no instantiation.
fn arguments(t: &Ty) -> &[Ty]
    ensures { result.now ≡ spec.arguments t.now }
{
    match t {
        Ty::Inst(_, args) => args.as_slice(),
        Ty::Array(_)
        | Ty::ByRef(_)
        | Ty::Ptr(_)
        | Ty::Var(_)
        | Ty::MVar(_)
        | Ty::Missing(_, _)
        | Ty::Odd(_) => &[],
    }
}

/// The key that a signature stands for in a context, a loaded type or method: a type's variables are
/// put in from the type, or from the type that owns the method, and a method's from the method.
/// Without a context it is the signature.
pub fn key_of(alloc: Global, context: Option<&Key>, sig: &Key) -> Result<Key, Memory>
    ensures { IfOk result (λ k. k ≡ spec.key_of (option_copied context.entry) sig.now) }
{
    match context {
        None => copy_key(alloc, sig),
        Some(Key::Tree(t)) => subst_key(alloc, sig, arguments(t), &[]),
        Some(Key::Meth(k)) => subst_key(alloc, sig, arguments(&k.owner), k.args.as_slice()),
    }
}
