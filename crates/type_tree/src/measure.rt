//! How deep and how heavy a tree or a key is. A measure past u64::MAX is answered as u64::MAX.

ghost use Rattle.std.specs.Prelude.{◌≡◌, min};
ghost use Rattle.type_tree.specs.Measure as spec;

use crate::tree::{Key, Ty};

/// The depth of a tree: 1 without parts, else one more than that of its deepest part.
#[cycle(depth)]
pub fn depth(t: &Ty) -> u64
    ensures { result ≡ min (spec.depth t.now) 18446744073709551615 }
{
    match t {
        Ty::Inst(_, args) => depth_of_all(args.as_slice()).saturating_add(1),
        Ty::Array(e) | Ty::ByRef(e) | Ty::Ptr(e) => depth(e.get()).saturating_add(1),
        Ty::Var(_) | Ty::MVar(_) | Ty::Missing(_, _) | Ty::Odd(_) => 1,
    }
}

/// The depth of the deepest of some trees, 0 of none.
#[cycle(depth)]
pub fn depth_of_all(all: &[Ty]) -> u64
    ensures { result ≡ min (spec.depth_of_all all.now) 18446744073709551615 }
{
    let mut most = 0;
    for t in all {
        most = depth(t).max(most);
    }
    most
}

/// The depth of a key; the parts of a method key are its owner and its arguments.
pub fn depth_of_key(key: &Key) -> u64
    ensures { result ≡ min (spec.depth_of_key key.now) 18446744073709551615 }
{
    match key {
        Key::Tree(t) => depth(t),
        Key::Meth(k) => depth(&k.owner)
            .max(depth_of_all(k.args.as_slice()))
            .saturating_add(1),
    }
}

/// The weight of a tree: 1 and the weights of its parts.
#[cycle(weight)]
pub fn weight(t: &Ty) -> u64
    ensures { result ≡ min (spec.weight t.now) 18446744073709551615 }
{
    match t {
        Ty::Inst(_, args) => weight_of_all(args.as_slice()).saturating_add(1),
        Ty::Array(e) | Ty::ByRef(e) | Ty::Ptr(e) => weight(e.get()).saturating_add(1),
        Ty::Var(_) | Ty::MVar(_) | Ty::Missing(_, _) | Ty::Odd(_) => 1,
    }
}

/// The weights of some trees together.
#[cycle(weight)]
pub fn weight_of_all(all: &[Ty]) -> u64
    ensures { result ≡ min (spec.weight_of_all all.now) 18446744073709551615 }
{
    let mut sum: u64 = 0;
    for t in all {
        sum = sum.saturating_add(weight(t));
    }
    sum
}

/// The weight of a key; the parts of a method key are its owner and its arguments.
pub fn weight_of_key(key: &Key) -> u64
    ensures { result ≡ min (spec.weight_of_key key.now) 18446744073709551615 }
{
    match key {
        Key::Tree(t) => weight(t),
        Key::Meth(k) => weight(&k.owner)
            .saturating_add(weight_of_all(k.args.as_slice()))
            .saturating_add(1),
    }
}
