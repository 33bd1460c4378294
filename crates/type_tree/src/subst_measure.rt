//! How deep and how heavy the answer of a substitution is, told before it is built: each argument
//! is measured once, however often its variable stands in the tree. A measure past u64::MAX is
//! answered as u64::MAX.

ghost use Rattle.std.specs.Prelude.{◌≡◌, IfOk, min};
ghost use Rattle.type_tree.specs.Measure as measure;
ghost use Rattle.type_tree.specs.Subst as put;
ghost use Rattle.type_tree.specs.SubstMeasure as spec;

use crate::measure::{depth, weight};
use crate::tree::{Key, Ty, TyList};
use clr_base::Memory;
use sqlite_items::{Items, at};
use std::alloc::Global;

/// The depth of each of some trees.
fn depths(alloc: Global, all: &[Ty]) -> Result<Items<u64>, Memory>
    ensures { IfOk result (λ ds. ds ≡ spec.held_depths all.now) }
{
    let mut done = Items::new(alloc);
    for t in all {
        done.push(depth(t))?;
    }
    Ok(done)
}

/// The weight of each of some trees.
fn weights(alloc: Global, all: &[Ty]) -> Result<Items<u64>, Memory>
    ensures { IfOk result (λ ws. ws ≡ spec.held_weights all.now) }
{
    let mut done = Items::new(alloc);
    for t in all {
        done.push(weight(t))?;
    }
    Ok(done)
}

/// The measure of the argument at `n`, or 1 past the end, where the variable stays.
fn measure_at(list: &[u64], n: u32) -> u64
    ensures { result ≡ spec.measure_at list.now n }
{
    match at(list, n as usize) {
        Some(measure) => *measure,
        None => 1,
    }
}

#[cycle(put_depth)]
fn put_depth(t: &Ty, types: &[u64], methods: &[u64]) -> u64
    ensures { result ≡ min (spec.put_depth types.now methods.now t.now) 18446744073709551615 }
{
    match t {
        Ty::Inst(_, args) => put_depth_of_all(args.as_slice(), types, methods).saturating_add(1),
        Ty::Array(e) | Ty::ByRef(e) | Ty::Ptr(e) => put_depth(
            e.get(),
            types,
            methods,
        ).saturating_add(1),
        Ty::Var(n) => measure_at(types, *n),
        Ty::MVar(n) => measure_at(methods, *n),
        Ty::Missing(_, _) | Ty::Odd(_) => 1,
    }
}

#[cycle(put_depth)]
fn put_depth_of_all(all: &[Ty], types: &[u64], methods: &[u64]) -> u64
    ensures { result ≡ min (spec.put_depth_of_all types.now methods.now all.now) 18446744073709551615 }
{
    let mut most = 0;
    for t in all {
        most = put_depth(t, types, methods).max(most);
    }
    most
}

#[cycle(put_weight)]
fn put_weight(t: &Ty, types: &[u64], methods: &[u64]) -> u64
    ensures { result ≡ min (spec.put_weight types.now methods.now t.now) 18446744073709551615 }
{
    match t {
        Ty::Inst(_, args) => put_weight_of_all(args.as_slice(), types, methods).saturating_add(1),
        Ty::Array(e) | Ty::ByRef(e) | Ty::Ptr(e) => put_weight(
            e.get(),
            types,
            methods,
        ).saturating_add(1),
        Ty::Var(n) => measure_at(types, *n),
        Ty::MVar(n) => measure_at(methods, *n),
        Ty::Missing(_, _) | Ty::Odd(_) => 1,
    }
}

#[cycle(put_weight)]
fn put_weight_of_all(all: &[Ty], types: &[u64], methods: &[u64]) -> u64
    ensures { result ≡ min (spec.put_weight_of_all types.now methods.now all.now) 18446744073709551615 }
{
    let mut sum: u64 = 0;
    for t in all {
        sum = sum.saturating_add(put_weight(t, types, methods));
    }
    sum
}

/// The depth that `subst` of the same arguments has.
pub fn subst_depth(
    alloc: Global,
    key: &Key,
    types: &TyList,
    methods: &TyList,
) -> Result<u64, Memory>
    ensures { IfOk result (λ n. n ≡ min (measure.depth_of_key (put.subst key.now types.now methods.now)) 18446744073709551615) }
{
    let types = depths(alloc, types.as_slice())?;
    let methods = depths(alloc, methods.as_slice())?;
    Ok(key_depth(key, types.as_slice(), methods.as_slice()))
}

/// The weight that `subst` of the same arguments has.
pub fn subst_weight(
    alloc: Global,
    key: &Key,
    types: &TyList,
    methods: &TyList,
) -> Result<u64, Memory>
    ensures { IfOk result (λ n. n ≡ min (measure.weight_of_key (put.subst key.now types.now methods.now)) 18446744073709551615) }
{
    let types = weights(alloc, types.as_slice())?;
    let methods = weights(alloc, methods.as_slice())?;
    Ok(key_weight(key, types.as_slice(), methods.as_slice()))
}

fn key_depth(key: &Key, types: &[u64], methods: &[u64]) -> u64
    ensures { result ≡ min (spec.put_depth_of_key types.now methods.now key.now) 18446744073709551615 }
{
    match key {
        Key::Tree(t) => put_depth(t, types, methods),
        Key::Meth(k) => put_depth(&k.owner, types, methods)
            .max(put_depth_of_all(k.args.as_slice(), types, methods))
            .saturating_add(1),
    }
}

fn key_weight(key: &Key, types: &[u64], methods: &[u64]) -> u64
    ensures { result ≡ min (spec.put_weight_of_key types.now methods.now key.now) 18446744073709551615 }
{
    match key {
        Key::Tree(t) => put_weight(t, types, methods),
        Key::Meth(k) => put_weight(&k.owner, types, methods)
            .saturating_add(put_weight_of_all(k.args.as_slice(), types, methods))
            .saturating_add(1),
    }
}
