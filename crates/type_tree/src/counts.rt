//! How many things a world has, and whether a number stands for one of them.

ghost use Rattle.std.specs.Prelude.{◌≡◌};
ghost use Rattle.type_tree.specs.Fits as spec;

use crate::definition::{Def, Field, Formal, Impl, Method};
use crate::tree::{Key, Ty};
use clr_base::MethId;

/// How many things of each kind there are.
#[derive(Clone, Copy)]
pub struct Counts {
    pub names: usize,
    pub defs: usize,
    pub methods: usize,
    pub fields: usize,
    pub sigs: usize,
    pub files: usize,
}

/// Whether each number in a tree is below the count of its kind.
#[cycle(fits)]
pub fn fits(counts: &Counts, t: &Ty) -> bool
    ensures { result ≡ spec.fits counts.now t.now }
{
    match t {
        Ty::Inst(def, args) => (def.0 as usize) < counts.defs && all_fit(counts, args.as_slice()),
        Ty::Array(e) | Ty::ByRef(e) | Ty::Ptr(e) => fits(counts, e.get()),
        Ty::Missing(name, _) => (name.0 as usize) < counts.names,
        Ty::Var(_) | Ty::MVar(_) | Ty::Odd(_) => true,
    }
}

/// Whether each number in some trees is below the count of its kind.
#[cycle(fits)]
pub fn all_fit(counts: &Counts, all: &[Ty]) -> bool
    ensures { result ≡ spec.all_fit counts.now all.now }
{
    for t in all {
        if !fits(counts, t) {
            return false;
        }
    }
    true
}

/// Whether each number in a key is below the count of its kind.
pub fn key_fits(counts: &Counts, key: &Key) -> bool
    ensures { result ≡ spec.key_fits counts.now key.now }
{
    match key {
        Key::Tree(t) => fits(counts, t),
        Key::Meth(k) => {
            (k.method.0 as usize) < counts.methods
                && fits(counts, &k.owner)
                && all_fit(counts, k.args.as_slice())
        }
    }
}

fn parent_fits(counts: &Counts, parent: &Option<Ty>) -> bool
    ensures { result ≡ spec.parent_fits counts.now parent.now }
{
    match parent {
        Some(t) => fits(counts, t),
        None => true,
    }
}

pub(crate) fn method_is_below(counts: &Counts, method: Option<MethId>) -> bool
    ensures { result ≡ spec.method_is_below counts.now method }
{
    match method {
        Some(method) => (method.0 as usize) < counts.methods,
        None => true,
    }
}

fn formals_fit(counts: &Counts, formals: &[Formal]) -> bool
    ensures { result ≡ spec.formals_fit counts.now formals.now }
{
    formals
        .iter()
        .all(|formal| all_fit(counts, formal.constraints.as_slice()))
}

fn impl_fits(counts: &Counts, row: &Impl) -> bool
    ensures { result ≡ spec.impl_fits counts.now row.now }
{
    method_is_below(counts, row.body)
        && fits(counts, &row.owner)
        && method_is_below(counts, row.declaration)
}

fn impls_fit(counts: &Counts, impls: &[Impl]) -> bool
    ensures { result ≡ spec.impls_fit counts.now impls.now }
{
    impls.iter().all(|row| impl_fits(counts, row))
}

/// Whether a run of things is within their count.
pub(crate) fn is_within(first: u32, len: u32, count: usize) -> bool
    ensures { result ≡ spec.is_within first len count }
{
    first as usize + len as usize <= count
}

fn members_within(counts: &Counts, def: &Def) -> bool
    ensures { result ≡ spec.members_within counts.now def.now }
{
    is_within(def.first_field, def.fields, counts.fields)
        && is_within(def.first_method, def.methods, counts.methods)
}

/// Whether each number in a definition is below the count of its kind.
pub(crate) fn def_fits(counts: &Counts, def: &Def) -> bool
    ensures { result ≡ spec.def_fits counts.now def.now }
{
    (def.name.0 as usize) < counts.names
        && def.file as usize <= counts.files
        && members_within(counts, def)
        && parent_fits(counts, &def.parent)
        && formals_fit(counts, def.formals.as_slice())
        && all_fit(counts, def.interfaces.as_slice())
        && impls_fit(counts, def.impls.as_slice())
}

/// Whether each number in a method is below the count of its kind.
pub(crate) fn method_fits(counts: &Counts, method: &Method) -> bool
    ensures { result ≡ spec.method_fits counts.now method.now }
{
    (method.name.0 as usize) < counts.names
        && (method.def.0 as usize) < counts.defs
        && formals_fit(counts, method.formals.as_slice())
        && fits(counts, &method.ret)
        && all_fit(counts, method.params.as_slice())
}

/// Whether each number in a field is below the count of its kind.
pub(crate) fn field_fits(counts: &Counts, field: &Field) -> bool
    ensures { result ≡ spec.field_fits counts.now field.now }
{
    (field.name.0 as usize) < counts.names
        && (field.def.0 as usize) < counts.defs
        && fits(counts, &field.ty)
}
