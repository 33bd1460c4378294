//! Trees and keys: their texts, what is read of a text, substitution, canonical forms.
use crate::definitions::put_trees;
use crate::page::Page;
use clr_base::{Memory, SigId};
use sqlite_items::Items;
use std::alloc::{AllocError, Global};
use type_tree::{
    Key, Ty, TyList, World, canon, canon_ty, depth, depth_of_key, is_reference, is_value, key_of,
    read_type_text, same_key, shared_form, subst_depth, subst_weight, type_text, weight,
    weight_of_key,
};

/// The text of a tree.
pub fn put_tree(page: &mut Page, world: &World, t: &Ty) {
    match type_text(page.alloc, world, t) {
        Ok(text) => page.word(text.as_str()),
        Err(_) => page.lose(),
    }
}

/// A key.
fn put_key(page: &mut Page, world: &World, key: &Key) {
    match key {
        Key::Tree(t) => put_tree(page, world, t),
        Key::Meth(key) => {
            put_tree(page, world, &key.owner);
            page.number("method", u64::from(key.method.0));
            put_trees(page, world, key.args.as_slice());
        }
    }
}

/// What a tree begins with, where its text leaves that open: which definition, what is missing, the code of an odd form.
fn put_head(page: &mut Page, t: &Ty) {
    match t {
        Ty::Inst(def, _) => page.number("definition", u64::from(def.0)),
        Ty::Missing(_, true) => page.word("missing value"),
        Ty::Missing(_, false) => page.word("missing reference"),
        Ty::Odd(code) => page.number("code", u64::from(*code)),
        _ => {}
    }
}

/// A signature.
fn put_signature(page: &mut Page, world: &World, number: u32, key: &Key) {
    page.number("signature", u64::from(number));
    put_key(page, world, key);
    if let Key::Tree(t) = key {
        put_head(page, t);
    }
    page.end();
}

/// The signatures from a number on.
pub fn put_signatures(page: &mut Page, world: &World, first: u32) {
    for number in first..world.sig_count() {
        put_signature(page, world, number, world.sig(SigId(number)));
    }
}

/// A tree that is made, behind what it tells.
fn put_made(page: &mut Page, world: &World, label: &str, made: Result<Ty, Memory>) {
    match made {
        Ok(t) => {
            page.word(label);
            put_tree(page, world, &t);
        }
        Err(Memory) => page.lose(),
    }
}

/// Whether a tree is a value type, a reference type or neither.
fn kind(world: &World, t: &Ty) -> &'static str {
    if is_value(world, t) {
        "value"
    } else if is_reference(world, t) {
        "reference"
    } else {
        "neither"
    }
}

/// A tree: its text, its definition, its kind, its canonical form and its shared form.
fn put_facts(page: &mut Page, world: &World, t: &Ty) {
    put_tree(page, world, t);
    put_head(page, t);
    page.number("depth", depth(t));
    page.number("weight", weight(t));
    page.word(kind(world, t));
    put_made(page, world, "canonical", canon_ty(page.alloc, world, t));
    put_made(page, world, "shared", shared_form(page.alloc, world, t));
    page.end();
}

/// The tree of a text.
pub fn put_read(page: &mut Page, world: &World, text: &str) {
    match read_type_text(page.alloc, world, text) {
        Ok(Some(t)) => put_facts(page, world, &t),
        Ok(None) => page.put(" refused\n"),
        Err(Memory) => page.lose(),
    }
}

/// A name so often round itself, in so many arrays.
fn nested(alloc: Global, name: &str, (levels, arrays): (u32, u32)) -> Result<String, AllocError> {
    let mut text = String::new(alloc);
    for _ in 0..levels {
        text.push_str(name)?;
        text.push_str("[")?;
    }
    text.push_str(name)?;
    for _ in 0..levels {
        text.push_str("]")?;
    }
    for _ in 0..arrays {
        text.push_str("[]")?;
    }
    Ok(text)
}

/// The depth and the weight of the tree of a text, which isn't printed.
fn put_measures(page: &mut Page, world: &World, text: &str) {
    match read_type_text(page.alloc, world, text) {
        Ok(Some(t)) => {
            page.number("depth", depth(&t));
            page.number("weight", weight(&t));
            page.end();
        }
        Ok(None) => page.put(" refused\n"),
        Err(Memory) => page.lose(),
    }
}

/// The tree of a name so often round itself, in so many arrays.
pub fn put_nested(page: &mut Page, world: &World, name: &str, counts: (u32, u32)) {
    match nested(page.alloc, name, counts) {
        Ok(text) => put_measures(page, world, text.as_str()),
        Err(_) => page.lose(),
    }
}

/// The arguments of a tree that is an instantiation.
fn arguments(t: &Ty) -> Option<&TyList> {
    match t {
        Ty::Inst(_, args) => Some(args),
        _ => None,
    }
}

/// A measure that is told.
fn put_told(page: &mut Page, label: &str, told: Result<u64, Memory>) {
    match told {
        Ok(told) => page.number(label, told),
        Err(Memory) => page.lose(),
    }
}

/// The depth and the weight of what a signature stands for in a context, told before it is made.
fn put_told_measures(page: &mut Page, context: &Key, sig: &Key) {
    let none = Items::new(page.alloc);
    let (owner, methods) = match context {
        Key::Tree(t) => (t, &none),
        Key::Meth(key) => (&key.owner, &key.args),
    };
    let types = arguments(owner).unwrap_or(&none);
    put_told(
        page,
        "told depth",
        subst_depth(page.alloc, sig, types, methods),
    );
    put_told(
        page,
        "weight",
        subst_weight(page.alloc, sig, types, methods),
    );
}

/// The canonical form of a key, which is made.
fn put_canonical(page: &mut Page, world: &World, made: Result<Key, Memory>) {
    match made {
        Ok(key) => put_key(page, world, &key),
        Err(Memory) => page.lose(),
    }
}

/// A key: itself, its depth and weight, its canonical form.
fn put_key_facts(page: &mut Page, world: &World, key: &Key) {
    put_key(page, world, key);
    page.number("depth", depth_of_key(key));
    page.number("weight", weight_of_key(key));
    page.word("canonical");
    put_canonical(page, world, canon(page.alloc, world, key));
    page.end();
}

/// A key that is made.
fn put_made_key(page: &mut Page, world: &World, made: Result<Key, Memory>) {
    match made {
        Ok(key) => put_key_facts(page, world, &key),
        Err(Memory) => page.lose(),
    }
}

/// What the second signature stands for in the first, with what is told before it is made.
pub fn put_in(page: &mut Page, world: &World, (context, sig): (u32, u32)) {
    if context < world.sig_count() && sig < world.sig_count() {
        let (context, sig) = (world.sig(SigId(context)), world.sig(SigId(sig)));
        put_told_measures(page, context, sig);
        page.word("is");
        put_made_key(page, world, key_of(page.alloc, Some(context), sig));
    }
}

/// What a signature stands for without a context.
pub fn put_alone(page: &mut Page, world: &World, sig: u32) {
    if sig < world.sig_count() {
        let key = key_of(page.alloc, None, world.sig(SigId(sig)));
        put_made_key(page, world, key);
    }
}

/// Whether two signatures are the same.
pub fn put_same(page: &mut Page, world: &World, (first, second): (u32, u32)) {
    if first < world.sig_count() && second < world.sig_count() {
        let is_same = same_key(world.sig(SigId(first)), world.sig(SigId(second)));
        page.put(if is_same { " same\n" } else { " different\n" });
    }
}
