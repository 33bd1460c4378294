//! Definitions.
use crate::numbers::put_name;
use crate::page::Page;
use crate::trees::put_tree;
use clr_base::{DefId, MethId};
use type_tree::{Def, Formal, Impl, Ty, World};

/// Generic parameters: the flags of each, and its constraints.
pub fn put_formals(page: &mut Page, world: &World, formals: &[Formal]) {
    for formal in formals {
        page.hex(" parameter", formal.flags);
        put_trees(page, world, formal.constraints.as_slice());
        page.end();
    }
}

/// Trees.
pub fn put_trees(page: &mut Page, world: &World, list: &[Ty]) {
    for t in list {
        put_tree(page, world, t);
    }
}

/// The interfaces that a definition declares.
fn put_interfaces(page: &mut Page, world: &World, list: &[Ty]) {
    for t in list {
        page.word(" implements");
        put_tree(page, world, t);
        page.end();
    }
}

/// A method that a MethodImpl row names.
fn put_method(page: &mut Page, label: &str, method: Option<MethId>) {
    match method {
        Some(method) => page.number(label, u64::from(method.0)),
        None => {
            page.word(label);
            page.word("lost");
        }
    }
}

/// MethodImpl rows: the owner of the declaration, the declaration, the body.
fn put_impls(page: &mut Page, world: &World, impls: &[Impl]) {
    for row in impls {
        page.word(" overrides");
        put_tree(page, world, &row.owner);
        put_method(page, "method", row.declaration);
        put_method(page, "by", row.body);
        page.end();
    }
}

/// The line of a definition.
fn put_line(page: &mut Page, world: &World, number: u32, def: &Def) {
    page.number("definition", u64::from(number));
    put_name(page, world, def.name);
    page.number("file", u64::from(def.file));
    page.hex("flags", def.flags);
    page.number("fields", u64::from(def.fields));
    page.number("from", u64::from(def.first_field));
    page.number("methods", u64::from(def.methods));
    page.number("from", u64::from(def.first_method));
    page.number("packing", u64::from(def.packing));
    page.number("size", u64::from(def.least_size));
    if world.is_value_def(DefId(number)) {
        page.word("value");
    }
    page.end();
}

/// A definition.
fn put_definition(page: &mut Page, world: &World, number: u32, def: &Def) {
    put_line(page, world, number, def);
    if let Some(parent) = &def.parent {
        page.word(" extends");
        put_tree(page, world, parent);
        page.end();
    }
    put_formals(page, world, def.formals.as_slice());
    put_interfaces(page, world, def.interfaces.as_slice());
    put_impls(page, world, def.impls.as_slice());
}

/// The definitions from a number on.
pub fn put_definitions(page: &mut Page, world: &World, first: u32) {
    for number in first..world.def_count() {
        put_definition(page, world, number, world.def(DefId(number)));
    }
}
