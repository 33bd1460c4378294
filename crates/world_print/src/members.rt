//! Fields and methods.
use crate::definitions::{put_formals, put_trees};
use crate::numbers::put_name;
use crate::page::Page;
use crate::trees::put_tree;
use clr_base::{FieldId, MethId};
use type_tree::{Field, Method, World};

/// A field.
fn put_field(page: &mut Page, world: &World, number: u32, field: &Field) {
    page.number("field", u64::from(number));
    put_name(page, world, field.name);
    page.number("of", u64::from(field.def.0));
    page.hex("flags", field.flags);
    page.word("type");
    put_tree(page, world, &field.ty);
    if let Some(place) = field.place {
        page.number("place", u64::from(place));
    }
    page.end();
}

/// The fields from a number on.
pub fn put_fields(page: &mut Page, world: &World, first: u32) {
    for number in first..world.field_count() {
        put_field(page, world, number, world.field(FieldId(number)));
    }
}

/// The line of a method.
fn put_line(page: &mut Page, world: &World, number: u32, method: &Method) {
    page.number("method", u64::from(number));
    put_name(page, world, method.name);
    page.number("of", u64::from(method.def.0));
    page.hex("flags", method.flags);
    if method.has_this {
        page.word("this");
    }
    if method.vararg {
        page.word("vararg");
    }
    page.word("returns");
    put_tree(page, world, &method.ret);
    page.word("takes");
    put_trees(page, world, method.params.as_slice());
    page.end();
}

/// A body, where there is one.
fn put_body(page: &mut Page, body: Option<&[u8]>) {
    if let Some(bytes) = body {
        page.word(" body");
        page.bytes(bytes);
        page.end();
    }
}

/// The methods from a number on.
pub fn put_methods(page: &mut Page, world: &World, first: u32) {
    for number in first..world.method_count() {
        let method = world.method(MethId(number));
        put_line(page, world, number, method);
        put_formals(page, world, method.formals.as_slice());
        put_body(page, world.body(MethId(number)));
    }
}
