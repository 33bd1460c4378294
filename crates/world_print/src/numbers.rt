//! Counts, names, roots, and what the tokens of a file name.
use crate::page::Page;
use clr_base::{NameId, SigId};
use type_tree::{Member, Token, World};

/// How many there are of each kind, and the definitions that rules name.
pub fn put_counts(page: &mut Page, world: &World) {
    page.number("names", u64::from(world.name_count()));
    page.number("definitions", u64::from(world.def_count()));
    page.number("fields", u64::from(world.field_count()));
    page.number("methods", u64::from(world.method_count()));
    page.number("signatures", u64::from(world.sig_count()));
    page.number("roots", u64::from(world.root_count()));
    page.end();
    page.number("System.ValueType", u64::from(world.value_type().0));
    page.number("System.Enum", u64::from(world.enumeration().0));
    page.number("System.__Canon", u64::from(world.canon().0));
    page.end();
}

/// A name.
pub fn put_name(page: &mut Page, world: &World, name: NameId) {
    if name.0 < world.name_count() {
        page.word(world.name(name));
    }
}

/// The names from a number on.
pub fn put_names(page: &mut Page, world: &World, first: u32) {
    for number in first..world.name_count() {
        page.number("name", u64::from(number));
        put_name(page, world, NameId(number));
        page.end();
    }
}

/// The roots.
pub fn put_roots(page: &mut Page, world: &World) {
    for number in 0..world.root_count() {
        let root = world.root(number);
        page.number("root", u64::from(number));
        page.number("signature", u64::from(root.sig.0));
        if let Some(method) = root.method {
            page.number("method", u64::from(method.0));
        }
        page.end();
    }
}

/// What a token names.
fn put_named(page: &mut Page, token: Token) {
    page.number("signature", u64::from(token.sig.0));
    if let Some(SigId(array)) = token.array {
        page.number("array", u64::from(array));
    }
    match token.member {
        Member::NoMember => {}
        Member::Field(field) => page.number("field", u64::from(field.0)),
        Member::Method(method) => page.number("method", u64::from(method.0)),
        Member::Lost => page.word("lost"),
    }
    page.end();
}

/// A token of a file, and what it names.
pub fn put_token(page: &mut Page, world: &World, file: u32, token: u32) {
    page.hex("token", token);
    match world.token(file, token) {
        Some(named) => put_named(page, named),
        None => page.put(" none\n"),
    }
}

/// All tokens of a table of a file.
fn put_table(page: &mut Page, world: &World, file: u32, table: u32) {
    for row in 1..0x100_0000 {
        let token = table.saturating_mul(0x100_0000).saturating_add(row);
        if world.token(file, token).is_none() {
            return;
        }
        put_token(page, world, file, token);
    }
}

/// All tokens of a file: TypeDef, TypeRef, TypeSpec, Field, MethodDef, MemberRef, MethodSpec.
pub fn put_tokens(page: &mut Page, world: &World, file: u32) {
    for table in [0x02, 0x01, 0x1b, 0x04, 0x06, 0x0a, 0x2b] {
        put_table(page, world, file, table);
    }
}

/// The local variables of a row of StandAloneSig.
pub fn put_locals(page: &mut Page, world: &World, file: u32, row: u32) {
    match world.locals(file, row) {
        Some(locals) => {
            page.number("signatures", u64::from(locals.count));
            page.number("from", u64::from(locals.first.0));
            page.end();
        }
        None => page.put(" none\n"),
    }
}

/// A user string.
pub fn put_text(page: &mut Page, world: &World, file: u32, index: u32) {
    match world.text(file, index) {
        Some(text) => {
            page.number("bytes", text.len() as u64);
            page.bytes(text);
            page.end();
        }
        None => page.put(" none\n"),
    }
}
