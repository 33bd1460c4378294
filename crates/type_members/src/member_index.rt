//! The members of each definition by their names, and those that a name and a signature find (ECMA-335 II.22.25).
ghost use Rattle.std.specs.Prelude.{◌≡◌, ◌<◌, ◌^◌, length, map, get_or, false, IfOk, IsTrue};
ghost use Rattle.std.specs.List.{find, range_with_len};
ghost use Rattle.std.specs.Option.{option_map};
ghost use Rattle.type_members.specs.MemberIndexes as index;
ghost use Rattle.type_members.specs.MemberIndexes.{AreFew, IsIndexOf};
ghost use Rattle.type_members.specs.MemberTable as spec;

use crate::member_groups::MemberGroups;
use crate::member_table::MemberTable;
use crate::open_method::{Open, same_open};
use clr_base::{FieldId, Memory, MethId, NameId};
use sqlite_items::{Items, at};
use std::alloc::Global;
use type_tree::{Field, Method, Ty, with_room};

/// How many members a definition has at most that are looked at one by one.
const FEW: u32 = 32;

/// The own methods and fields of each definition by their names. A definition with few of them has no groups.
#[derive(Drop)]
pub struct MemberIndex {
    methods: Items<Option<MemberGroups>>,
    fields: Items<Option<MemberGroups>>,
}

/// The name of each method.
fn method_names(alloc: Global, methods: &[Method]) -> Result<Items<NameId>, Memory>
    ensures { IfOk result (λ names. names ≡ map (λ m. m.name) methods.now) }
{
    let mut names = with_room(alloc, methods.len())?;
    for method in methods {
        names.push(method.name)?;
    }
    Ok(names)
}

/// The name of each field.
fn field_names(alloc: Global, fields: &[Field]) -> Result<Items<NameId>, Memory>
    ensures { IfOk result (λ names. names ≡ map (λ f. f.name) fields.now) }
{
    let mut names = with_room(alloc, fields.len())?;
    for field in fields {
        names.push(field.name)?;
    }
    Ok(names)
}

/// The members of a run by their names, by the names of all members of its kind; none where they are few.
fn groups_of(
    alloc: Global,
    names: &[NameId],
    first: u32,
    count: u32,
) -> Result<Option<MemberGroups>, Memory>
    requires { length names.now < 2 ^ 32 }
    ensures { IfOk result (index.HasGroups names.now first count) }
{
    if count <= FEW {
        return Ok(None);
    }
    Ok(Some(MemberGroups::new(alloc, names, first, count)?))
}

/// How many generic parameters the signature of the method with a number counts.
fn generic_count(members: &MemberTable, method: usize) -> u32
    ensures { result ≡ get_or members.now.generics method 0 }
{
    at(members.generics.as_slice(), method)
        .copied()
        .unwrap_or(0)
}

/// Whether the method with a number is the one that is wanted.
fn is_wanted(members: &MemberTable, method: u32, wanted: &Open) -> bool
    ensures { result ≡ index.is_wanted members.now wanted.now method }
{
    match members.methods.get(method as usize) {
        Some(m) => same_open(m, generic_count(members, method as usize), wanted),
        None => false,
    }
}

/// Whether the method with a number has a name and is the one that is wanted.
fn is_method(members: &MemberTable, method: usize, name: NameId, wanted: &Open) -> bool
    ensures exact { result ≡ spec.is_method members.now name wanted.now method }
    ensures there { IsTrue result → method < length members.now.methods }
{
    match members.methods.get(method) {
        Some(m) => m.name.0 == name.0 && same_open(m, generic_count(members, method), wanted),
        None => false,
    }
}

/// The first of some methods that is the one that is wanted.
fn first_method(members: &MemberTable, methods: &[u32], wanted: &Open) -> Option<MethId>
    ensures { result ≡ option_map spec.method_id (find (index.is_wanted members.now wanted.now) methods.now) }
{
    for method in methods {
        if is_wanted(members, *method, wanted) {
            return Some(MethId(*method));
        }
    }
    None
}

/// The first method of a run that has a name and is the one that is wanted.
fn method_in_run(
    members: &MemberTable,
    first: u32,
    count: u32,
    name: NameId,
    wanted: &Open,
) -> Option<MethId>
    requires { AreFew members.now }
    ensures { result ≡ option_map spec.method_id (find (spec.is_method members.now name wanted.now) (range_with_len first count)) }
{
    for k in 0..count {
        let method = first as usize + k as usize;
        if is_method(members, method, name, wanted) {
            return Some(MethId(method as u32));
        }
    }
    None
}

/// Whether the field with a number has a type.
fn has_type(members: &MemberTable, field: u32, ty: &Ty) -> bool
    ensures { result ≡ index.has_type members.now ty.now field }
{
    match members.fields.get(field as usize) {
        Some(f) => f.ty == *ty,
        None => false,
    }
}

/// Whether the field with a number has a name and a type.
fn is_field(members: &MemberTable, field: usize, name: NameId, ty: &Ty) -> bool
    ensures exact { result ≡ spec.is_field members.now name ty.now field }
    ensures there { IsTrue result → field < length members.now.fields }
{
    match members.fields.get(field) {
        Some(f) => f.name.0 == name.0 && f.ty == *ty,
        None => false,
    }
}

/// The first of some fields that has a type.
fn first_field(members: &MemberTable, fields: &[u32], ty: &Ty) -> Option<FieldId>
    ensures { result ≡ option_map spec.field_id (find (index.has_type members.now ty.now) fields.now) }
{
    for field in fields {
        if has_type(members, *field, ty) {
            return Some(FieldId(*field));
        }
    }
    None
}

/// The first field of a run that has a name and a type.
fn field_in_run(
    members: &MemberTable,
    first: u32,
    count: u32,
    name: NameId,
    ty: &Ty,
) -> Option<FieldId>
    requires { AreFew members.now }
    ensures { result ≡ option_map spec.field_id (find (spec.is_field members.now name ty.now) (range_with_len first count)) }
{
    for k in 0..count {
        let field = first as usize + k as usize;
        if is_field(members, field, name, ty) {
            return Some(FieldId(field as u32));
        }
    }
    None
}

impl MemberIndex {
    /// The index of a table of members. Takes memory for some numbers a definition, and a member of those that have many,
    /// and time in the definitions and their members.
    pub fn new(alloc: Global, members: &MemberTable) -> Result<MemberIndex, Memory>
        requires { AreFew members.now }
        ensures { IfOk result (IsIndexOf members.now) }
    {
        let method_names = method_names(alloc, members.methods.as_slice())?;
        let field_names = field_names(alloc, members.fields.as_slice())?;
        let mut methods = with_room(alloc, members.runs.len())?;
        let mut fields = with_room(alloc, members.runs.len())?;
        for r in members.runs.as_slice() {
            let names = method_names.as_slice();
            methods.push(groups_of(alloc, names, r.first_method, r.methods)?)?;
            let names = field_names.as_slice();
            fields.push(groups_of(alloc, names, r.first_field, r.fields)?)?;
        }
        Ok(MemberIndex { methods, fields })
    }

    /// The first own method of a definition that has a name and a signature. Takes no memory, and time in the signatures of
    /// those that have the name.
    pub fn own_method(
        &self,
        members: &MemberTable,
        def: u32,
        name: NameId,
        wanted: &Open,
    ) -> Option<MethId>
        requires { IsIndexOf members.now self.now }
        ensures { result ≡ spec.own_method members.now def name wanted.now }
    {
        let run = match members.runs.get(def as usize) {
            Some(run) => run,
            None => return None,
        };
        match self.methods.get(def as usize) {
            Some(Some(groups)) => first_method(members, groups.named(name), wanted),
            _ => method_in_run(members, run.first_method, run.methods, name, wanted),
        }
    }

    /// The first own field of a definition that has a name and a type. Takes no memory, and time in the types of those that
    /// have the name.
    pub fn own_field(
        &self,
        members: &MemberTable,
        def: u32,
        name: NameId,
        ty: &Ty,
    ) -> Option<FieldId>
        requires { IsIndexOf members.now self.now }
        ensures { result ≡ spec.own_field members.now def name ty.now }
    {
        let run = match members.runs.get(def as usize) {
            Some(run) => run,
            None => return None,
        };
        match self.fields.get(def as usize) {
            Some(Some(groups)) => first_field(members, groups.named(name), ty),
            _ => field_in_run(members, run.first_field, run.fields, name, ty),
        }
    }
}
