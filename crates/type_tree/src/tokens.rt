//! What the tokens of a file name (ECMA-335 II.22, III.1.9).

ghost use Rattle.std.specs.Prelude.{◌≡◌, ◌+◌, ◌<◌, ◌≤◌, ◌^◌, length, slice_get, Some};
ghost use Rattle.type_tree.specs.Tokens as spec;
ghost use Rattle.type_tree.specs.Tokens.{IsNumbered};

use crate::parts::{Locals, Member, Token, WorldFile};
use clr_base::{FieldId, MethId, SigId};
use sqlite_items::at;

/// The numbers of the tables whose rows tokens name (II.22).
const TYPE_REF: u32 = 0x01;

const TYPE_DEF: u32 = 0x02;

const FIELD: u32 = 0x04;

const METHOD_DEF: u32 = 0x06;

const MEMBER_REF: u32 = 0x0a;

const TYPE_SPEC: u32 = 0x1b;

const METHOD_SPEC: u32 = 0x2b;

/// How many rows name types.
fn type_rows(file: &WorldFile) -> u32
    requires { IsNumbered file.now }
    ensures { result ≡ spec.type_rows file.now }
{
    file.type_defs + file.type_refs + file.type_specs
}

/// A row of a table of types, where `before` rows of types stand before the table's.
fn type_token(file: &WorldFile, before: u32, rows: u32, row: u32) -> Option<Token>
    requires numbered { IsNumbered file.now }
    requires within { before + rows ≤ spec.type_rows file.now }
    ensures { result ≡ spec.in_rows rows row (spec.type_token file.now before row) }
{
    if row == 0 || row > rows {
        return None;
    }
    let sig = file.first_sig.0 + before + (row - 1);
    Some(Token {
        sig: SigId(sig),
        array: Some(SigId(sig + type_rows(file))),
        member: Member::NoMember,
    })
}

/// A row of a table of members, where `before` rows of members stand before the table's.
fn member_token(file: &WorldFile, before: u32, row: u32, member: Member) -> Token
    requires numbered { IsNumbered file.now }
    requires exists { 0 < row }
    requires within { before + row ≤ spec.member_rows file.now }
    ensures { result ≡ spec.member_token file.now before row member }
{
    Token {
        sig: SigId(file.first_sig.0 + 2 * type_rows(file) + before + (row - 1)),
        array: None,
        member,
    }
}

/// The field of a Field row. A row that no definition owns has none.
fn field_token(file: &WorldFile, row: u32) -> Option<Token>
    requires { IsNumbered file.now }
    ensures { result ≡ spec.in_rows file.now.fields row (spec.member_token file.now 0 row (spec.field_of file.now row)) }
{
    if row == 0 || row > file.fields {
        return None;
    }
    let member = if row <= file.loose_fields {
        Member::Lost
    } else {
        Member::Field(FieldId(file.first_field.0 + (row - 1)))
    };
    Some(member_token(file, 0, row, member))
}

/// The method of a MethodDef row. A row that no definition owns has none.
fn method_token(file: &WorldFile, row: u32) -> Option<Token>
    requires { IsNumbered file.now }
    ensures { result ≡ spec.in_rows file.now.methods row (spec.member_token file.now file.now.fields row (spec.method_of file.now row)) }
{
    if row == 0 || row > file.methods {
        return None;
    }
    let member = if row <= file.loose_methods {
        Member::Lost
    } else {
        Member::Method(MethId(file.first_method.0 + (row - 1)))
    };
    Some(member_token(file, file.fields, row, member))
}

/// A row whose member is listed.
fn listed_token(file: &WorldFile, before: u32, members: &[Member], row: u32) -> Option<Token>
    requires numbered { IsNumbered file.now }
    requires within { before + length members.now ≤ spec.member_rows file.now }
    ensures { result ≡ spec.in_rows (length members.now) row (spec.member_token file.now before row (spec.listed members.now row)) }
{
    if row == 0 || row as usize > members.len() {
        return None;
    }
    let member = *nth(members, row as usize - 1);
    Some(member_token(file, before, row, member))
}

/// What the token of a row of a table stands for.
#[tactic(auto, unfolding(crate::specs::Tokens::row_token))]
pub(crate) fn row_token(file: &WorldFile, table: u32, row: u32) -> Option<Token>
    requires { IsNumbered file.now }
    ensures { result ≡ spec.row_token file.now table row }
{
    match table {
        TYPE_DEF => type_token(file, 0, file.type_defs, row),
        TYPE_REF => type_token(file, file.type_defs, file.type_refs, row),
        TYPE_SPEC => type_token(file, file.type_defs + file.type_refs, file.type_specs, row),
        FIELD => field_token(file, row),
        METHOD_DEF => method_token(file, row),
        MEMBER_REF => member_ref_token(file, row),
        METHOD_SPEC => method_spec_token(file, row),
        _ => None,
    }
}

/// What stands for a MemberRef row.
fn member_ref_token(file: &WorldFile, row: u32) -> Option<Token>
    requires { IsNumbered file.now }
    ensures { result ≡ spec.in_rows (length file.now.member_refs) row (spec.member_token file.now (file.now.fields + file.now.methods) row (spec.listed file.now.member_refs row)) }
{
    let before = file.fields + file.methods;
    listed_token(file, before, file.member_refs.as_slice(), row)
}

/// What stands for a MethodSpec row.
fn method_spec_token(file: &WorldFile, row: u32) -> Option<Token>
    requires { IsNumbered file.now }
    ensures { result ≡ spec.in_rows (length file.now.method_specs) row (spec.member_token file.now (file.now.fields + file.now.methods + length file.now.member_refs) row (spec.listed file.now.method_specs row)) }
{
    let before = file.fields + file.methods + file.member_refs.len() as u32;
    listed_token(file, before, file.method_specs.as_slice(), row)
}

/// The local variables that a StandAloneSig row lists.
pub(crate) fn row_locals(file: &WorldFile, row: u32) -> Option<Locals>
    ensures { result ≡ spec.row_locals file.now row }
{
    if row == 0 {
        return None;
    }
    match at(file.locals.as_slice(), row as usize - 1) {
        Some(locals) => *locals,
        None => None,
    }
}

/// The item at a place.
pub(crate) fn nth<T>(items: &[T], place: usize) -> &T
    requires { place < length items.now }
    ensures { slice_get items.now place ≡ Some result.now }
{
    &items[place]
}
