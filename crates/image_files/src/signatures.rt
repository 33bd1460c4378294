//! The signatures that the rows of a file give a world.
ghost use Rattle.std.specs.Prelude.{◌≡◌, ◌≤◌};
ghost use Rattle.image_files.specs.Signatures as spec;

use cli_tables::Tables;
use image_rows::{FIELD, MEMBER_REF, METHOD_DEF, METHOD_SPEC, TYPE_DEF, TYPE_REF, TYPE_SPEC};

/// How many signatures the rows of a file have, before the local variables: two a type, one a member.
#[tactic(auto, unfolding(crate::specs::Signatures::row_sigs))]
pub fn row_sigs(tables: &Tables<'_>) -> u32
    ensures exact { result ≡ spec.row_sigs tables.now }
    ensures few { result ≤ 167772150 }
{
    let types = tables.row_count(TYPE_DEF)
        + tables.row_count(TYPE_REF)
        + tables.row_count(TYPE_SPEC);
    let members = tables.row_count(FIELD)
        + tables.row_count(METHOD_DEF)
        + tables.row_count(MEMBER_REF)
        + tables.row_count(METHOD_SPEC);
    2 * types + members
}
