//! The members of a file's MemberRef rows (ECMA-335 II.22.25), each reference looked up once.
ghost use Rattle.std.specs.Prelude.{◌≡◌, ◌≤◌, IfOk, OnOk};
ghost use Rattle.cli_tables.specs.Layout.{row_count};
ghost use Rattle.world_build.specs.MemberRefs as spec;
ghost use Rattle.world_build.specs.References.{member_ref as member_of_row};

use crate::reader::Reader;
use crate::references::{CLASS, NAME, SIGNATURE, member_ref};
use cli_tables::Tables;
use clr_base::Memory;
use image_rows::MEMBER_REF;
use indexmap::IndexMap;
use sqlite_items::Items;
use std::alloc::Global;
use type_tree::{Member, with_room};

/// What a MemberRef row says: the number in each of its columns. Rows that say the same have the same member.
#[derive(Clone, Copy, PartialEq, Eq, Hash)]
pub(crate) struct RefCells {
    pub class: u32,
    pub name: u32,
    pub signature: u32,
}

/// What a row says.
#[tactic(auto, unfolding(cli_tables::specs::Schema::columns))]
fn cells_of(tables: &Tables<'_>, row: u32) -> RefCells
    requires first { 1 ≤ row }
    requires last { row ≤ row_count tables.now.tables 0x0A }
    ensures { result ≡ spec.cells_of tables.now row }
{
    RefCells {
        class: tables.cell(MEMBER_REF, row, CLASS),
        name: tables.cell(MEMBER_REF, row, NAME),
        signature: tables.cell(MEMBER_REF, row, SIGNATURE),
    }
}

/// The member of a row, which is looked up where that of what the row says isn't noted yet.
fn noted_member(
    alloc: Global,
    reader: &Reader<'_, '_>,
    noted: &mut IndexMap<RefCells, Member>,
    row: u32,
) -> Result<Member, Memory>
    requires first { 1 ≤ row }
    requires last { row ≤ row_count reader.now.tables.tables 0x0A }
    requires noted { spec.AreNoted reader.now noted.old }
    ensures member { IfOk result (λ member. member ≡ member_of_row reader.now row) }
    ensures noted { OnOk result (spec.AreNoted reader.now noted.new) }
{
    let cells = cells_of(reader.tables(), row);
    if let Some(member) = noted.get(&cells) {
        return Ok(*member);
    }
    let member = member_ref(alloc, reader, row)?;
    noted.insert(cells, member)?;
    Ok(member)
}

/// The member of each MemberRef row. What many rows say alike is looked up once. Takes memory for some numbers a row, and
/// time in the rows and in the signatures and names that differ.
pub fn members_of_refs(alloc: Global, reader: &Reader<'_, '_>) -> Result<Items<Member>, Memory>
    ensures { IfOk result (λ members. members ≡ spec.members_of_refs reader.now) }
{
    let count = reader.tables().row_count(MEMBER_REF);
    let mut noted = IndexMap::with_capacity(alloc, count as usize)?;
    let mut members = with_room(alloc, count as usize)?;
    for row in 0..count {
        members.push(noted_member(alloc, reader, &mut noted, row + 1)?)?;
    }
    Ok(members)
}
