//! The definitions of a file, in row order.
ghost use Rattle.std.specs.Prelude.{◌≡◌, ◌≤◌, ◌++◌, map, OnOk};
ghost use Rattle.image_rows.specs.Cells.{rows_of};
ghost use Rattle.type_members.specs.Definitions as spec;
ghost use Rattle.world_build.specs.MemberRefs.{members_of_refs as all_refs};
ghost use Rattle.type_members.specs.MemberTable.{run_at};
ghost use Rattle.world_build.specs.References as references;
ghost use Rattle.type_members.specs.Trees.{AreNumbered};

use crate::method_impls::impls_of;
use crate::reader::Reader;
use clr_base::Memory;
use image_rows::TYPE_DEF;
use sqlite_items::Items;
use std::alloc::Global;
use type_members::{FileRows, def_of, run_of};
use type_names::FileNames;
use type_tree::{Def, Member};

/// Appends the definitions of the file with a number, from 1, where files before it have so many fields and methods, given the
/// members of its MemberRef rows. Takes memory and time in the rows that tell of definitions and in the signatures that these
/// name.
pub fn push_definitions(
    alloc: Global,
    reader: &Reader<'_, '_>,
    refs: &[Member],
    names: &FileNames,
    file: u32,
    fields_before: u32,
    methods_before: u32,
    defs: &mut Items<Def>,
) -> Result<(), Memory>
    requires refs { refs.now ≡ all_refs reader.now }
    requires numbered { AreNumbered names.now.types }
    requires fields { fields_before ≤ 268435440 }
    requires methods { methods_before ≤ 268435440 }
    ensures { OnOk result (defs.new ≡ defs.old ++ map (λ row. spec.def_of names.now reader.now.tables file (run_at fields_before methods_before reader.now.tables row) (references.impls_of reader.now row) row) (rows_of reader.now.tables 0x02)) }
{
    let tables = reader.tables();
    let rows = FileRows::new(alloc, tables)?;
    for row in 0..tables.row_count(TYPE_DEF) {
        let row = row + 1;
        let run = run_of(tables, fields_before, methods_before, row);
        let impls = impls_of(alloc, reader, refs, &rows.method_impls, row)?;
        defs.push(def_of(alloc, names, tables, &rows, file, run, impls, row)?)?;
    }
    Ok(())
}
