//! What the rows of a file are read by.
ghost use Rattle.std.specs.Prelude.{◌≡◌, ◌+◌, ◌-◌, ◌≤◌, IfOk};
ghost use Rattle.cli_tables.specs.Layout.{row_count};
ghost use Rattle.image_rows.specs.Cells.{owner_of};
ghost use Rattle.type_members.specs.MemberTable as table;
ghost use Rattle.core_types.specs.Names.{id_in};
ghost use Rattle.world_build.specs.Readers.{CanRead};
ghost use Rattle.type_members.specs.Trees.{AreNumbered};

use cli_tables::Tables;
use clr_base::{FieldId, Memory, MethId, NameId};
use core_types::Names;
use image_rows::{METHOD_DEF, METHOD_LIST, owners};
use sqlite_items::Items;
use std::alloc::Global;
use std::marker::Model;
use type_members::{MemberIndex, MemberTable, Open};
use type_names::TypeRows;
use type_tree::Ty;

/// What the rows of a file are read by: the names and the members of the world, the types of the file's rows, its tables,
/// the number of the method in its first MethodDef row, and the owners of these rows. Contracts see all but the owners and
/// the index of the members, which follow from the others.
#[derive(Drop)]
pub struct Reader<'a, 'f> {
    names: &'a Names,
    members: &'a MemberTable,
    index: &'a MemberIndex,
    types: &'a TypeRows,
    tables: &'a Tables<'f>,
    first_method: u32,
    owners: Items<u32>,
}

impl<'a, 'f> Model for Reader<'a, 'f> {
    ghost use Rattle.world_build.specs.References as spec;
    ghost use Rattle.world_build.specs.Readers.{AreOwners, CanRead};
    ghost use Rattle.std.specs.Coded.{codes};
    ghost use Rattle.type_tree.specs.contracts.tree.Ty as tree;

    ghost Value = { spec.Reader };

    ghost coded = { Prim.hlevel (codes, tree.the_row.coded) };

    ghost view = { λ r. record { names = r.names.now; members = r.members.now; types = r.types.now; tables = r.tables.now; first_method = r.first_method } };

    ghost invariant = { λ r. CanRead r.names.now r.members.now r.index.now r.types.now r.tables.now r.first_method × AreOwners r.tables.now r.owners };
}

impl<'a, 'f> Reader<'a, 'f> {
    /// Takes memory for a number a MethodDef row, and time in the rows of TypeDef and MethodDef.
    #[tactic(auto, unfolding(cli_tables::specs::Schema::columns))]
    pub fn new(
        alloc: Global,
        names: &'a Names,
        members: &'a MemberTable,
        index: &'a MemberIndex,
        types: &'a TypeRows,
        tables: &'a Tables<'f>,
        first_method: u32,
    ) -> Result<Reader<'a, 'f>, Memory>
        requires { CanRead names.now members.now index.now types.now tables.now first_method }
        ensures { IfOk result (λ reader. reader ≡ record { names = names.now; members = members.now; types = types.now; tables = tables.now; first_method = first_method }) }
    {
        let owners = owners(alloc, tables, METHOD_LIST, METHOD_DEF)?;
        Ok(Reader {
            names,
            members,
            index,
            types,
            tables,
            first_method,
            owners,
        })
    }

    /// The file's tables.
    pub fn tables(&self) -> &'a Tables<'f>
        ensures { result.now ≡ self.now.tables }
    {
        self.tables
    }

    /// The types of the file's rows.
    pub fn types(&self) -> &'a TypeRows
        ensures exact { result.now ≡ self.now.types }
        ensures numbered { AreNumbered self.now.types }
    {
        self.types
    }

    /// The number of a name, which is how many names the world has where it isn't among them.
    pub(crate) fn name(&self, text: &str) -> NameId
        ensures { result ≡ id_in self.now.names text.now }
    {
        self.names.find(text)
    }

    /// The method in a MethodDef row.
    pub(crate) fn method(&self, row: u32) -> MethId
        requires first { 1 ≤ row }
        requires last { row ≤ row_count self.now.tables.tables 0x06 }
        ensures { result ≡ record { 0 = self.now.first_method + (row - 1) } }
    {
        MethId(self.first_method + (row - 1))
    }

    /// The TypeDef row of the definition that owns a MethodDef row, 0 where none does.
    pub(crate) fn owner(&self, row: u32) -> u32
        requires first { 1 ≤ row }
        requires last { row ≤ row_count self.now.tables.tables 0x06 }
        ensures { result ≡ owner_of self.now.tables 5 0x06 row }
    {
        let owners = self.owners.as_slice();
        owners[row as usize - 1]
    }

    /// The first own method of a definition with a name and a signature.
    pub(crate) fn own_method(&self, def: u32, name: NameId, wanted: &Open) -> Option<MethId>
        ensures { result ≡ table.own_method self.now.members def name wanted.now }
    {
        self.index.own_method(self.members, def, name, wanted)
    }

    /// The first own field of a definition with a name and a type.
    pub(crate) fn own_field(&self, def: u32, name: NameId, ty: &Ty) -> Option<FieldId>
        ensures { result ≡ table.own_field self.now.members def name ty.now }
    {
        self.index.own_field(self.members, def, name, ty)
    }
}
