//! The numbers of definitions.
ghost use Rattle.std.specs.Prelude.{◌≡◌, ◌+◌, ◌<◌, ◌≤◌, length, IfOk};
ghost use Rattle.type_names.specs.Numbering.{IsPlaced};
ghost use Rattle.type_names.specs.Resolution.{def_at, first_def};

use crate::resolution::DefPlace;
use cli_tables::Tables;
use clr_base::{DefId, Memory};
use core_types::DEF_COUNT;
use image_rows::TYPE_DEF;
use sqlite_items::Items;
use std::alloc::Global;
use std::marker::Model;

/// The number of the definition in the first TypeDef row of each file, and the number behind those of all files. It is seen
/// as the files.
#[derive(Drop)]
pub(crate) struct DefNumbers<'a> {
    files: &'a [Tables<'a>],
    firsts: Items<u32>,
}

impl<'a> Model for DefNumbers<'a> {
    ghost use Rattle.std.specs.Prelude.{List};
    ghost use Rattle.cli_tables.specs.Metadata.{Metadata};
    ghost use Rattle.type_names.specs.Numbering.{AreFirsts};

    ghost Value = { List Metadata };

    ghost view = { λ n. n.files.now };

    ghost invariant = { λ n. AreFirsts n.files.now n.firsts };
}

impl<'a> DefNumbers<'a> {
    /// Takes memory for a number a file.
    pub(crate) fn new(alloc: Global, files: &'a [Tables<'a>]) -> Result<DefNumbers<'a>, Memory>
        requires { length files.now ≤ 16 }
        ensures { IfOk result (λ numbers. numbers ≡ files.now) }
    {
        let mut firsts = Items::new(alloc);
        let mut next = DEF_COUNT as u32;
        firsts.push(next)?;
        for tables in files {
            next += tables.row_count(TYPE_DEF);
            firsts.push(next)?;
        }
        Ok(DefNumbers { files, firsts })
    }

    /// The number of the definition in a file's first TypeDef row.
    pub(crate) fn first(&self, file: u32) -> u32
        requires { file < length self.now }
        ensures exact { result ≡ first_def self.now file }
        ensures next_fits { first_def self.now (file + 1) < 4294967296 }
    {
        let firsts = self.firsts.as_slice();
        firsts[file as usize]
    }

    /// The number of the definition at a place.
    pub(crate) fn number(&self, place: DefPlace) -> DefId
        requires { IsPlaced self.now place }
        ensures { result ≡ def_at self.now place }
    {
        match place {
            DefPlace::InCore(number) => DefId(number),
            DefPlace::InFile(file, row) => DefId(self.first(file) + (row - 1)),
        }
    }
}
