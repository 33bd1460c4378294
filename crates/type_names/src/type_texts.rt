//! The numbers of the texts by which types are found: namespaces, names, and the names of assemblies.
ghost use Rattle.std.specs.Prelude.{◌+◌, ◌<◌, ◌≤◌, length, IfOk, OnOk};
ghost use Rattle.cli_tables.specs.Schema.{columns};
ghost use Rattle.core_types.specs.CoreTable.{core_defs};
ghost use Rattle.type_names.specs.Numbering.{column_texts};
ghost use Rattle.type_names.specs.Resolution as resolution;
ghost use Rattle.type_names.specs.TypeTexts as spec;

use crate::core_texts::{ASSEMBLY_COUNT, core_assembly, core_namespace, core_type_name};
use crate::text_numbers::number_column;
use cli_tables::Tables;
use clr_base::{Memory, NameId};
use core_types::{DEF_COUNT, Names};
use image_rows::{ASSEMBLY, ASSEMBLY_REF, TYPE_DEF, TYPE_REF};
use sqlite_items::Items;
use std::alloc::Global;

/// The column Name of Assembly.
const ASSEMBLY_NAME: u8 = 7;

/// The column Name of AssemblyRef.
const ASSEMBLY_REF_NAME: u8 = 6;

/// The columns of TypeDef (II.22.37) and of TypeRef.
const NAME: u8 = 1;

const NAMESPACE: u8 = 2;

/// The numbers of namespaces and names, one of each for a type.
#[derive(Drop)]
pub(crate) struct NameColumns {
    pub namespaces: Items<NameId>,
    pub names: Items<NameId>,
}

/// The numbers of a file's texts, row by row.
#[derive(Drop)]
pub(crate) struct FileTexts {
    pub defs: NameColumns,
    pub refs: NameColumns,
    /// The names in AssemblyRef rows.
    pub assembly_refs: Items<NameId>,
    /// The names in Assembly rows.
    pub assemblies: Items<NameId>,
}

/// The numbers of the core's texts.
#[derive(Drop)]
pub(crate) struct CoreTexts {
    pub types: NameColumns,
    /// The names of assemblies under which the core is found.
    pub assemblies: Items<NameId>,
    /// The number of the empty text.
    pub empty: NameId,
}

/// The numbers of the columns Namespace and Name of a table.
fn name_columns(
    alloc: Global,
    names: &mut Names,
    tables: &Tables<'_>,
    table: u8,
) -> Result<NameColumns, Memory>
    requires columns { 2 < length (columns table) }
    requires room { length names.old ≤ 4261412865 }
    ensures extends { OnOk result (spec.Extends names.old names.new) }
    ensures named { IfOk result (spec.AreNamed names.new (column_texts tables.now table 2) (column_texts tables.now table 1)) }
    ensures few { OnOk result (length names.new ≤ length names.old + 33554430) }
{
    let namespaces = number_column(alloc, names, tables, table, NAMESPACE)?;
    let own_names = number_column(alloc, names, tables, table, NAME)?;
    Ok(NameColumns {
        namespaces,
        names: own_names,
    })
}

/// The numbers of a file's texts. New texts come behind the names. Takes time in the rows and in the length of the texts at
/// different indexes.
#[tactic(auto, unfolding(cli_tables::specs::Schema::columns))]
pub(crate) fn file_texts(
    alloc: Global,
    names: &mut Names,
    tables: &Tables<'_>,
) -> Result<FileTexts, Memory>
    requires { length names.old ≤ 4177526790 }
    ensures extends { OnOk result (spec.Extends names.old names.new) }
    ensures texts { IfOk result (spec.AreFileTexts names.new tables.now) }
    ensures few { OnOk result (length names.new ≤ length names.old + 100663290) }
{
    let defs = name_columns(alloc, names, tables, TYPE_DEF)?;
    let refs = name_columns(alloc, names, tables, TYPE_REF)?;
    let assembly_refs = number_column(alloc, names, tables, ASSEMBLY_REF, ASSEMBLY_REF_NAME)?;
    let assemblies = number_column(alloc, names, tables, ASSEMBLY, ASSEMBLY_NAME)?;
    Ok(FileTexts {
        defs,
        refs,
        assembly_refs,
        assemblies,
    })
}

/// The numbers of the namespaces of the core's types.
fn core_namespaces(alloc: Global, names: &mut Names) -> Result<Items<NameId>, Memory>
    requires { length names.old ≤ 1000 }
    ensures extends { OnOk result (spec.Extends names.old names.new) }
    ensures numbers { IfOk result (spec.AreNumbers names.new (spec.in_order resolution.core_namespace core_defs)) }
    ensures few { OnOk result (length names.new ≤ length names.old + core_defs) }
{
    let mut ids = Items::new(alloc);
    for number in 0..DEF_COUNT {
        ids.push(names.number(alloc, core_namespace(number))?)?;
    }
    Ok(ids)
}

/// The numbers of the names of the core's types.
fn core_names(alloc: Global, names: &mut Names) -> Result<Items<NameId>, Memory>
    requires { length names.old ≤ 1000 }
    ensures extends { OnOk result (spec.Extends names.old names.new) }
    ensures numbers { IfOk result (spec.AreNumbers names.new (spec.in_order resolution.core_type_name core_defs)) }
    ensures few { OnOk result (length names.new ≤ length names.old + core_defs) }
{
    let mut ids = Items::new(alloc);
    for number in 0..DEF_COUNT {
        ids.push(names.number(alloc, core_type_name(number))?)?;
    }
    Ok(ids)
}

/// The numbers of the names of the core's assemblies.
fn core_assemblies(alloc: Global, names: &mut Names) -> Result<Items<NameId>, Memory>
    requires { length names.old ≤ 1000 }
    ensures extends { OnOk result (spec.Extends names.old names.new) }
    ensures numbers { IfOk result (spec.AreNumbers names.new (spec.in_order spec.core_assembly 5)) }
    ensures few { OnOk result (length names.new ≤ length names.old + 5) }
{
    let mut ids = Items::new(alloc);
    for number in 0..ASSEMBLY_COUNT {
        ids.push(names.number(alloc, core_assembly(number))?)?;
    }
    Ok(ids)
}

/// The numbers of the core's texts. New texts come behind the names.
pub(crate) fn core_texts(alloc: Global, names: &mut Names) -> Result<CoreTexts, Memory>
    requires { length names.old ≤ 900 }
    ensures texts { IfOk result (spec.AreCoreTexts names.new) }
    ensures few { OnOk result (length names.new ≤ length names.old + 78) }
{
    let namespaces = core_namespaces(alloc, names)?;
    let own_names = core_names(alloc, names)?;
    let assemblies = core_assemblies(alloc, names)?;
    let empty = names.number(alloc, "")?;
    Ok(CoreTexts {
        types: NameColumns {
            namespaces,
            names: own_names,
        },
        assemblies,
        empty,
    })
}
