//! Generic parameters (ECMA-335 II.22.20), and their constraints (II.22.21).
ghost use Rattle.std.specs.Prelude.{◌≡◌, ◌≤◌, IfOk};
ghost use Rattle.type_members.specs.Members as spec;
ghost use Rattle.type_members.specs.RowIndexes.{Indexes};
ghost use Rattle.type_members.specs.Trees.{AreNumbered};

use crate::indexed_rows::types_in;
use crate::row_index::RowIndex;
use cli_tables::Tables;
use clr_base::Memory;
use image_rows::{GENERIC_PARAM, GENERIC_PARAM_CONSTRAINT};
use sqlite_items::Items;
use std::alloc::Global;
use type_names::TypeRows;
use type_tree::{Formal, TyList};

/// The column Flags of GenericParam.
const FLAGS: u8 = 1;

/// The column Constraint of GenericParamConstraint, a coded index TypeDefOrRef.
const CONSTRAINT: u8 = 1;

/// The coded index TypeOrMethodDef (II.24.2.6) of a TypeDef row.
pub fn type_owner(row: u32) -> u32
    requires { row ≤ 16777215 }
    ensures { result ≡ spec.type_owner row }
{
    2 * row
}

/// The coded index TypeOrMethodDef of a MethodDef row.
pub fn method_owner(row: u32) -> u32
    requires { row ≤ 16777215 }
    ensures { result ≡ spec.method_owner row }
{
    2 * row + 1
}

/// The constraints of a generic parameter, given an index of GenericParamConstraint by the column Owner.
#[tactic(auto, unfolding(cli_tables::specs::Schema::columns))]
fn constraints_of(
    alloc: Global,
    types: &TypeRows,
    tables: &Tables<'_>,
    constraints: &RowIndex,
    row: u32,
) -> Result<TyList, Memory>
    requires numbered { AreNumbered types.now }
    requires constraints { Indexes tables.now 0x2C 0 constraints.now }
    ensures { IfOk result (λ found. found ≡ spec.constraints_of types.now tables.now row) }
{
    let rows = constraints.rows(row);
    types_in(
        alloc,
        types,
        tables,
        GENERIC_PARAM_CONSTRAINT,
        CONSTRAINT,
        rows,
    )
}

/// The generic parameters of an owner, a coded index TypeOrMethodDef (II.24.2.6), given indexes of GenericParam and of
/// GenericParamConstraint by the columns Owner. Takes time in their rows and in the signatures that these name.
#[tactic(auto, unfolding(crate::specs::Members::formals_of, cli_tables::specs::Schema::columns))]
pub fn formals_of(
    alloc: Global,
    types: &TypeRows,
    tables: &Tables<'_>,
    params: &RowIndex,
    constraints: &RowIndex,
    owner: u32,
) -> Result<Items<Formal>, Memory>
    requires numbered { AreNumbered types.now }
    requires params { Indexes tables.now 0x2A 2 params.now }
    requires constraints { Indexes tables.now 0x2C 0 constraints.now }
    ensures { IfOk result (λ formals. formals ≡ spec.formals_of types.now tables.now owner) }
{
    let mut formals = Items::new(alloc);
    let rows = params.rows(owner);
    for row in rows {
        formals.push(Formal {
            flags: tables.cell(GENERIC_PARAM, *row, FLAGS),
            constraints: constraints_of(alloc, types, tables, constraints, *row)?,
        })?;
    }
    Ok(formals)
}
