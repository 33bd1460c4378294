//! The rules of whole rows: what a row of NestedClass (ECMA-335 II.22.32) or GenericParam (II.22.20) must be, by the rows of
//! its table that stand before it.
ghost use Rattle.std.specs.Prelude.{◌≡◌, ◌-◌, ◌≤◌, ◌&&◌, not, nat_lt};
ghost use Rattle.clr_base.specs.Checks.{first_fault, none_of};
ghost use Rattle.cli_tables.specs.Layout.{row_count};
ghost use Rattle.cli_tables.specs.TextFaults.{AreTextFaults};
ghost use Rattle.image_rows.specs.Refusals.{Gives};
ghost use Rattle.image_rows.specs.Rows as spec;
ghost use Rattle.image_rows.specs.RowsBefore.{AreNested, AreOwned};

use crate::refusal::Refusal;
use crate::rows::{check_columns, token};
use crate::table_numbers::{GENERIC_PARAM, METHOD_DEF, NESTED_CLASS, TYPE_DEF};
use cli_tables::{Tables, TextFaults};
use clr_base::{FaultKind, ImageFault, check};
use sqlite_items::Items;
use std::alloc::Global;

/// Whether a type may be around another one, which was seen nested or not.
fn may_nest(enclosing: u32, nested: u32, seen: bool) -> bool
    ensures { result ≡ (nat_lt enclosing nested && not seen) }
{
    enclosing < nested && !seen
}

/// A row of NestedClass whose columns pass: the type around stands before the nested one, which no row before this one
/// nests. Takes note of the nested type.
#[tactic(auto, unfolding(crate::specs::Rows::rule_checks, crate::specs::Rows::nested_rule))]
fn check_nesting(tables: &Tables<'_>, seen: &mut Items<bool>, row: u32) -> Result<(), ImageFault>
    requires first { 1 ≤ row }
    requires last { row ≤ row_count tables.now.tables 0x29 }
    requires columns { first_fault (spec.column_checks tables.now 0x29 row) ≡ none_of }
    requires seen { AreNested tables.now (row - 1) seen.old }
    ensures exact { result ≡ first_fault (spec.rule_checks tables.now 0x29 row) }
    ensures seen { AreNested tables.now row seen.new }
{
    let nested = tables.cell(NESTED_CLASS, row, 0);
    let enclosing = tables.cell(NESTED_CLASS, row, 1);
    let passes = may_nest(enclosing, nested, seen.as_slice()[nested as usize]);
    seen.set(nested as usize, true);
    check(passes, FaultKind::BadIndex, token(NESTED_CLASS, row))
}

/// The rows of NestedClass.
#[tactic(auto, unfolding(crate::specs::Rows::table_checks, crate::specs::Rows::row_checks))]
pub fn check_nested_classes(
    alloc: Global,
    tables: &Tables<'_>,
    texts: &TextFaults,
) -> Result<(), Refusal>
    requires { AreTextFaults tables.now.strings texts.now }
    ensures { Gives result (spec.table_checks tables.now 0x29) }
{
    let count = tables.row_count(TYPE_DEF) as usize + 1;
    let mut seen = Items::from_vec(vec![in alloc; false; count]?);
    for row in 0..tables.row_count(NESTED_CLASS) {
        check_columns(tables, texts, NESTED_CLASS, row + 1)?;
        check_nesting(tables, &mut seen, row + 1)?;
    }
    Ok(())
}

/// A row of GenericParam whose columns pass: its number is how many rows before it have its owner. Counts it.
#[tactic(auto, unfolding(crate::specs::Rows::rule_checks, crate::specs::Rows::number_rule))]
fn check_number(tables: &Tables<'_>, owned: &mut Items<u32>, row: u32) -> Result<(), ImageFault>
    requires first { 1 ≤ row }
    requires last { row ≤ row_count tables.now.tables 0x2a }
    requires columns { first_fault (spec.column_checks tables.now 0x2a row) ≡ none_of }
    requires owned { AreOwned tables.now (row - 1) owned.old }
    ensures exact { result ≡ first_fault (spec.rule_checks tables.now 0x2a row) }
    ensures owned { AreOwned tables.now row owned.new }
{
    let number = tables.cell(GENERIC_PARAM, row, 0);
    let owner = tables.cell(GENERIC_PARAM, row, 2);
    let before = owned.as_slice()[owner as usize];
    owned.set(owner as usize, before + 1);
    check(
        number == before,
        FaultKind::BadIndex,
        token(GENERIC_PARAM, row),
    )
}

/// The rows of GenericParam.
#[tactic(auto, unfolding(crate::specs::Rows::table_checks, crate::specs::Rows::row_checks))]
pub fn check_generic_params(
    alloc: Global,
    tables: &Tables<'_>,
    texts: &TextFaults,
) -> Result<(), Refusal>
    requires { AreTextFaults tables.now.strings texts.now }
    ensures { Gives result (spec.table_checks tables.now 0x2a) }
{
    let owners = tables.row_count(TYPE_DEF).max(tables.row_count(METHOD_DEF)) as usize + 1;
    let mut owned = Items::from_vec(vec![in alloc; 0; 2 * owners]?);
    for row in 0..tables.row_count(GENERIC_PARAM) {
        check_columns(tables, texts, GENERIC_PARAM, row + 1)?;
        check_number(tables, &mut owned, row + 1)?;
    }
    Ok(())
}
