//! How many definitions, methods, fields and signatures files give a world, and whether tokens can number them.
ghost use Rattle.std.specs.Prelude.{◌≡◌, [], true, IfOk};
ghost use Rattle.clr_base.specs.Checks.{outcome};
ghost use Rattle.image_files.specs.Counts as spec;
ghost use Rattle.image_rows.specs.SignatureChecks.{AreSigned, is_signature_by};
ghost use Rattle.image_rows.specs.declared.signature_checks.SigKind.TheVariants as kind;

use crate::signatures::row_sigs;
use cli_sigs::told_locals;
use cli_tables::Tables;
use clr_base::{CORE_DEF_COUNT, CORE_METHOD_COUNT, CORE_SIG_COUNT, FaultKind, ImageFault, check};
use image_rows::{
    FIELD, LOCALS_CODE, METHOD_DEF, STAND_ALONE_SIG, TYPE_DEF, begins_with, blob_by, token,
};

/// The most that tokens can number (ECMA-335 III.1.9: a token has 24 bits for a row).
const MOST: u32 = 16_777_215;

/// How many definitions, methods, fields and signatures there are.
#[derive(Clone, Copy)]
pub struct Totals {
    pub defs: u32,
    pub methods: u32,
    pub fields: u32,
    pub sigs: u32,
}

/// How many local variables the blob at an index lists, up to one too many. It is asked only of a blob that passes its
/// check, and so tells it before their types.
fn local_count(tables: &Tables<'_>, index: u32) -> u32
    requires { is_signature_by tables.now kind.Locals index ≡ true }
    ensures { result ≡ spec.local_count tables.now index }
{
    let blob = blob_by(tables, index);
    let begins = begins_with(LOCALS_CODE, blob);
    if begins {
        let told = told_locals(blob);
        told.min(MOST + 1)
    } else {
        0
    }
}

/// How many local variables the rows of StandAloneSig list, up to one too many.
#[tactic(auto, unfolding(cli_tables::specs::Schema::columns))]
fn all_locals(tables: &Tables<'_>) -> u32
    requires { AreSigned tables.now }
    ensures { result ≡ spec.all_locals tables.now }
{
    let mut total = 0;
    for row in 0..tables.row_count(STAND_ALONE_SIG) {
        let index = tables.cell(STAND_ALONE_SIG, row + 1, 0);
        let count = local_count(tables, index);
        total = (total + count).min(MOST + 1);
    }
    total
}

impl Totals {
    /// Those of the core library, which has no fields.
    #[tactic(auto, unfolding(crate::specs::Counts::totals_of, crate::specs::Counts::are_few))]
    pub(crate) fn of_core() -> Totals
        ensures exact { result ≡ spec.totals_of [] }
        ensures few { spec.are_few result ≡ true }
    {
        Totals {
            defs: CORE_DEF_COUNT,
            methods: CORE_METHOD_COUNT,
            fields: 0,
            sigs: CORE_SIG_COUNT,
        }
    }

    /// Whether tokens can number them.
    #[tactic(auto, unfolding(crate::specs::Counts::are_few))]
    fn are_few(self) -> bool
        ensures { result ≡ spec.are_few self }
    {
        self.defs <= MOST && self.methods <= MOST && self.fields <= MOST && self.sigs <= MOST
    }

    /// Those with one file more; where they are too many, the signatures may be fewer, but are still too many.
    fn with_file(self, tables: &Tables<'_>) -> Totals
        requires few { spec.are_few self ≡ true }
        requires signed { AreSigned tables.now }
        ensures few { spec.are_few result ≡ spec.are_few (spec.with_file self tables.now) }
        ensures exact { spec.are_few result ≡ true → result ≡ spec.with_file self tables.now }
    {
        let locals = all_locals(tables);
        Totals {
            defs: self.defs + tables.row_count(TYPE_DEF),
            methods: self.methods + tables.row_count(METHOD_DEF),
            fields: self.fields + tables.row_count(FIELD),
            sigs: self.sigs + row_sigs(tables) + locals,
        }
    }
}

/// The check of a file's counts, by those of the core library and of the files before it; and the counts with its own. The
/// file's signatures pass their checks. Takes no memory, and time in the rows of StandAloneSig.
pub(crate) fn count_file(totals: Totals, tables: &Tables<'_>) -> Result<Totals, ImageFault>
    requires few { spec.are_few totals ≡ true }
    requires signed { AreSigned tables.now }
    ensures exact { result ≡ outcome (spec.count_checks (spec.with_file totals tables.now)) (spec.with_file totals tables.now) }
    ensures few { IfOk result (λ t. spec.are_few t ≡ true) }
{
    let totals = totals.with_file(tables);
    match check(totals.are_few(), FaultKind::TooMany, token(0x00, 1)) {
        Ok(()) => Ok(totals),
        Err(fault) => Err(fault),
    }
}
