//! What may stand before a type, and is skipped.
ghost use Rattle.std.specs.Prelude.{◌≡◌, ◌<◌, length, option_map, IfOk, IfSome};
ghost use Rattle.cli_sigs.specs.Reading.{Finds};
ghost use Rattle.cli_sigs.specs.Marks as spec;

use crate::compressed::modifier_name;
use crate::fault::Stop;
use crate::signature::RowCounts;

/// Before which part the marks stand.
#[derive(Clone, Copy)]
pub(crate) enum Before {
    /// A type, with custom modifiers (II.23.2.7).
    Type,
    /// A local, which may also be pinned (II.23.2.9).
    Local,
}

/// The bytes after one mark, where one stands.
#[tactic(auto, unfolding(crate::specs::Marks::mark_at))]
fn mark<'a>(counts: &RowCounts, what: Before, bytes: &'a [u8]) -> Result<Option<&'a [u8]>, Stop>
    ensures exact { Finds (option_map (λ rest. rest.now)) result (spec.mark_at counts.now what bytes.now) }
    ensures shorter { IfOk result (λ o. IfSome o (λ rest. length rest.now < length bytes.now)) }
{
    match bytes {
        [0x1f | 0x20, rest @ ..] => {
            let (_, rest) = modifier_name(counts, rest)?;
            Ok(Some(rest))
        }
        [0x45, rest @ ..] if what == Before::Local => Ok(Some(rest)),
        _ => Ok(None),
    }
}

/// The bytes after all marks.
pub(crate) fn marks<'a>(counts: &RowCounts, what: Before, bytes: &'a [u8]) -> Result<&'a [u8], Stop>
    ensures { Finds (λ rest. rest.now) result (spec.past_marks counts.now what bytes.now) }
{
    let mut rest = bytes;
    while let Some(after) = mark(counts, what, rest)? {
        rest = after;
    }
    Ok(rest)
}
