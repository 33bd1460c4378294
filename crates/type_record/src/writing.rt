//! A record as words.

ghost use Rattle.std.specs.Prelude.{◌≡◌, ◌<◌, ℕ, length, slice_get, IfOk, Some};
ghost use Rattle.type_record.specs.Records.{words_of, word_count, IsRecord};

use crate::entry_list::entries;
use crate::loaded::Record;
use clr_base::Memory;
use std::alloc::Global;

/// The words of a record, in their order. None of them is 0.
pub fn record_words(alloc: Global, rec: &Record) -> Result<Vec<u64>, Memory>
    requires { IsRecord rec.now }
    ensures words { IfOk result (λ ws. ws.items ≡ words_of rec.now) }
    ensures count { IfOk result (λ ws. length ws.items ≡ word_count rec.now) }
    ensures set { IfOk result (λ ws. (i w : ℕ) → slice_get ws.items i ≡ Some w → 0 < w) }
{
    let entries = entries(alloc, rec)?;
    let mut words = Vec::with_capacity(alloc, entries.len())?;
    for entry in entries.as_slice() {
        words.push(entry.word())?;
    }
    Ok(words)
}
