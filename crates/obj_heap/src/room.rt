//! Room for the objects of a heap.

ghost use Rattle.std.specs.Prelude.{◌≡◌, ◌+◌, ◌*◌, ◌-◌, ◌/◌, ◌<◌, ◌≤◌, ◌^◌, ◌++◌, ◌↔◌, false, [], ◌∷◌, length, replicate, vec_len, vec_capacity, OnOk, OnErr, Err};
ghost use Rattle.std.specs.List.{repeat};
ghost use Rattle.obj_heap.specs.Objects.{words, filled};

use crate::fault::HeapFault;
use crate::made::Made;

/// How many bytes all objects of a heap may take.
pub const HEAP_LIMIT: usize = 16_777_216;

/// How many times eight bytes a size takes, rounded up.
pub(crate) fn words_of(size: u64) -> usize
    requires { size + 7 < 2 ^ 64 }
    ensures { result ≡ words size }
{
    ((size + 7) / 8) as usize
}

/// Notes one object more of so many words, and makes room for its bytes and for what they are.
pub(crate) fn begin<H: Copy>(
    made: &mut Vec<Made<H>>,
    bytes: &mut Vec<u8>,
    refs: &mut Vec<bool>,
    of: H,
    count: u32,
    words: usize,
) -> Result<(), HeapFault>
    requires limit { length bytes.old.items ≤ HEAP_LIMIT }
    requires eights { length bytes.old.items ≡ 8 * length refs.old.items }
    ensures full { (result ≡ Err HeapFault.HeapFull) ↔ (HEAP_LIMIT < length bytes.old.items + 8 * words) }
    ensures kept { OnErr result (made.new.items ≡ made.old.items) }
    ensures made { OnOk result (made.new.items ≡ made.old.items ++ record { of = of; count = count; first = length refs.old.items; words = words } ∷ []) }
    ensures bytes { bytes.new.items ≡ bytes.old.items }
    ensures refs { refs.new.items ≡ refs.old.items }
    ensures room { OnOk result (vec_len bytes.new + 8 * words ≤ vec_capacity bytes.new) }
    ensures marks { OnOk result (vec_len refs.new + words ≤ vec_capacity refs.new) }
{
    if words > (HEAP_LIMIT - bytes.len()) / 8 {
        return Err(HeapFault::HeapFull);
    }
    bytes.reserve(8 * words)?;
    refs.reserve(words)?;
    made.push(Made {
        of,
        count,
        first: refs.len() as u32,
        words: words as u32,
    })?;
    Ok(())
}

/// Appends zeros, where there is room for them.
pub(crate) fn push_zeros(bytes: &mut Vec<u8>, count: usize)
    requires { vec_len bytes.old + count ≤ vec_capacity bytes.old }
    ensures items { bytes.new.items ≡ bytes.old.items ++ replicate count 0 }
    ensures len { vec_len bytes.new ≡ vec_len bytes.old + count }
    ensures capacity { vec_capacity bytes.old ≤ vec_capacity bytes.new }
{
    bytes.resize(bytes.len() + count, 0).unwrap()
}

/// Appends so many marks of numbers, where there is room for them.
pub(crate) fn push_numbers(refs: &mut Vec<bool>, count: usize)
    requires { vec_len refs.old + count ≤ vec_capacity refs.old }
    ensures items { refs.new.items ≡ refs.old.items ++ replicate count false }
    ensures len { vec_len refs.new ≡ vec_len refs.old + count }
    ensures capacity { vec_capacity refs.old ≤ vec_capacity refs.new }
{
    refs.resize(refs.len() + count, false).unwrap()
}

/// Appends the marks of so many equal elements, where there is room for them.
pub(crate) fn push_elements(refs: &mut Vec<bool>, element: &[bool], count: u32)
    requires { vec_len refs.old + length element.now * count ≤ vec_capacity refs.old }
    ensures items { refs.new.items ≡ refs.old.items ++ repeat count element.now }
    ensures len { vec_len refs.new ≡ vec_len refs.old + length element.now * count }
    ensures capacity { vec_capacity refs.old ≤ vec_capacity refs.new }
{
    if element.is_empty() {
        return;
    }
    for _i in 0..count {
        refs.extend_from_slice(element).unwrap();
    }
}

/// Appends the marks of an object of so many words, where there is room for them: so many of numbers, those
/// of equal elements, and again of numbers.
pub(crate) fn push_refs(
    refs: &mut Vec<bool>,
    lead: usize,
    element: &[bool],
    times: u32,
    words: usize,
)
    requires room { vec_len refs.old + words ≤ vec_capacity refs.old }
    requires inside { lead + length element.now * times ≤ words }
    ensures { refs.new.items ≡ refs.old.items ++ filled words (replicate lead false ++ repeat times element.now) }
{
    push_numbers(refs, lead);
    push_elements(refs, element, times);
    push_numbers(refs, words - lead - element.len() * times as usize);
}
