//! The heaps of texts and blobs (ECMA-335 II.24.2.3, II.24.2.4).
ghost use Rattle.std.specs.Prelude.{◌≡◌, ◌+◌, ◌<◌, ◌≤◌, ◌^◌, length, Ok, Err, Some, None, ◌==◌, IfOk, IfSome, MatchResult};
ghost use Rattle.std.specs.List.{position};
ghost use Rattle.std.specs.Option.{option_copied};
ghost use Rattle.clr_base.specs.declared.image_fault.FaultKind.TheVariants.{BadIndex};
ghost use Rattle.cli_tables.specs.Heaps.{text_at, string_at, blob_range, blob_at};

use clr_base::FaultKind;
use std::str;

/// Where the content of a blob lies in its heap.
#[derive(Clone, Copy)]
pub struct BlobRange {
    pub start: usize,
    pub len: usize,
}

/// How many bytes stand before the next zero.
fn len_before_zero(bytes: &[u8]) -> Option<usize>
    ensures exact { result ≡ position (λ byte. byte == 0) bytes.now }
    ensures within { IfSome result (λ n. n < length bytes.now) }
{
    bytes.iter().position(|byte| *byte == 0)
}

/// The bytes at an index of `#Strings` before the next zero.
#[tactic(auto, unfolding(crate::specs::Heaps::text_at))]
fn text_bytes(heap: &[u8], index: usize) -> Option<&[u8]>
    ensures { option_copied result ≡ text_at heap.now index }
{
    if index == 0 {
        return Some(&[]);
    }
    if heap.len() < index {
        return None;
    }
    let (_, behind) = heap.split_at(index);
    let len = len_before_zero(behind)?;
    Some(&behind[..len])
}

/// The text at an index of `#Strings`.
pub fn string_in(heap: &[u8], index: u32) -> Result<&str, FaultKind>
    ensures { MatchResult result (λ text. string_at heap.now index ≡ Ok text.now) (λ kind. string_at heap.now index ≡ Err kind) }
{
    let Some(bytes) = text_bytes(heap, index as usize) else {
        return Err(FaultKind::BadIndex);
    };
    match str::from_utf8(bytes) {
        Ok(text) => Ok(text),
        Err(_) => Err(FaultKind::BadText),
    }
}

/// Where the content of the blob at an index lies, as its length tells.
#[tactic(auto, unfolding(crate::specs::Heaps::blob_range))]
fn blob_len(heap: &[u8], index: usize) -> Option<BlobRange>
    requires { index < 2 ^ 32 }
    ensures exact { result ≡ blob_range heap.now index }
    ensures near { IfSome result (λ range. range.start + range.len < 2 ^ 34) }
    ensures short { IfSome result (λ range. range.len < 2 ^ 29) }
{
    let rest = heap.len().saturating_sub(index);
    if rest == 0 {
        return None;
    }
    let first = heap[index];
    if first < 0x80 {
        Some(BlobRange {
            start: index + 1,
            len: first as usize,
        })
    } else if first < 0xc0 {
        if rest < 2 {
            return None;
        }
        Some(BlobRange {
            start: index + 2,
            len: 256 * (first - 0x80) as usize + heap[index + 1] as usize,
        })
    } else if first < 0xe0 {
        if rest < 4 {
            return None;
        }
        Some(BlobRange {
            start: index + 4,
            len: 16_777_216 * (first - 0xc0) as usize
                + 65_536 * heap[index + 1] as usize
                + 256 * heap[index + 2] as usize
                + heap[index + 3] as usize,
        })
    } else {
        None
    }
}

/// The blob at an index of `#Blob` or `#US`.
#[tactic(auto, unfolding(crate::specs::Heaps::blob_at))]
pub fn blob_in(heap: &[u8], index: u32) -> Result<&[u8], FaultKind>
    ensures short { IfOk result (λ blob. length blob.now < 2 ^ 29) }
    ensures exact { MatchResult result (λ blob. blob_at heap.now index ≡ Some blob.now) (λ kind. (kind ≡ BadIndex) × (blob_at heap.now index ≡ None)) }
{
    if index == 0 {
        return Ok(&[]);
    }
    let Some(range) = blob_len(heap, index as usize) else {
        return Err(FaultKind::BadIndex);
    };
    let end = range.start + range.len;
    if heap.len() < end {
        return Err(FaultKind::BadIndex);
    }
    Ok(&heap[range.start..end])
}
