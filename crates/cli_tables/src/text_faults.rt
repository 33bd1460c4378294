//! What is wrong with the texts of `#Strings` (ECMA-335 II.24.2.3), found once for all indexes: a row's text is then
//! checked in constant time, however long it is and however many rows name it.
ghost use Rattle.std.specs.Prelude.{◌≡◌, ◌+◌, ◌<◌, ◌≤◌, ℕ, length, take, IfOk, MatchOption, None, Some, slice_index};
ghost use Rattle.std.specs.Str.{IsUtf8};
ghost use Rattle.cli_tables.specs.TextFaults as spec;

use clr_base::FaultKind;
use std::alloc::{AllocError, Global};
use std::marker::Model;
use std::str;

/// The most bytes of a character.
const LONGEST_CHAR: usize = 4;

/// What is kept of the faults. In a heap that is all ASCII an index is wrong only where no zero ends its text, so `Ascii` has
/// the length up to the last zero, that one too. For another heap `Each` has the fault at each byte, if there is one.
#[derive(Drop)]
enum Found {
    Ascii(usize),
    Each(Vec<Option<FaultKind>>),
}

/// What is wrong with the text at each index of `#Strings`, if anything is.
#[derive(Drop)]
pub struct TextFaults {
    found: Found,
}

impl Model for TextFaults {
    ghost use Rattle.std.specs.Prelude.{List};
    ghost use Rattle.std.specs.declared.option.Option.{Option};
    ghost use Rattle.clr_base.specs.declared.image_fault.FaultKind.{FaultKind};
    ghost use Rattle.cli_tables.specs.TextFaults.{faults_of};

    ghost Value = { List (Option FaultKind) };

    ghost view = { λ f. faults_of f.found };
}

/// The length of a text, of a character or a few, that the bytes begin with. None where they begin with no character.
fn first_text_len(bytes: &[u8]) -> Option<usize>
    requires { 0 < length bytes.now }
    ensures { MatchOption result (¬ (IsUtf8 bytes.now)) (λ n. (0 < n) × (n ≤ length bytes.now) × IsUtf8 (take n bytes.now)) }
{
    if bytes[0] < 0x80 {
        return Some(1);
    }
    let len = bytes.len().min(LONGEST_CHAR);
    match str::from_utf8(&bytes[..len]) {
        Ok(_) => Some(len),
        Err(error) => match error.valid_up_to() {
            0 => None,
            front => Some(front),
        },
    }
}

/// Where the next zero stands from a place on, by where it stands from the next place on.
fn next_zero(heap: &[u8], at: usize, behind: Option<usize>) -> Option<usize>
    requires within { at < length heap.now }
    requires behind { behind ≡ spec.end_at heap.now (at + 1) }
    ensures { result ≡ spec.end_at heap.now at }
{
    if heap[at] == 0 { Some(at) } else { behind }
}

/// What is wrong with the text that begins before the next zero, by what is wrong with those that begin behind it.
fn fault_before(
    heap: &[u8],
    at: usize,
    zero: usize,
    faults: &[Option<FaultKind>],
) -> Option<FaultKind>
    requires before { at < zero }
    requires within { zero < length heap.now }
    requires zero { spec.end_at heap.now at ≡ Some zero }
    requires known { spec.AreFaultsFrom heap.now (at + 1) faults.now }
    requires all { length faults.now ≡ length heap.now }
    ensures { result ≡ spec.fault_from heap.now at }
{
    match first_text_len(&heap[at..zero]) {
        Some(len) => faults[at + len],
        None => Some(FaultKind::BadText),
    }
}

/// What is wrong with the text that begins at a place, by its zero and by what is wrong with those that begin behind it.
fn fault_at(
    heap: &[u8],
    at: usize,
    zero: Option<usize>,
    faults: &[Option<FaultKind>],
) -> Option<FaultKind>
    requires within { at < length heap.now }
    requires zero { zero ≡ spec.end_at heap.now at }
    requires known { spec.AreFaultsFrom heap.now (at + 1) faults.now }
    requires all { length faults.now ≡ length heap.now }
    ensures { result ≡ spec.fault_from heap.now at }
{
    let Some(end) = zero else {
        return Some(FaultKind::BadIndex);
    };
    if end == at {
        return None;
    }
    fault_before(heap, at, end, faults)
}

/// How many bytes reach up to the last zero, that one too: 0 where there is none.
fn len_to_last_zero(heap: &[u8]) -> usize
    ensures { spec.ReachLastZero heap.now result }
{
    match heap.iter().rposition(|byte| *byte == 0) {
        Some(last) => last + 1,
        None => 0,
    }
}

/// What is wrong at each byte of a heap: one pass over it, from its end.
fn fault_at_each(alloc: Global, heap: &[u8]) -> Result<Vec<Option<FaultKind>>, AllocError>
    ensures { IfOk result (λ faults. spec.AreTextFaults heap.now faults.items) }
{
    let mut faults = vec![in alloc; None; heap.len()]?;
    let mut zero = None;
    for behind in 0..heap.len() {
        let at = heap.len() - 1 - behind;
        zero = next_zero(heap, at, zero);
        faults[at] = fault_at(heap, at, zero, &faults);
    }
    Ok(faults)
}

impl TextFaults {
    /// Goes over the heap twice at most. Takes no memory where the heap is all ASCII, else memory for each of its bytes.
    pub fn read(alloc: Global, heap: &[u8]) -> Result<TextFaults, AllocError>
        ensures { IfOk result (λ faults. spec.AreTextFaults heap.now faults) }
    {
        let found = if heap.is_ascii() {
            Found::Ascii(len_to_last_zero(heap))
        } else {
            Found::Each(fault_at_each(alloc, heap)?)
        };
        Ok(TextFaults { found })
    }

    /// What is wrong with the text at an index, if anything is: `BadIndex` where the index or the zero that ends the text is
    /// outside the heap, `BadText` where the bytes aren't UTF-8. Takes no memory and constant time.
    pub fn fault(&self, index: u32) -> Option<FaultKind>
        ensures { result ≡ spec.looked_up self.now index }
    {
        if index == 0 {
            return None;
        }
        let index = index as usize;
        match &self.found {
            Found::Ascii(len) if index < *len => None,
            Found::Ascii(_) => Some(FaultKind::BadIndex),
            Found::Each(faults) => match faults.get(index) {
                Some(fault) => *fault,
                None => Some(FaultKind::BadIndex),
            },
        }
    }
}
