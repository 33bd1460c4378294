//! The words of a request, and bytes as words of hex digits.
ghost use Rattle.std.specs.Prelude.{◌<◌, ◌^◌, IfOk, vec_len};

use clr_base::Memory;
use std::alloc::Global;

/// The first word of a request, and the words behind it.
pub fn split_word(request: &str) -> (&str, &str) {
    request.split_once(' ').unwrap_or((request, ""))
}

/// Appends the bytes that a word spells: hex digits, or hex digits, `*` and how many times. Another word spells none.
fn push_word(alloc: Global, bytes: &mut Vec<u8>, word: &str) -> Result<(), Memory> {
    let (digits, times) = word.split_once('*').unwrap_or((word, "1"));
    let Ok(unit) = hex::decode(alloc, digits) else {
        return Ok(());
    };
    for _ in 0..times.parse::<u32>().unwrap_or(0) {
        bytes.extend_from_slice(&unit)?;
    }
    Ok(())
}

/// The bytes that words spell, with a space between each two.
pub fn bytes_of(alloc: Global, words: &str) -> Result<Vec<u8>, Memory>
    ensures { IfOk result (λ bytes. vec_len bytes < 2 ^ 32) }
{
    let mut bytes = Vec::new(alloc);
    for word in words.split(' ') {
        push_word(alloc, &mut bytes, word)?;
    }
    if bytes.len() >= 1 << 32 {
        return Err(Memory);
    }
    Ok(bytes)
}
