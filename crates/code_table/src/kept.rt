//! What a table keeps of a body.

ghost use Rattle.std.specs.Prelude.{◌≡◌, ◌^◌, ◌<◌, ◌↔◌, length, IfOk, IfErr, IsTrue};
ghost use Rattle.cil_code.specs.Reading.{Gives};
ghost use Rattle.cil_code.specs.Decoding.{body_of};
ghost use Rattle.code_table.specs.Lent.{lent_body, is_kept};

use crate::lent::Lent;
use cil_code::{Body, CodeFault, decode};
use clr_base::Bytes;
use std::alloc::Global;

/// Bytes, and the body that they are decoded to, or their first fault.
#[derive(Drop)]
pub(crate) struct Kept {
    bytes: Bytes,
    body: Result<Body, CodeFault>,
    ghost decoded: { body ≡ body_of bytes },
}

/// What is kept of some bytes. Where memory is wanting, nothing is.
pub(crate) fn keep(alloc: Global, bytes: &[u8]) -> Result<Box<Kept>, CodeFault>
    requires { length bytes.now < 2 ^ 32 }
    ensures same { IfOk result (λ kept. kept.value.bytes ≡ bytes.now) }
    ensures memory { IfErr result (λ fault. fault ≡ CodeFault.Memory) }
{
    let copy = Bytes::from_slice(alloc, bytes)?;
    let body = match decode(alloc, bytes) {
        Err(CodeFault::Memory) => return Err(CodeFault::Memory),
        body => body,
    };
    Ok(Box::new(alloc, Kept { bytes: copy, body })?)
}

/// The body of these bytes: the kept one where the kept bytes are the same, else one of its own.
pub(crate) fn lend<'a>(alloc: Global, kept: &'a Kept, bytes: &[u8]) -> Result<Lent<'a>, CodeFault>
    requires { length bytes.now < 2 ^ 32 }
    ensures body { Gives lent_body result (body_of bytes.now) }
    ensures same { IfOk result (λ lent. IsTrue (is_kept lent) ↔ (kept.now.bytes ≡ bytes.now)) }
{
    if kept.bytes.as_slice() != bytes {
        return Ok(Lent::Own(decode(alloc, bytes)?));
    }
    match &kept.body {
        Ok(body) => Ok(Lent::Kept(body)),
        Err(fault) => Err(*fault),
    }
}
