//! Method bodies from their bytes.

ghost use Rattle.std.specs.Prelude.{◌≡◌, ◌^◌, ◌<◌, ◌≤◌, length, drop, IfOk};
ghost use Rattle.cil_code.specs.declared.body.Body.{Body};
ghost use Rattle.cil_code.specs.Reading.{Gives};
ghost use Rattle.cil_code.specs.Decoding.{is_locals_token, has_flag, tiny_of, fat_of, body_of};
ghost use Rattle.cil_code.specs.Spelling.{Spells};

use crate::body::Body;
use crate::code_fault::CodeFault;
use crate::cursor::Cursor;
use crate::reading::read_list;
use byteorder::{ByteOrder, LittleEndian};
use std::alloc::Global;

/// The flag of a fat header that says that sections follow the code (II.25.4.4).
const MORE_SECTS: u8 = 0x8;

/// The flag of a fat header that says that locals begin as zero.
const INIT_LOCALS: u8 = 0x10;

/// The length of a fat header.
const FAT_HEADER: usize = 12;

fn has_flag(flags: u8, flag: u8) -> bool
    requires { 0 < flag }
    ensures { result ≡ has_flag flags flag }
{
    (flags / flag) % 2 == 1
}

/// Whether it is the token of no signature, or of a row of StandAloneSig.
fn is_locals_token(token: u32) -> bool
    ensures { result ≡ is_locals_token token }
{
    token == 0 || token >> 24 == 0x11
}

fn bytes_from(bytes: &[u8], place: usize) -> &[u8]
    requires { place ≤ length bytes.now }
    ensures { result.now ≡ drop place bytes.now }
{
    let (_, rest) = bytes.split_at(place);
    rest
}

/// A body with a header of one byte (II.25.4.2).
#[tactic(auto, unfolding(crate::specs::Decoding::tiny_of, crate::specs::Decoding::code_of))]
fn read_tiny(alloc: Global, first: u8, bytes: &[u8]) -> Result<Body, CodeFault>
    requires header { 1 ≤ length bytes.now }
    requires fits { length bytes.now < 2 ^ 32 }
    ensures { Gives (λ x. x) result (tiny_of first bytes.now) }
{
    let mut code = Cursor::new(bytes, 1, (first / 4) as usize);
    let code = read_list(alloc, &mut code)?;
    Ok(Body {
        max_stack: 8,
        init: false,
        locals: 0,
        code,
    })
}

/// A body with a header of twelve bytes (II.25.4.3).
#[tactic(auto, unfolding(crate::specs::Decoding::fat_of, crate::specs::Decoding::code_of))]
fn read_fat(alloc: Global, first: u8, bytes: &[u8]) -> Result<Body, CodeFault>
    requires { length bytes.now < 2 ^ 32 }
    ensures { Gives (λ x. x) result (fat_of first bytes.now) }
{
    if has_flag(first, MORE_SECTS) {
        return Err(CodeFault::NotInProfile(0));
    }
    if bytes.len() < FAT_HEADER {
        return Err(CodeFault::BadBody(bytes.len() as u32));
    }
    let max_stack = LittleEndian::read_u16(bytes_from(bytes, 2));
    let size = LittleEndian::read_u32(bytes_from(bytes, 4));
    let locals = LittleEndian::read_u32(bytes_from(bytes, 8));
    if !is_locals_token(locals) {
        return Err(CodeFault::BadBody(8));
    }
    let mut code = Cursor::new(bytes, FAT_HEADER, size as usize);
    let code = read_list(alloc, &mut code)?;
    Ok(Body {
        max_stack: u32::from(max_stack),
        init: has_flag(first, INIT_LOCALS),
        locals,
        code,
    })
}

#[tactic(auto, unfolding(crate::specs::Decoding::body_of))]
fn read_body(alloc: Global, bytes: &[u8]) -> Result<Body, CodeFault>
    requires { length bytes.now < 2 ^ 32 }
    ensures { Gives (λ x. x) result (body_of bytes.now) }
{
    if bytes.is_empty() {
        return Err(CodeFault::BadBody(0));
    }
    let first = bytes[0];
    match first % 4 {
        2 => read_tiny(alloc, first, bytes),
        3 => read_fat(alloc, first, bytes),
        _ => Err(CodeFault::BadBody(0)),
    }
}

/// The method body (II.25.4) that begins with the first of these bytes. Bytes behind its code are not
/// read.
///
/// `NotInProfile(0)` comes exactly where a fat header says that sections follow its code, which its first
/// byte tells. Else `BadBody` comes at the first byte that is not allowed:
///
/// - the first byte, for a header of no known format, and place 8 for a locals token that is neither 0 nor
///   a row of StandAloneSig;
/// - the first byte of a code that is unknown, or of an instruction or a prefix that the end of the code
///   cuts, behind the prefixes before it;
/// - the first byte of the last prefix, for prefixes with nothing behind them;
/// - the number of the bytes, where they end inside the header or the code.
///
/// The time is linear in the number of bytes, also where a `switch` claims more targets than there are.
pub fn decode(alloc: Global, bytes: &[u8]) -> Result<Body, CodeFault>
    requires { length bytes.now < 2 ^ 32 }
    // What is decoded is spelled so.
    ensures found { IfOk result (λ body. Spells body bytes.now) }
    // What is spelled so is decoded, unless memory runs out.
    ensures only { (body : Body) → Spells body bytes.now → Gives (λ x. x) result (Ok body) }
    // It is the body, or the first fault, that reading from the first byte on gives.
    ensures exact { Gives (λ x. x) result (body_of bytes.now) }
{
    read_body(alloc, bytes)
}
