//! A walk over the bytes of a body's code.

ghost use Rattle.std.specs.Prelude.{◌≡◌, ◌==◌, ◌+◌, ◌*◌, ◌^◌, ◌<◌, ◌≤◌, length, drop, IfOk, OnOk};
ghost use Rattle.byteorder.specs.Endian.{little_number};
ghost use Rattle.cil_code.specs.Reading.{Gives, front, number_at, code_at, row_at, coded_at, numbers, targets_at, fault_at};

use crate::body::{Prefix, TargetList};
use crate::code_fault::CodeFault;
use crate::instruction_set::{Op, op_of_code};
use byteorder::{ByteOrder, LittleEndian};
use sqlite_items::Items;
use std::alloc::{AllocError, Global};
use std::marker::Model;

/// The code of a body from a place on.
#[derive(Drop)]
pub(crate) struct Cursor<'a> {
    header: usize,
    place: usize,
    left: usize,
    bytes: &'a [u8],
}

impl<'a> Model for Cursor<'a> {
    ghost use Rattle.std.specs.Prelude.{◌+◌, ◌^◌, ◌<◌, length};
    ghost use Rattle.cil_code.specs.Reading.{Window};

    ghost Value = { Window };

    ghost view = { λ c. record { header = c.header; place = c.place; left = c.left; bytes = c.bytes.now } };

    ghost invariant = { λ c. c.header + c.place + length c.bytes.now < 2 ^ 32 };
}

impl<'a> Cursor<'a> {
    /// The code of `size` bytes that begins behind the header.
    pub(crate) fn new(body: &'a [u8], header: usize, size: usize) -> Cursor<'a>
        requires inside { header ≤ length body.now }
        requires fits { length body.now < 2 ^ 32 }
        ensures { result ≡ record { header = header; place = 0; left = size; bytes = drop header body.now } }
    {
        Cursor {
            header,
            place: 0,
            left: size,
            bytes: &body[header..],
        }
    }

    pub(crate) fn place(&self) -> usize
        ensures place { result ≡ self.now.place }
        ensures fits { result < 2 ^ 32 }
    {
        self.place
    }

    pub(crate) fn is_at_end(&self) -> bool
        ensures { result ≡ (self.now.left == 0) }
    {
        self.left == 0
    }

    /// The fault at a place of the code.
    pub(crate) fn fault(&self, place: usize) -> CodeFault
        requires { place ≤ self.now.place }
        ensures { result ≡ fault_at place self.now }
    {
        CodeFault::BadBody((self.header + place) as u32)
    }

    /// The fault at the end of the body's bytes.
    fn end(&self) -> CodeFault
        ensures { result ≡ fault_at (self.now.place + length self.now.bytes) self.now }
    {
        CodeFault::BadBody((self.header + self.place + self.bytes.len()) as u32)
    }

    /// The next bytes of what began at `start`.
    fn take(&mut self, start: usize, count: usize) -> Result<&'a [u8], CodeFault>
        requires { start ≤ self.old.place }
        ensures taken { Gives (λ x. (x.now, self.new)) result (front start count self.old) }
        ensures left { OnOk result (self.new.left ≤ self.old.left) }
    {
        if self.left < count {
            return Err(self.fault(start));
        }
        if self.bytes.len() < count {
            return Err(self.end());
        }
        let (taken, rest) = self.bytes.split_at(count);
        self.bytes = rest;
        self.place += count;
        self.left -= count;
        Ok(taken)
    }

    /// The next byte of what began at `start`.
    fn byte(&mut self, start: usize) -> Result<u8, CodeFault>
        requires { start ≤ self.old.place }
        ensures number { Gives (λ x. (x, self.new)) result (number_at start 1 self.old) }
        ensures place { OnOk result (start ≤ self.new.place) }
        ensures left { OnOk result (self.new.left < self.old.left) }
    {
        let taken = self.take(start, 1)?;
        Ok(taken[0])
    }

    /// The next number of what began at `start`, its lowest byte first.
    fn number(&mut self, start: usize, width: usize) -> Result<u64, CodeFault>
        requires place { start ≤ self.old.place }
        requires width { width ≤ 8 }
        ensures number { Gives (λ x. (x, self.new)) result (number_at start width self.old) }
        ensures left { OnOk result (self.new.left ≤ self.old.left) }
    {
        let taken = self.take(start, width)?;
        Ok(number_of(taken, width))
    }

    /// The code of an instruction.
    #[tactic(auto, unfolding(crate::specs::Reading::code_at))]
    fn code(&mut self) -> Result<u16, CodeFault>
        ensures code { Gives (λ x. (x, self.new)) result (code_at self.old) }
        ensures place { OnOk result (self.old.place ≤ self.new.place) }
        ensures left { OnOk result (self.new.left < self.old.left) }
    {
        let start = self.place;
        let first = self.byte(start)?;
        if first != 0xFE {
            return Ok(u16::from(first));
        }
        let second = self.byte(start)?;
        Ok(0xFE00 + u16::from(second))
    }

    /// The row of the instruction set that the next code names.
    #[tactic(auto, unfolding(crate::specs::Reading::row_at))]
    fn op(&mut self) -> Result<Op, CodeFault>
        ensures op { Gives (λ x. (x, self.new)) result (row_at self.old) }
        ensures place { OnOk result (self.old.place ≤ self.new.place) }
        ensures left { OnOk result (self.new.left < self.old.left) }
    {
        let unknown = self.fault(self.place);
        let code = self.code()?;
        match op_of_code(code) {
            Some(op) => Ok(op),
            None => Err(unknown),
        }
    }

    /// An instruction or a prefix, with its operand.
    #[tactic(auto, unfolding(crate::specs::Reading::coded_at))]
    pub(crate) fn coded(&mut self) -> Result<Prefix, CodeFault>
        ensures coded { Gives (λ x. (x, self.new)) result (coded_at self.old) }
        ensures place { OnOk result (self.old.place ≤ self.new.place) }
        ensures left { OnOk result (self.new.left < self.old.left) }
    {
        let start = self.place;
        let op = self.op()?;
        let operand = self.number(start, op.operand.width())?;
        Ok(Prefix { op, operand })
    }

    /// The targets of a `switch` that began at `start`; none for any other instruction.
    #[tactic(auto, unfolding(crate::specs::Reading::targets_at))]
    pub(crate) fn targets(
        &mut self,
        alloc: Global,
        start: usize,
        coded: Prefix,
    ) -> Result<TargetList, CodeFault>
        requires { start ≤ self.old.place }
        ensures targets { Gives (λ x. (x, self.new)) result (targets_at start coded self.old) }
        ensures left { OnOk result (self.new.left ≤ self.old.left) }
    {
        if !coded.op.operand.is_switch() {
            return Ok(Items::new(alloc));
        }
        if ((self.left / 4) as u64) < coded.operand {
            return Err(self.fault(start));
        }
        let count = coded.operand as usize;
        let taken = self.take(start, 4 * count)?;
        Ok(numbers_of(alloc, taken, count)?)
    }
}

/// The number in the first bytes, the lowest first.
fn number_of(bytes: &[u8], width: usize) -> u64
    requires inside { width ≤ length bytes.now }
    requires fits { width ≤ 8 }
    ensures { result ≡ little_number width bytes.now }
{
    if width == 0 {
        0
    } else {
        LittleEndian::read_uint(bytes, width)
    }
}

/// So many numbers of four bytes, one after the other.
fn numbers_of(alloc: Global, bytes: &[u8], count: usize) -> Result<Items<u32>, AllocError>
    requires { 4 * count ≤ length bytes.now }
    ensures { IfOk result (λ ns. ns ≡ numbers count bytes.now) }
{
    let mut ns = Items::new(alloc);
    for i in 0..count {
        let (_, rest) = bytes.split_at(4 * i);
        ns.push(LittleEndian::read_u32(rest))?;
    }
    Ok(ns)
}
