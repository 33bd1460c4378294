//! What a method body says.

use crate::instruction_set::Op;
use sqlite_items::Items;

/// The prefixes of an instruction, in order.
pub type PrefixList = Items<Prefix>;

/// The distances of a `switch`, each the number that its four bytes give.
pub type TargetList = Items<u32>;

/// The instructions of a body, in order, each with its place.
pub type CodeList = Items<Placed>;

/// A prefix (III.2) with its operand.
#[derive(Clone, Copy)]
pub struct Prefix {
    pub op: Op,
    /// The number that its bytes give, lowest byte first, without a sign; 0 where there are none.
    pub operand: u64,
}

/// An instruction with the prefixes before it.
#[derive(Drop)]
pub struct Instr {
    pub prefixes: PrefixList,
    pub op: Op,
    /// The number that its bytes give, lowest byte first, without a sign; 0 where there are none. That
    /// of a `switch` is the number of its targets.
    pub operand: u64,
    /// The distances of a `switch`; empty for any other instruction.
    pub targets: TargetList,
}

/// An instruction and its place: the first byte of its first prefix or of its code, counted in bytes
/// from the first byte of the body's code.
#[derive(Drop)]
pub struct Placed {
    pub place: u32,
    pub instr: Instr,
}

/// A method body (II.25.4): what its header says, and its instructions.
#[derive(Drop)]
pub struct Body {
    /// How many values the evaluation stack holds at most, as the header says; 8 for a tiny header.
    pub max_stack: u32,
    /// Whether locals begin as zero, as the header says.
    pub init: bool,
    /// The token of the signature of the locals: 0 for none, else a row of StandAloneSig (0x11).
    pub locals: u32,
    pub code: CodeList,
}
