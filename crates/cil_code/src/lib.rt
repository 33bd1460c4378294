//! Method bodies (ECMA-335 II.25.4 and III): the instruction set as data, and bytes decoded to
//! instructions, exactly, or refused at the first byte that is not allowed.
#![tactic(auto)]

mod body;
mod code_fault;
mod cursor;
mod decoding;
mod instruction_set;
mod opcode;
mod reading;

pub use body::{Body, CodeList, Instr, Placed, Prefix, PrefixList, TargetList};
pub use code_fault::CodeFault;
pub use decoding::decode;
pub use instruction_set::{Op, OperandKind, op_of_code};
pub use opcode::Opcode;
