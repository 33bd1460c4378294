//! The integer operations of the machine, exact (ECMA-335 III.1.5, III.3): two operands, comparisons,
//! conversions, over numbers of 32 and of 64 bits.
#![tactic(auto)]

mod comparing;
mod computing;
mod converting;
mod fault;
mod int32;
mod int64;
mod number;
mod operations;

pub use comparing::compare;
pub use computing::binary;
pub use converting::convert;
pub use fault::OpFault;
pub use number::Num;
pub use operations::{BinOp, CmpOp, ConvOp};
