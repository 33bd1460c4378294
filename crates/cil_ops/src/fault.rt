//! Why an operation has no result.

use thiserror::Error;

/// Why an operation on two numbers has no result.
#[derive(Clone, Copy, Debug, PartialEq, Eq, Error)]
pub enum OpFault {
    /// A division or a remainder by zero (ECMA-335 III.3.31, III.3.32, III.3.55, III.3.56).
    #[error("division by zero")]
    DivideByZero,
    /// The exact result doesn't fit its width.
    #[error("overflow")]
    Overflow,
    /// The operands' widths are none of those that the operation takes (III.1.5).
    #[error("operands of mixed widths")]
    Mixed,
}
