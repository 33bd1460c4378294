//! The state of a running job: values, operands, variables, frames and objects (ECMA-335 I.12.3.2, III.1.1). What
//! names an exact type is a parameter `H` of all of it.
#![tactic(auto)]

mod form;
mod frames;
mod laws;
mod limits;
mod operand;
mod pile;
mod state;
mod trap;
mod value;
mod variables;

pub use form::{Form, IntKind, Scalar, Variable};
pub use frames::{enter, leave};
pub use laws::{names_agree, names_compose, names_kept, names_unseen};
pub use limits::{FRAME_LIMIT, OUTPUT_LIMIT, spend, write_text};
pub use operand::{
    Operand, Operands, as_addr, as_integer, as_number, as_ref, both, pop_operand, seen,
};
pub use pile::Pile;
pub use state::{Frame, Run, Stack, State, Static};
pub use trap::{Stop, Trap};
pub use value::{Addr, Place, Value, copy_of};
pub use variables::{assigned, kept, loaded, variable, zero_of, zeroed};
