//! The state of a run.

use crate::form::Variable;
use crate::pile::Pile;
use crate::value::Value;
use clr_base::{FieldId, Handle, MethId};
use obj_heap::Heap;
use sqlite_items::Items;

/// The evaluation stack of a frame, as the code has it.
pub type Stack = Pile<Value<Handle>>;

/// A frame of a method (ECMA-335 I.12.3.2). `H` names exact types, and methods with their exact arguments.
#[derive(Drop)]
pub struct Frame<H> {
    pub method: MethId,
    /// The method with its arguments where it has formals of its own, else its exact owner.
    pub context: H,
    /// The number of the next instruction among those of the body.
    pub place: u32,
    pub args: Items<Variable<H>>,
    pub locals: Items<Variable<H>>,
    pub stack: Pile<Value<H>>,
}

/// A static field of an exact type.
#[derive(Drop)]
pub struct Static<H> {
    pub owner: H,
    pub field: FieldId,
    pub variable: Variable<H>,
}

/// The state of a job, but for its output.
#[derive(Drop)]
pub struct State<H> {
    /// The running frame.
    pub top: Frame<H>,
    /// The frames that wait, the last caller first.
    pub below: Pile<Frame<H>>,
    pub heap: Heap<H>,
    /// The static fields that were used so far, in the order of their first use.
    pub statics: Items<Static<H>>,
    /// The exact types whose class constructor has begun, in that order.
    pub begun: Items<H>,
    /// The exact types that `ldtoken` gave, in the order of their first use.
    pub tokens: Items<H>,
}

/// A job that runs: its state, what it has written, and how many instructions it may still execute.
#[derive(Drop)]
pub struct Run<H> {
    pub state: State<H>,
    pub output: Items<u8>,
    pub fuel: u64,
}
