//! The instructions of a frame, by what they do.

ghost use Rattle.std.specs.Prelude.{◌≡◌};
ghost use Rattle.cil_plain.specs.Coding.{going_to};

use cil_ops::{BinOp, CmpOp, ConvOp, Num};
use sqlite_items::Items;

/// Where a branch goes to: the number of an instruction of the body. None where no instruction begins at the place that
/// the branch names.
pub type Target = Option<u32>;

/// What a branch asks before it goes.
#[derive(Clone, Copy)]
pub enum Branch {
    /// `br`: nothing.
    Always,
    /// `brtrue` and `brfalse`: whether the operand has that truth.
    If(bool),
    /// Whether the comparison holds of two operands.
    Where(CmpOp),
}

/// An instruction that reads and changes the running frame alone.
#[derive(Drop)]
pub enum Plain {
    /// `nop`, `break` (ECMA-335 III.3.51, III.3.16).
    Nop,
    /// `ldc` (III.3.40).
    Const(Num),
    /// `ldnull` (III.3.45).
    Null,
    /// `ldarg` (III.3.38).
    LoadArg(u32),
    /// `starg` (III.3.61).
    StoreArg(u32),
    /// `ldloc` (III.3.43).
    LoadLocal(u32),
    /// `stloc` (III.3.63).
    StoreLocal(u32),
    /// `dup` (III.3.34).
    Dup,
    /// `pop` (III.3.54).
    Pop,
    /// Two numbers give one.
    Binary(BinOp),
    /// One number gives one: `conv`, `neg`, `not`.
    Convert(ConvOp),
    /// `ceq`, `cgt`, `clt` (III.3.21 to III.3.26).
    Compare(CmpOp),
    /// `br` (III.3.15).
    Jump(Target),
    /// `brtrue` and `brfalse` (III.3.17, III.3.18), by the truth at which they go.
    JumpIf(bool, Target),
    /// The branches that compare (III.3.5 to III.3.14).
    JumpWhere(CmpOp, Target),
    /// `switch` (III.3.66).
    Switch(Items<Target>),
    /// `throw` (III.4.31).
    Throw,
}

impl Branch {
    /// The branch to a target.
    pub fn to(self, target: Target) -> Plain
        ensures { result ≡ going_to self target }
    {
        match self {
            Branch::Always => Plain::Jump(target),
            Branch::If(truth) => Plain::JumpIf(truth, target),
            Branch::Where(op) => Plain::JumpWhere(op, target),
        }
    }
}
