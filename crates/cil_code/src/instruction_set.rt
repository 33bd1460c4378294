//! The instruction set (ECMA-335 III): which codes there are, and what stands behind each.

ghost use Rattle.std.specs.Prelude.{◌≡◌, slice_get};
ghost use Rattle.std.specs.Option.{option_flatten};
ghost use Rattle.cil_code.specs.InstructionSet.{op_of, width, is_switch};

use crate::opcode::Opcode;

/// What stands behind the code of an instruction (III.1.9). Numbers have their lowest byte first.
#[derive(Clone, Copy)]
pub enum OperandKind {
    NoOperand,
    /// One byte: the number of an argument or a local, a constant, or an alignment.
    Int8,
    /// Two bytes: the number of an argument or a local.
    Int16,
    /// Four bytes: a constant.
    Int32,
    /// Eight bytes: a constant.
    Int64,
    /// Four bytes: a metadata token.
    Token,
    /// One byte: a distance from the next instruction.
    ShortBranch,
    /// Four bytes: a distance from the next instruction.
    Branch,
    /// Four bytes: how many distances follow, of four bytes each.
    Switch,
}

impl OperandKind {
    /// The number of bytes of the operand; of a `switch`, those of its count.
    pub fn width(self) -> usize
        ensures { result ≡ width self }
    {
        match self {
            OperandKind::NoOperand => 0,
            OperandKind::Int8 | OperandKind::ShortBranch => 1,
            OperandKind::Int16 => 2,
            OperandKind::Int32 | OperandKind::Token | OperandKind::Branch | OperandKind::Switch =>
                4,
            OperandKind::Int64 => 8,
        }
    }

    /// Whether distances follow the operand, which counts them.
    pub fn is_switch(self) -> bool
        ensures { result ≡ is_switch self }
    {
        matches!(self, OperandKind::Switch)
    }
}

/// A row of the instruction set.
#[derive(Clone, Copy)]
pub struct Op {
    /// The byte that spells it, or 0xFE00 plus the second of two.
    pub code: u16,
    pub opcode: Opcode,
    pub operand: OperandKind,
    /// Whether it is a prefix (III.2) of the instruction behind it.
    pub is_prefix: bool,
    /// Whether the machine executes it. The others are decoded, and trap when they are executed.
    pub in_profile: bool,
}

macro_rules! op {
    ($code:literal, $opcode:ident, $operand:ident, Instruction, Profile) => {
        op!($code, $opcode, $operand, false, true)
    };
    ($code:literal, $opcode:ident, $operand:ident, Instruction, Outside) => {
        op!($code, $opcode, $operand, false, false)
    };
    ($code:literal, $opcode:ident, $operand:ident, Prefix, Profile) => {
        op!($code, $opcode, $operand, true, true)
    };
    ($code:literal, $opcode:ident, $operand:ident, Prefix, Outside) => {
        op!($code, $opcode, $operand, true, false)
    };
    ($code:literal, $opcode:ident, $operand:ident, $is_prefix:literal, $in_profile:literal) => {
        Some(Op {
            code: $code,
            opcode: Opcode::$opcode,
            operand: OperandKind::$operand,
            is_prefix: $is_prefix,
            in_profile: $in_profile,
        })
    };
}

/// The instructions of one byte, each at its code.
pub static ONE_BYTE: [Option<Op>; 225] = [
    op!(0x00, Nop, NoOperand, Instruction, Profile),
    op!(0x01, Break, NoOperand, Instruction, Profile),
    op!(0x02, Ldarg0, NoOperand, Instruction, Profile),
    op!(0x03, Ldarg1, NoOperand, Instruction, Profile),
    op!(0x04, Ldarg2, NoOperand, Instruction, Profile),
    op!(0x05, Ldarg3, NoOperand, Instruction, Profile),
    op!(0x06, Ldloc0, NoOperand, Instruction, Profile),
    op!(0x07, Ldloc1, NoOperand, Instruction, Profile),
    op!(0x08, Ldloc2, NoOperand, Instruction, Profile),
    op!(0x09, Ldloc3, NoOperand, Instruction, Profile),
    op!(0x0A, Stloc0, NoOperand, Instruction, Profile),
    op!(0x0B, Stloc1, NoOperand, Instruction, Profile),
    op!(0x0C, Stloc2, NoOperand, Instruction, Profile),
    op!(0x0D, Stloc3, NoOperand, Instruction, Profile),
    op!(0x0E, LdargS, Int8, Instruction, Profile),
    op!(0x0F, LdargaS, Int8, Instruction, Profile),
    op!(0x10, StargS, Int8, Instruction, Profile),
    op!(0x11, LdlocS, Int8, Instruction, Profile),
    op!(0x12, LdlocaS, Int8, Instruction, Profile),
    op!(0x13, StlocS, Int8, Instruction, Profile),
    op!(0x14, Ldnull, NoOperand, Instruction, Profile),
    op!(0x15, LdcI4M1, NoOperand, Instruction, Profile),
    op!(0x16, LdcI40, NoOperand, Instruction, Profile),
    op!(0x17, LdcI41, NoOperand, Instruction, Profile),
    op!(0x18, LdcI42, NoOperand, Instruction, Profile),
    op!(0x19, LdcI43, NoOperand, Instruction, Profile),
    op!(0x1A, LdcI44, NoOperand, Instruction, Profile),
    op!(0x1B, LdcI45, NoOperand, Instruction, Profile),
    op!(0x1C, LdcI46, NoOperand, Instruction, Profile),
    op!(0x1D, LdcI47, NoOperand, Instruction, Profile),
    op!(0x1E, LdcI48, NoOperand, Instruction, Profile),
    op!(0x1F, LdcI4S, Int8, Instruction, Profile),
    op!(0x20, LdcI4, Int32, Instruction, Profile),
    op!(0x21, LdcI8, Int64, Instruction, Profile),
    op!(0x22, LdcR4, Int32, Instruction, Outside),
    op!(0x23, LdcR8, Int64, Instruction, Outside),
    None,
    op!(0x25, Dup, NoOperand, Instruction, Profile),
    op!(0x26, Pop, NoOperand, Instruction, Profile),
    op!(0x27, Jmp, Token, Instruction, Outside),
    op!(0x28, Call, Token, Instruction, Profile),
    op!(0x29, Calli, Token, Instruction, Outside),
    op!(0x2A, Ret, NoOperand, Instruction, Profile),
    op!(0x2B, BrS, ShortBranch, Instruction, Profile),
    op!(0x2C, BrfalseS, ShortBranch, Instruction, Profile),
    op!(0x2D, BrtrueS, ShortBranch, Instruction, Profile),
    op!(0x2E, BeqS, ShortBranch, Instruction, Profile),
    op!(0x2F, BgeS, ShortBranch, Instruction, Profile),
    op!(0x30, BgtS, ShortBranch, Instruction, Profile),
    op!(0x31, BleS, ShortBranch, Instruction, Profile),
    op!(0x32, BltS, ShortBranch, Instruction, Profile),
    op!(0x33, BneUnS, ShortBranch, Instruction, Profile),
    op!(0x34, BgeUnS, ShortBranch, Instruction, Profile),
    op!(0x35, BgtUnS, ShortBranch, Instruction, Profile),
    op!(0x36, BleUnS, ShortBranch, Instruction, Profile),
    op!(0x37, BltUnS, ShortBranch, Instruction, Profile),
    op!(0x38, Br, Branch, Instruction, Profile),
    op!(0x39, Brfalse, Branch, Instruction, Profile),
    op!(0x3A, Brtrue, Branch, Instruction, Profile),
    op!(0x3B, Beq, Branch, Instruction, Profile),
    op!(0x3C, Bge, Branch, Instruction, Profile),
    op!(0x3D, Bgt, Branch, Instruction, Profile),
    op!(0x3E, Ble, Branch, Instruction, Profile),
    op!(0x3F, Blt, Branch, Instruction, Profile),
    op!(0x40, BneUn, Branch, Instruction, Profile),
    op!(0x41, BgeUn, Branch, Instruction, Profile),
    op!(0x42, BgtUn, Branch, Instruction, Profile),
    op!(0x43, BleUn, Branch, Instruction, Profile),
    op!(0x44, BltUn, Branch, Instruction, Profile),
    op!(0x45, Switch, Switch, Instruction, Profile),
    op!(0x46, LdindI1, NoOperand, Instruction, Profile),
    op!(0x47, LdindU1, NoOperand, Instruction, Profile),
    op!(0x48, LdindI2, NoOperand, Instruction, Profile),
    op!(0x49, LdindU2, NoOperand, Instruction, Profile),
    op!(0x4A, LdindI4, NoOperand, Instruction, Profile),
    op!(0x4B, LdindU4, NoOperand, Instruction, Profile),
    op!(0x4C, LdindI8, NoOperand, Instruction, Profile),
    op!(0x4D, LdindI, NoOperand, Instruction, Profile),
    op!(0x4E, LdindR4, NoOperand, Instruction, Outside),
    op!(0x4F, LdindR8, NoOperand, Instruction, Outside),
    op!(0x50, LdindRef, NoOperand, Instruction, Profile),
    op!(0x51, StindRef, NoOperand, Instruction, Profile),
    op!(0x52, StindI1, NoOperand, Instruction, Profile),
    op!(0x53, StindI2, NoOperand, Instruction, Profile),
    op!(0x54, StindI4, NoOperand, Instruction, Profile),
    op!(0x55, StindI8, NoOperand, Instruction, Profile),
    op!(0x56, StindR4, NoOperand, Instruction, Outside),
    op!(0x57, StindR8, NoOperand, Instruction, Outside),
    op!(0x58, Add, NoOperand, Instruction, Profile),
    op!(0x59, Sub, NoOperand, Instruction, Profile),
    op!(0x5A, Mul, NoOperand, Instruction, Profile),
    op!(0x5B, Div, NoOperand, Instruction, Profile),
    op!(0x5C, DivUn, NoOperand, Instruction, Profile),
    op!(0x5D, Rem, NoOperand, Instruction, Profile),
    op!(0x5E, RemUn, NoOperand, Instruction, Profile),
    op!(0x5F, And, NoOperand, Instruction, Profile),
    op!(0x60, Or, NoOperand, Instruction, Profile),
    op!(0x61, Xor, NoOperand, Instruction, Profile),
    op!(0x62, Shl, NoOperand, Instruction, Profile),
    op!(0x63, Shr, NoOperand, Instruction, Profile),
    op!(0x64, ShrUn, NoOperand, Instruction, Profile),
    op!(0x65, Neg, NoOperand, Instruction, Profile),
    op!(0x66, Not, NoOperand, Instruction, Profile),
    op!(0x67, ConvI1, NoOperand, Instruction, Profile),
    op!(0x68, ConvI2, NoOperand, Instruction, Profile),
    op!(0x69, ConvI4, NoOperand, Instruction, Profile),
    op!(0x6A, ConvI8, NoOperand, Instruction, Profile),
    op!(0x6B, ConvR4, NoOperand, Instruction, Outside),
    op!(0x6C, ConvR8, NoOperand, Instruction, Outside),
    op!(0x6D, ConvU4, NoOperand, Instruction, Profile),
    op!(0x6E, ConvU8, NoOperand, Instruction, Profile),
    op!(0x6F, Callvirt, Token, Instruction, Profile),
    op!(0x70, Cpobj, Token, Instruction, Outside),
    op!(0x71, Ldobj, Token, Instruction, Profile),
    op!(0x72, Ldstr, Token, Instruction, Profile),
    op!(0x73, Newobj, Token, Instruction, Profile),
    op!(0x74, Castclass, Token, Instruction, Profile),
    op!(0x75, Isinst, Token, Instruction, Profile),
    op!(0x76, ConvRUn, NoOperand, Instruction, Outside),
    None,
    None,
    op!(0x79, Unbox, Token, Instruction, Profile),
    op!(0x7A, Throw, NoOperand, Instruction, Profile),
    op!(0x7B, Ldfld, Token, Instruction, Profile),
    op!(0x7C, Ldflda, Token, Instruction, Profile),
    op!(0x7D, Stfld, Token, Instruction, Profile),
    op!(0x7E, Ldsfld, Token, Instruction, Profile),
    op!(0x7F, Ldsflda, Token, Instruction, Profile),
    op!(0x80, Stsfld, Token, Instruction, Profile),
    op!(0x81, Stobj, Token, Instruction, Profile),
    op!(0x82, ConvOvfI1Un, NoOperand, Instruction, Outside),
    op!(0x83, ConvOvfI2Un, NoOperand, Instruction, Outside),
    op!(0x84, ConvOvfI4Un, NoOperand, Instruction, Outside),
    op!(0x85, ConvOvfI8Un, NoOperand, Instruction, Outside),
    op!(0x86, ConvOvfU1Un, NoOperand, Instruction, Outside),
    op!(0x87, ConvOvfU2Un, NoOperand, Instruction, Outside),
    op!(0x88, ConvOvfU4Un, NoOperand, Instruction, Outside),
    op!(0x89, ConvOvfU8Un, NoOperand, Instruction, Outside),
    op!(0x8A, ConvOvfIUn, NoOperand, Instruction, Outside),
    op!(0x8B, ConvOvfUUn, NoOperand, Instruction, Outside),
    op!(0x8C, Box, Token, Instruction, Profile),
    op!(0x8D, Newarr, Token, Instruction, Profile),
    op!(0x8E, Ldlen, NoOperand, Instruction, Profile),
    op!(0x8F, Ldelema, Token, Instruction, Profile),
    op!(0x90, LdelemI1, NoOperand, Instruction, Profile),
    op!(0x91, LdelemU1, NoOperand, Instruction, Profile),
    op!(0x92, LdelemI2, NoOperand, Instruction, Profile),
    op!(0x93, LdelemU2, NoOperand, Instruction, Profile),
    op!(0x94, LdelemI4, NoOperand, Instruction, Profile),
    op!(0x95, LdelemU4, NoOperand, Instruction, Profile),
    op!(0x96, LdelemI8, NoOperand, Instruction, Profile),
    op!(0x97, LdelemI, NoOperand, Instruction, Profile),
    op!(0x98, LdelemR4, NoOperand, Instruction, Outside),
    op!(0x99, LdelemR8, NoOperand, Instruction, Outside),
    op!(0x9A, LdelemRef, NoOperand, Instruction, Profile),
    op!(0x9B, StelemI, NoOperand, Instruction, Profile),
    op!(0x9C, StelemI1, NoOperand, Instruction, Profile),
    op!(0x9D, StelemI2, NoOperand, Instruction, Profile),
    op!(0x9E, StelemI4, NoOperand, Instruction, Profile),
    op!(0x9F, StelemI8, NoOperand, Instruction, Profile),
    op!(0xA0, StelemR4, NoOperand, Instruction, Outside),
    op!(0xA1, StelemR8, NoOperand, Instruction, Outside),
    op!(0xA2, StelemRef, NoOperand, Instruction, Profile),
    op!(0xA3, Ldelem, Token, Instruction, Profile),
    op!(0xA4, Stelem, Token, Instruction, Profile),
    op!(0xA5, UnboxAny, Token, Instruction, Profile),
    None,
    None,
    None,
    None,
    None,
    None,
    None,
    None,
    None,
    None,
    None,
    None,
    None,
    op!(0xB3, ConvOvfI1, NoOperand, Instruction, Outside),
    op!(0xB4, ConvOvfU1, NoOperand, Instruction, Outside),
    op!(0xB5, ConvOvfI2, NoOperand, Instruction, Outside),
    op!(0xB6, ConvOvfU2, NoOperand, Instruction, Outside),
    op!(0xB7, ConvOvfI4, NoOperand, Instruction, Outside),
    op!(0xB8, ConvOvfU4, NoOperand, Instruction, Outside),
    op!(0xB9, ConvOvfI8, NoOperand, Instruction, Outside),
    op!(0xBA, ConvOvfU8, NoOperand, Instruction, Outside),
    None,
    None,
    None,
    None,
    None,
    None,
    None,
    op!(0xC2, Refanyval, Token, Instruction, Outside),
    op!(0xC3, Ckfinite, NoOperand, Instruction, Outside),
    None,
    None,
    op!(0xC6, Mkrefany, Token, Instruction, Outside),
    None,
    None,
    None,
    None,
    None,
    None,
    None,
    None,
    None,
    op!(0xD0, Ldtoken, Token, Instruction, Profile),
    op!(0xD1, ConvU2, NoOperand, Instruction, Profile),
    op!(0xD2, ConvU1, NoOperand, Instruction, Profile),
    op!(0xD3, ConvI, NoOperand, Instruction, Profile),
    op!(0xD4, ConvOvfI, NoOperand, Instruction, Outside),
    op!(0xD5, ConvOvfU, NoOperand, Instruction, Outside),
    op!(0xD6, AddOvf, NoOperand, Instruction, Profile),
    op!(0xD7, AddOvfUn, NoOperand, Instruction, Profile),
    op!(0xD8, MulOvf, NoOperand, Instruction, Profile),
    op!(0xD9, MulOvfUn, NoOperand, Instruction, Profile),
    op!(0xDA, SubOvf, NoOperand, Instruction, Profile),
    op!(0xDB, SubOvfUn, NoOperand, Instruction, Profile),
    op!(0xDC, Endfinally, NoOperand, Instruction, Outside),
    op!(0xDD, Leave, Branch, Instruction, Outside),
    op!(0xDE, LeaveS, ShortBranch, Instruction, Outside),
    op!(0xDF, StindI, NoOperand, Instruction, Profile),
    op!(0xE0, ConvU, NoOperand, Instruction, Profile),
];

/// The instructions whose first byte is 0xFE, each at its second byte.
pub static TWO_BYTES: [Option<Op>; 31] = [
    op!(0xFE00, Arglist, NoOperand, Instruction, Outside),
    op!(0xFE01, Ceq, NoOperand, Instruction, Profile),
    op!(0xFE02, Cgt, NoOperand, Instruction, Profile),
    op!(0xFE03, CgtUn, NoOperand, Instruction, Profile),
    op!(0xFE04, Clt, NoOperand, Instruction, Profile),
    op!(0xFE05, CltUn, NoOperand, Instruction, Profile),
    op!(0xFE06, Ldftn, Token, Instruction, Outside),
    op!(0xFE07, Ldvirtftn, Token, Instruction, Outside),
    None,
    op!(0xFE09, Ldarg, Int16, Instruction, Profile),
    op!(0xFE0A, Ldarga, Int16, Instruction, Profile),
    op!(0xFE0B, Starg, Int16, Instruction, Profile),
    op!(0xFE0C, Ldloc, Int16, Instruction, Profile),
    op!(0xFE0D, Ldloca, Int16, Instruction, Profile),
    op!(0xFE0E, Stloc, Int16, Instruction, Profile),
    op!(0xFE0F, Localloc, NoOperand, Instruction, Outside),
    None,
    op!(0xFE11, Endfilter, NoOperand, Instruction, Outside),
    op!(0xFE12, Unaligned, Int8, Prefix, Outside),
    op!(0xFE13, Volatile, NoOperand, Prefix, Profile),
    op!(0xFE14, Tail, NoOperand, Prefix, Outside),
    op!(0xFE15, Initobj, Token, Instruction, Profile),
    op!(0xFE16, Constrained, Token, Prefix, Profile),
    op!(0xFE17, Cpblk, NoOperand, Instruction, Outside),
    op!(0xFE18, Initblk, NoOperand, Instruction, Outside),
    None,
    op!(0xFE1A, Rethrow, NoOperand, Instruction, Outside),
    None,
    op!(0xFE1C, Sizeof, Token, Instruction, Profile),
    op!(0xFE1D, Refanytype, NoOperand, Instruction, Outside),
    op!(0xFE1E, Readonly, NoOperand, Prefix, Profile),
];

fn op_at(table: &[Option<Op>], index: usize) -> Option<Op>
    ensures { result ≡ option_flatten (slice_get table.now index) }
{
    if index < table.len() {
        table[index]
    } else {
        None
    }
}

/// The row of a code of one byte, or of 0xFE00 plus the second byte; None for a code that is unknown.
pub fn op_of_code(code: u16) -> Option<Op>
    ensures { result ≡ op_of code }
{
    if code < 0x100 {
        op_at(&ONE_BYTE, code as usize)
    } else if code < 0xFE00 {
        None
    } else {
        op_at(&TWO_BYTES, (code - 0xFE00) as usize)
    }
}
