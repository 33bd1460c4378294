//! Signatures (ECMA-335 II.23.2), in a file of two TypeDef rows, three TypeRef rows and a TypeSpec row.
use crate::words::bytes_of;
use cli_sigs::{
    RowCounts, SigMethod, SigTy, read_field, read_locals, read_method, read_method_spec,
    read_type_spec,
};
use clr_base::Memory;
use std::alloc::Global;

const COUNTS: RowCounts = RowCounts {
    type_def: 2,
    type_ref: 3,
    type_spec: 1,
};

/// The built-in types by their codes (II.23.1.16).
static BUILT_IN: [(u8, &str); 17] = [
    (0x01, "void"),
    (0x02, "bool"),
    (0x03, "char"),
    (0x04, "int8"),
    (0x05, "uint8"),
    (0x06, "int16"),
    (0x07, "uint16"),
    (0x08, "int32"),
    (0x09, "uint32"),
    (0x0a, "int64"),
    (0x0b, "uint64"),
    (0x0c, "float32"),
    (0x0d, "float64"),
    (0x0e, "string"),
    (0x18, "nint"),
    (0x19, "nuint"),
    (0x1c, "object"),
];

fn built_in(code: u8) -> &'static str {
    for (known, name) in &BUILT_IN {
        if *known == code {
            return name;
        }
    }
    "unknown"
}

#[cycle(types)]
fn push_type(out: &mut String, t: &SigTy) -> Result<(), Memory> {
    match t {
        SigTy::BuiltIn(code) => Ok(out.push_str(built_in(*code))?),
        SigTy::Inst(name, value, arguments) => {
            let word = if *value { "valuetype" } else { "class" };
            write!(out, "{word} 0x{name:x}")?;
            push_arguments(out, arguments.as_slice())
        }
        SigTy::Array(element) => push_with_suffix(out, element.get(), "[]"),
        SigTy::ByRef(target) => push_with_suffix(out, target.get(), "&"),
        SigTy::Ptr(target) => push_with_suffix(out, target.get(), "*"),
        SigTy::Var(number) => Ok(write!(out, "!{number}")?),
        SigTy::MVar(number) => Ok(write!(out, "!!{number}")?),
        SigTy::Odd(code) => Ok(write!(out, "odd 0x{code:x}")?),
    }
}

#[cycle(types)]
fn push_with_suffix(out: &mut String, t: &SigTy, suffix: &str) -> Result<(), Memory> {
    push_type(out, t)?;
    Ok(out.push_str(suffix)?)
}

#[cycle(types)]
fn push_arguments(out: &mut String, arguments: &[SigTy]) -> Result<(), Memory> {
    for (k, argument) in arguments.iter().enumerate() {
        out.push_str(if k == 0 { "<" } else { "," })?;
        push_type(out, argument)?;
    }
    Ok(out.push_str(if arguments.is_empty() { "" } else { ">" })?)
}

fn push_list(out: &mut String, list: &[SigTy]) -> Result<(), Memory> {
    for (k, t) in list.iter().enumerate() {
        out.push_str(if k == 0 { "" } else { ", " })?;
        push_type(out, t)?;
    }
    Ok(())
}

fn push_whole_method(out: &mut String, method: &SigMethod) -> Result<(), Memory> {
    out.push_str(if method.has_this {
        " = instance "
    } else {
        " = static "
    })?;
    out.push_str(if method.vararg { "vararg " } else { "" })?;
    write!(out, "generic {} ", method.generic)?;
    push_type(out, &method.ret)?;
    out.push_str(" (")?;
    push_list(out, method.params.as_slice())?;
    Ok(out.push_str(")")?)
}

/// `field HEX`: the type of a field.
pub fn push_field(alloc: Global, out: &mut String, request: &str) -> Result<(), Memory> {
    let blob = bytes_of(alloc, request)?;
    out.push_str(" = ")?;
    match read_field(alloc, &blob, &COUNTS) {
        Ok(t) => push_type(out, &t),
        Err(fault) => Ok(write!(out, "{fault}")?),
    }
}

/// `method HEX`: the signature of a method.
pub fn push_method(alloc: Global, out: &mut String, request: &str) -> Result<(), Memory> {
    let blob = bytes_of(alloc, request)?;
    match read_method(alloc, &blob, &COUNTS) {
        Ok(method) => push_whole_method(out, &method),
        Err(fault) => Ok(write!(out, " = {fault}")?),
    }
}

/// `locals HEX`: the types of local variables.
pub fn push_locals(alloc: Global, out: &mut String, request: &str) -> Result<(), Memory> {
    let blob = bytes_of(alloc, request)?;
    out.push_str(" = ")?;
    match read_locals(alloc, &blob, &COUNTS) {
        Ok(list) => push_list(out, list.as_slice()),
        Err(fault) => Ok(write!(out, "{fault}")?),
    }
}

/// `typespec HEX`: the type that a TypeSpec row names.
pub fn push_type_spec(alloc: Global, out: &mut String, request: &str) -> Result<(), Memory> {
    let blob = bytes_of(alloc, request)?;
    out.push_str(" = ")?;
    match read_type_spec(alloc, &blob, &COUNTS) {
        Ok(t) => push_type(out, &t),
        Err(fault) => Ok(write!(out, "{fault}")?),
    }
}

/// `methodspec HEX`: the arguments of a generic method.
pub fn push_method_spec(alloc: Global, out: &mut String, request: &str) -> Result<(), Memory> {
    let blob = bytes_of(alloc, request)?;
    out.push_str(" = ")?;
    match read_method_spec(alloc, &blob, &COUNTS) {
        Ok(list) => push_list(out, list.as_slice()),
        Err(fault) => Ok(write!(out, "{fault}")?),
    }
}
