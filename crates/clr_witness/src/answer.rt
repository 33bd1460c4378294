//! Which request a line is.
use crate::bodies::push_body;
use crate::images::{push_code, push_image, push_tables, push_texts};
use crate::instructions::push_instructions;
use crate::kinds::push_faults;
use crate::numbers::{push_binary, push_compare, push_convert};
use crate::schema::push_schema;
use crate::signatures::{push_field, push_locals, push_method, push_method_spec, push_type_spec};
use crate::widths::{push_rows, push_width};
use crate::words::split_word;
use clr_base::Memory;
use std::alloc::Global;

/// The line and its answer. A line that is empty or begins with `#` has none.
pub fn answer(alloc: Global, line: &str) -> Result<String, Memory> {
    let mut out = String::from_str(alloc, line)?;
    let (verb, rest) = split_word(line);
    push_answer(alloc, &mut out, verb, rest)?;
    Ok(out)
}

fn push_answer(alloc: Global, out: &mut String, verb: &str, rest: &str) -> Result<(), Memory> {
    match verb {
        "" | "#" => Ok(()),
        "instructions" => push_instructions(out),
        "schema" => push_schema(out),
        "faults" => push_faults(out),
        "op" => push_binary(out, rest),
        "compare" => push_compare(out, rest),
        "convert" => push_convert(out, rest),
        "width" => push_width(out, rest),
        "rows" => push_rows(out, rest),
        _ => push_bytes_answer(alloc, out, verb, rest),
    }
}

/// The answer to a request that is about bytes.
fn push_bytes_answer(
    alloc: Global,
    out: &mut String,
    verb: &str,
    rest: &str,
) -> Result<(), Memory> {
    match verb {
        "body" => push_body(alloc, out, rest),
        "field" => push_field(alloc, out, rest),
        "method" => push_method(alloc, out, rest),
        "locals" => push_locals(alloc, out, rest),
        "typespec" => push_type_spec(alloc, out, rest),
        "methodspec" => push_method_spec(alloc, out, rest),
        "image" => push_image(alloc, out, rest),
        "code" => push_code(alloc, out, rest),
        "tables" => push_tables(alloc, out, rest),
        "texts" => push_texts(alloc, out, rest),
        _ => Ok(out.push_str(" = no request")?),
    }
}
