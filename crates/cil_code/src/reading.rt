//! The instructions of a body's code.

ghost use Rattle.std.specs.Prelude.{◌≡◌, ◌<◌, [], OnOk};
ghost use Rattle.cil_code.specs.Reading.{Gives, instr_at, list_at};

use crate::body::{CodeList, Instr, Placed};
use crate::code_fault::CodeFault;
use crate::cursor::Cursor;
use sqlite_items::Items;
use std::alloc::Global;

/// The next instruction, with the prefixes before it.
fn read_instr(alloc: Global, code: &mut Cursor) -> Result<Instr, CodeFault>
    requires { 0 < code.old.left }
    ensures instr { Gives (λ x. (x, code.new)) result (instr_at code.old.left [] code.old) }
    ensures left { OnOk result (code.new.left < code.old.left) }
{
    let mut prefixes = Items::new(alloc);
    loop {
        let start = code.place();
        let alone = code.fault(start);
        let coded = code.coded()?;
        if !coded.op.is_prefix {
            let targets = code.targets(alloc, start, coded)?;
            return Ok(Instr {
                prefixes,
                op: coded.op,
                operand: coded.operand,
                targets,
            });
        }
        if code.is_at_end() {
            return Err(alone);
        }
        prefixes.push(coded)?;
    }
}

/// All instructions from here on, each with its place.
pub(crate) fn read_list(alloc: Global, code: &mut Cursor) -> Result<CodeList, CodeFault>
    ensures { Gives (λ x. x) result (list_at code.old.left code.old) }
{
    let mut list = Items::new(alloc);
    while !code.is_at_end() {
        let place = code.place();
        let instr = read_instr(alloc, code)?;
        list.push(Placed {
            place: place as u32,
            instr,
        })?;
    }
    Ok(list)
}
