//! What `names` writes of files.
ghost use Rattle.std.specs.Prelude.{◌≡◌, ◌++◌, length, IfOk, OnOk};
ghost use Rattle.clr_core.specs.Command.{texts_of};
ghost use Rattle.clr_core.specs.Names as spec;

use cli_tables::Tables;
use clr_base::{Bytes, Memory, Text};
use image_rows::full_names;
use std::alloc::Global;

/// Appends a piece of text.
fn push(text: &mut Vec<u8>, piece: &str) -> Result<(), Memory>
    ensures { OnOk result (text.new.items ≡ text.old.items ++ piece.now) }
{
    text.extend_from_slice(piece.as_bytes())?;
    Ok(())
}

/// Appends the line of a full name.
#[tactic(auto, unfolding(crate::specs::Names::name_line))]
fn push_line(text: &mut Vec<u8>, name: &str) -> Result<(), Memory>
    ensures { OnOk result (text.new.items ≡ text.old.items ++ spec.name_line name.now) }
{
    push(text, "  ")?;
    push(text, name)?;
    push(text, "\n")?;
    Ok(())
}

/// Appends a file's word, then full names, each on a line of its own.
#[tactic(auto, unfolding(crate::specs::Names::file_text))]
fn push_file(text: &mut Vec<u8>, file: &str, names: &[Text]) -> Result<(), Memory>
    ensures { OnOk result (text.new.items ≡ text.old.items ++ spec.file_text file.now names.now) }
{
    push(text, file)?;
    push(text, "\n")?;
    for name in names {
        push_line(text, name.as_str())?;
    }
    Ok(())
}

/// What is written of files, by their words and their metadata. Takes time and memory in the length of the text, and of
/// each file in the rows of TypeDef and NestedClass.
pub fn names_text(alloc: Global, files: &[String], images: &[Tables<'_>]) -> Result<Bytes, Memory>
    requires { length files.now ≡ length images.now }
    ensures { IfOk result (λ text. text ≡ spec.names_text (texts_of files.now) images.now) }
{
    let mut text = Vec::new(alloc);
    for k in 0..images.len() {
        let names = full_names(alloc, &images[k])?;
        push_file(&mut text, files[k].as_str(), names.as_slice())?;
    }
    Ok(Bytes::from_vec(text))
}
