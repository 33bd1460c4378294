//! The text of a tree.

ghost use Rattle.std.specs.Prelude.{◌≡◌, ◌++◌, ◌<◌, ◌≤◌, map, decimal, IfOk, OnOk};
ghost use Rattle.type_tree.specs.Texts as spec;

use crate::lookup::{full_name, name_text};
use crate::tree::Ty;
use crate::world::World;
use clr_base::{Memory, Text};
use itoa::Buffer;
use std::alloc::Global;

/// Appends a number in decimal digits.
fn push_number(text: &mut Text, number: u32) -> Result<(), Memory>
    ensures { OnOk result (text.new ≡ text.old ++ decimal number) }
{
    let mut digits = Buffer::new();
    Ok(text.push_str(digits.format(number))?)
}

/// Appends the text of a tree.
#[cycle(text)]
#[tactic(auto, using(crate::proofs::TextLemmas::texts))]
fn push_tree(text: &mut Text, world: &World, t: &Ty) -> Result<(), Memory>
    ensures { OnOk result (text.new ≡ text.old ++ spec.type_text world.now t.now) }
{
    match t {
        Ty::Inst(def, args) => {
            text.push_str(full_name(world, *def))?;
            push_arguments(text, world, args.as_slice())
        }
        Ty::Array(e) => push_with_suffix(text, world, e.get(), "[]"),
        Ty::ByRef(e) => push_with_suffix(text, world, e.get(), "&"),
        Ty::Ptr(e) => push_with_suffix(text, world, e.get(), "*"),
        Ty::Var(n) => {
            text.push_str("!")?;
            push_number(text, *n)
        }
        Ty::MVar(n) => {
            text.push_str("!!")?;
            push_number(text, *n)
        }
        Ty::Missing(name, _) => Ok(text.push_str(name_text(world, *name))?),
        Ty::Odd(_) => Ok(text.push_str("?")?),
    }
}

/// Appends the text of a tree and what stands behind it.
#[cycle(text)]
fn push_with_suffix(text: &mut Text, world: &World, t: &Ty, suffix: &str) -> Result<(), Memory>
    ensures { OnOk result (text.new ≡ text.old ++ (spec.type_text world.now t.now ++ suffix.now)) }
{
    push_tree(text, world, t)?;
    Ok(text.push_str(suffix)?)
}

/// Appends arguments in brackets, nothing where there are none.
#[cycle(text)]
fn push_arguments(text: &mut Text, world: &World, args: &[Ty]) -> Result<(), Memory>
    ensures { OnOk result (text.new ≡ text.old ++ spec.bracketed (map (spec.type_text world.now) args.now)) }
{
    if args.is_empty() {
        return Ok(());
    }
    for (i, arg) in args.iter().enumerate() {
        text.push_str(if i == 0 { "[" } else { "," })?;
        push_tree(text, world, arg)?;
    }
    Ok(text.push_str("]")?)
}

/// The text of a tree: a definition's full name with the arguments in brackets, `[]` behind an array's element, `*`
/// and `&` behind what a pointer and a reference lead to, `!n` and `!!n` for the generic parameters of
/// a type and of a method, the name of a missing type, and `?` for a form that is left out.
pub fn type_text(alloc: Global, world: &World, t: &Ty) -> Result<Text, Memory>
    ensures { IfOk result (λ text. text ≡ spec.type_text world.now t.now) }
{
    let mut text = Text::new(alloc);
    push_tree(&mut text, world, t)?;
    Ok(text)
}
