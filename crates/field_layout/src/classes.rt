//! Classes, and the chains of their parents.

ghost use Rattle.std.specs.Prelude.{◌≡◌, ◌<◌, ◌≤◌, ◌+◌, true, Some, length, slice_get, option_map, IsTrue, IfOk, OnOk, IfSome};
ghost use Rattle.type_pool.specs.Trees.{at, at_all, ids_below, Grows};
ghost use Rattle.type_tree.specs.Fits.{def_fits};
ghost use Rattle.type_tree.specs.Whole.{counts};
ghost use Rattle.field_layout.specs.Fields.{field_types};
ghost use Rattle.field_layout.specs.Notes.{IsHead, FoundSound, EndsWithin, found_shapes};
ghost use Rattle.field_layout.specs.Ends.{Known, IsEnded, IsParentEnd, EndWithin};
ghost use Rattle.type_tree.specs.declared.tree.Ty.TheOpen.{Ty-F};
ghost use Rattle.type_tree.specs.declared.tree.Ty.TheViews.{out-Ty};
ghost use Rattle.field_layout.specs.Layouts as spec;

use crate::answer::LayoutAnswer;
use crate::core_widths::is_exception;
use crate::ends::{ClassEnd, EndNote, end_of, keep_end, noted_end};
use crate::fields::{Fields, FieldsFound};
use crate::known::Notes;
use crate::walk::{fields_in, own_layout};
use clr_base::{DefId, Memory};
use field_places::Layout;
use sqlite_items::Items;
use std::alloc::Global;
use type_pool::{Id, Node, Pool, from_tree, subst};
use type_tree::{Def, World};

/// How many value fields may stand on a path.
pub(crate) const ROOM: u32 = 64;

/// A type without own fields, in bytes.
pub(crate) fn fixed(alloc: Global, end: u32, align: u32) -> LayoutAnswer
    ensures { result ≡ spec.fixed end align }
{
    LayoutAnswer::Laid(Layout {
        offsets: Items::new(alloc),
        end,
        size: end,
        align,
        has_refs: false,
    })
}

/// The definition and the arguments of an instantiation, where there is such a definition.
pub(crate) fn head_at(
    alloc: Global,
    world: &World,
    pool: &Pool,
    id: Id,
) -> Result<Option<(DefId, Items<Id>)>, Memory>
    requires { id.0 < length pool.now }
    ensures { IfOk result (λ head. IsHead world.now pool.now (at pool.now id) head) }
{
    match pool.node(id) {
        Node::Inst(def, args) => {
            if def.0 < world.def_count() {
                Ok(Some((*def, Items::from_slice(alloc, args.as_slice())?)))
            } else {
                Ok(None)
            }
        }
        _ => Ok(None),
    }
}

/// The own part from `begin` of a type whose fields are found.
pub(crate) fn laid_from(
    alloc: Global,
    world: &World,
    value: bool,
    def: &Def,
    begin: u32,
    found: &FieldsFound,
) -> Result<LayoutAnswer, Memory>
    requires def { IsTrue (def_fits (counts world.now) def.now) }
    requires begin { begin ≤ 1048576 }
    requires found { FoundSound world.now def.now found.now }
    ensures value { IfOk result (λ answer. answer ≡ spec.laid_from value world.now def.now begin (found_shapes found.now)) }
    ensures short { IfOk result (λ answer. EndsWithin answer) }
{
    match found {
        FieldsFound::Settled(fields) => {
            match own_layout(alloc, world, value, def, begin, fields)? {
                Some(layout) => Ok(LayoutAnswer::Laid(layout)),
                None => Ok(LayoutAnswer::Bad),
            }
        }
        FieldsFound::Deep => Ok(LayoutAnswer::Deep),
    }
}

/// A class with its own part behind its parent's end.
pub(crate) fn behind(
    alloc: Global,
    world: &World,
    def: &Def,
    parent: ClassEnd,
    found: &FieldsFound,
) -> Result<LayoutAnswer, Memory>
    requires def { IsTrue (def_fits (counts world.now) def.now) }
    requires parent { EndWithin parent }
    requires found { FoundSound world.now def.now found.now }
    ensures value { IfOk result (λ answer. answer ≡ spec.behind parent world.now def.now (found_shapes found.now)) }
    ensures short { IfOk result (λ answer. EndsWithin answer) }
{
    match parent {
        ClassEnd::At(end) => laid_from(alloc, world, false, def, end, found),
        ClassEnd::Deep => Ok(LayoutAnswer::Deep),
        ClassEnd::Bad => match found {
            FieldsFound::Settled(_) => Ok(LayoutAnswer::Bad),
            FieldsFound::Deep => Ok(LayoutAnswer::Deep),
        },
    }
}

/// Where a class ends whose chain of parents has so many members at most, this one counted. Recurses as
/// deep as that chain.
#[cycle(classes)]
fn end_in(
    pool: &mut Pool,
    alloc: Global,
    world: &World,
    notes: &mut Notes,
    id: Id,
    chain: u32,
) -> Result<EndNote, Memory>
    requires within { id.0 < length pool.old }
    requires few { chain ≤ 63 }
    requires known { Known world.now pool.old notes.old }
    ensures grows { Grows pool.old pool.new }
    ensures known { OnOk result (Known world.now pool.new notes.new) }
    ensures found { IfOk result (λ found. IsEnded world.now (at pool.old id) chain found) }
{
    if let Some(note) = noted_end(&notes.ends, id, chain) {
        return Ok(note);
    }
    let found = end_of_head(pool, alloc, world, notes, id, chain)?;
    keep_end(&mut notes.ends, id, found, chain)?;
    Ok(found)
}

#[cycle(classes)]
fn end_of_head(
    pool: &mut Pool,
    alloc: Global,
    world: &World,
    notes: &mut Notes,
    id: Id,
    chain: u32,
) -> Result<EndNote, Memory>
    requires within { id.0 < length pool.old }
    requires few { chain ≤ 63 }
    requires known { Known world.now pool.old notes.old }
    ensures grows { Grows pool.old pool.new }
    ensures known { OnOk result (Known world.now pool.new notes.new) }
    ensures found { IfOk result (λ found. IsEnded world.now (at pool.old id) chain found) }
{
    match head_at(alloc, world, pool, id)? {
        Some((def, args)) => {
            if chain == 0 {
                return Ok(EndNote {
                    members: 1,
                    end: ClassEnd::Bad,
                });
            }
            end_at(
                pool,
                alloc,
                world,
                notes,
                id,
                def,
                args.as_slice(),
                chain - 1,
            )
        }
        None => Ok(EndNote {
            members: 0,
            end: ClassEnd::At(8),
        }),
    }
}

/// The same of a class by its definition and arguments, with so many parents at most.
#[cycle(classes)]
fn end_at(
    pool: &mut Pool,
    alloc: Global,
    world: &World,
    notes: &mut Notes,
    id: Id,
    head: DefId,
    args: &[Id],
    parents: u32,
) -> Result<EndNote, Memory>
    requires within { id.0 < length pool.old }
    requires head { out-Ty (at pool.old id) ≡ Ty-F.Inst head (at_all pool.old args.now) }
    requires exists { head.0 < length world.now.defs }
    requires args { ids_below (length pool.old) args.now ≡ true }
    requires few { parents ≤ 62 }
    requires known { Known world.now pool.old notes.old }
    ensures grows { Grows pool.old pool.new }
    ensures known { OnOk result (Known world.now pool.new notes.new) }
    ensures found { IfOk result (λ found. IsEnded world.now (at pool.old id) (parents + 1) found) }
{
    let def = world.def(head);
    if is_exception(head, def) {
        return Ok(EndNote {
            members: 1,
            end: ClassEnd::At(16),
        });
    }
    let parent = parent_end(pool, alloc, world, notes, def, args, parents)?;
    let found = fields_in(pool, alloc, world, &mut notes.shapes, def, args, ROOM)?;
    let answer = behind(alloc, world, def, parent.end, &found)?;
    Ok(EndNote {
        members: parent.members + 1,
        end: end_of(&answer),
    })
}

/// Where the parent of a class ends.
#[cycle(classes)]
fn parent_end(
    pool: &mut Pool,
    alloc: Global,
    world: &World,
    notes: &mut Notes,
    def: &Def,
    args: &[Id],
    parents: u32,
) -> Result<EndNote, Memory>
    requires args { ids_below (length pool.old) args.now ≡ true }
    requires few { parents ≤ 63 }
    requires known { Known world.now pool.old notes.old }
    ensures grows { Grows pool.old pool.new }
    ensures known { OnOk result (Known world.now pool.new notes.new) }
    ensures found { IfOk result (λ found. IsParentEnd world.now (at_all pool.old args.now) def.now.parent parents found) }
{
    match &def.parent {
        Some(parent) => {
            let open = from_tree(parent, pool, alloc)?;
            let id = subst(pool, alloc, open, args, &[])?;
            end_in(pool, alloc, world, notes, id, parents)
        }
        None => Ok(EndNote {
            members: 0,
            end: ClassEnd::At(8),
        }),
    }
}

/// A class by its definition and arguments, of which at most 63 parents are followed.
pub(crate) fn class_at(
    pool: &mut Pool,
    alloc: Global,
    world: &World,
    notes: &mut Notes,
    id: DefId,
    args: &[Id],
) -> Result<LayoutAnswer, Memory>
    requires exists { id.0 < length world.now.defs }
    requires args { ids_below (length pool.old) args.now ≡ true }
    requires known { Known world.now pool.old notes.old }
    ensures grows { Grows pool.old pool.new }
    ensures known { OnOk result (Known world.now pool.new notes.new) }
    ensures value { IfOk result (λ answer. answer ≡ spec.class_of (Some (spec.class_layout 63 world.now)) world.now id (at_all pool.old args.now) (slice_get world.now.defs id.0)) }
{
    let def = world.def(id);
    if is_exception(id, def) {
        return Ok(fixed(alloc, 16, 8));
    }
    let parent = parent_end(pool, alloc, world, notes, def, args, 63)?;
    let found = fields_in(pool, alloc, world, &mut notes.shapes, def, args, ROOM)?;
    behind(alloc, world, def, parent.end, &found)
}
