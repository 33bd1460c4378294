//! Entries: the methods that a program may begin with.
ghost use Rattle.std.specs.Prelude.{◌≡◌, ◌<◌, List, ℕ, length, IsTrue};
ghost use Rattle.std.specs.Option.{option_map, IfSome, IfNone};
ghost use Rattle.type_tree.specs.Fits.{fits};
ghost use Rattle.type_tree.specs.Whole.{counts};
ghost use Rattle.world_build.specs.Entries as spec;
ghost use Rattle.type_members.specs.MemberTable.{method_id};

use clr_base::{DefId, MethId};
use core_types::CoreType;
use type_tree::{Method, Ty, World};

/// MethodAttributes.Static (II.23.1.10).
const STATIC: u32 = 0x10;

/// What stands between an entry's type and its method.
const SEPARATOR: &str = "::";

/// What stands before the last `::` of a word, and what stands behind it.
pub(crate) fn parted(word: &str) -> Option<(&str, &str)>
    ensures parts { IfSome result (λ parts. spec.IsParted word.now parts.0.now parts.1.now) }
    ensures none { IfNone result ((owner name : List ℕ) → ¬ (spec.IsParted word.now owner name)) }
{
    word.rsplit_once(SEPARATOR)
}

/// Whether a tree is a type of the core library without arguments.
fn is_core(t: &Ty, core: CoreType) -> bool
    ensures { result ≡ spec.is_core core t.now }
{
    match t {
        Ty::Inst(def, args) => args.len() == 0 && def.0 == core.def().0,
        _ => false,
    }
}

/// Whether a tree is System.String[].
fn is_strings(t: &Ty) -> bool
    ensures { result ≡ spec.is_strings t.now }
{
    match t {
        Ty::Array(element) => is_core(element.get(), CoreType::String),
        _ => false,
    }
}

/// Whether there is no parameter, or one that is System.String[].
fn takes_strings(params: &[Ty]) -> bool
    ensures { result ≡ spec.takes_strings params.now }
{
    match params {
        [] => true,
        [param] => is_strings(param),
        _ => false,
    }
}

/// Whether a result is void or int32.
fn gives_status(ret: &Ty) -> bool
    ensures { result ≡ spec.gives_status ret.now }
{
    is_core(ret, CoreType::Void) || is_core(ret, CoreType::Int32)
}

/// Whether a method is an entry of that name.
#[tactic(auto, unfolding(type_tree::specs::Lookup::name_text))]
fn is_entry(world: &World, name: &str, method: &Method) -> bool
    requires { method.now.name.0 < length world.now.names }
    ensures { result ≡ spec.is_entry world.now name.now method.now }
{
    world.name(method.name) == name
        && method.flags & STATIC != 0
        && method.formals.len() == 0
        && takes_strings(method.params.as_slice())
        && gives_status(&method.ret)
}

/// The first own method of a definition that is an entry of that name.
fn entry_in(world: &World, name: &str, id: DefId) -> Option<MethId>
    requires { id.0 < length world.now.defs }
    ensures { result ≡ option_map method_id (spec.entry_in world.now name.now id) }
{
    world.whole();
    let def = world.def(id);
    for own in 0..def.methods {
        let id = MethId(def.first_method + own);
        if is_entry(world, name, world.method(id)) {
            return Some(id);
        }
    }
    None
}

/// The entry of that name among the methods of the definition at the head of a tree. Takes time in how many methods
/// the definition has.
pub(crate) fn entry_of(world: &World, name: &str, t: &Ty) -> Option<MethId>
    requires { IsTrue (fits (counts world.now) t.now) }
    ensures { result ≡ spec.entry_of world.now name.now t.now }
{
    match t {
        Ty::Inst(def, _) => entry_in(world, name, *def),
        _ => None,
    }
}
