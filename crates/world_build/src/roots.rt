//! The roots of a world: what the words name that a program is asked for.
ghost use Rattle.std.specs.Prelude.{◌≡◌, ◌+◌, ◌≤◌, length, map, string_bytes, ◌++◌, ◌∷◌, [], IfOk, IfErr, OnOk};
ghost use Rattle.std.specs.Option.{IfSome, IfNone};
ghost use Rattle.world_build.specs.declared.roots.NamedRoot.{NamedRoot};
ghost use Rattle.world_build.specs.declared.roots.RootsFault.TheVariants as fault;
ghost use Rattle.world_build.specs.Roots as spec;

use crate::entries::{entry_of, parted};
use clr_base::{Memory, MethId, SigId, Text};
use sqlite_items::Items;
use std::alloc::{AllocError, AllocFailed, Global};
use type_tree::{Key, KeyList, Root, Ty, World, WorldParts, read_type_text};

/// What root words are.
#[derive(Clone, Copy, Debug, PartialEq, Eq)]
pub enum RootForm {
    /// The texts of types.
    Types,
    /// Entries: the text of a type, `::`, and the name of a method.
    Entries,
}

/// Why words give no roots.
#[derive(Drop)]
pub enum RootsFault {
    /// A word names nothing.
    NoName(Text),
    Memory,
}

impl From<AllocError> for RootsFault {
    ghost from_gives = { λ _ e. e ≡ fault.Memory };

    fn from(_error: AllocError) -> RootsFault {
        RootsFault::Memory
    }
}

impl<T: Drop> From<AllocFailed<T>> for RootsFault {
    ghost from_gives = { λ _ e. e ≡ fault.Memory };

    fn from(_error: AllocFailed<T>) -> RootsFault {
        RootsFault::Memory
    }
}

impl From<Memory> for RootsFault {
    ghost from_gives = { λ _ e. e ≡ fault.Memory };

    fn from(_error: Memory) -> RootsFault {
        RootsFault::Memory
    }
}

/// What a root word names.
#[derive(Drop)]
pub struct NamedRoot {
    /// The type, which for an entry is the owner of the method.
    pub ty: Ty,
    /// The method, where it is an entry.
    pub method: Option<MethId>,
}

/// The type that a word names.
fn type_named(alloc: Global, world: &World, word: &str) -> Result<Option<NamedRoot>, Memory>
    ensures named { IfOk result (λ found. IfSome found (spec.NamesType world.now word.now)) }
    ensures none { IfOk result (λ found. IfNone found ((r : NamedRoot) → ¬ (spec.NamesType world.now word.now r))) }
{
    let ty = read_type_text(alloc, world, word)?;
    Ok(ty.map(|ty| NamedRoot { ty, method: None }))
}

/// The entry that a word names. Takes time in how many methods its owner's definition has.
#[tactic(auto, using(crate::proofs::RootLemmas::read_fits, crate::proofs::RootLemmas::no_owner, crate::proofs::RootLemmas::no_entry))]
fn entry_named(alloc: Global, world: &World, word: &str) -> Result<Option<NamedRoot>, Memory>
    ensures named { IfOk result (λ found. IfSome found (spec.NamesEntry world.now word.now)) }
    ensures none { IfOk result (λ found. IfNone found ((r : NamedRoot) → ¬ (spec.NamesEntry world.now word.now r))) }
{
    let Some((owner, name)) = parted(word) else {
        return Ok(None);
    };
    let Some(ty) = read_type_text(alloc, world, owner)? else {
        return Ok(None);
    };
    match entry_of(world, name, &ty) {
        Some(method) => Ok(Some(NamedRoot {
            ty,
            method: Some(method),
        })),
        None => Ok(None),
    }
}

/// What a root word names.
fn root_named(
    alloc: Global,
    world: &World,
    form: RootForm,
    word: &str,
) -> Result<Option<NamedRoot>, Memory>
    ensures named { IfOk result (λ found. IfSome found (spec.NamesRoot world.now form word.now)) }
    ensures none { IfOk result (λ found. IfNone found ((r : NamedRoot) → ¬ (spec.NamesRoot world.now form word.now r))) }
{
    match form {
        RootForm::Types => type_named(alloc, world, word),
        RootForm::Entries => entry_named(alloc, world, word),
    }
}

/// Roots, and their signatures.
#[derive(Drop)]
struct NewRoots {
    sigs: KeyList,
    roots: Items<Root>,
}

impl NewRoots {
    /// Adds a root, whose signature gets that number.
    fn add(&mut self, sig: SigId, root: NamedRoot) -> Result<(), Memory>
        ensures sigs { OnOk result (self.new.sigs ≡ self.old.sigs ++ spec.root_key root ∷ []) }
        ensures roots { OnOk result (self.new.roots ≡ self.old.roots ++ record { sig = sig; method = root.method } ∷ []) }
    {
        self.roots.push(Root {
            sig,
            method: root.method,
        })?;
        self.sigs.push(Key::Tree(root.ty))?;
        Ok(())
    }
}

/// What words name, as roots of a world and their signatures. `NoName` comes at the first that names nothing.
fn new_roots(
    alloc: Global,
    world: &World,
    form: RootForm,
    words: &[String],
) -> Result<NewRoots, RootsFault>
    requires few { length words.now ≤ 256 }
    ensures found { IfOk result (spec.AreNewRoots world.now form (map string_bytes words.now)) }
    ensures fault { IfErr result (spec.IsFaultOf world.now form (map string_bytes words.now)) }
{
    world.whole();
    let mut found = NewRoots {
        sigs: Items::new(alloc),
        roots: Items::new(alloc),
    };
    let mut sig = world.sig_count();
    for word in words {
        let Some(root) = root_named(alloc, world, form, word.as_str())? else {
            return Err(RootsFault::NoName(Text::from_str(alloc, word.as_str())?));
        };
        found.add(SigId(sig), root)?;
        sig += 1;
    }
    Ok(found)
}

/// The world with what the words name as further roots, whose signatures stand behind all others. `NoName` comes exactly
/// where a word names nothing, with the first such word. For the text of a type each definition is looked at once a
/// name in it, and for an entry then each method of its owner's definition once.
pub fn with_roots(
    alloc: Global,
    world: World,
    form: RootForm,
    words: &[String],
) -> Result<World, RootsFault>
    requires few { length world.roots + length words.now ≤ 256 }
    ensures world { IfOk result (spec.HasRoots world form (map string_bytes words.now)) }
    ensures fault { IfErr result (spec.IsFaultOf world form (map string_bytes words.now)) }
{
    let found = new_roots(alloc, &world, form, words)?;
    let mut parts = world.into_parts();
    parts.sigs.append(found.sigs)?;
    parts.roots.append(found.roots)?;
    Ok(World::new(parts))
}
