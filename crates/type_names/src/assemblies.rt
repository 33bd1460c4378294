//! Types of assemblies, which are found by the assemblies' names (ECMA-335 II.22.2, II.22.5).
ghost use Rattle.std.specs.Prelude.{◌≡◌, ◌≤◌, ℕ, List, Some, slice_get};
ghost use Rattle.cli_tables.specs.Metadata.{Metadata};
ghost use Rattle.type_names.specs.Assemblies as assemblies;
ghost use Rattle.core_types.specs.Names.{id_in};
ghost use Rattle.type_names.specs.Resolution as resolution;
ghost use Rattle.type_names.specs.TypeFinders as spec;

use crate::resolution::DefPlace;
use crate::type_finder::TypeFinder;
use crate::type_keys::TypeKey;
use crate::type_texts::{CoreTexts, FileTexts};
use clr_base::NameId;

/// Whether a file's assembly has a name: the one in its first Assembly row.
fn is_assembly(texts: &FileTexts, name: NameId) -> bool
    ensures { result ≡ assemblies.has_number texts.now name }
{
    match texts.assemblies.get(0) {
        Some(own) => name.0 == own.0,
        None => false,
    }
}

/// Whether the core is found under a name.
fn is_core(core: &CoreTexts, name: NameId) -> bool
    ensures { result ≡ assemblies.is_among core.now.assemblies name }
{
    core.assemblies.as_slice().contains(&name)
}

impl<'a> TypeFinder<'a> {
    /// The first file whose assembly has a name. Takes time in the number of files.
    fn file_named(&self, assembly: NameId) -> Option<u32>
        requires { spec.IsFinder self.now }
        ensures { (t : List ℕ) → assembly ≡ id_in self.now.names t → result ≡ resolution.file_named self.now.files.now t }
    {
        let texts = self.texts.as_slice();
        for file in 0..texts.len() {
            if is_assembly(&texts[file], assembly) {
                return Some(file as u32);
            }
        }
        None
    }

    /// A type of an assembly: of the core under one of its names, else of the first file of that name.
    pub(crate) fn in_assembly(&self, assembly: NameId, key: TypeKey) -> Option<DefPlace>
        requires finder { spec.IsFinder self.now }
        requires around { key.around ≡ 0 }
        ensures { (a s t : List ℕ) → assembly ≡ id_in self.now.names a → key ≡ spec.key_in self.now.names 0 s t → result ≡ resolution.in_assembly self.now.files.now a s t }
    {
        if is_core(&self.core, assembly) {
            return self.core_type(key);
        }
        match self.file_named(assembly) {
            Some(file) => self.def_in(file, key),
            None => None,
        }
    }

    /// The number of the name in an AssemblyRef row of a file, of the empty text where there is no such row.
    pub(crate) fn assembly_at(&self, file: usize, row: u32) -> NameId
        requires finder { spec.IsFinder self.now }
        requires first { 1 ≤ row }
        ensures { (m : Metadata) → slice_get self.now.files.now file ≡ Some m → result ≡ id_in self.now.names (resolution.assembly_text m row) }
    {
        match self.texts.get(file) {
            Some(texts) => match texts.assembly_refs.get(row as usize - 1) {
                Some(name) => *name,
                None => self.core.empty,
            },
            None => self.core.empty,
        }
    }
}
