//! Types of the core library and of files, found by their names.
ghost use Rattle.std.specs.Prelude.{◌≡◌, ℕ, List};
ghost use Rattle.std.specs.Option.{option_map};
ghost use Rattle.type_names.specs.declared.resolution.DefPlace.TheVariants.{InCore};
ghost use Rattle.type_names.specs.Resolution as resolution;
ghost use Rattle.type_names.specs.TypeFinders as spec;

use crate::resolution::DefPlace;
use crate::type_keys::{FirstPlaces, TypeKey};
use crate::type_texts::{CoreTexts, FileTexts};
use cli_tables::Tables;
use core_types::Names;
use sqlite_items::Items;

/// Finds the types of the core and of files.
#[derive(Drop)]
pub(crate) struct TypeFinder<'a> {
    pub files: &'a [Tables<'a>],
    /// The texts that have numbers.
    pub names: Names,
    pub core: CoreTexts,
    pub core_types: FirstPlaces,
    /// The texts of each file.
    pub texts: Items<FileTexts>,
    /// The definitions of each file.
    pub defs: Items<FirstPlaces>,
}

impl<'a> TypeFinder<'a> {
    /// The first definition of a file that is called so. Takes constant time.
    pub(crate) fn def_in(&self, file: u32, key: TypeKey) -> Option<DefPlace>
        requires { spec.IsFinder self.now }
        ensures { (s t : List ℕ) → key ≡ spec.key_in self.now.names key.around s t → result ≡ resolution.def_in self.now.files.now file key.around s t }
    {
        match self.defs.get(file as usize) {
            Some(places) => match places.first(key) {
                Some(place) => Some(DefPlace::InFile(file, place + 1)),
                None => None,
            },
            None => None,
        }
    }

    /// The type of the core that is called so. Takes constant time.
    pub(crate) fn core_type(&self, key: TypeKey) -> Option<DefPlace>
        requires { spec.IsFinder self.now }
        ensures { (s t : List ℕ) → key ≡ spec.key_in self.now.names 0 s t → result ≡ option_map InCore (resolution.core_type s t) }
    {
        match self.core_types.first(key) {
            Some(number) => Some(DefPlace::InCore(number)),
            None => None,
        }
    }
}
