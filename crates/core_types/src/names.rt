//! Names, each once, numbered in the order in which they are first seen.

ghost use Rattle.std.specs.Prelude.{◌≡◌, ◌<◌, [], length, IfOk, OnOk, OnErr};
ghost use Rattle.std.specs.Str.{bytes_eq};
ghost use Rattle.core_types.specs.Names.{id_in, with_one};

use clr_base::{Memory, NameId, Text};
use indexmap::IndexSet;
use sqlite_items::Items;
use std::alloc::Global;
use std::marker::Model;
use type_tree::with_room;

/// Names, which are found by hashing. Contracts see them as the list of their texts.
#[derive(Drop)]
pub struct Names {
    set: IndexSet<String>,
}

impl Model for Names {
    ghost use Rattle.std.specs.Prelude.{List, ℕ, map, string_bytes};

    ghost Value = { List (List ℕ) };

    ghost view = { λ names. map string_bytes names.set.keys };
}

impl Names {
    /// No names. Takes no memory.
    pub fn new(alloc: Global) -> Names
        ensures { result ≡ [] }
    {
        Names {
            set: IndexSet::new(alloc),
        }
    }

    /// How many names there are.
    pub fn len(&self) -> usize
        ensures { result ≡ length self.now }
    {
        self.set.len()
    }

    /// Makes room for so many more names.
    pub fn reserve(&mut self, more: usize) -> Result<(), Memory>
        ensures { self.new ≡ self.old }
    {
        self.set.reserve(more)?;
        Ok(())
    }

    /// The number of a text, which is added behind the others where it isn't among them. After an error
    /// the names are as they were. Takes time in the text's length, however many names there are.
    pub fn number(&mut self, alloc: Global, text: &str) -> Result<NameId, Memory>
        requires { length self.old < 4294967295 }
        ensures kept { OnOk result (self.new ≡ with_one bytes_eq self.old text.now) }
        ensures number { IfOk result (λ id. id ≡ id_in self.old text.now) }
        ensures err { OnErr result (self.new ≡ self.old) }
    {
        if let Some(index) = self.set.get_index_of(text) {
            return Ok(NameId(index as u32));
        }
        let (index, _) = self.set.insert_full(String::from_str(alloc, text)?)?;
        Ok(NameId(index as u32))
    }

    /// The number of a text, which is how many names there are where it isn't among them. Takes no memory, and time in the
    /// text's length, however many names there are.
    pub fn find(&self, text: &str) -> NameId
        requires { length self.now < 4294967296 }
        ensures { result ≡ id_in self.now text.now }
    {
        match self.set.get_index_of(text) {
            Some(index) => NameId(index as u32),
            None => NameId(self.set.len() as u32),
        }
    }

    /// The texts, each at its number.
    pub fn texts(&self, alloc: Global) -> Result<Items<Text>, Memory>
        ensures { IfOk result (λ texts. texts ≡ self.now) }
    {
        let names = self.set.as_slice();
        let mut texts = with_room(alloc, names.len())?;
        for name in names {
            texts.push(Text::from_str(alloc, name.as_str())?)?;
        }
        Ok(texts)
    }
}
