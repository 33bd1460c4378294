//! What a reference to a type names, by where it is resolved (ECMA-335 II.7.3, II.22.38).
ghost use Rattle.std.specs.Prelude.{◌≡◌, ◌≤◌, ℕ, List, Some, slice_get};
ghost use Rattle.std.specs.Option.{option_and_then};
ghost use Rattle.type_names.specs.Resolution as resolution;
ghost use Rattle.type_names.specs.TypeFinders as spec;
ghost use Rattle.type_names.specs.TypeKeys as keys;

use crate::resolution::DefPlace;
use crate::type_finder::TypeFinder;
use crate::type_keys::TypeKey;
use crate::type_texts::NameColumns;
use cli_tables::Tables;
use clr_base::NameId;
use image_rows::{ASSEMBLY_REF, MODULE, TYPE_REF, scope};

/// The number at a place, 0 where there is none.
fn number_at(ids: &[NameId], place: usize) -> u32
    ensures { result ≡ keys.number_at ids.now place }
{
    match ids.get(place) {
        Some(id) => id.0,
        None => 0,
    }
}

/// What a type is called that stands in no other.
fn key_of(columns: &NameColumns, place: usize) -> TypeKey
    ensures { result ≡ keys.key_of (λ i. 0) columns.now place }
{
    TypeKey {
        around: 0,
        namespace: number_at(columns.namespaces.as_slice(), place),
        name: number_at(columns.names.as_slice(), place),
    }
}

impl<'a> TypeFinder<'a> {
    /// A definition that stands in another one; none stands in one of the core.
    fn nested_in(&self, place: Option<DefPlace>, key: TypeKey) -> Option<DefPlace>
        requires { spec.IsFinder self.now }
        ensures { (s t : List ℕ) → key ≡ spec.key_in self.now.names 0 s t → result ≡ option_and_then (λ p. resolution.nested_in self.now.files.now p s t) place }
    {
        match place {
            Some(DefPlace::InFile(file, around)) => self.def_in(file, TypeKey { around, ..key }),
            _ => None,
        }
    }

    /// The definition that the reference in a row of a file names, through so many scopes at most. Takes constant time for
    /// each of them.
    #[tactic(auto, unfolding(crate::specs::Resolution::resolved_within))]
    pub(crate) fn resolved_within(
        &self,
        tables: &Tables<'_>,
        file: u32,
        row: u32,
        most: u8,
    ) -> Option<DefPlace>
        requires finder { spec.IsFinder self.now }
        requires there { slice_get self.now.files.now file ≡ Some tables.now }
        requires first { 1 ≤ row }
        ensures { result ≡ resolution.resolved_within most self.now.files.now file tables.now row }
    {
        if most == 0 || row > tables.row_count(TYPE_REF) {
            return None;
        }
        let texts = match self.texts.get(file as usize) {
            Some(texts) => texts,
            None => return None,
        };
        let key = key_of(&texts.refs, row as usize - 1);
        let at = match scope(tables, row) {
            Some(at) => at,
            None => return None,
        };
        if at.table == MODULE {
            return self.def_in(file, key);
        }
        if at.table == ASSEMBLY_REF {
            return self.in_assembly(self.assembly_at(file as usize, at.row), key);
        }
        if at.table == TYPE_REF {
            let outer = self.resolved_within(tables, file, at.row, most - 1);
            return self.nested_in(outer, key);
        }
        None
    }
}
