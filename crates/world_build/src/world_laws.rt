//! Laws of worlds. Each is a function that does nothing and whose clause is the law.
ghost use Rattle.std.specs.Prelude.{◌≡◌, ◌+◌, ℕ, List, Some, map, slice_get};
ghost use Rattle.cli_tables.specs.Metadata.{Metadata};
ghost use Rattle.image_rows.specs.Cells.{rows_of};
ghost use Rattle.world_build.specs.DefNames.{names_in};
ghost use Rattle.world_build.specs.Roots.{HasRoots};
ghost use Rattle.image_rows.specs.TypeNames.{full_name};
ghost use Rattle.world_build.specs.World.{world};
ghost use Rattle.image_files.specs.Images.{tables_in};

use crate::roots::RootForm;
use type_tree::World;

/// The definitions of a file are called, in order, by the full names of its TypeDef rows (ECMA-335 II.22.37).
pub fn definitions_called_by_their_rows(_world: &World, _form: RootForm)
    ensures { (files words : List (List ℕ)) → HasRoots (world files) _form words _world.now →
        (k : ℕ) (m : Metadata) → slice_get (tables_in files) k ≡ Some m →
        names_in _world.now (k + 1) ≡ map (full_name m) (rows_of m 2) }
{}
