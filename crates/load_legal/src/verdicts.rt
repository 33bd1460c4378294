//! What legal histories are told by: what a judge decides of keys, and which keys handles name.
ghost use Rattle.std.specs.Prelude.{List};
ghost use Rattle.clr_base.specs.declared.ids.Handle.{Handle};
ghost use Rattle.type_tree.specs.declared.tree.Key.{Key};
ghost use Rattle.load_events.specs.declared.load_fault.LoadFault.{LoadFault};

/// What a judge decides of the keys of one world, as facts.
pub trait Verdicts {
    // The signatures of the world, by number.
    ghost sigs: { Self → List Key };

    // The key is good, and these are the members of its closure.
    ghost good: { Self → Key → List Key → Type 0 };

    // The key is refused for this fault.
    ghost refused: { Self → Key → LoadFault → Type 0 };
}

/// Which keys handles name, to one who looks: a table, a board, or what a pass knows of one.
pub trait Names {
    // The handle names the key.
    ghost names: { Self → Handle → Key → Type 0 };
}
