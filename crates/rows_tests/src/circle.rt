//! The plan of the two classes.
ghost use Rattle.std.specs.Prelude.{ℕ, ◌<◌};
ghost use Rattle.key_publish.specs.Plans.{PlanFits};
ghost use Rattle.rows_tests.specs.Classes.{facts, class};
ghost use Rattle.rows_tests.specs.Circle.{parts, members};

/// The plan fits, whichever class is asked for.
pub fn circle_fits()
    ensures { (asked : ℕ) → asked < 2 → PlanFits facts parts members asked (class asked) }
{}
