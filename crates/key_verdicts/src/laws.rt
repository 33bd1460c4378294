//! What holds of verdicts. The law is a function that does nothing and whose clause is the law.

ghost use Rattle.std.specs.Prelude.{◌≡◌, Option};
ghost use Rattle.type_tree.specs.World.{Facts};
ghost use Rattle.type_tree.specs.declared.tree.Key.{Key};
ghost use Rattle.load_events.specs.declared.load_fault.LoadFault.{LoadFault as Fault};
ghost use Rattle.key_verdicts.specs.declared.verdict.Verdict.{Verdict as Outcome};
ghost use Rattle.key_verdicts.specs.Verdicts.{IsVerdict};

use key_closure::{closure_once, closure_or_too_large};

/// A key has at most one verdict.
pub fn one_verdict()
    ensures { (local : Key → Option Fault) (w : Facts) (key : Key) (v u : Outcome)
        → IsVerdict local w key v → IsVerdict local w key u → v ≡ u }
{
    closure_once();
    closure_or_too_large();
}
