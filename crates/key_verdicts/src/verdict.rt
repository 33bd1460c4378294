//! The verdict of a key, with trees of its own.

ghost use Rattle.std.specs.Prelude.{◌≡◌, true, length, IfOk};
ghost use Rattle.key_verdicts.specs.Verdicts as spec;

use crate::judging::Judged;
use clr_base::Memory;
use load_events::LoadFault;
use std::alloc::Global;
use type_pool::{Pool, SharedKeys, to_key};
use type_tree::Key;

/// The verdict of a key.
#[derive(Drop)]
pub enum Verdict {
    /// The members of its closure, in order.
    Good(SharedKeys),
    /// A member of its closure, and its fault.
    Refused(Key, LoadFault),
}

/// The verdict that was found over a pool.
pub fn verdict_of(alloc: Global, pool: Pool, judged: Judged) -> Result<Verdict, Memory>
    requires { spec.judged_below (length pool) judged ≡ true }
    ensures { IfOk result (λ verdict. verdict ≡ spec.verdict_at pool judged) }
{
    match judged {
        Judged::Good(members) => Ok(Verdict::Good(SharedKeys::new(pool, members))),
        Judged::Refused(key, fault) => Ok(Verdict::Refused(to_key(&pool, alloc, &key)?, fault)),
    }
}
