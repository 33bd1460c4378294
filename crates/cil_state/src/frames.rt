//! Frames that begin and end.

ghost use Rattle.std.specs.Prelude.{Ok};
ghost use Rattle.cil_state.specs.Meets.{Meets};
ghost use Rattle.cil_state.specs.State as spec;

use crate::limits::FRAME_LIMIT;
use crate::state::{Frame, State};
use crate::trap::{Stop, Trap};
use clr_base::Handle;
use std::mem;

/// Goes into a new frame. StackOverflow where there are as many as may be.
pub fn enter(state: &mut State<Handle>, frame: Frame<Handle>) -> Result<(), Stop>
    ensures { Meets result (λ _. state.new) (spec.enter frame state.old) }
{
    if state.below.len() >= FRAME_LIMIT - 1 {
        return Err(Stop::Trap(Trap::StackOverflow));
    }
    let caller = mem::replace(&mut state.top, frame);
    Ok(state.below.push(caller)?)
}

/// Goes back to the caller; no where there is none.
pub fn leave(state: &mut State<Handle>) -> Result<bool, Stop>
    ensures { Meets result (λ goes. (goes, state.new)) (Ok (spec.leave state.old)) }
{
    match state.below.pop() {
        Some(caller) => {
            state.top = caller;
            Ok(true)
        }
        None => Ok(false),
    }
}
