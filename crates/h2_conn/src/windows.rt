//! The rows of WINDOW_UPDATE.

ghost use Rattle.std.specs.Prelude.{◌≡◌, ◌<◌, ◌^◌};
ghost use Rattle.h2_conn.specs.Kinds.{Steps, window_rows};
ghost use Rattle.h2_conn.specs.Sound.{Sound};

use crate::control::{RowResult, fault, is_idle, reset_with};
use crate::fault::ConnCause;
use crate::state::State;
use h2_wire::error_code;

/// A step on the connection's window.
fn grow_connection(state: &mut State, step: u32) -> RowResult
    requires { step < 2 ^ 31 }
    ensures { Steps (window_rows state.old 0 step) result state.new }
{
    if step == 0 {
        return Err(fault(state, ConnCause::ZeroStep));
    }
    match state.outbox.grow(0, step) {
        Ok(()) => Ok(None),
        Err(_) => Err(fault(state, ConnCause::Overflow)),
    }
}

/// The rows of WINDOW_UPDATE.
#[tactic(auto, using(crate::proofs::Sounds::is_there))]
pub fn window(state: &mut State, stream: u32, step: u32) -> RowResult
    requires step { step < 2 ^ 31 }
    requires sound { Sound state.old }
    ensures { Steps (window_rows state.old stream step) result state.new }
{
    if stream == 0 {
        return grow_connection(state, step);
    }
    if is_idle(state, stream) {
        return Err(fault(state, ConnCause::Idle));
    }
    if !state.streams.is_live(stream) {
        return Ok(None);
    }
    if step == 0 {
        return reset_with(state, stream, error_code::PROTOCOL_ERROR);
    }
    match state.outbox.grow(stream, step) {
        Ok(()) => Ok(None),
        Err(_) => reset_with(state, stream, error_code::FLOW_CONTROL_ERROR),
    }
}
