//! The rows of DATA and RST_STREAM.

ghost use Rattle.std.specs.Prelude.{◌≡◌, ◌≤◌, ◌<◌, ◌&&◌, true, false, length};
ghost use Rattle.h2_conn.specs.declared.limits.TheConstants.{MAX_EMPTY_DATA, MAX_RAPID_RESETS};
ghost use Rattle.h2_conn.specs.Peer.{with_data_count, data_on, is_empty_data, has_come, is_rapid, reset_frame};
ghost use Rattle.h2_conn.specs.Kinds.{Steps, data_rows, reset_rows};
ghost use Rattle.h2_conn.specs.Sound.{Sound};

use crate::control::{RowResult, close, end_request, fault, is_idle, replenish_window, reset_with};
use crate::fault::ConnCause;
use crate::happening::Happening;
use crate::limits::{MAX_EMPTY_DATA, MAX_RAPID_RESETS};
use crate::state::State;
use h2_wire::{error_code, frame_type};
use wl_octets::Octets;

/// Counts DATA as the flood rows do.
#[tactic(auto, unfolding(crate::specs::Peer::with_data_count))]
fn count_data(state: &mut State, bytes: &Octets, ended: bool)
    requires { is_empty_data bytes.now ended && has_come MAX_EMPTY_DATA state.old.empty_data_count ≡ false }
    ensures { state.new ≡ with_data_count bytes.now ended state.old }
{
    if bytes.len() == 0 {
        if !ended {
            state.empty_data_count += 1;
        }
    } else {
        state.settings_count = 0;
        state.empty_data_count = 0;
    }
}

#[tactic(auto, unfolding(crate::specs::Peer::data_on))]
fn data_on(state: &mut State, stream: u32, bytes: Octets, size: u32, ended: bool) -> RowResult
    ensures { Steps (data_on state.old stream bytes size ended) result state.new }
{
    if !state.streams.is_live(stream) {
        return Ok(None);
    }
    if state.streams.is_remote_closed(stream) {
        return reset_with(state, stream, error_code::STREAM_CLOSED);
    }
    if ended {
        end_request(state, stream);
    } else {
        replenish_window(state, stream, size)?;
    }
    Ok(Some(Happening::Body {
        stream,
        bytes,
        ended,
    }))
}

/// The rows of DATA.
pub fn data(state: &mut State, stream: u32, bytes: Octets, size: u32, ended: bool) -> RowResult
    ensures { Steps (data_rows state.old stream bytes size ended) result state.new }
{
    if bytes.len() == 0 && !ended && state.empty_data_count >= MAX_EMPTY_DATA {
        let cause = ConnCause::Flood(frame_type::DATA, MAX_EMPTY_DATA + 1);
        return Err(fault(state, cause));
    }
    if is_idle(state, stream) {
        return Err(fault(state, ConnCause::Idle));
    }
    count_data(state, &bytes, ended);
    replenish_window(state, 0, size)?;
    data_on(state, stream, bytes, size, ended)
}

#[tactic(auto, using(crate::proofs::Sounds::is_there), unfolding(crate::specs::Peer::reset_frame))]
fn close_reset(state: &mut State, stream: u32) -> RowResult
    requires count { is_rapid state.old stream && has_come MAX_RAPID_RESETS state.old.rapid_reset_count
        ≡ false }
    requires sound { Sound state.old }
    ensures { Steps (reset_frame state.old stream) result state.new }
{
    if !state.streams.is_live(stream) {
        return Ok(None);
    }
    if !state.outbox.is_written(stream) {
        state.rapid_reset_count += 1;
    }
    close(state, stream);
    Ok(Some(Happening::Gone { stream }))
}

/// The rows of RST_STREAM.
#[tactic(auto, using(crate::proofs::Sounds::is_there))]
pub fn reset(state: &mut State, stream: u32, _code: u32) -> RowResult
    requires { Sound state.old }
    ensures { Steps (reset_rows state.old stream _code) result state.new }
{
    let is_rapid = state.streams.is_live(stream) && !state.outbox.is_written(stream);
    if is_rapid && state.rapid_reset_count >= MAX_RAPID_RESETS {
        let cause = ConnCause::Flood(frame_type::RST_STREAM, MAX_RAPID_RESETS + 1);
        return Err(fault(state, cause));
    }
    if is_idle(state, stream) {
        return Err(fault(state, ConnCause::Idle));
    }
    close_reset(state, stream)
}
