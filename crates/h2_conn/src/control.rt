//! Steps that several rows of the table take.

ghost use Rattle.std.specs.Prelude.{◌≡◌, ◌≤◌, true, length, OnOk};
ghost use Rattle.h2_wire.specs.declared.limit.TheConstants.{MAX_FRAME_SIZE};
ghost use Rattle.h2_wire.specs.Encoding.{frame_bytes};
ghost use Rattle.h2_flow.specs.Outboxes.{with_control};
ghost use Rattle.h2_frame.specs.declared.frame.Body.TheVariants.{Reset, SettingsAck, Ping};
ghost use Rattle.h2_conn.specs.declared.fault.ConnError.TheVariants as refusal;
ghost use Rattle.h2_conn.specs.Faults.{failure};
ghost use Rattle.h2_conn.specs.Peer.{with_control_frame, without_live_stream, stream_error, request_ends, with_window_update, is_idle};
ghost use Rattle.h2_conn.specs.Kinds.{Steps};

use crate::fault::{ConnCause, ConnError, ConnFault};
use crate::happening::Happening;
use crate::state::State;
use h2_wire::{flag, frame_type, head_of_frame};
use wl_octets::Memory;

/// What a frame told, at most one happening, or why it isn't taken.
pub type RowResult = Result<Option<Happening>, ConnError>;

/// Queues a control frame.
#[tactic(auto, using(crate::proofs::Queues::head_and_payload), unfolding(h2_wire::specs::Encoding::frame_bytes, h2_flow::specs::Outboxes::with_control))]
fn queue(state: &mut State, kind: u8, flags: u8, stream: u32, payload: &[u8]) -> Result<(), Memory>
    requires { length payload.now ≤ MAX_FRAME_SIZE }
    ensures { OnOk result
        (state.new
        ≡ record state.old {
          outbox = with_control
              (frame_bytes kind flags stream payload.now) state.old.outbox;
        }) }
{
    let head = head_of_frame(payload.len() as u32, kind, flags, stream);
    state.outbox.control(&head)?;
    state.outbox.control(payload)?;
    Ok(())
}

/// Queues RST_STREAM.
#[tactic(auto, unfolding(h2_frame::specs::Writing::frame_encoding))]
pub fn queue_reset(state: &mut State, stream: u32, code: u32) -> Result<(), Memory>
    ensures { OnOk result (state.new ≡ with_control_frame stream (Reset code) state.old) }
{
    queue(
        state,
        frame_type::RST_STREAM,
        0,
        stream,
        &code.to_be_bytes(),
    )
}

/// Queues the acknowledgement of SETTINGS.
#[tactic(auto, unfolding(h2_frame::specs::Writing::frame_encoding))]
pub fn queue_ack(state: &mut State) -> Result<(), Memory>
    ensures { OnOk result (state.new ≡ with_control_frame 0 SettingsAck state.old) }
{
    queue(state, frame_type::SETTINGS, flag::ACK, 0, &[])
}

/// Queues the answer to PING.
#[tactic(auto, unfolding(h2_frame::specs::Writing::frame_encoding))]
pub fn queue_ping_ack(state: &mut State, word: u64) -> Result<(), Memory>
    ensures { OnOk result (state.new ≡ with_control_frame 0 (Ping true word) state.old) }
{
    queue(state, frame_type::PING, flag::ACK, 0, &word.to_be_bytes())
}

/// Gives this many bytes of a window back to the peer.
#[tactic(auto, unfolding(crate::specs::Peer::with_window_update, h2_frame::specs::Writing::frame_encoding))]
pub fn replenish_window(state: &mut State, stream: u32, size: u32) -> Result<(), Memory>
    ensures { OnOk result (state.new ≡ with_window_update stream size state.old) }
{
    if size == 0 {
        return Ok(());
    }
    queue(
        state,
        frame_type::WINDOW_UPDATE,
        0,
        stream,
        &size.to_be_bytes(),
    )
}

/// Ends a stream, with what waits for it.
#[tactic(auto, unfolding(crate::specs::Peer::without_live_stream))]
pub fn close(state: &mut State, stream: u32)
    ensures { state.new ≡ without_live_stream stream state.old }
{
    state.streams.remove(stream);
    state.outbox.remove(stream);
}

/// Ends a stream's request.
#[tactic(auto, unfolding(crate::specs::Peer::request_ends))]
pub fn end_request(state: &mut State, stream: u32)
    ensures { state.new ≡ request_ends stream state.old }
{
    if state.streams.is_local_closed(stream) {
        close(state, stream);
    } else {
        state.streams.close_remote(stream);
    }
}

/// The connection's failure, as it is now.
pub fn failure(state: &State, cause: ConnCause) -> ConnFault
    ensures { result ≡ failure state.now cause }
{
    ConnFault {
        code: cause.code(),
        last_stream: state.last_stream_id,
        cause,
    }
}

/// The refusal of a frame that fails the connection.
pub fn fault(state: &State, cause: ConnCause) -> ConnError
    ensures { result ≡ refusal.Fault (failure state.now cause) }
{
    ConnError::Fault(failure(state, cause))
}

pub fn is_idle(state: &State, stream: u32) -> bool
    ensures { result ≡ is_idle state.now stream }
{
    (stream % 2 == 0 && stream != 0) || state.last_stream_id < stream
}

/// Queues RST_STREAM, and ends the stream if it is live.
#[tactic(auto, unfolding(crate::specs::Peer::stream_error))]
pub fn reset_with(state: &mut State, stream: u32, code: u32) -> RowResult
    ensures { Steps (stream_error state.old stream code) result state.new }
{
    queue_reset(state, stream, code)?;
    if !state.streams.is_live(stream) {
        return Ok(None);
    }
    close(state, stream);
    Ok(Some(Happening::Gone { stream }))
}
