//! The rows of SETTINGS and PING.

ghost use Rattle.std.specs.Prelude.{◌≡◌, ◌≤◌, ◌<◌, ◌^◌};
ghost use Rattle.h2_flow.specs.Outboxes.{set_initial_window};
ghost use Rattle.h2_conn.specs.declared.fault.ConnCause.TheVariants as cause;
ghost use Rattle.h2_conn.specs.Peer.{fault, after_table_size, set_one, set_all, set_frame, with_window};
ghost use Rattle.h2_conn.specs.Kinds.{Steps, settings_rows, ping_rows};

use crate::control::{RowResult, fault, queue_ack, queue_ping_ack};
use crate::fault::ConnCause;
use crate::limits::MAX_SETTINGS;
use crate::state::State;
use h2_frame::Setting;
use h2_wire::limit::{
    INITIAL_HEADER_TABLE_SIZE, MAX_ALLOWED_FRAME_SIZE, MAX_FRAME_SIZE, MAX_WINDOW_SIZE,
};
use h2_wire::{frame_type, setting};

/// Notes the peer's header table.
#[tactic(auto, unfolding(crate::specs::Peer::after_table_size))]
fn note(state: &mut State, value: u32)
    ensures { state.new ≡ after_table_size value state.old }
{
    if value < INITIAL_HEADER_TABLE_SIZE && !state.outbox.is_shrunk() {
        state.outbox.shrink();
    }
}

/// Sets the initial window.
fn set_initial(state: &mut State, value: u32) -> RowResult
    requires { value < 2 ^ 31 }
    ensures { Steps
        (with_window state.old (set_initial_window value state.old.outbox)
        (fault state.old cause.Overflow)) result state.new }
{
    match state.outbox.initial(value) {
        Ok(()) => Ok(None),
        Err(_) => Err(fault(state, ConnCause::Overflow)),
    }
}

/// Takes one setting (RFC 9113, section 6.5.2).
#[tactic(auto, unfolding(crate::specs::Peer::set_one))]
fn set_one(state: &mut State, pair: Setting) -> RowResult
    ensures { Steps (set_one state.old pair) result state.new }
{
    let value = pair.value;
    match pair.id {
        setting::HEADER_TABLE_SIZE => {
            note(state, value);
            Ok(None)
        }
        setting::ENABLE_PUSH if value > 1 => Err(fault(state, ConnCause::Setting(pair.id))),
        setting::INITIAL_WINDOW_SIZE if value > MAX_WINDOW_SIZE => {
            Err(fault(state, ConnCause::Setting(pair.id)))
        }
        setting::INITIAL_WINDOW_SIZE => set_initial(state, value),
        setting::MAX_FRAME_SIZE if value < MAX_FRAME_SIZE || value > MAX_ALLOWED_FRAME_SIZE => {
            Err(fault(state, ConnCause::Setting(pair.id)))
        }
        _ => Ok(None),
    }
}

/// Takes each setting in order, and queues the acknowledgement.
fn set_all(state: &mut State, pairs: &[Setting]) -> RowResult
    ensures { Steps (set_all pairs.now state.old) result state.new }
{
    for pair in pairs {
        match set_one(state, *pair) {
            Ok(_) => {}
            Err(error) => return Err(error),
        }
    }
    queue_ack(state)?;
    Ok(None)
}

/// The rows of SETTINGS.
#[tactic(auto, unfolding(crate::specs::Peer::set_frame))]
pub fn settings(state: &mut State, stream: u32, pairs: &[Setting]) -> RowResult
    ensures { Steps (settings_rows state.old stream pairs.now) result state.new }
{
    if state.settings_count >= MAX_SETTINGS {
        let cause = ConnCause::Flood(frame_type::SETTINGS, MAX_SETTINGS + 1);
        return Err(fault(state, cause));
    }
    state.settings_received = true;
    state.settings_count += 1;
    set_all(state, pairs)
}

/// The rows of PING.
pub fn ping(state: &mut State, stream: u32, ack: bool, word: u64) -> RowResult
    ensures { Steps (ping_rows state.old stream ack word) result state.new }
{
    if !ack {
        queue_ping_ack(state, word)?;
    }
    Ok(None)
}
