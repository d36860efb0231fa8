//! The connection table (RFC 9113, in this agent's profile): which rows are tried, in which order.

ghost use Rattle.std.specs.Prelude.{◌≡◌, ◌<◌, ◌^◌, OnOk};
ghost use Rattle.h2_conn.specs.Peer.{is_settings, is_continuation, is_misplaced, interrupts, is_none, peer};
ghost use Rattle.h2_conn.specs.Kinds.{Steps, Guards, Fits, FitsBody, kind_rows};
ghost use Rattle.h2_conn.specs.Sound.{Sound};

use crate::blocks::{continuation, head};
use crate::control::{RowResult, fault};
use crate::data::{data, reset};
use crate::fault::{ConnCause, ConnError};
use crate::settings::{ping, settings};
use crate::state::{OpenBlock, State};
use crate::windows::window;
use h2_frame::{Body, Frame};
use std::alloc::Global;

fn is_settings(body: &Body) -> bool
    ensures { result ≡ is_settings body.now }
{
    match body {
        Body::Settings { .. } => true,
        Body::Bytes { .. }
        | Body::Headers { .. }
        | Body::Priority
        | Body::Reset { .. }
        | Body::SettingsAck
        | Body::PushPromise
        | Body::Ping { .. }
        | Body::GoAway { .. }
        | Body::WindowUpdate { .. }
        | Body::Continuation { .. }
        | Body::Unknown { .. } => false,
    }
}

fn is_continuation(body: &Body) -> bool
    ensures { result ≡ is_continuation body.now }
{
    match body {
        Body::Continuation { .. } => true,
        Body::Bytes { .. }
        | Body::Headers { .. }
        | Body::Priority
        | Body::Reset { .. }
        | Body::Settings { .. }
        | Body::SettingsAck
        | Body::PushPromise
        | Body::Ping { .. }
        | Body::GoAway { .. }
        | Body::WindowUpdate { .. }
        | Body::Unknown { .. } => false,
    }
}

/// Whether the frame is a stream's and stands on the connection, or the other way round.
fn is_misplaced(stream: u32, body: &Body) -> bool
    ensures { result ≡ is_misplaced stream body.now }
{
    match body {
        Body::Bytes { .. } | Body::Headers { .. } | Body::Priority | Body::Reset { .. } => {
            stream == 0
        }
        Body::Settings { .. } | Body::SettingsAck | Body::Ping { .. } | Body::GoAway { .. } => {
            stream != 0
        }
        Body::PushPromise
        | Body::WindowUpdate { .. }
        | Body::Continuation { .. }
        | Body::Unknown { .. } => false,
    }
}

/// Whether a frame stands between those of an unfinished block.
fn interrupts(open_block: &Option<OpenBlock>, stream: u32, continues: bool) -> bool
    ensures { result ≡ interrupts open_block.now stream continues }
{
    match open_block {
        None => false,
        Some(block) => !(continues && block.stream == stream),
    }
}

fn is_none(open_block: &Option<OpenBlock>) -> bool
    ensures { result ≡ is_none open_block.now }
{
    match open_block {
        None => true,
        Some(_) => false,
    }
}

/// The rows that look at several kinds of frames.
fn guard(state: &State, stream: u32, body: &Body) -> Result<(), ConnError>
    ensures { Guards result state.now stream body.now }
{
    if !is_settings(body) && !state.settings_received {
        return Err(fault(state, ConnCause::FirstFrame));
    }
    let continues = is_continuation(body);
    if interrupts(&state.open_block, stream, continues) {
        return Err(fault(state, ConnCause::BlockOpen));
    }
    if continues && is_none(&state.open_block) {
        return Err(fault(state, ConnCause::NoBlock));
    }
    if is_misplaced(stream, body) {
        return Err(fault(state, ConnCause::StreamZero));
    }
    Ok(())
}

/// The rows of each kind.
fn dispatch(state: &mut State, alloc: Global, stream: u32, body: Body) -> RowResult
    requires low { stream < 2 ^ 31 }
    requires fits { FitsBody body }
    requires sound { Sound state.old }
    ensures { Steps (kind_rows state.old stream body) result state.new }
{
    match body {
        Body::Bytes { bytes, size, ended } => data(state, stream, bytes, size, ended),
        Body::Headers {
            block,
            ended,
            whole,
        } => head(state, alloc, stream, block, ended, whole),
        Body::Reset { code } => reset(state, stream, code),
        Body::Settings { pairs } => settings(state, stream, pairs.as_slice()),
        Body::PushPromise => Err(fault(state, ConnCause::Push)),
        Body::Ping { ack, word } => ping(state, stream, ack, word),
        Body::GoAway { .. } => {
            state.goaway_received = true;
            Ok(None)
        }
        Body::WindowUpdate { step } => window(state, stream, step),
        Body::Continuation { block, whole } => continuation(state, alloc, stream, block, whole),
        Body::Priority | Body::SettingsAck | Body::Unknown { .. } => Ok(None),
    }
}

/// Does the first row that applies to a frame.
#[tactic(auto, using(crate::proofs::Choice::guard_passes))]
fn first_row(state: &mut State, alloc: Global, frame: Frame) -> RowResult
    requires fits { Fits frame }
    requires sound { Sound state.old }
    ensures { Steps (peer state.old frame) result state.new }
{
    match guard(state, frame.stream, &frame.body) {
        Ok(()) => dispatch(state, alloc, frame.stream, frame.body),
        Err(error) => Err(error),
    }
}

/// The same, with what holds of each state.
#[tactic(auto, using(crate::proofs::Sounds::steps_sound))]
pub fn step(state: &mut State, alloc: Global, frame: Frame) -> RowResult
    requires fits { Fits frame }
    requires sound { Sound state.old }
    ensures step { Steps (peer state.old frame) result state.new }
    ensures sound { OnOk result (Sound state.new) }
{
    first_row(state, alloc, frame)
}
