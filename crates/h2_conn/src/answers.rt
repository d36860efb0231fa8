//! What a server says on a stream.

ghost use Rattle.std.specs.Prelude.{◌≡◌, ◌≤◌, ◌<◌, length, IfOk, OnOk, OnErr};
ghost use Rattle.h2_wire.specs.declared.limit.TheConstants.{MAX_BLOCK_LEN};
ghost use Rattle.hpack.specs.declared.limit.TheConstants.{MAX_LIST_SIZE};
ghost use Rattle.hpack.specs.Tables.{list_size};
ghost use Rattle.hpack.specs.Writing.{block_bytes};
ghost use Rattle.h2_conn.specs.Conns.{takes, with_head_on, with_trailers_on, with_message_on, without_waiting_on, after_reset};

use crate::control::{close, queue_reset};
use crate::state::State;
use hpack::encode_plain;
use std::alloc::Global;
use wl_octets::{Header, Memory, Octets, Shared};

/// Whether a stream is live, and its last block was not given.
fn takes(state: &State, stream: u32) -> bool
    ensures { result ≡ takes stream state.now }
{
    state.streams.is_live(stream) && state.outbox.is_open(stream)
}

/// The block of some headers.
fn block(alloc: Global, headers: &[Header]) -> Result<Octets, Memory>
    requires { list_size headers.now ≤ MAX_LIST_SIZE }
    ensures { IfOk result (λ block. (block ≡ block_bytes headers.now) × (length block ≤ MAX_BLOCK_LEN)) }
{
    encode_plain(alloc, headers)
}

#[tactic(auto, unfolding(crate::specs::Conns::with_head_on))]
pub fn head(state: &mut State, alloc: Global, stream: u32, headers: &[Header]) -> Result<(), Memory>
    requires { list_size headers.now ≤ MAX_LIST_SIZE }
    ensures { OnOk result (state.new ≡ with_head_on stream (block_bytes headers.now) state.old) }
{
    if takes(state, stream) {
        let block = block(alloc, headers)?;
        state.outbox.head(stream, block);
    }
    Ok(())
}

#[tactic(auto, unfolding(crate::specs::Conns::with_trailers_on))]
pub fn finish(
    state: &mut State,
    alloc: Global,
    stream: u32,
    headers: &[Header],
) -> Result<(), Memory>
    requires { list_size headers.now ≤ MAX_LIST_SIZE }
    ensures { OnOk result (state.new ≡ with_trailers_on stream (block_bytes headers.now) state.old) }
{
    if takes(state, stream) {
        let block = block(alloc, headers)?;
        state.outbox.finish(stream, block);
    }
    Ok(())
}

#[tactic(auto, unfolding(crate::specs::Conns::with_message_on))]
pub fn offer(state: &mut State, stream: u32, message: Octets)
    requires { 0 < length message }
    ensures { state.new ≡ with_message_on stream message state.old }
{
    if takes(state, stream) {
        state.outbox.offer(stream, message);
    }
}

#[tactic(auto, unfolding(crate::specs::Conns::with_message_on))]
pub fn offer_shared(state: &mut State, stream: u32, message: Shared<Octets>)
    requires { 0 < length message }
    ensures { state.new ≡ with_message_on stream message state.old }
{
    if takes(state, stream) {
        state.outbox.offer_shared(stream, message);
    }
}

#[tactic(auto, unfolding(crate::specs::Conns::without_waiting_on))]
pub fn withdraw(state: &mut State, stream: u32)
    ensures { state.new ≡ without_waiting_on stream state.old }
{
    if takes(state, stream) {
        state.outbox.withdraw(stream);
    }
}

#[tactic(auto, unfolding(crate::specs::Conns::after_reset))]
pub fn reset(state: &mut State, stream: u32, code: u32) -> Result<(), Memory>
    ensures { OnOk result (state.new ≡ after_reset stream code state.old) }
{
    if state.streams.is_live(stream) {
        queue_reset(state, stream, code)?;
        close(state, stream);
    }
    Ok(())
}
