//! The rows of HEADERS and CONTINUATION.

ghost use Rattle.std.specs.Prelude.{◌≡◌, ◌<◌, ◌^◌, true, false, nat_lt};
ghost use Rattle.h2_headers.specs.Heads.{are_good_trailers};
ghost use Rattle.hpack.specs.Decoding.{decode_block};
ghost use Rattle.h2_conn.specs.Peer.{with_new_stream, after_trailers};
ghost use Rattle.h2_conn.specs.Kinds.{Steps, IsRefusal, headers_rows, header_list_rows, block_rows, head_rows, continuation_rows};
ghost use Rattle.h2_conn.specs.Sound.{Sound};

use crate::control::{RowResult, end_request, fault, queue_reset, reset_with};
use crate::fault::{ConnCause, ConnError};
use crate::happening::Happening;
use crate::limits::{MAX_BLOCK_SIZE, MAX_CONTINUATIONS};
use crate::state::{OpenBlock, State};
use crate::streams::Stream;
use h2_headers::are_well_formed_trailers;
use h2_wire::limit::MAX_LIVE_STREAMS;
use h2_wire::{error_code, frame_type};
use hpack::HpackFault;
use std::alloc::Global;
use wl_octets::{Header, Octets, Row};

/// Whether trailers are not malformed: each name and value is as it may be, and there is no
/// pseudo-header (RFC 9113, sections 8.1 and 8.2).
pub fn judge_trailers(headers: &[Header]) -> bool
    ensures { result ≡ are_good_trailers headers.now }
{
    are_well_formed_trailers(headers)
}

/// The refusal of a block that can't be decoded.
fn refusal(state: &State, why: HpackFault) -> ConnError
    ensures { IsRefusal why result state.now }
{
    match why {
        HpackFault::Memory => ConnError::Memory,
        _ => fault(state, ConnCause::Hpack(why)),
    }
}

/// Opens a stream, or refuses it where 16 are live.
#[tactic(auto, using(crate::proofs::Sounds::has_room, crate::proofs::Sounds::is_above), unfolding(crate::specs::Peer::with_new_stream))]
fn open(state: &mut State, block: &OpenBlock, headers: Row<Header>) -> RowResult
    requires new { state.old.last_stream_id < block.now.stream }
    requires low { block.now.stream < 2 ^ 31 }
    requires sound { Sound state.old }
    ensures { Steps (with_new_stream state.old block.now headers) result state.new }
{
    let stream = block.stream;
    let ended = block.ended;
    if state.streams.len() as usize >= MAX_LIVE_STREAMS {
        state.last_stream_id = stream;
        queue_reset(state, stream, error_code::REFUSED_STREAM)?;
        return Ok(None);
    }
    state.outbox.add(stream);
    state.last_stream_id = stream;
    state.streams.push(Stream {
        number: stream,
        remote_closed: ended,
        local_closed: false,
    });
    Ok(Some(Happening::Head {
        stream,
        headers,
        ended,
    }))
}

/// Takes the second block of a request, its trailers.
#[tactic(auto, unfolding(crate::specs::Peer::after_trailers))]
fn take_trailers(state: &mut State, block: &OpenBlock, headers: &[Header]) -> RowResult
    ensures { Steps (after_trailers state.old block.now headers.now) result state.new }
{
    let stream = block.stream;
    if block.ended && judge_trailers(headers) {
        end_request(state, stream);
        Ok(Some(Happening::End { stream }))
    } else {
        reset_with(state, stream, error_code::PROTOCOL_ERROR)
    }
}

/// The rows of a block's headers.
fn header_rows(state: &mut State, block: &OpenBlock, headers: Row<Header>) -> RowResult
    requires low { block.now.stream < 2 ^ 31 }
    requires sound { Sound state.old }
    ensures { Steps (headers_rows state.old block.now headers) result state.new }
{
    if state.last_stream_id < block.stream {
        return open(state, block, headers);
    }
    if !state.streams.is_live(block.stream) {
        return Ok(None);
    }
    if state.streams.is_remote_closed(block.stream) {
        return reset_with(state, block.stream, error_code::STREAM_CLOSED);
    }
    take_trailers(state, block, headers.as_slice())
}

/// The rows of a whole block.
fn whole_block(state: &mut State, alloc: Global, block: OpenBlock) -> RowResult
    requires low { block.stream < 2 ^ 31 }
    requires sound { Sound state.old }
    ensures { Steps
        (header_list_rows (record { state = state.old; block = block; whole = true })
        (decode_block state.old.decoder block.bytes).0
        (decode_block state.old.decoder block.bytes).1) result state.new }
{
    match state.decoder.block(alloc, block.bytes.as_slice()) {
        Ok(headers) => header_rows(state, &block, headers),
        Err(why) => Err(refusal(state, why)),
    }
}

/// The rows of a block with the bytes of its last frame so far.
fn block_in(state: &mut State, alloc: Global, block: OpenBlock, whole: bool) -> RowResult
    requires low { block.stream < 2 ^ 31 }
    requires sound { Sound state.old }
    ensures { Steps
        (block_rows (record { state = state.old; block = block; whole = whole })) result state.new }
{
    if block.bytes.len() > MAX_BLOCK_SIZE {
        return Err(fault(state, ConnCause::BlockTooLong));
    }
    if !whole {
        state.open_block = Some(block);
        return Ok(None);
    }
    whole_block(state, alloc, block)
}

/// The rows of HEADERS.
pub fn head(
    state: &mut State,
    alloc: Global,
    stream: u32,
    bytes: Octets,
    ended: bool,
    whole: bool,
) -> RowResult
    requires low { stream < 2 ^ 31 }
    requires sound { Sound state.old }
    ensures { Steps (head_rows state.old stream bytes ended whole) result state.new }
{
    if stream % 2 == 0 {
        return Err(fault(state, ConnCause::EvenStream));
    }
    state.settings_count = 0;
    state.empty_data_count = 0;
    state.open_block = None;
    let block = OpenBlock {
        stream,
        ended,
        bytes,
        continuations: 0,
    };
    block_in(state, alloc, block, whole)
}

/// The rows of CONTINUATION.
pub fn continuation(
    state: &mut State,
    alloc: Global,
    stream: u32,
    bytes: Octets,
    whole: bool,
) -> RowResult
    requires { Sound state.old }
    ensures { Steps (continuation_rows state.old stream bytes whole) result state.new }
{
    match state.open_block.take() {
        Some(mut block) => {
            if block.continuations >= MAX_CONTINUATIONS {
                let cause = ConnCause::Flood(frame_type::CONTINUATION, MAX_CONTINUATIONS + 1);
                return Err(fault(state, cause));
            }
            block.bytes.push_slice(bytes.as_slice())?;
            block.continuations += 1;
            block_in(state, alloc, block, whole)
        }
        None => Ok(None),
    }
}
