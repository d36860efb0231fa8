//! Writing what the windows allow.

ghost use Rattle.std.specs.Prelude.{◌≡◌, ◌≤◌, ◌+◌, ◌-ℤ◌, ℕ, true, false, None, Some, pos, if◌then◌else◌, List, ◌++◌, length, take, drop};
ghost use Rattle.h2_wire.specs.declared.limit.TheConstants.{MAX_FRAME_SIZE};
ghost use Rattle.h2_wire.specs.declared.frame_type.TheConstants.{DATA};
ghost use Rattle.h2_wire.specs.Encoding.{frame_bytes};
ghost use Rattle.h2_flow.specs.Windows.{room_of, window_of};
ghost use Rattle.h2_flow.specs.Streams.{size_update_bytes, after_block, headers_turn, data_turn, next_turn, last_turn, body_turn, turn};
ghost use Rattle.h2_flow.specs.Pulls.{round, all_rounds, Puts, Takes, Makes};

use crate::block::Block;
use crate::flow::{Flow, TableSizeUpdate, allowed};
use crate::message::Message;
use crate::stream::{Stream, left};
use h2_wire::{flag, frame_type, head_of_frame};
use output_parts::Output;
use wl_octets::{Memory, Row};

/// What stands before the next block: a size update to 0, which empties the table of header
/// compression, where that is due (RFC 7541, section 6.3).
fn size_update_bytes(update: TableSizeUpdate) -> &'static [u8]
    ensures value { result.now ≡ size_update_bytes update }
    ensures small { length result.now ≤ 1 }
{
    match update {
        TableSizeUpdate::Due => &[0x20],
        TableSizeUpdate::Unasked | TableSizeUpdate::Written => &[],
    }
}

fn after_block(update: TableSizeUpdate) -> TableSizeUpdate
    ensures { result ≡ after_block update }
{
    match update {
        TableSizeUpdate::Unasked => TableSizeUpdate::Unasked,
        TableSizeUpdate::Due | TableSizeUpdate::Written => TableSizeUpdate::Written,
    }
}

/// Writes one frame, whose payload comes in two parts.
#[tactic(auto, using(list_laws::proofs::Fronts::gains_before, list_laws::proofs::Fronts::gains_after), unfolding(h2_wire::specs::Encoding::frame_bytes))]
fn put(
    out: &mut Output,
    kind: u8,
    flags: u8,
    stream: u32,
    front: &[u8],
    rest: &[u8],
) -> Result<(), Memory>
    requires { length front.now + length rest.now ≤ MAX_FRAME_SIZE }
    ensures { Puts result (frame_bytes kind flags stream (front.now ++ rest.now)) out.old out.new }
{
    let length = (front.len() + rest.len()) as u32;
    out.push_slice(&head_of_frame(length, kind, flags, stream))?;
    out.push_slice(front)?;
    out.push_slice(rest)
}

/// Writes a whole header block.
#[tactic(auto, unfolding(crate::specs::Streams::headers_turn))]
fn put_headers(
    flow: &mut Flow,
    stream: &mut Stream,
    block: &Block,
    out: &mut Output,
) -> Result<(), Memory>
    ensures { (told : List ℕ)
        → Takes result
        (headers_turn flow.old stream.old block.now false) out.old out.new told told flow.new stream.new }
{
    put(
        out,
        frame_type::HEADERS,
        flag::END_HEADERS,
        stream.number,
        size_update_bytes(flow.update),
        block.as_slice(),
    )?;
    flow.update = after_block(flow.update);
    stream.written = true;
    Ok(())
}

/// Writes the block that ends the stream.
#[tactic(auto, unfolding(crate::specs::Streams::headers_turn))]
fn put_trailers(
    flow: &mut Flow,
    stream: &mut Stream,
    block: &Block,
    out: &mut Output,
    ended: &mut Row<u32>,
) -> Result<(), Memory>
    ensures { Takes result (headers_turn flow.old stream.old block.now true) out.old out.new ended.old ended.new flow.new stream.new }
{
    put(
        out,
        frame_type::HEADERS,
        flag::END_HEADERS + flag::END_STREAM,
        stream.number,
        size_update_bytes(flow.update),
        block.as_slice(),
    )?;
    flow.update = after_block(flow.update);
    stream.written = true;
    match ended.push(stream.number) {
        Ok(()) => Ok(()),
        Err((_, memory)) => Err(memory),
    }
}

/// How many bytes of DATA a frame has at least for its payload to be lent: a copy of fewer takes less time (own rule).
const LENT_LENGTH: u32 = 4_096;

/// Writes a frame of DATA, whose payload is so many bytes of the message from there on. A long one is lent.
#[tactic(auto, using(list_laws::proofs::Fronts::gains_before, list_laws::proofs::Fronts::gains_after), unfolding(h2_wire::specs::Encoding::frame_bytes))]
fn put_part(
    out: &mut Output,
    stream: u32,
    message: &Message,
    from: usize,
    count: u32,
) -> Result<(), Memory>
    requires at_most { count ≤ MAX_FRAME_SIZE }
    requires within { from + count ≤ length message.now }
    ensures { Puts result (frame_bytes DATA 0 stream (take count (drop from message.now))) out.old out.new }
{
    if count >= LENT_LENGTH
        && let Some(shared) = message.shared()
    {
        let head = head_of_frame(count, frame_type::DATA, 0, stream);
        return out.push_frame(head, shared.share()?, from, count as usize);
    }
    let (_, rest) = message.as_slice().split_at(from);
    put(
        out,
        frame_type::DATA,
        0,
        stream,
        &[],
        rest.split_at(count as usize).0,
    )
}

/// What a credit is after this many bytes of DATA.
fn spent(initial: u32, credit: i64, bytes: u32) -> i64
    requires { bytes ≤ room_of (window_of initial credit) }
    ensures { result ≡ credit -ℤ pos bytes }
{
    credit - i64::from(bytes)
}

/// Writes the next bytes of the message that began last.
#[tactic(auto, unfolding(crate::specs::Streams::data_turn))]
fn put_data(flow: &mut Flow, stream: &mut Stream, out: &mut Output) -> Result<(), Memory>
    ensures { (told : List ℕ)
        → Takes result (data_turn flow.old stream.old) out.old out.new told told flow.new stream.new }
{
    let count = allowed(*flow, stream.credit, left(stream).len());
    if count == 0 {
        return Ok(());
    }
    match put_part(out, stream.number, &stream.last, stream.sent, count) {
        Ok(()) => {}
        Err(memory) => return Err(memory),
    }
    flow.connection_window -= count;
    stream.sent += count as usize;
    stream.credit = spent(flow.initial_window_size, stream.credit, count);
    stream.written = true;
    Ok(())
}

/// Moves the waiting message to where messages are written from.
fn begin(stream: &mut Stream)
    ensures { (message : List ℕ) → stream.old.waiting ≡ Some message
        → stream.new ≡ record stream.old { last = message; sent = 0; waiting = None } }
{
    if let Some(message) = stream.waiting.take() {
        stream.last = message;
        stream.sent = 0;
    }
}

/// Writes the block that ends the stream, where it is due.
#[tactic(auto, unfolding(crate::specs::Streams::last_turn))]
fn put_last(
    flow: &mut Flow,
    stream: &mut Stream,
    out: &mut Output,
    ended: &mut Row<u32>,
) -> Result<(), Memory>
    ensures { Takes result (last_turn flow.old stream.old stream.old.trailers) out.old out.new ended.old ended.new flow.new stream.new }
{
    match stream.trailers.take() {
        Some(block) => put_trailers(flow, stream, &block, out, ended),
        None => Ok(()),
    }
}

/// Begins the waiting message, if one byte of it may be written.
#[tactic(auto, using(crate::proofs::Numbers::number_next), unfolding(crate::specs::Streams::next_turn))]
fn put_next(
    flow: &mut Flow,
    stream: &mut Stream,
    out: &mut Output,
    ended: &mut Row<u32>,
) -> Result<(), Memory>
    ensures { Takes result (next_turn flow.old stream.old stream.old.waiting) out.old out.new ended.old ended.new flow.new stream.new }
{
    let Some(message) = &stream.waiting else {
        return put_last(flow, stream, out, ended);
    };
    if allowed(*flow, stream.credit, message.len()) == 0 {
        return Ok(());
    }
    match flow.begun.checked_add(1) {
        Some(begun) => flow.begun = begun,
        None => return Err(Memory),
    }
    begin(stream);
    put_data(flow, stream, out)
}

/// Writes what a stream may write after its head block.
#[tactic(auto, unfolding(crate::specs::Streams::body_turn))]
fn put_body(
    flow: &mut Flow,
    stream: &mut Stream,
    out: &mut Output,
    ended: &mut Row<u32>,
) -> Result<(), Memory>
    ensures { Takes result
        (body_turn flow.old stream.old) out.old out.new ended.old ended.new flow.new stream.new }
{
    if stream.sent < stream.last.len() {
        put_data(flow, stream, out)
    } else {
        put_next(flow, stream, out, ended)
    }
}

/// Writes at most one frame of a stream.
#[tactic(auto, unfolding(crate::specs::Streams::turn))]
fn take_turn(
    flow: &mut Flow,
    stream: &mut Stream,
    out: &mut Output,
    ended: &mut Row<u32>,
) -> Result<(), Memory>
    ensures { Takes result
        (turn flow.old stream.old) out.old out.new ended.old ended.new flow.new stream.new }
{
    match stream.head.take() {
        Some(block) => put_headers(flow, stream, &block, out),
        None => put_body(flow, stream, out, ended),
    }
}

/// Each stream in turn.
#[tactic(auto, using(crate::proofs::Rounds::rounds_step), unfolding(crate::specs::Pulls::round))]
fn take_round(
    flow: &mut Flow,
    streams: &mut [Stream],
    out: &mut Output,
    ended: &mut Row<u32>,
) -> Result<(), Memory>
    ensures { Makes result
        (round flow.old streams.old) out.old out.new ended.old ended.new flow.new streams.new }
{
    for stream in streams.iter_mut() {
        take_turn(flow, stream, out, ended)?;
    }
    Ok(())
}

/// Rounds until one writes nothing.
pub(crate) fn take_rounds(
    flow: &mut Flow,
    streams: &mut [Stream],
    out: &mut Output,
    ended: &mut Row<u32>,
) -> Result<(), Memory>
    ensures { Makes result
        (all_rounds flow.old streams.old) out.old out.new ended.old ended.new flow.new streams.new }
{
    'rounds: loop {
        let before = out.len();
        take_round(flow, streams, out, ended)?;
        if out.len() == before {
            return Ok(());
        }
    }
}
