//! The streams of an outbox, by their numbers.

ghost use Rattle.std.specs.Prelude.{◌≡◌, ◌<◌, ◌&&◌, true, not, pos, ◌+ℤ◌, ◌≤ℤ◌, Some, None, length, filter, vec_capacity, slice_set, slice_index_or};
ghost use Rattle.std.specs.List.{list_any};
ghost use Rattle.h2_wire.specs.declared.limit.TheConstants.{MAX_WINDOW_SIZE};
ghost use Rattle.h2_flow.specs.Outboxes.{is_number, update_stream, credit_of, with_offer};
ghost use Rattle.h2_flow.specs.declared.stream.Stream.{Stream};

use crate::block::Block;
use crate::message::Message;
use crate::stream::Stream;

/// The place of the stream of this number, which is there.
#[tactic(auto, using(crate::proofs::Places::is_within, crate::proofs::Places::before_first, crate::proofs::Places::before_next, crate::proofs::Places::before_changed, crate::proofs::Places::before_credit))]
fn place(streams: &[Stream], number: u32) -> usize
    requires { list_any (is_number number) streams.now ≡ true }
    ensures within { result < length streams.now }
    ensures changes { (f : Stream → Stream) (d : Stream)
        → update_stream number f streams.now
        ≡ slice_set streams.now result (f (slice_index_or streams.now result d)) }
    ensures credit { (d : Stream)
        → credit_of number streams.now ≡ (slice_index_or streams.now result d).credit }
{
    let mut at = 0;
    while streams[at].number != number {
        at += 1;
    }
    at
}

/// The credit of a stream that is there.
pub(crate) fn credit(streams: &[Stream], number: u32) -> i64
    requires { list_any (is_number number) streams.now ≡ true }
    ensures { result ≡ credit_of number streams.now }
{
    streams[place(streams, number)].credit
}

/// Adds a step to the credit of a stream that is there.
pub(crate) fn raise(streams: &mut [Stream], number: u32, step: u32)
    requires there { list_any (is_number number) streams.old ≡ true }
    requires small { (credit_of number streams.old +ℤ pos step) ≤ℤ pos MAX_WINDOW_SIZE }
    ensures { streams.new
        ≡ update_stream number (λ s. record s { credit = s.credit +ℤ pos step }) streams.old }
{
    let at = place(streams, number);
    streams[at].raise(step);
}

/// Makes a head block due on a stream that is there.
pub(crate) fn head(streams: &mut [Stream], number: u32, block: Block)
    requires { list_any (is_number number) streams.old ≡ true }
    ensures { streams.new ≡ update_stream number (λ s. record s { head = Some block }) streams.old }
{
    let at = place(streams, number);
    streams[at].head = Some(block);
}

/// Has a message wait on a stream that is there, or none where it is the last one again.
pub(crate) fn offer(streams: &mut [Stream], number: u32, message: Message)
    requires { list_any (is_number number) streams.old ≡ true }
    ensures { streams.new ≡ update_stream number (with_offer message) streams.old }
{
    let at = place(streams, number);
    streams[at].offer(message);
}

/// Withdraws the waiting message of a stream that is there.
pub(crate) fn withdraw(streams: &mut [Stream], number: u32)
    requires { list_any (is_number number) streams.old ≡ true }
    ensures { streams.new ≡ update_stream number (λ s. record s { waiting = None }) streams.old }
{
    let at = place(streams, number);
    streams[at].waiting = None;
}

/// Makes the last block due on a stream that is there.
pub(crate) fn finish(streams: &mut [Stream], number: u32, block: Block)
    requires { list_any (is_number number) streams.old ≡ true }
    ensures { streams.new
        ≡ update_stream number (λ s. record s { trailers = Some block; finished = true }) streams.old }
{
    let at = place(streams, number);
    streams[at].finish(block);
}

/// Drops the stream of this number.
pub(crate) fn take_out(streams: &mut Vec<Stream>, number: u32)
    ensures streams { streams.new.items ≡ filter (λ s. not (is_number number s)) streams.old.items }
    ensures capacity { vec_capacity streams.new ≡ vec_capacity streams.old }
{
    streams.retain(|stream| stream.number != number);
}

/// Whether there is a stream of this number.
pub(crate) fn has_in(streams: &[Stream], number: u32) -> bool
    ensures { result ≡ list_any (is_number number) streams.now }
{
    streams.iter().any(|stream| stream.number == number)
}

/// Whether there is a stream of this number that isn't finished.
pub(crate) fn open_in(streams: &[Stream], number: u32) -> bool
    ensures { result ≡ list_any (λ s. is_number number s && not s.finished) streams.now }
{
    streams
        .iter()
        .any(|stream| stream.number == number && !stream.finished)
}

/// Whether a frame was written on the stream of this number.
pub(crate) fn written_in(streams: &[Stream], number: u32) -> bool
    ensures { result ≡ list_any (λ s. is_number number s && s.written) streams.now }
{
    streams
        .iter()
        .any(|stream| stream.number == number && stream.written)
}
