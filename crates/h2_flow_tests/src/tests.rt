//! Worked bytes: an outbox's calls and what its pulls write.

use h2_flow::{Outbox, Overflow};
use output_parts::Output;
use std::alloc::{AllocGlobal, Global};
use std::test::Fail;
use wl_octets::{Memory, Octets, Row, Shared};

/// The head block of a response with its frame on stream 1.
const HEAD: &[u8] = b"\0\0\x14\x01\x04\0\0\0\x01\x88\x0f\x10\x10application/grpc";
/// A message of 32 bytes.
const MESSAGE: &[u8] =
    b"\0\0\0\0\x1b\x0a\x19\x0a\x0espiffe://a.b/w\x12\x01\x01\x1a\x01\x02\x22\x01\x03";
/// Another one, as long.
const CHANGED: &[u8] =
    b"\0\0\0\0\x1b\x0a\x19\x0a\x0espiffe://a.b/w\x12\x01\x07\x1a\x01\x02\x22\x01\x03";

/// A call of an outbox, and what it answers or writes.
#[derive(Clone, Copy)]
enum Step {
    /// Control frames, which are queued after nothing.
    Control(&'static [u8]),
    /// The first shrinking.
    Shrink,
    Head(u32, &'static [u8]),
    Offer(u32, &'static [u8]),
    /// The last block, after which the stream is not open.
    Finish(u32, &'static [u8]),
    Withdraw(u32),
    Remove(u32),
    /// An initial window, and the stream that it would overflow.
    Initial(u32, Option<u32>),
    /// A step of a window, and the stream that it would overflow.
    Grow(u32, u32, Option<u32>),
    /// What a pull writes, and which streams it ends.
    Pull(&'static [&'static [u8]], &'static [u32]),
    Begun(u64),
    /// Whether a frame was written on a stream that is there.
    Written(u32, bool),
}

/// Whether these bytes are the parts, one after the other.
fn are_parts(bytes: &[u8], parts: &[&[u8]]) -> bool {
    let mut rest = bytes;
    for part in parts {
        if rest.len() < part.len() {
            return false;
        }
        let (front, back) = rest.split_at(part.len());
        if front != *part {
            return false;
        }
        rest = back;
    }
    rest.is_empty()
}

/// Whether these frames are after the byte that was there, and these streams have ended.
fn is_pulled(
    alloc: Global,
    out: &Output,
    ended: &Row<u32>,
    frames: &[&[u8]],
    ends: &[u32],
) -> Result<bool, Memory> {
    let mut bytes = vec![in alloc; 0; out.len()]?;
    out.copy_from(0, bytes.as_mut_slice());
    match bytes.as_slice().split_first() {
        Some((b'-', written)) => Ok(are_parts(written, frames) && ended.as_slice() == ends),
        _ => Ok(false),
    }
}

/// Whether a pull writes these frames and ends these streams, and another one nothing.
fn pulls(
    alloc: Global,
    outbox: &mut Outbox,
    frames: &[&[u8]],
    ends: &[u32],
) -> Result<bool, Memory> {
    let mut out = Output::empty(alloc);
    out.push_slice(b"-")?;
    let mut ended = Row::empty(alloc);
    outbox.pull(&mut out, &mut ended)?;
    let first = is_pulled(alloc, &out, &ended, frames, ends)?;
    outbox.pull(&mut out, &mut ended)?;
    Ok(first && is_pulled(alloc, &out, &ended, frames, ends)?)
}

fn controls(outbox: &mut Outbox, frames: &[u8]) -> Result<bool, Memory> {
    outbox.control(frames)?;
    Ok(outbox.queued() == frames)
}

fn shrinks(outbox: &mut Outbox) -> bool {
    if outbox.is_shrunk() {
        return false;
    }
    outbox.shrink();
    outbox.is_shrunk()
}

fn takes_head(
    alloc: Global,
    outbox: &mut Outbox,
    stream: u32,
    block: &[u8],
) -> Result<bool, Memory> {
    let block = Octets::from_slice(alloc, block)?;
    if !outbox.is_open(stream) || block.len() > 16383 {
        return Ok(false);
    }
    outbox.head(stream, block);
    Ok(true)
}

fn takes_message(
    alloc: Global,
    outbox: &mut Outbox,
    stream: u32,
    message: &[u8],
) -> Result<bool, Memory> {
    let message = Octets::from_slice(alloc, message)?;
    if !outbox.is_open(stream) || message.len() == 0 {
        return Ok(false);
    }
    outbox.offer(stream, message);
    Ok(true)
}

fn finishes(alloc: Global, outbox: &mut Outbox, stream: u32, block: &[u8]) -> Result<bool, Memory> {
    let block = Octets::from_slice(alloc, block)?;
    if !outbox.is_open(stream) || block.len() > 16383 {
        return Ok(false);
    }
    outbox.finish(stream, block);
    Ok(!outbox.is_open(stream))
}

fn withdraws(outbox: &mut Outbox, stream: u32) -> bool {
    if !outbox.is_open(stream) {
        return false;
    }
    outbox.withdraw(stream);
    true
}

/// Whether a stream is not there once it was removed.
fn removes(outbox: &mut Outbox, stream: u32) -> bool {
    outbox.remove(stream);
    !outbox.has(stream)
}

/// The stream whose window overflows.
fn overflowing(answer: Result<(), Overflow>) -> Option<u32> {
    match answer {
        Ok(()) => None,
        Err(overflow) => Some(overflow.stream),
    }
}

fn opens(outbox: &mut Outbox, value: u32, overflow: Option<u32>) -> bool {
    value < 0x8000_0000 && overflowing(outbox.initial(value)) == overflow
}

fn grows(outbox: &mut Outbox, stream: u32, step: u32, overflow: Option<u32>) -> bool {
    if step >= 0x8000_0000 || (stream != 0 && !outbox.has(stream)) {
        return false;
    }
    overflowing(outbox.grow(stream, step)) == overflow
}

fn is_written(outbox: &Outbox, stream: u32, written: bool) -> bool {
    outbox.has(stream) && outbox.is_written(stream) == written
}

/// Whether a step answers and writes what is due.
fn is_due(alloc: Global, outbox: &mut Outbox, step: Step) -> Result<bool, Memory> {
    match step {
        Step::Control(frames) => controls(outbox, frames),
        Step::Shrink => Ok(shrinks(outbox)),
        Step::Head(stream, block) => takes_head(alloc, outbox, stream, block),
        Step::Offer(stream, message) => takes_message(alloc, outbox, stream, message),
        Step::Finish(stream, block) => finishes(alloc, outbox, stream, block),
        Step::Withdraw(stream) => Ok(withdraws(outbox, stream)),
        Step::Remove(stream) => Ok(removes(outbox, stream)),
        Step::Initial(value, overflow) => Ok(opens(outbox, value, overflow)),
        Step::Grow(stream, step, overflow) => Ok(grows(outbox, stream, step, overflow)),
        Step::Pull(frames, ends) => pulls(alloc, outbox, frames, ends),
        Step::Begun(count) => Ok(outbox.begun() == count),
        Step::Written(stream, written) => Ok(is_written(outbox, stream, written)),
    }
}

/// The number of the first step that answers or writes something else than what is due.
fn wrong_step(alloc: Global, outbox: &mut Outbox, steps: &[Step]) -> Result<Option<usize>, Memory> {
    for (number, step) in steps.iter().enumerate() {
        if !is_due(alloc, outbox, *step)? {
            return Ok(Some(number));
        }
    }
    Ok(None)
}

/// An outbox with stream 1.
#[tactic(auto, unfolding(h2_flow::specs::Outboxes::with_stream))]
fn one(alloc: Global) -> Result<Outbox, Memory> {
    let mut outbox = Outbox::start(alloc)?;
    outbox.add(1);
    Ok(outbox)
}

/// An outbox with the streams 1 and 3.
#[tactic(auto, unfolding(h2_flow::specs::Outboxes::with_stream))]
fn two(alloc: Global) -> Result<Outbox, Memory> {
    let mut outbox = Outbox::start(alloc)?;
    outbox.add(1);
    outbox.add(3);
    Ok(outbox)
}

/// An outbox with the streams 1, 3 and 5.
#[tactic(auto, unfolding(h2_flow::specs::Outboxes::with_stream))]
fn three(alloc: Global) -> Result<Outbox, Memory> {
    let mut outbox = Outbox::start(alloc)?;
    outbox.add(1);
    outbox.add(3);
    outbox.add(5);
    Ok(outbox)
}

const SHRINK: [Step; 9] = [
    Step::Control(&[1]),
    Step::Shrink,
    Step::Head(1, b"\x88"),
    Step::Written(1, false),
    Step::Pull(&[b"\x01", b"\0\0\x02\x01\x04\0\0\0\x01\x20\x88"], &[]),
    Step::Written(1, true),
    Step::Finish(1, b"\x89"),
    Step::Pull(&[b"\0\0\x01\x01\x05\0\0\0\x01\x89"], &[1]),
    Step::Begun(0),
];

#[test]
fn outbox_shrink(rt: HostRuntime) -> Result<(), Fail> {
    let mut outbox = one(rt.alloc())?;
    assert_eq!(rt; wrong_step(rt.alloc(), &mut outbox, &SHRINK)?, None);
    Ok(())
}

/// The head block of a response.
const BLOCK: &[u8] = b"\x88\x0f\x10\x10application/grpc";

const WINDOWS: [Step; 13] = [
    Step::Head(1, BLOCK),
    Step::Offer(1, MESSAGE),
    Step::Begun(0),
    Step::Pull(&[HEAD, b"\0\0\x20\0\0\0\0\0\x01", MESSAGE], &[]),
    Step::Begun(1),
    // the stream's window is 10 - 32
    Step::Initial(10, None),
    Step::Offer(1, CHANGED),
    Step::Pull(&[], &[]),
    Step::Grow(1, 22, None),
    Step::Pull(&[], &[]),
    Step::Grow(1, 1, None),
    Step::Pull(&[b"\0\0\x01\0\0\0\0\0\x01\0"], &[]),
    Step::Begun(2),
];

#[test]
fn outbox_windows(rt: HostRuntime) -> Result<(), Fail> {
    let mut outbox = one(rt.alloc())?;
    assert_eq!(rt; wrong_step(rt.alloc(), &mut outbox, &WINDOWS)?, None);
    Ok(())
}

const SMALL_WINDOW: [Step; 10] = [
    Step::Initial(10, None),
    Step::Offer(1, MESSAGE),
    Step::Pull(
        &[b"\0\0\x0a\0\0\0\0\0\x01", b"\0\0\0\0\x1b\x0a\x19\x0a\x0es"],
        &[],
    ),
    // another message waits for the whole of the first one
    Step::Offer(1, CHANGED),
    Step::Finish(1, b"\x89"),
    Step::Pull(&[], &[]),
    Step::Grow(1, 22, None),
    Step::Pull(
        &[
            b"\0\0\x16\0\0\0\0\0\x01",
            b"piffe://a.b/w\x12\x01\x01\x1a\x01\x02\x22\x01\x03",
        ],
        &[],
    ),
    Step::Grow(1, 100, None),
    Step::Pull(
        &[
            b"\0\0\x20\0\0\0\0\0\x01",
            CHANGED,
            b"\0\0\x01\x01\x05\0\0\0\x01\x89",
        ],
        &[1],
    ),
];

#[test]
fn small_window(rt: HostRuntime) -> Result<(), Fail> {
    let mut outbox = one(rt.alloc())?;
    assert_eq!(rt; wrong_step(rt.alloc(), &mut outbox, &SMALL_WINDOW)?, None);
    Ok(())
}

const OFFERS: [Step; 13] = [
    Step::Offer(1, b"one"),
    Step::Offer(1, b"two"),
    Step::Pull(&[b"\0\0\x03\0\0\0\0\0\x01two"], &[]),
    // the last message again is not written again, and withdraws what waits
    Step::Offer(1, b"six"),
    Step::Offer(1, b"two"),
    Step::Pull(&[], &[]),
    Step::Offer(1, b"six"),
    Step::Withdraw(1),
    Step::Pull(&[], &[]),
    Step::Begun(1),
    Step::Remove(1),
    Step::Remove(1),
    Step::Begun(1),
];

#[test]
fn offers(rt: HostRuntime) -> Result<(), Fail> {
    let mut outbox = one(rt.alloc())?;
    assert_eq!(rt; wrong_step(rt.alloc(), &mut outbox, &OFFERS)?, None);
    Ok(())
}

const REMOVED: [Step; 7] = [
    Step::Initial(5, None),
    Step::Offer(1, MESSAGE),
    Step::Pull(&[b"\0\0\x05\0\0\0\0\0\x01\0\0\0\0\x1b"], &[]),
    // the other 27 bytes are never written, however large the windows grow
    Step::Remove(1),
    Step::Initial(100, None),
    Step::Pull(&[], &[]),
    Step::Begun(1),
];

#[test]
fn removed_while_it_writes(rt: HostRuntime) -> Result<(), Fail> {
    let mut outbox = one(rt.alloc())?;
    assert_eq!(rt; wrong_step(rt.alloc(), &mut outbox, &REMOVED)?, None);
    Ok(())
}

const MOST: u32 = 0x7fff_ffff;

const OVERFLOWS: [Step; 6] = [
    Step::Grow(0, MOST, Some(0)),
    Step::Grow(0, MOST - 65535, None),
    Step::Grow(1, MOST - 65534, Some(1)),
    Step::Grow(1, 1, None),
    Step::Initial(MOST, Some(1)),
    Step::Initial(MOST - 1, None),
];

#[test]
fn overflows(rt: HostRuntime) -> Result<(), Fail> {
    let mut outbox = one(rt.alloc())?;
    assert_eq!(rt; wrong_step(rt.alloc(), &mut outbox, &OVERFLOWS)?, None);
    Ok(())
}

const LOWEST: [Step; 5] = [
    Step::Grow(5, 9, None),
    Step::Grow(3, 5, None),
    Step::Initial(MOST - 4, Some(3)),
    Step::Initial(MOST - 5, Some(5)),
    Step::Initial(MOST - 9, None),
];

#[test]
fn lowest_overflow(rt: HostRuntime) -> Result<(), Fail> {
    let mut outbox = three(rt.alloc())?;
    assert_eq!(rt; wrong_step(rt.alloc(), &mut outbox, &LOWEST)?, None);
    Ok(())
}

/// Whether a stream takes this message, which others share.
fn takes_share(outbox: &mut Outbox, stream: u32, message: &Shared<Octets>) -> Result<bool, Memory> {
    if !outbox.is_open(stream) || message.part().len() == 0 {
        return Ok(false);
    }
    outbox.offer_shared(stream, message.share()?);
    Ok(true)
}

/// Whether stream 3 and then stream 1 take this message, which they share.
fn take_both(alloc: Global, outbox: &mut Outbox, message: &[u8]) -> Result<bool, Memory> {
    let message = match Shared::new(alloc, Octets::from_slice(alloc, message)?) {
        Ok(message) => message,
        Err((_, memory)) => return Err(memory),
    };
    let third = takes_share(outbox, 3, &message)?;
    let first = takes_share(outbox, 1, &message)?;
    Ok(third && first)
}

/// Whether 20,000 bytes on each stream are written in turn. They need two frames.
fn are_long_written(
    alloc: Global,
    outbox: &mut Outbox,
    long: &[u8; 20000],
) -> Result<bool, Memory> {
    let (most, rest) = long.split_at(16384);
    let frames = [
        b"\0\x40\0\0\0\0\0\0\x01".as_slice(),
        most,
        b"\0\x40\0\0\0\0\0\0\x03",
        most,
        b"\0\x0e\x20\0\0\0\0\0\x01",
        rest,
        b"\0\x0e\x20\0\0\0\0\0\x03",
        rest,
    ];
    Ok(take_both(alloc, outbox, long)? && pulls(alloc, outbox, frames.as_slice(), &[])?)
}

/// Whether of the next 15,000 bytes on each stream those are written for which 25,535 bytes are left of the connection's
/// window, which end in the second stream's.
fn is_rest_written(alloc: Global, outbox: &mut Outbox, long: &[u8; 20000]) -> Result<bool, Memory> {
    let (less, _) = long.split_at(15000);
    let (part, _) = long.split_at(10_535);
    let frames = [
        b"\0\x3a\x98\0\0\0\0\0\x01".as_slice(),
        less,
        b"\0\x29\x27\0\0\0\0\0\x03",
        part,
    ];
    Ok(take_both(alloc, outbox, less)? && pulls(alloc, outbox, frames.as_slice(), &[])?)
}

#[test]
fn streams_in_turn(rt: HostRuntime) -> Result<(), Fail> {
    let long = [0x61; 20000];
    let mut outbox = two(rt.alloc())?;
    assert!(rt; opens(&mut outbox, 100_000, None));
    assert!(rt; are_long_written(rt.alloc(), &mut outbox, &long)?);
    assert!(rt; is_rest_written(rt.alloc(), &mut outbox, &long)?);
    Ok(())
}
