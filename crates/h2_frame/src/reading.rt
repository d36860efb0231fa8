//! The frames at the beginning of some bytes.

ghost use Rattle.std.specs.Prelude.{◌≡◌, ◌≤◌, length, drop, IfOk, IfErr, OnOk, ◌++◌};
ghost use Rattle.h2_frame.specs.declared.fault.FrameFault.{FrameFault};
ghost use Rattle.h2_frame.specs.Reading.{Steps, Refuses, Rest, Fault, frames_of};
ghost use Rattle.list_laws.specs.Lists.{GainsFront};

use crate::fault::FrameFault;
use crate::frame::Frame;
use crate::head::Head;
use crate::payload::body;
use h2_wire::limit::{HEAD_LEN, MAX_FRAME_SIZE};
use std::alloc::Global;
use wl_octets::Row;

/// The first frame and how many bytes it takes, if it is whole.
#[tactic(auto, unfolding(crate::specs::Reading::first_frame, crate::specs::Reading::step_after_head))]
fn first(alloc: Global, bytes: &[u8]) -> Result<Option<(Frame, usize)>, FrameFault>
    ensures { Steps result bytes.now }
{
    if bytes.len() < HEAD_LEN {
        return Ok(None);
    }
    let head = Head::read(bytes);
    if head.length > MAX_FRAME_SIZE {
        return Err(FrameFault::TooLarge(head.length));
    }
    if head.has_wrong_length() {
        return Err(FrameFault::WrongLength(head.kind, head.length));
    }
    let length = head.length as usize;
    let (_, after) = bytes.split_at(HEAD_LEN);
    if after.len() < length {
        return Ok(None);
    }
    let (payload, _) = after.split_at(length);
    let body = body(alloc, head, payload)?;
    let frame = Frame {
        stream: head.stream,
        body,
    };
    Ok(Some((frame, HEAD_LEN + length)))
}

/// Reads all whole frames, and tells how many bytes they take.
pub(crate) fn frames(
    alloc: Global,
    bytes: &[u8],
    into: &mut Row<Frame>,
) -> Result<usize, FrameFault>
    ensures within { IfOk result (λ used. used ≤ length bytes.now) }
    ensures ending { IfOk result (λ used. (frames_of bytes.now).ending ≡ Rest (drop used bytes.now)) }
    ensures all { OnOk result (into.new ≡ into.old ++ (frames_of bytes.now).frames) }
    ensures fault { IfErr result
        (λ fault. Refuses fault
        ((into.new ≡ into.old ++ (frames_of bytes.now).frames)
        × ((frames_of bytes.now).ending ≡ Fault fault))) }
    ensures prefix { GainsFront (frames_of bytes.now).frames into.old into.new }
{
    let mut at = 0;
    'each: loop {
        let (_, rest) = bytes.split_at(at);
        match first(alloc, rest) {
            Ok(Some((frame, used))) => match into.push(frame) {
                Ok(()) => at += used,
                Err(_) => return Err(FrameFault::Memory),
            },
            Ok(None) => return Ok(at),
            Err(fault) => return Err(fault),
        }
    }
}
