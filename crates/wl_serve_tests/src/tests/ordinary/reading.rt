//! What one finds who reads what a link took.

use super::super::hosts::Stop;
use h2_frame::{Body, Frame, Parser};
use std::alloc::Global;
use wl_octets::{Memory, Octets, Row};

/// The frames of these bytes.
pub fn frames(alloc: Global, bytes: &[u8]) -> Result<Row<Frame>, Stop> {
    let mut frames = Row::empty(alloc);
    match Parser::start_bare(alloc).feed(alloc, bytes, &mut frames) {
        Ok(()) => Ok(frames),
        Err(_) => Err(Stop::Frames),
    }
}

/// The kinds of frames that are due, by number; the last number is of all others.
fn kind(body: &Body) -> usize {
    match body {
        Body::Bytes { ended: false, .. } => 0,
        Body::Headers {
            ended: false,
            whole: true,
            ..
        } => 1,
        Body::Settings { .. } | Body::SettingsAck => 2,
        Body::Ping { ack: true, .. } => 3,
        Body::WindowUpdate { .. } => 4,
        _ => 5,
    }
}

/// How many frames are of this kind.
fn count(frames: &[Frame], wanted: usize) -> usize {
    frames
        .iter()
        .filter(|frame| kind(&frame.body) == wanted)
        .count()
}

/// How many frames are of each kind.
pub fn counts(frames: &[Frame]) -> [usize; 6] {
    let mut counts = [0; 6];
    for (place, number) in counts.iter_mut().enumerate() {
        *number = count(frames, place);
    }
    counts
}

/// What the DATA frames of a stream carry.
pub fn carried(alloc: Global, frames: &[Frame], stream: u32) -> Result<Octets, Memory> {
    let mut all = Octets::empty(alloc);
    for frame in frames {
        match &frame.body {
            Body::Bytes { bytes, .. } if frame.stream == stream => {
                all.push_slice(bytes.as_slice())?;
            }
            _ => {}
        }
    }
    Ok(all)
}
