//! Each state of a stream with each kind of frame, after RFC 9113. The tables are written from the
//! standard's own rules (`tests/vectors/h2_states.py`), and not from the connection table.

use crate::player::{Player, flush, hear_bytes, start};
use crate::samples::{bytes_of, number};
use crate::scenes::act;
use crate::state_rows::{ROWS, STARTS};
use h2_conn::Happening;
use h2_frame::{Body, Frame, Parser};
use std::alloc::Global;
use std::process::Abort;
use wl_octets::Row;

/// DATA without bytes that ends its request: what comes of it tells the states apart.
const PROBE: &[u8] = b"\0\0\0\0\x01\0\0\0\x01";

/// What stands before and after the next bar of a line.
fn halves<'a>(rt: &impl Abort, line: &'a str) -> (&'a str, &'a str) {
    line.split_once(" | ").expect(rt, "a bar")
}

/// Gives a connection frames that are no fault, and lets it write.
fn go_on(rt: &impl Abort, alloc: Global, player: &mut Player, words: &str) {
    let bytes = bytes_of(rt, alloc, words);
    hear_bytes(rt, alloc, player, bytes.as_slice(), 1);
    assert!(rt; player.faults == 0, "{words}");
}

/// A connection on which a stream is in a state, and all was written.
fn reach(rt: &impl Abort, alloc: Global, before: &str, what: &str, after: &str) -> Player {
    let mut player = start(rt, alloc);
    go_on(rt, alloc, &mut player, before);
    if what != "nothing" {
        act(rt, alloc, &mut player.conn, what);
    }
    drop(flush(rt, alloc, &mut player));
    go_on(rt, alloc, &mut player, after);
    drop(flush(rt, alloc, &mut player));
    player.told = Row::empty(alloc);
    player
}

/// The letter of an error code.
fn code_letter(code: u32) -> char {
    match code {
        1 => 'P',
        3 => 'F',
        5 => 'S',
        6 => 'L',
        9 => 'C',
        _ => '?',
    }
}

/// The letter of a frame of the server, if it has one: an error on the stream or the connection,
/// or an acknowledgement.
fn answer_letter(frame: &Frame, stream: u32) -> Option<char> {
    match &frame.body {
        Body::GoAway { code, .. } => Some(code_letter(*code)),
        Body::Reset { code } if frame.stream == stream => {
            Some(code_letter(*code).to_ascii_lowercase())
        }
        Body::SettingsAck | Body::Ping { ack: true, .. } => Some('a'),
        _ => None,
    }
}

/// The letter of the last of the frames of a server that has one, and otherwise this letter.
fn answers_letter(rt: &impl Abort, alloc: Global, bytes: &[u8], stream: u32, other: char) -> char {
    let mut frames = Row::empty(alloc);
    let end = Parser::start_bare(alloc).feed(alloc, bytes, &mut frames);
    assert!(rt; end == Ok(()));
    let mut letter = other;
    for frame in frames.as_slice() {
        letter = answer_letter(frame, stream).unwrap_or(letter);
    }
    letter
}

/// The letter of the last happening.
fn happening_letter(happenings: &[Happening]) -> char {
    match happenings.last() {
        None => '.',
        Some(Happening::Head { .. }) => 'h',
        Some(Happening::Body { .. }) => 'b',
        Some(Happening::End { .. }) => 'e',
        Some(Happening::Gone { .. }) => 'g',
    }
}

/// Gives a connection frames, and answers the letter of what comes of them.
fn outcome_letter(
    rt: &impl Abort,
    alloc: Global,
    player: &mut Player,
    stream: u32,
    bytes: &[u8],
) -> char {
    player.told = Row::empty(alloc);
    hear_bytes(rt, alloc, player, bytes, stream);
    let told = happening_letter(player.told.as_slice());
    let out = flush(rt, alloc, player);
    answers_letter(rt, alloc, out.as_slice(), stream, told)
}

/// The letter of a stream's state on a connection that has not failed.
fn state_letter(rt: &impl Abort, alloc: Global, player: &mut Player, stream: u32) -> char {
    match outcome_letter(rt, alloc, player, stream, PROBE) {
        'P' => 'i',
        'b' if player.conn.is_live(stream) => 'o',
        'b' => 'l',
        's' => 'r',
        '.' => 'x',
        _ => '?',
    }
}

/// The letter of a stream's state after an outcome of this letter.
fn letter_after(
    rt: &impl Abort,
    alloc: Global,
    player: &mut Player,
    stream: u32,
    seen: char,
) -> char {
    if seen.is_ascii_uppercase() {
        assert_eq!(rt; player.conn.live(), 0);
        '-'
    } else {
        state_letter(rt, alloc, player, stream)
    }
}

/// The letters of what comes of these frames in a state, and of the stream's state after it.
fn letters_at(rt: &impl Abort, alloc: Global, frames: &[u8], state: &str) -> (char, char) {
    let (stream, rest) = halves(rt, state);
    let (before, rest) = halves(rt, rest);
    let (what, after) = halves(rt, rest);
    let stream = number(rt, stream);
    let mut player = reach(rt, alloc, before, what, after);
    let seen = outcome_letter(rt, alloc, &mut player, stream, frames);
    let after = letter_after(rt, alloc, &mut player, stream, seen);
    (seen, after)
}

/// Asserts what comes of a row's frames in each state, a letter for each state, and the letters of the states after it.
fn meets(rt: &impl Abort, alloc: Global, row: &str) {
    let (_, rest) = halves(rt, row);
    let (frames, rest) = halves(rt, rest);
    let frames = bytes_of(rt, alloc, frames);
    let mut all_seen = String::new(alloc);
    let mut all_after = String::new(alloc);
    for state in STARTS.lines() {
        let (seen, after) = letters_at(rt, alloc, frames.as_slice(), state);
        all_seen.push(seen).expect(rt, "memory");
        all_after.push(after).expect(rt, "memory");
    }
    assert_eq!(rt;
        (all_seen.as_str(), all_after.as_str()),
        halves(rt, rest),
        "{row}"
    );
}

#[test]
fn states_and_frames(rt: HostRuntime) {
    for row in ROWS.lines() {
        meets(&rt, rt.alloc(), row);
    }
}
