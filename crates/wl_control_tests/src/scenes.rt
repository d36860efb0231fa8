//! Scenes: a command line, what the server sends, the status, and the lines that are written.
//!
//! A paragraph is a scene. Its first line is the command line; the second, after `hears `, has the server's bytes, as
//! `samples` reads them; the third, after `exits `, the status. The others are written, each with a newline; a `$` marks
//! the end of a line whose last byte is a space.

use crate::samples::{bytes_of, put};
use std::alloc::Global;
use std::process::Abort;
use wl_control::*;
use wl_edge::{Heard, Link, LinkPlan, MemoryLink, MemorySink, Origin};
use wl_octets::{Octets, Row};

/// A link that hears this, and answers and takes so much.
pub fn link_with(
    rt: &impl Abort,
    alloc: Global,
    gives: Row<Heard>,
    answers: usize,
    room: usize,
) -> MemoryLink {
    let origin = Origin::nowhere(alloc).expect(rt, "memory");
    let plan = LinkPlan::smooth(alloc, origin, gives, answers, room);
    MemoryLink::start(alloc, plan).expect(rt, "memory")
}

fn push_heard(rt: &impl Abort, gives: &mut Row<Heard>, heard: Heard) {
    let pushed = gives.push(heard);
    assert!(rt; pushed.is_ok());
}

/// What a link gives that is idle so many times and then gives these bytes in one piece.
pub fn gives(rt: &impl Abort, alloc: Global, idles: usize, bytes: Octets) -> Row<Heard> {
    let mut gives = Row::empty(alloc);
    for _ in 0..idles {
        push_heard(rt, &mut gives, Heard::Idle);
    }
    push_heard(rt, &mut gives, Heard::Piece(bytes));
    gives
}

/// A link that is idle so many times, then gives these bytes in one piece, and then its end.
pub fn slow_link(rt: &impl Abort, alloc: Global, idles: usize, bytes: Octets) -> MemoryLink {
    let gives = gives(rt, alloc, idles, bytes);
    link_with(rt, alloc, gives, 10_000, 65_536)
}

pub fn link_of(rt: &impl Abort, alloc: Global, bytes: Octets) -> MemoryLink {
    slow_link(rt, alloc, 0, bytes)
}

/// A sink that answers so often and takes so many bytes.
pub fn sink_of(rt: &impl Abort, alloc: Global, answers: u64, room: usize) -> MemorySink {
    MemorySink::start(alloc, answers, room, usize::MAX, Row::empty(alloc)).expect(rt, "memory")
}

pub fn words_of(rt: &impl Abort, alloc: Global, text: &str) -> Vec<String> {
    let mut words = Vec::new(alloc);
    for word in text.split(' ') {
        let word = String::from_str(alloc, word).expect(rt, "memory");
        words.push(word).expect(rt, "memory");
    }
    words
}

/// Asserts the status and what is written of a call over a link.
pub fn try_link<L: Link>(
    rt: &impl Abort,
    alloc: Global,
    words: &str,
    link: &mut L,
    status: u8,
    text: &[u8],
) {
    let list = words_of(rt, alloc, words);
    let mut sink = sink_of(rt, alloc, 100, 65_536);
    let got = control(rt, alloc, list.as_slice(), link, &mut sink);
    assert_eq!(rt; got, status, "of {words}");
    assert_eq!(rt; sink.bytes(), text, "of {words}");
}

/// The same over a link that gives these bytes.
pub fn try_run(
    rt: &impl Abort,
    alloc: Global,
    words: &str,
    bytes: Octets,
    status: u8,
    text: &[u8],
) {
    let mut link = link_of(rt, alloc, bytes);
    try_link(rt, alloc, words, &mut link, status, text);
}

pub fn status_named(rt: &impl Abort, name: &str) -> u8 {
    match name {
        "DONE" => status::DONE,
        "DENIED" => status::DENIED,
        "CLIENT_FAULT" => status::CLIENT_FAULT,
        "USAGE" => status::USAGE,
        _ => panic!(rt; "no status: {name}"),
    }
}

/// The first line of a text without its first word, which is this, and the rest.
pub fn line_of<'a>(rt: &impl Abort, text: &'a str, word: &str) -> (&'a str, &'a str) {
    let (line, rest) = text.split_once('\n').unwrap_or((text, ""));
    (line.strip_prefix(word).expect(rt, "another word"), rest)
}

/// The lines as they are written.
fn written(rt: &impl Abort, alloc: Global, lines: &str) -> Octets {
    let mut text = Octets::empty(alloc);
    for line in lines.lines() {
        put(
            rt,
            &mut text,
            line.strip_suffix('$').unwrap_or(line).as_bytes(),
        );
        put(rt, &mut text, b"\n");
    }
    text
}

/// Plays a scene over a link that is idle so many times at first.
pub fn play(rt: &impl Abort, alloc: Global, idles: usize, scene: &str) {
    let (words, rest) = line_of(rt, scene.trim_start(), "wlctl ");
    let (parts, rest) = line_of(rt, rest, "hears ");
    let (status, lines) = line_of(rt, rest, "exits ");
    let mut link = slow_link(rt, alloc, idles, bytes_of(rt, alloc, parts));
    let text = written(rt, alloc, lines);
    let status = status_named(rt, status);
    try_link(rt, alloc, words, &mut link, status, text.as_slice());
}

/// Plays scenes, which are paragraphs.
pub fn play_all(rt: &impl Abort, alloc: Global, scenes: &str) {
    for scene in scenes.split("\n\n") {
        play(rt, alloc, 0, scene);
    }
}

/// Asserts that a command line fits nothing, whatever the server sends, and nothing is written.
pub fn fits_nothing(rt: &impl Abort, alloc: Global, parts: &str, words: &str) {
    let bytes = bytes_of(rt, alloc, parts);
    try_run(rt, alloc, words, bytes, status::USAGE, b"");
}

/// The same of these command lines, a line each.
pub fn fit_nothing(rt: &impl Abort, alloc: Global, parts: &str, lines: &str) {
    for words in lines.trim().lines() {
        fits_nothing(rt, alloc, parts, words);
    }
}
