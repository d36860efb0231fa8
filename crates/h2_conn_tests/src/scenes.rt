//! Scenes: what a client and a server do on one connection, a step a line, and what is seen of it.
//!
//! A paragraph is a scene. Bytes are written in words, as `samples` reads them, and `nothing` stands for none.
//!
//! | line | what it does, or asserts |
//! |---|---|
//! | `scene TITLE` | |
//! | `client BYTES` | the client sends these frames; only the last may be a fault, and so may bytes that are no frame |
//! | `breaks FAULT` | the connection is failed by a fault of `h2_frame` |
//! | `leaves FIRST TIMES` | so many streams are opened from this number on, each is reset at once, and none is a fault |
//! | `answered FIRST TIMES` | the same, and before each reset a head is written |
//! | `provoked FIRST TIMES` | so many requests end, and after each comes a byte of DATA, for which this side resets |
//! | `server ACT STREAM ..` | `head` or `finish` with headers, `offer` with a message, `withdraw`, or `reset` with a code |
//! | `flush` | what is to be written is written, whatever it is |
//! | `told NOTES` | this was reported since the last such line, as `notes` writes it |
//! | `fault CODE LAST CAUSE` | the last frame was this fault; no stream is live, and each frame gives it again |
//! | `wrote BYTES` | a flush writes this, and another one nothing |
//! | `see live 2`, `see begun 2` | so many streams are live, so many messages began |
//! | `see live_stream 1`, `see dead_stream 1` | the stream is live, or not |
//! | `see going 1`, `see going 0` | the client said that it goes, or not |
//!
//! At its end a scene has no fault of which no line speaks.

ghost use Rattle.std.specs.Prelude.{◌≡◌, ◌≤◌, true};
ghost use Rattle.hpack.specs.declared.limit.TheConstants.{MAX_LIST_SIZE};
ghost use Rattle.hpack.specs.Tables.{list_size, size_of};

use crate::player::{Player, break_by, flush, hear, hear_bytes, notes, start};
use crate::samples::{bytes_of, number, put_bytes};
use h2_conn::Conn;
use h2_frame::{Body, Frame, FrameFault};
use output_parts::Output;
use std::alloc::Global;
use std::process::Abort;
use wl_octets::{Header, Octets, Row};

/// The first word of a line, and the rest.
fn cut(line: &str) -> (&str, &str) {
    line.split_once(' ').unwrap_or((line, ""))
}

// ---- header lists

fn octets(rt: &impl Abort, alloc: Global, bytes: &[u8]) -> Octets {
    Octets::from_slice(alloc, bytes).expect(rt, "memory")
}

fn header(rt: &impl Abort, alloc: Global, name: &str, value: &str) -> Header {
    Header {
        name: octets(rt, alloc, name.as_bytes()),
        value: octets(rt, alloc, value.as_bytes()),
    }
}

/// A header list, written `NAME=VALUE` with `|` between two headers.
pub fn headers(rt: &impl Abort, alloc: Global, fields: &str) -> Row<Header> {
    let mut row = Row::empty(alloc);
    for field in fields.split('|') {
        if let Some((name, value)) = field.split_once('=') {
            let pushed = row.push(header(rt, alloc, name, value));
            assert!(rt; pushed.is_ok());
        }
    }
    row
}

fn is_small(header: &Header) -> bool
    ensures { result ≡ true → size_of header.now ≤ 8192 }
{
    header.name.len() <= 80 && header.value.len() <= 8000
}

/// Whether there are at most two headers, whose sizes sum to at most 16,384.
#[tactic(auto, unfolding(hpack::specs::Tables::list_size))]
fn are_small(headers: &[Header]) -> bool
    ensures { result ≡ true → list_size headers.now ≤ MAX_LIST_SIZE }
{
    match headers {
        [] => true,
        [one] => is_small(one),
        [one, two] => is_small(one) && is_small(two),
        _ => false,
    }
}

// ---- what the server does

/// The server writes a head, or what ends its response.
fn answer(
    rt: &impl Abort,
    alloc: Global,
    conn: &mut Conn,
    stream: u32,
    fields: &str,
    is_last: bool,
) {
    let headers = headers(rt, alloc, fields);
    assert!(rt; are_small(headers.as_slice()));
    if is_last {
        conn.finish(stream, headers.as_slice()).expect(rt, "memory");
    } else {
        conn.head(stream, headers.as_slice()).expect(rt, "memory");
    }
}

fn offer(rt: &impl Abort, alloc: Global, conn: &mut Conn, stream: u32, message: &str) {
    let message = bytes_of(rt, alloc, message);
    assert!(rt; message.len() > 0);
    conn.offer(stream, message);
}

/// Does what a line says of the server.
pub fn act(rt: &impl Abort, alloc: Global, conn: &mut Conn, line: &str) {
    let (verb, rest) = cut(line);
    let (stream, rest) = cut(rest);
    let stream = number(rt, stream);
    match verb {
        "head" => answer(rt, alloc, conn, stream, rest, false),
        "finish" => answer(rt, alloc, conn, stream, rest, true),
        "offer" => offer(rt, alloc, conn, stream, rest),
        "withdraw" => conn.withdraw(stream),
        "reset" => conn.reset(stream, number(rt, rest)).expect(rt, "memory"),
        _ => panic!(rt; "no act: {line}"),
    }
}

// ---- streams that come and go

/// The number of a client's stream so many after this one.
fn stream_after(first: u32, more: u32) -> u32 {
    (first / 2).saturating_add(more).saturating_mul(2) | 1
}

fn open(rt: &impl Abort, alloc: Global, player: &mut Player, stream: u32, ended: bool) {
    let block = octets(rt, alloc, b"\x82");
    let body = Body::Headers {
        block,
        ended,
        whole: true,
    };
    hear(rt, player, Frame { stream, body });
}

fn leave(rt: &impl Abort, player: &mut Player, stream: u32) {
    let body = Body::Reset { code: 8 };
    hear(rt, player, Frame { stream, body });
}

/// Opens a stream, writes a head on it, and has the client reset it.
fn leave_answered(rt: &impl Abort, alloc: Global, player: &mut Player, stream: u32) {
    open(rt, alloc, player, stream, false);
    answer(rt, alloc, &mut player.conn, stream, "", false);
    drop(flush(rt, alloc, player));
    leave(rt, player, stream);
}

/// Opens a stream whose request has ended, and sends a byte of DATA on it, for which this side resets it.
fn provoke(rt: &impl Abort, alloc: Global, player: &mut Player, stream: u32) {
    open(rt, alloc, player, stream, true);
    let body = Body::Bytes {
        bytes: octets(rt, alloc, b"x"),
        size: 1,
        ended: false,
    };
    hear(rt, player, Frame { stream, body });
    assert_eq!(rt; player.conn.live(), 0);
}

fn pass(rt: &impl Abort, alloc: Global, player: &mut Player, how: &str, stream: u32) {
    match how {
        "leaves" => {
            open(rt, alloc, player, stream, false);
            leave(rt, player, stream);
        }
        "answered" => leave_answered(rt, alloc, player, stream),
        _ => provoke(rt, alloc, player, stream),
    }
}

/// Has so many streams come and go, none of which is a fault.
fn pass_many(rt: &impl Abort, alloc: Global, player: &mut Player, how: &str, rest: &str) {
    let (first, times) = cut(rest);
    let first = number(rt, first);
    for each in 0..number(rt, times) {
        pass(rt, alloc, player, how, stream_after(first, each));
    }
    assert!(rt; player.faults == 0, "{how} {rest}");
}

// ---- what is seen

/// Gives the connection frames, of which only the last may be a fault.
fn client(rt: &impl Abort, alloc: Global, player: &mut Player, scene: &str, words: &str) {
    assert!(rt; player.faults == 0, "before {words} of {scene}");
    let bytes = bytes_of(rt, alloc, words);
    hear_bytes(rt, alloc, player, bytes.as_slice(), 1);
    assert!(rt; player.faults <= 1, "{words} of {scene}");
}

fn fault_named(rt: &impl Abort, line: &str) -> FrameFault {
    let (name, size) = cut(line);
    match name {
        "BadPadding" => FrameFault::BadPadding,
        "BadPreface" => FrameFault::BadPreface(number(rt, size) as usize),
        "TooLarge" => FrameFault::TooLarge(number(rt, size)),
        "WrongLengthOfPing" => FrameFault::WrongLength(6, number(rt, size)),
        _ => panic!(rt; "no fault: {line}"),
    }
}

fn is_told(rt: &impl Abort, alloc: Global, player: &mut Player, scene: &str, due: &str) {
    let notes = notes(rt, alloc, player.told.as_slice());
    assert_eq!(rt; notes.as_str().trim(), due, "{scene}");
    player.told = Row::empty(alloc);
}

/// Asserts that the connection has answered this fault, once since the last look.
fn is_fault(rt: &impl Abort, alloc: Global, player: &mut Player, scene: &str, due: &str) {
    let fault = player.fault.expect(rt, "a fault");
    let text = format!(in alloc; "{} {} {:?}", fault.code, fault.last_stream, fault.cause).expect(
        rt, "memory",
    );
    assert_eq!(rt; text.as_str(), due, "{scene}");
    assert_eq!(rt; player.faults, 1, "{scene}");
    player.faults = 0;
}

/// Asserts that the connection has failed by this fault: no stream is live, a frame gives it again and reports nothing.
fn has_failed(rt: &impl Abort, alloc: Global, player: &mut Player, scene: &str, due: &str) {
    is_fault(rt, alloc, player, scene, due);
    assert_eq!(rt; player.conn.live(), 0, "{scene}");
    let count = player.told.len();
    client(rt, alloc, player, scene, "S");
    is_fault(rt, alloc, player, scene, due);
    assert_eq!(rt; player.told.len(), count, "{scene}");
}

/// Asserts that a flush writes these bytes after those that are there, and another one nothing.
fn writes(rt: &impl Abort, alloc: Global, conn: &mut Conn, scene: &str, words: &str) {
    let mut due = octets(rt, alloc, b"-");
    put_bytes(rt, &mut due, words);
    let mut out = Output::empty(alloc);
    out.push_slice(b"-").expect(rt, "memory");
    for _ in 0..2 {
        conn.flush(&mut out).expect(rt, "memory");
        assert_eq!(rt; out.as_plain(), Some(due.as_slice()), "{scene}");
    }
}

fn see(rt: &impl Abort, conn: &Conn, scene: &str, line: &str) {
    let (what, rest) = cut(line);
    let due = number(rt, rest);
    match what {
        "live" => assert_eq!(rt; conn.live(), due, "{scene}"),
        "begun" => assert_eq!(rt; conn.begun(), u64::from(due), "{scene}"),
        "live_stream" => assert!(rt; conn.is_live(due), "{scene}"),
        "dead_stream" => assert!(rt; !conn.is_live(due), "{scene}"),
        "going" => assert_eq!(rt; conn.is_going(), due == 1, "{scene}"),
        _ => panic!(rt; "nothing to see: {line}"),
    }
}

/// Plays what a line says of the client, and otherwise what it asserts.
fn play_other(rt: &impl Abort, alloc: Global, player: &mut Player, scene: &str, line: &str) {
    let (verb, rest) = cut(line);
    let due = if rest == "nothing" { "" } else { rest };
    match verb {
        "leaves" | "answered" | "provoked" => pass_many(rt, alloc, player, verb, rest),
        "breaks" => break_by(rt, player, fault_named(rt, rest)),
        "told" => is_told(rt, alloc, player, scene, due),
        "fault" => has_failed(rt, alloc, player, scene, rest),
        "wrote" => writes(rt, alloc, &mut player.conn, scene, due),
        "see" => see(rt, &player.conn, scene, rest),
        _ => panic!(rt; "no such line: {line}"),
    }
}

fn play_line(rt: &impl Abort, alloc: Global, player: &mut Player, scene: &str, line: &str) {
    let (verb, rest) = cut(line);
    match verb {
        "scene" => {}
        "client" => client(rt, alloc, player, scene, rest),
        "server" => act(rt, alloc, &mut player.conn, rest),
        "flush" => drop(flush(rt, alloc, player)),
        _ => play_other(rt, alloc, player, scene, line),
    }
}

/// Plays a scene on a new connection.
fn play(rt: &impl Abort, alloc: Global, scene: &str) {
    let mut player = start(rt, alloc);
    for line in scene.lines() {
        play_line(rt, alloc, &mut player, scene, line);
    }
    assert!(rt; player.faults == 0, "{scene}");
}

/// Plays scenes, which are paragraphs.
pub fn play_all(rt: &impl Abort, alloc: Global, scenes: &str) {
    for scene in scenes.split("\n\n") {
        play(rt, alloc, scene);
    }
}
