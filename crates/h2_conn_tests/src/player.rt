//! A connection that is played on: frames go in, and what it reports and its fault stay until they are looked at.

ghost use Rattle.std.specs.Prelude.{◌≡◌, true};
ghost use Rattle.h2_conn.specs.Kinds.{FitsBody};

use h2_conn::{Conn, ConnError, ConnFault, Happening};
use h2_frame::{Body, Frame, FrameFault, Parser};
use output_parts::Output;
use std::alloc::Global;
use std::process::Abort;
use wl_octets::{Header, Octets, Row};

#[derive(Drop)]
pub struct Player {
    pub conn: Conn,
    /// What it has reported since the last look.
    pub told: Row<Happening>,
    /// Its last fault.
    pub fault: Option<ConnFault>,
    /// How many times it has answered a fault since the last look.
    pub faults: u32,
}

/// A new connection.
pub fn start(rt: &impl Abort, alloc: Global) -> Player {
    Player {
        conn: Conn::start(alloc).expect(rt, "memory"),
        told: Row::empty(alloc),
        fault: None,
        faults: 0,
    }
}

fn fits(body: &Body) -> bool
    ensures { result ≡ true → FitsBody body.now }
{
    match body {
        Body::Bytes { bytes, size, .. } => bytes.len() <= *size as usize && *size <= 16_384,
        Body::WindowUpdate { step } => *step < 0x8000_0000,
        Body::Headers { .. }
        | Body::Priority
        | Body::Reset { .. }
        | Body::Settings { .. }
        | Body::SettingsAck
        | Body::PushPromise
        | Body::Ping { .. }
        | Body::GoAway { .. }
        | Body::Continuation { .. }
        | Body::Unknown { .. } => true,
    }
}

fn keep_fault(player: &mut Player, fault: ConnFault) {
    player.fault = Some(fault);
    player.faults = player.faults.saturating_add(1);
}

/// Gives the connection a frame.
pub fn hear(rt: &impl Abort, player: &mut Player, frame: Frame) {
    assert!(rt; frame.stream < 0x8000_0000);
    assert!(rt; fits(&frame.body));
    match player.conn.frame(frame, &mut player.told) {
        Ok(()) => {}
        Err(ConnError::Fault(fault)) => keep_fault(player, fault),
        Err(ConnError::Memory) => panic!(rt; "memory"),
    }
}

/// Has the connection fail by a fault of its bytes.
pub fn break_by(rt: &impl Abort, player: &mut Player, why: FrameFault) {
    match why {
        FrameFault::Memory => panic!(rt; "memory"),
        why => {
            let fault = player.conn.fail(why).expect(rt, "memory");
            keep_fault(player, fault);
        }
    }
}

/// Gives the connection the frames of some bytes, those of stream 1 on this stream. Bytes that are no frames fail it.
pub fn hear_bytes(rt: &impl Abort, alloc: Global, player: &mut Player, bytes: &[u8], stream: u32) {
    let mut frames = Row::empty(alloc);
    let end = Parser::start_bare(alloc).feed(alloc, bytes, &mut frames);
    for mut frame in frames.into_vec() {
        if frame.stream == 1 {
            frame.stream = stream;
        }
        hear(rt, player, frame);
    }
    if let Err(why) = end {
        break_by(rt, player, why);
    }
}

/// What the connection writes now.
pub fn flush(rt: &impl Abort, alloc: Global, player: &mut Player) -> Octets {
    let mut out = Output::empty(alloc);
    player.conn.flush(&mut out).expect(rt, "memory");
    out.into_octets(alloc).expect(rt, "memory")
}

// ---- happenings as text

fn put(rt: &impl Abort, out: &mut String, text: &str) {
    out.push_str(text).expect(rt, "memory");
}

fn put_letter(rt: &impl Abort, alloc: Global, out: &mut String, letter: char, stream: u32) {
    let text = format!(in alloc; " {letter}{stream}").expect(rt, "memory");
    put(rt, out, text.as_str());
}

fn put_headers(rt: &impl Abort, out: &mut String, headers: &[Header]) {
    for header in headers {
        put(rt, out, " ");
        put(
            rt,
            out,
            str::from_utf8(header.name.as_slice()).expect(rt, "a name"),
        );
        put(rt, out, "=");
        put(
            rt,
            out,
            str::from_utf8(header.value.as_slice()).expect(rt, "a value"),
        );
    }
}

fn put_hex(rt: &impl Abort, alloc: Global, out: &mut String, bytes: &[u8]) {
    for byte in bytes {
        let text = format!(in alloc; "{byte:02x}").expect(rt, "memory");
        put(rt, out, text.as_str());
    }
}

fn put_end(rt: &impl Abort, out: &mut String, ended: bool) {
    if ended {
        put(rt, out, " .");
    }
}

/// Puts a space, a letter and the stream's number after the others; then of a head the headers as `NAME=VALUE`, each
/// after a space, and of a body `:` and its bytes in hexadecimal; and ` .` where a head or a body ends the request.
fn put_note(rt: &impl Abort, alloc: Global, out: &mut String, happening: &Happening) {
    match happening {
        Happening::Head {
            stream,
            headers,
            ended,
        } => {
            put_letter(rt, alloc, out, 'H', *stream);
            put_headers(rt, out, headers.as_slice());
            put_end(rt, out, *ended);
        }
        Happening::Body {
            stream,
            bytes,
            ended,
        } => {
            put_letter(rt, alloc, out, 'B', *stream);
            put(rt, out, ":");
            put_hex(rt, alloc, out, bytes.as_slice());
            put_end(rt, out, *ended);
        }
        Happening::End { stream } => put_letter(rt, alloc, out, 'E', *stream),
        Happening::Gone { stream } => put_letter(rt, alloc, out, 'G', *stream),
    }
}

/// The happenings as text.
pub fn notes(rt: &impl Abort, alloc: Global, happenings: &[Happening]) -> String {
    let mut out = String::new(alloc);
    for happening in happenings {
        put_note(rt, alloc, &mut out, happening);
    }
    out
}
