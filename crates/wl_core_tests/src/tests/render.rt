//! Lines in words.

use std::alloc::Global;
use std::process::Abort;
use wl_core::Line;
use wl_entry::Unfit;

/// A line, as a table has it.
#[derive(Clone, Copy)]
pub enum Said {
    Words(&'static str),
    /// These bytes were written on a connection.
    Out(u32, &'static [&'static [u8]]),
}

fn hex(rt: &impl Abort, alloc: Global, bytes: &[u8]) -> String {
    let mut text = String::new(alloc);
    for byte in bytes {
        let digits = format!(in alloc; "{byte:02x}").expect(rt, "memory");
        text.push_str(digits.as_str()).expect(rt, "memory");
    }
    text
}

fn unfit_number(unfit: &Unfit) -> u32 {
    match unfit {
        Unfit::Times => 1,
        Unfit::Expired => 2,
        Unfit::EmptyChain => 3,
        Unfit::EmptyKey => 4,
        Unfit::TooLong(_) => 5,
        Unfit::Cert(_) => 6,
        Unfit::OtherId { .. } => 7,
        Unfit::OtherTimes { .. } => 8,
    }
}

/// A line that has a text, in words.
fn words(rt: &impl Abort, alloc: Global, line: &Line) -> String {
    let words = match line {
        Line::Refused(fault) => format!(in alloc; "refused {fault:?}"),
        Line::Ticket { number, entry_id } => {
            let id = hex(rt, alloc, entry_id.as_slice());
            format!(in alloc; "ticket {number} {id}")
        }
        Line::Unfit(unfit) => format!(in alloc; "unfit {}", unfit_number(unfit)),
        Line::Out { conn, .. } => format!(in alloc; "out {conn}"),
        line => return plain_words(rt, alloc, line),
    };
    words.expect(rt, "memory")
}

/// A line of numbers alone, in words.
fn plain_words(rt: &impl Abort, alloc: Global, line: &Line) -> String {
    let (word, numbers) = match line {
        Line::Same => ("same", [None, None]),
        Line::Published(number) => ("published", [Some(*number), None]),
        Line::Spent => ("spent", [None, None]),
        Line::UnknownAsk => ("unknown-ask", [None, None]),
        Line::Older(end) => ("older", [Some(*end), None]),
        Line::Kept => ("kept", [None, None]),
        Line::Failed => ("failed", [None, None]),
        Line::Busy(conn) => ("busy", [Some(*conn as u64), None]),
        Line::Joined(conn) => ("joined", [Some(*conn as u64), None]),
        Line::Absent(conn) => ("absent", [Some(*conn as u64), None]),
        Line::Ended { conn, code } => ("ended", [Some(*conn as u64), Some(*code as u64)]),
        Line::Idle(conn) => ("idle", [Some(*conn as u64), None]),
        Line::Closed(conn) => ("closed", [Some(*conn as u64), None]),
        Line::Named(conn) => ("named", [Some(*conn as u64), None]),
        Line::Unnamed(conn) => ("unnamed", [Some(*conn as u64), None]),
        _ => ("another line", [None, None]),
    };
    let mut text = String::from_str(alloc, word).expect(rt, "memory");
    for number in numbers.into_iter().flatten() {
        let number = format!(in alloc; " {number}").expect(rt, "memory");
        text.push_str(number.as_str()).expect(rt, "memory");
    }
    text
}

/// Whether these bytes are the parts, one after the other.
fn are_parts(bytes: &[u8], parts: &[&[u8]]) -> bool {
    let mut rest = bytes;
    for part in parts {
        match rest.strip_prefix(*part) {
            Some(next) => rest = next,
            None => return false,
        }
    }
    rest.is_empty()
}

/// Asserts that a line is what is due.
fn is_said(rt: &impl Abort, alloc: Global, line: &Line, due: &Said, name: &str) {
    match (line, due) {
        (Line::Out { conn, bytes }, Said::Out(due, parts)) => {
            assert!(rt; conn == due && are_parts(bytes.as_slice(), parts), "{name}");
        }
        (line, Said::Words(due)) => {
            let words = words(rt, alloc, line);
            assert_eq!(rt; words.as_str(), *due, "{name}");
        }
        (_, Said::Out(_, _)) => panic!(rt; "{name}: no bytes were written"),
    }
}

/// Asserts that these lines are what is due, and no others.
pub fn are_said(rt: &impl Abort, alloc: Global, lines: &[Line], due: &[Said], name: &str) {
    for (line, due) in lines.iter().zip(due) {
        is_said(rt, alloc, line, due, name);
    }
    assert_eq!(rt; lines.len(), due.len(), "{name}");
}
