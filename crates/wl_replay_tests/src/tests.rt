//! Scripts with one fault or one rule each, and each line of a transcript.

mod cases;
mod simulations;
mod words;

use cases::{FIRST_LINES, FURTHER_LINES, SESSIONS, STORES};
use std::alloc::Global;
use std::test::Fail;
use wl_core::Line;
use wl_document::{DocFault, Place};
use wl_entry::{CertFault, Unfit};
use wl_octets::{Memory, Octets};
use wl_replay::{MAX_CALLER_SELECTORS, SCRIPT_LIMIT, ScriptFault, put_line, read_script};
use words::{fault_words, script_words};

/// What a script is read as, in words.
fn read(alloc: Global, script: &[u8]) -> Result<String, Fail> {
    match read_script(alloc, script) {
        Ok(script) => script_words(alloc, &script),
        Err(fault) => fault_words(alloc, fault),
    }
}

#[test]
fn first_lines(rt: HostRuntime) -> Result<(), Fail> {
    for (script, wanted) in &FIRST_LINES {
        let found = read(rt.alloc(), script.as_bytes())?;
        assert_eq!(rt; found.as_str(), *wanted, "{script}");
    }
    Ok(())
}

/// What this line is read as, after a first one.
fn read_further(alloc: Global, line: &str) -> Result<String, Fail> {
    let mut script = String::from_str(alloc, "#\nsync 00\n")?;
    script.push_str(line)?;
    read(alloc, script.as_bytes())
}

#[test]
fn further_lines(rt: HostRuntime) -> Result<(), Fail> {
    for (line, wanted) in &FURTHER_LINES {
        let found = read_further(rt.alloc(), line)?;
        assert_eq!(rt; found.as_str(), *wanted, "{line}");
    }
    Ok(())
}

#[test]
fn store_lines(rt: HostRuntime) -> Result<(), Fail> {
    for (line, wanted) in &STORES {
        let found = read_further(rt.alloc(), line)?;
        assert_eq!(rt; found.as_str(), *wanted, "{line}");
    }
    Ok(())
}

#[test]
fn session_lines(rt: HostRuntime) -> Result<(), Fail> {
    for (line, wanted) in &SESSIONS {
        let found = read_further(rt.alloc(), line)?;
        assert_eq!(rt; found.as_str(), *wanted, "{line}");
    }
    Ok(())
}

/// A script of one comment of so many bytes.
fn comment(alloc: Global, len: usize) -> Result<Vec<u8>, Fail> {
    let mut script = Vec::new(alloc);
    for _ in 0..len {
        script.push(b'#')?;
    }
    Ok(script)
}

#[test]
fn longest_scripts(rt: HostRuntime) -> Result<(), Fail> {
    let alloc = rt.alloc();
    let longest = comment(alloc, SCRIPT_LIMIT)?;
    assert_eq!(rt; read(alloc, longest.as_slice())?.as_str(), "line 2");
    let longer = comment(alloc, SCRIPT_LIMIT + 1)?;
    assert_eq!(rt; read(alloc, longer.as_slice())?.as_str(), "long 16777217");
    Ok(())
}

/// The fault of a join with so many selectors, if any.
fn joined(alloc: Global, count: usize) -> Result<Option<ScriptFault>, Fail> {
    let mut script = String::from_str(alloc, "sync 00\njoin 0")?;
    for _ in 0..count {
        script.push_str(" a:b")?;
    }
    match read_script(alloc, script.as_bytes()) {
        Ok(_) => Ok(None),
        Err(fault) => Ok(Some(fault)),
    }
}

#[test]
fn most_selectors(rt: HostRuntime) -> Result<(), Fail> {
    let alloc = rt.alloc();
    assert_eq!(rt; joined(alloc, MAX_CALLER_SELECTORS)?, None);
    let fault = joined(alloc, MAX_CALLER_SELECTORS + 1)?;
    assert_eq!(rt; fault, Some(ScriptFault::Line(2)));
    Ok(())
}

/// Whether this text is appended for a line.
fn is_put(alloc: Global, line: &Line, text: &str) -> Result<bool, Memory> {
    let mut out = Octets::from_slice(alloc, b">")?;
    put_line(alloc, line, &mut out)?;
    let mut wanted = Octets::from_slice(alloc, b">")?;
    wanted.push_slice(text.as_bytes())?;
    Ok(out == wanted)
}

/// A line of the store.
fn store_line(alloc: Global, at: usize) -> Result<Line, Memory> {
    Ok(match at {
        0 => Line::Refused(DocFault::TooMany(PLACE, 6)),
        1 => Line::Same,
        2 => Line::Published(7),
        3 => Line::Ticket {
            number: 8,
            entry_id: Octets::from_slice(alloc, b"e1")?,
        },
        4 => Line::Spent,
        5 => Line::UnknownAsk,
        6 => Line::Unfit(Unfit::Cert(CertFault::NoUri)),
        7 => Line::Older(9),
        8 => Line::Kept,
        _ => Line::Failed,
    })
}

const PLACE: Place = Place {
    part: 2,
    index: 3,
    field: 4,
    item: 5,
};

static STORE_TEXTS: [&str; 10] = [
    "refused 12 2 3 4 5 6\n",
    "same\n",
    "published 7\n",
    "ticket 8 e1\n",
    "spent\n",
    "unknown-ask\n",
    "unfit 6\n",
    "older 9\n",
    "kept\n",
    "failed\n",
];

#[test]
fn lines_of_the_store(rt: HostRuntime) -> Result<(), Fail> {
    for (at, text) in STORE_TEXTS.iter().enumerate() {
        let line = store_line(rt.alloc(), at)?;
        assert!(rt; is_put(rt.alloc(), &line, text)?, "{text}");
    }
    Ok(())
}

/// A line of a session.
fn session_line(alloc: Global, at: usize) -> Result<Line, Memory> {
    Ok(match at {
        0 => Line::Busy(1),
        1 => Line::Joined(2),
        2 => Line::Absent(3),
        3 => Line::Out {
            conn: 31,
            bytes: Octets::from_slice(alloc, b"\x00\x9f\xaf")?,
        },
        4 => Line::Ended { conn: 4, code: 11 },
        5 => Line::Idle(5),
        6 => Line::Closed(6),
        7 => Line::Named(7),
        _ => Line::Unnamed(8),
    })
}

static SESSION_TEXTS: [&str; 9] = [
    "busy 1\n",
    "joined 2\n",
    "absent 3\n",
    "out 31 009faf\n",
    "ended 4 11\n",
    "idle 5\n",
    "closed 6\n",
    "named 7\n",
    "unnamed 8\n",
];

#[test]
fn lines_of_sessions(rt: HostRuntime) -> Result<(), Fail> {
    for (at, text) in SESSION_TEXTS.iter().enumerate() {
        let line = session_line(rt.alloc(), at)?;
        assert!(rt; is_put(rt.alloc(), &line, text)?, "{text}");
    }
    Ok(())
}
