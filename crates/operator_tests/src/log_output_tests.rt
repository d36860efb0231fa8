//! Lines to a socket that nobody reads, to one that is read, and to nothing.

use event_log::{Event, Level};
use log_output::{LINE_LIMIT, Log, LogOutput};
use std::io::Read;
use std::os::fd::AsRawFd;
use std::os::unix::net::UnixStream;

/// A descriptor at which nothing is open.
const NOTHING: i32 = -1;

/// More lines than a socket holds.
const MANY: u32 = 5_000;

/// Whether threads may share a log.
fn is_shared<T: Send + Sync>(_value: &T) -> bool {
    true
}

#[test]
fn lines_that_nobody_reads_are_dropped(rt: HostRuntime) {
    let (ours, _theirs) = UnixStream::pair(&rt).expect(&rt, "sockets");
    let output = LogOutput::over(ours.as_raw_fd(), false);
    for _ in 0..MANY {
        output.write_line(&[b'a'; 400]);
    }
    assert!(rt; output.dropped() > 0 && output.dropped() < u64::from(MANY));
}

#[test]
fn lines_to_nothing_are_dropped(rt: HostRuntime) {
    let output = LogOutput::over(NOTHING, false);
    assert!(rt; !output.write_line(b"a\n"));
    assert!(rt; !output.write_line(&[b'a'; LINE_LIMIT + 1]));
    assert_eq!(rt; output.dropped(), 2);
}

#[test]
fn log_says_what_is_grave_enough(rt: HostRuntime) {
    let (ours, mut theirs) = UnixStream::pair(&rt).expect(&rt, "sockets");
    let output = LogOutput::over(ours.as_raw_fd(), false);
    let copy = rt.clone().expect(&rt, "memory");
    let log = Log::over(copy, output, Level::Warn, None);
    log.say_after(1_764_393_000, &Event::Serving(3), 0);
    log.say_after(1_764_393_000, &Event::NoFirstDocument, 0);
    log.set_level(Level::Info);
    log.say_after(1_764_393_060, &Event::Serving(3), 2);
    let mut bytes = [0u8; 400];
    let count = theirs.read(&mut bytes).expect(&rt, "lines");
    let text = "ts=2025-11-29T05:10:00Z level=error event=no_first_document\n\
        ts=2025-11-29T05:11:00Z level=info event=serving sockets=3 repeated=2\n";
    assert_eq!(rt; bytes.get(..count), Some(text.as_bytes()));
    assert!(rt; is_shared(&log) && log.now() > 0);
    assert_eq!(rt; log.dropped(), 0);
}
