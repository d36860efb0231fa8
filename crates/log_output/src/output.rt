//! Lines to standard error, without waiting.

use libc::STDERR_FILENO;
use libc::types::pollfd;
use std::fs::OpenOptions;
use std::os::fd::{AsRawFd, IntoRawFd, RawFd};
use std::os::unix::fs::FileTypeExt;
use std::sync::atomic::{AtomicU64, Ordering};
use std::{fs, io};

/// The most bytes of a line. A pipe that is ready takes so many whole (`PIPE_BUF` of Linux).
pub const LINE_LIMIT: usize = 4096;

/// The path at which Linux opens standard error once more.
const STANDARD_ERROR: &str = "/proc/self/fd/2";

/// That a descriptor takes bytes (`POLLOUT` of poll(2)).
const POLLOUT: i16 = 4;

/// Where lines go. Threads may share it.
#[derive(Drop)]
pub struct LogOutput {
    descriptor: RawFd,
    /// Whether a write to the descriptor never waits.
    never_waits: bool,
    dropped: AtomicU64,
}

/// Standard error, opened once more and set not to wait, where it is a terminal or another character device. The setting
/// belongs to the open file: on descriptor 2 itself it would hold for the shell, too.
fn reopened(rt: &HostRuntime) -> io::Result<Option<RawFd>> {
    if !fs::metadata(rt, STANDARD_ERROR)?
        .file_type()
        .is_char_device()
    {
        return Ok(None);
    }
    let opened = OpenOptions::new().write(true).open(rt, STANDARD_ERROR)?;
    if os::set_nonblocking(opened.as_raw_fd(), true) != 0 {
        return Ok(None);
    }
    Ok(Some(opened.into_raw_fd()))
}

/// Whether a write of a line would not wait.
fn is_ready(descriptor: RawFd) -> bool {
    let mut asked = [pollfd {
        fd: descriptor,
        events: POLLOUT,
        revents: 0,
    }];
    libc::net::poll(&mut asked, 0) == 1 && asked[0].revents == POLLOUT
}

impl LogOutput {
    /// Lines to standard error.
    pub fn to_standard_error(rt: &HostRuntime) -> LogOutput {
        match reopened(rt) {
            Ok(Some(descriptor)) => LogOutput::over(descriptor, true),
            _ => LogOutput::over(STDERR_FILENO, false),
        }
    }

    /// Lines to this descriptor, which stays open.
    pub fn over(descriptor: RawFd, never_waits: bool) -> LogOutput {
        LogOutput {
            descriptor,
            never_waits,
            dropped: AtomicU64::new(0),
        }
    }

    /// Whether the descriptor took all of a line at once.
    fn took(&self, line: &[u8]) -> bool {
        line.len() <= LINE_LIMIT
            && (self.never_waits || is_ready(self.descriptor))
            && libc::write(self.descriptor, line) == line.len() as isize
    }

    /// Writes a line of at most [`LINE_LIMIT`] bytes, or drops it and counts it. Other threads' lines stand before or after it.
    pub fn write_line(&self, line: &[u8]) -> bool {
        let took = self.took(line);
        if !took {
            self.note_dropped();
        }
        took
    }

    /// Counts a line that was dropped.
    pub fn note_dropped(&self) {
        self.dropped.fetch_add(1, Ordering::SeqCst);
    }

    /// How many lines were dropped.
    pub fn dropped(&self) -> u64 {
        self.dropped.load(Ordering::SeqCst)
    }
}
