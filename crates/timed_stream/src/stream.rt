//! A stream with a deadline.

use crate::deadlines::time_left;
use std::io;
use std::io::{ErrorKind, Read, Write};
use std::os::unix::net::UnixStream;
use std::rt::Clock;
use std::time::{Duration, Instant};

/// A stream that is lent for one exchange. Each call sets the timeout of the socket to what is left of the deadline, so
/// a peer that sends a byte now and then can't hold the exchange beyond it. A call that a signal interrupts is made
/// again. Past the deadline each call fails.
#[derive(Drop)]
pub struct TimedStream<'a, R> {
    rt: &'a R,
    stream: &'a UnixStream,
    deadline: Instant,
}

impl<'a, R: Clock> TimedStream<'a, R> {
    /// This stream, which has to block, until this deadline.
    pub fn start(rt: &'a R, stream: &'a UnixStream, deadline: Instant) -> TimedStream<'a, R> {
        TimedStream {
            rt,
            stream,
            deadline,
        }
    }

    /// The time that is left. A fault where the deadline has come.
    fn time_left(&self) -> io::Result<Duration> {
        match time_left(self.deadline, Instant::now(self.rt)?) {
            Some(left) => Ok(left),
            None => Err(io::Error::from(ErrorKind::TimedOut)),
        }
    }
}

impl<'a, R: Clock> Read for TimedStream<'a, R> {
    fn read(&mut self, buf: &mut [u8]) -> io::Result<usize> {
        let mut stream = self.stream;
        for _ in 0..u64::MAX {
            stream.set_read_timeout(Some(self.time_left()?))?;
            match stream.read(buf) {
                Err(error) if error.kind() == ErrorKind::Interrupted => {}
                done => return done,
            }
        }
        Err(io::Error::from(ErrorKind::TimedOut))
    }
}

impl<'a, R: Clock> Write for TimedStream<'a, R> {
    fn write(&mut self, buf: &[u8]) -> io::Result<usize> {
        let mut stream = self.stream;
        for _ in 0..u64::MAX {
            stream.set_write_timeout(Some(self.time_left()?))?;
            match stream.write(buf) {
                Err(error) if error.kind() == ErrorKind::Interrupted => {}
                done => return done,
            }
        }
        Err(io::Error::from(ErrorKind::TimedOut))
    }

    fn flush(&mut self) -> io::Result<()> {
        Ok(())
    }
}
