//! One peer of the server.

use http_server::Connection;
use status_pages::Pages;
use std::io;
use std::io::{ErrorKind, Read, Write};
use std::time::{Duration, Instant};
use wl_edge::{Link, Received, TrySent};
use wl_edge_real::RealLink;

/// How long a peer may take, from its coming to the end of its answer.
pub const PATIENCE_SECONDS: u64 = 5;

/// How many steps a peer is given in a row.
const STEPS: u32 = 64;

/// A link as a stream.
#[derive(Drop)]
pub(crate) struct Stream {
    pub(crate) link: RealLink,
}

impl Read for Stream {
    fn read(&mut self, into: &mut [u8]) -> io::Result<usize> {
        if into.is_empty() {
            return Ok(0);
        }
        match self.link.receive(into) {
            Received::Got(count) => Ok(count),
            Received::End => Ok(0),
            Received::Idle => Err(ErrorKind::WouldBlock.into()),
            Received::Failed => Err(ErrorKind::ConnectionReset.into()),
        }
    }
}

impl Write for Stream {
    fn write(&mut self, bytes: &[u8]) -> io::Result<usize> {
        if bytes.is_empty() {
            return Ok(0);
        }
        match self.link.try_send(bytes) {
            TrySent::Took(count) => Ok(count),
            TrySent::Later => Err(ErrorKind::WouldBlock.into()),
            TrySent::Failed => Err(ErrorKind::BrokenPipe.into()),
        }
    }

    fn flush(&mut self) -> io::Result<()> {
        Ok(())
    }
}

/// A peer, with what was received of it and what is to be sent.
#[derive(Drop)]
pub(crate) struct Peer {
    pub(crate) stream: Stream,
    connection: Connection,
    pub(crate) number: u32,
    since: Instant,
    pub(crate) is_over: bool,
}

/// Whether the peer only has to be waited for.
fn waits(error: &io::Error) -> bool {
    matches!(error.kind(), ErrorKind::WouldBlock | ErrorKind::Interrupted)
}

impl Peer {
    /// A peer that came now.
    pub(crate) fn start(
        link: RealLink,
        connection: Connection,
        number: u32,
        since: Instant,
    ) -> Peer {
        Peer {
            stream: Stream { link },
            connection,
            number,
            since,
            is_over: false,
        }
    }

    /// Moves bytes and answers until the peer has to be waited for. False where it is over.
    fn pump(&mut self, pages: &mut Pages) -> io::Result<bool> {
        for _ in 0..STEPS {
            self.connection.advance(pages);
            if self.connection.wants_write() {
                if self.connection.write_to(&mut self.stream)? == 0 {
                    return Ok(false);
                }
            } else if self.connection.wants_read() {
                self.connection.read_from(&mut self.stream)?;
            } else {
                return Ok(false);
            }
        }
        Ok(true)
    }

    /// Whether its time is over.
    fn is_late(&self, now: Instant) -> bool {
        match self
            .since
            .checked_add(Duration::from_secs(PATIENCE_SECONDS))
        {
            Some(end) => end < now,
            None => false,
        }
    }

    /// Goes on with it, and notes whether it is over.
    pub(crate) fn step(&mut self, pages: &mut Pages, now: Instant) {
        let goes_on = match self.pump(pages) {
            Ok(goes_on) => goes_on,
            Err(error) => waits(&error),
        };
        self.is_over = !goes_on || self.is_late(now);
    }
}
