//! The sockets of a listener themselves.

ghost use Rattle.std.specs.Prelude.{◌≡◌, IfOk};
ghost use Rattle.wl_edge_real.specs.Places.{socket_of};

use crate::loopback::Loopback;
use crate::missed::Missed;
use crate::open_links::Counted;
use crate::stream::Stream;
use std::io;
use std::os::fd::{AsRawFd, RawFd};
use std::os::unix::net::UnixListener;
use wl_edge::Origin;

/// Who came over a socket.
#[derive(Drop)]
pub(crate) struct Caller {
    pub(crate) stream: Stream,
    pub(crate) origin: Origin,
    /// Among the links of its uid, where the kernel names that.
    pub(crate) of_uid: Option<Counted>,
}

/// A socket of a listener.
#[derive(Drop)]
pub(crate) enum Door {
    Unix(UnixListener),
    Tcp(Loopback),
}

impl Door {
    /// Has its calls wait, or not.
    pub(crate) fn set_nonblocking(&self, nonblocking: bool) -> io::Result<()> {
        match self {
            Door::Unix(listener) => listener.set_nonblocking(nonblocking),
            Door::Tcp(loopback) => loopback.set_nonblocking(nonblocking),
        }
    }

    /// The socket.
    pub(crate) fn descriptor(&self) -> RawFd {
        match self {
            Door::Unix(listener) => listener.as_raw_fd(),
            Door::Tcp(loopback) => loopback.descriptor(),
        }
    }

    /// Closes the next caller, of whom nothing is asked.
    pub(crate) fn turn_away(&self) -> Result<(), Missed> {
        match self {
            Door::Unix(listener) => {
                let _ = listener.accept()?;
                Ok(())
            }
            Door::Tcp(loopback) => loopback.turn_away(),
        }
    }

    /// The next caller. Its origin is this one, with its uid where the kernel names that.
    pub(crate) fn accept(&mut self, origin: Origin) -> Result<Caller, Missed>
        ensures { IfOk result (λ c. socket_of c.origin ≡ socket_of origin) }
    {
        match self {
            Door::Unix(listener) => {
                let (stream, _) = listener.accept()?;
                Ok(Caller {
                    stream: Stream::Unix(stream),
                    origin,
                    of_uid: None,
                })
            }
            Door::Tcp(loopback) => loopback.accept(origin),
        }
    }
}
