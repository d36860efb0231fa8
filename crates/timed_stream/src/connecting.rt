//! Connecting without waiting.

use std::io;
use std::net::Net;
use std::os::unix::net::UnixStream;

/// Connects to the Unix socket of this path at once, or not at all: where its backlog is full the fault is `WouldBlock`.
/// The stream blocks from then on.
pub fn connect(net: &impl Net, path: &str) -> io::Result<UnixStream> {
    // `std` makes its socket itself, and its `connect` waits for room; `mio` makes one that doesn't block first.
    let stream = UnixStream::from(mio::net::UnixStream::connect(net, path)?);
    stream.set_nonblocking(false)?;
    Ok(stream)
}
