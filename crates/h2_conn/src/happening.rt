//! What a frame told.

use wl_octets::{Header, Octets, Row};

/// What a connection tells of its streams.
#[derive(Drop, PartialEq)]
pub enum Happening {
    /// A request began on a new stream, which is live from now on; `ended` says that nothing
    /// follows its head.
    Head {
        stream: u32,
        headers: Row<Header>,
        ended: bool,
    },
    /// Bytes of a request's body; `ended` says that they are its last.
    Body {
        stream: u32,
        bytes: Octets,
        ended: bool,
    },
    /// A request ended by its trailers.
    End {
        stream: u32,
    },
    /// A stream was reset, by the peer or for its frames, and is live no more.
    Gone {
        stream: u32,
    },
}
