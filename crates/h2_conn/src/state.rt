//! The state of a connection that has not failed.

use crate::streams::Streams;
use h2_flow::Outbox;
use hpack::Decoder;
use wl_octets::Octets;

/// A header block whose END_HEADERS has not come (RFC 9113, section 4.3).
#[derive(Drop)]
pub struct OpenBlock {
    pub stream: u32,
    /// END_STREAM of its HEADERS.
    pub ended: bool,
    pub bytes: Octets,
    /// How many CONTINUATION frames it has.
    pub continuations: u32,
}

/// A connection that has not failed.
#[derive(Drop)]
pub struct State {
    /// Whether the peer's first SETTINGS came.
    pub settings_received: bool,
    /// Whether the peer sent GOAWAY.
    pub goaway_received: bool,
    /// The largest stream whose head block was whole, 0 before any.
    pub last_stream_id: u32,
    pub streams: Streams,
    pub open_block: Option<OpenBlock>,
    /// SETTINGS frames since the last HEADERS, or DATA with bytes, or the start.
    pub settings_count: u32,
    /// DATA frames without bytes and without END_STREAM since the same.
    pub empty_data_count: u32,
    /// RST_STREAM frames on live streams on which no frame was written, since the last message
    /// began, or END_STREAM was written, or the start.
    pub rapid_reset_count: u32,
    pub decoder: Decoder,
    pub outbox: Outbox,
}
