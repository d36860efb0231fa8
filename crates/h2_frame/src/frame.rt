//! A frame, by its type (RFC 9113, section 6).

use wl_octets::{Octets, Row};

/// A frame on a stream, whose number is below 2^31; stream 0 is the connection.
#[derive(Drop, PartialEq)]
pub struct Frame {
    pub stream: u32,
    pub body: Body,
}

/// What a frame says, without padding and priority fields.
#[derive(Drop, PartialEq)]
pub enum Body {
    /// DATA (section 6.1). `size` is the length of the whole payload in bytes, the padding
    /// and its length byte too, which is what windows count; `ended` is END_STREAM.
    Bytes {
        bytes: Octets,
        size: u32,
        ended: bool,
    },
    /// HEADERS (section 6.2): a prefix of a header block, `ended` by END_STREAM, the block
    /// `whole` by END_HEADERS.
    Headers {
        block: Octets,
        ended: bool,
        whole: bool,
    },
    /// PRIORITY (section 6.3), whose fields are dropped.
    Priority,
    /// RST_STREAM (section 6.4).
    Reset {
        code: u32,
    },
    /// SETTINGS without ACK (section 6.5).
    Settings {
        pairs: Row<Setting>,
    },
    /// SETTINGS with ACK.
    SettingsAck,
    /// PUSH_PROMISE (section 6.6), whose payload is dropped.
    PushPromise,
    /// PING (section 6.7): its eight bytes as one big-endian number.
    Ping {
        ack: bool,
        word: u64,
    },
    /// GOAWAY (section 6.8): the last stream, below 2^31, and the code. Its text is dropped.
    GoAway {
        last: u32,
        code: u32,
    },
    /// WINDOW_UPDATE (section 6.9): a step below 2^31.
    WindowUpdate {
        step: u32,
    },
    /// CONTINUATION (section 6.10): more of a header block, `whole` by END_HEADERS.
    Continuation {
        block: Octets,
        whole: bool,
    },
    /// A type of no known meaning, whose payload is dropped (section 5.5).
    Unknown {
        kind: u8,
    },
}

/// One pair of SETTINGS.
#[derive(Clone, Copy, Debug, PartialEq, Eq)]
pub struct Setting {
    pub id: u16,
    pub value: u32,
}
