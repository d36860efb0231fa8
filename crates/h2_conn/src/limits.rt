//! How much a peer may ask of a connection (own rules, within RFC 9113, section 10.5).

/// How many bytes a header block may have.
pub const MAX_BLOCK_SIZE: usize = 16_384;
/// How many CONTINUATION frames a header block may have.
pub const MAX_CONTINUATIONS: u32 = 64;
/// How many SETTINGS may come in a row.
pub const MAX_SETTINGS: u32 = 100;
/// How many DATA frames without bytes may come in a row.
pub const MAX_EMPTY_DATA: u32 = 100;
/// How many streams may be reset in a row before anything was written on them.
pub const MAX_RAPID_RESETS: u32 = 10_000;
