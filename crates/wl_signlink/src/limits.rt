//! The limits of a reply.

/// How many bytes a reply has at most, its newline not counted.
pub const REPLY_LIMIT: usize = 262_144;
/// How many seconds an exchange may take, from connecting to the last byte of the reply's line.
pub const EXCHANGE_SECONDS: u64 = 10;
