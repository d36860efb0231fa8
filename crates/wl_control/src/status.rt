//! The statuses of the client program (own rule).

/// The messages that were asked for were had and written.
pub const DONE: u8 = 0;

/// The words fit nothing.
pub const USAGE: u8 = 2;

/// A receive failed.
pub const READ_FAILED: u8 = 6;

/// A sending or a write failed.
pub const WRITE_FAILED: u8 = 7;

/// Memory ran out.
pub const OUT_OF_MEMORY: u8 = 8;

/// The server answered another status than was awaited.
pub const DENIED: u8 = 12;

/// The server's bytes have a fault.
pub const CLIENT_FAULT: u8 = 13;
