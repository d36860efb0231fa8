//! The exit statuses of the program.

/// All that was asked for was written.
pub const DONE: u8 = 0;
/// The words fit no command.
pub const USAGE: u8 = 2;
/// The document or the script has a fault.
pub const DOCUMENT_FAULT: u8 = 3;
/// The caller is entitled to nothing.
pub const DENIED: u8 = 4;
/// An entry to which the caller is entitled has no SVID.
pub const NO_SVID: u8 = 5;
/// A read failed.
pub const READ_FAILED: u8 = 6;
/// A write failed.
pub const WRITE_FAILED: u8 = 7;
/// Memory ran out.
pub const OUT_OF_MEMORY: u8 = 8;
/// No first document could be had.
pub const NO_DOCUMENT: u8 = 9;
/// A listener, what watches its links, or the host failed.
pub const HOST_FAILED: u8 = 10;
/// The message is longer than a response may be.
pub const TOO_LONG: u8 = 11;
