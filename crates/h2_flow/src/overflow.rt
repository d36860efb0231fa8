//! A window that would grow too large.

/// A window that would pass 2,147,483,647 bytes (RFC 9113, section 6.9.1): that of a stream,
/// or the connection's, whose number is 0.
#[derive(Clone, Copy, Debug, PartialEq, Eq)]
pub struct Overflow {
    pub stream: u32,
}
