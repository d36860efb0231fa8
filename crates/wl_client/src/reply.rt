//! What a client hears.

use wl_octets::Octets;

/// One part of a server's answer.
#[derive(Drop, PartialEq)]
pub enum Heard {
    /// The head: the server has taken the call.
    Head,
    /// A message, without its prefix.
    Message(Octets),
    /// The end: the status of gRPC, and the value of the first `grpc-message` as it came, still percent-encoded, or
    /// nothing.
    Status { code: u32, text: Octets },
}
