//! What is kept of a call.

use grpc_wire::Method;
use wl_octets::Octets;

/// A call's stream, and how far its request has come.
#[derive(Drop)]
pub struct Call {
    pub stream: u32,
    pub standing: Standing,
}

/// How far a request has come.
#[derive(Drop)]
pub enum Standing {
    /// These bytes of its body have come, and don't decide it.
    Waiting { method: Method, body: Octets },
    /// It was decided, and what follows changes nothing.
    Decided,
}
