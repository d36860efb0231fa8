//! What a call learns.

ghost use Rattle.std.specs.Prelude.{◌≡◌};
ghost use Rattle.grpc_conn.specs.Verdicts.{is_decided_event};

use crate::request::Request;
use grpc_wire::{Method, Refusal};
use wl_octets::Octets;

/// What the bytes of a call came to.
#[derive(Drop, PartialEq)]
pub enum CallEvent {
    /// Nothing, or nothing new.
    Nothing,
    /// The head is malformed: the stream is to be reset with code 1 (RFC 9113, section 8.1.1).
    Malformed,
    /// The call is to end so.
    Refuse(Refusal),
    /// The request is whole: its method, its message, and what the message says.
    Ready {
        method: Method,
        message: Octets,
        request: Request,
    },
}

impl CallEvent {
    /// Whether it is a verdict.
    pub fn is_decided(&self) -> bool
        ensures { result ≡ is_decided_event self.now }
    {
        !matches!(self, CallEvent::Nothing)
    }
}
