//! What is wrong with a body.

use wl_octets::Memory;

/// Why no more messages are cut. The first such cause in a body is its last.
#[derive(Clone, Copy, Debug, PartialEq, Eq)]
pub enum MessageFault {
    /// A message's first byte, which isn't 0: the message is compressed, or this isn't gRPC.
    Flag(u8),
    /// A message of this many bytes, above the limit.
    TooLong(u32),
    /// Memory ran out.
    Memory,
}

impl From<Memory> for MessageFault {
    ghost use Rattle.std.specs.Prelude.{◌≡◌};
    ghost use Rattle.grpc_wire.specs.declared.fault.MessageFault.{MessageFault};

    ghost from_gives = { λ given fault. fault ≡ MessageFault.Memory };

    fn from(_memory: Memory) -> MessageFault {
        MessageFault::Memory
    }
}
