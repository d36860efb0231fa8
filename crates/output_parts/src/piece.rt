//! Frames that lend their payload.

ghost use Rattle.std.specs.Prelude.{◌≡◌, ◌+◌, ◌<◌, ◌^◌, ◌-◌, length, take, drop, min};
ghost use Rattle.output_parts.specs.Outputs.{piece_bytes};

use wl_octets::{Octets, Shared};

/// How many bytes the head of a frame has (RFC 9113, section 4.1).
pub const HEAD_LENGTH: usize = 9;

/// Bytes of its own, and after them a frame, whose payload is a part of a message that others share.
#[derive(Drop)]
pub struct Piece {
    pub own: Octets,
    pub head: [u8; 9],
    pub message: Shared<Octets>,
    /// Where the payload begins in the message.
    pub from: usize,
    /// How many bytes it has, as far as the message has them.
    pub count: usize,
}

impl Piece {
    /// The payload of the frame.
    pub fn payload(&self) -> &[u8]
        ensures { result.now ≡ take self.now.count (drop self.now.from self.now.message) }
    {
        let message = self.message.part().as_slice();
        let (_, rest) = message.split_at(self.from.min(message.len()));
        rest.split_at(self.count.min(rest.len())).0
    }

    /// How many bytes it has, as far as a number holds them.
    pub fn len(&self) -> usize
        ensures { result ≡ min (length (piece_bytes self.now)) (2 ^ 64 - 1) }
    {
        self.own
            .len()
            .saturating_add(HEAD_LENGTH)
            .saturating_add(self.payload().len())
    }
}
