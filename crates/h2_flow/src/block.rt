//! Header blocks that fit one frame.

ghost use Rattle.std.specs.Prelude.{◌≡◌, ◌≤◌, List, ℕ, length};
ghost use Rattle.h2_wire.specs.declared.limit.TheConstants.{MAX_BLOCK_LEN};

use std::marker::Model;
use wl_octets::Octets;

/// A header block of at most 16,383 bytes, so that it fits one frame after the byte of a
/// size update.
#[derive(Drop)]
pub struct Block {
    bytes: Octets,
}

impl Model for Block {
    ghost Value = { List ℕ };

    ghost view = { λ b. b.bytes };

    ghost invariant = { λ b. length b.bytes ≤ MAX_BLOCK_LEN };
}

impl Block {
    pub fn new(bytes: Octets) -> Block
        requires { length bytes ≤ MAX_BLOCK_LEN }
        ensures { result ≡ bytes }
    {
        Block { bytes }
    }

    pub fn as_slice(&self) -> &[u8]
        ensures value { result.now ≡ self.now }
        ensures small { length self.now ≤ MAX_BLOCK_LEN }
    {
        self.bytes.as_slice()
    }
}
