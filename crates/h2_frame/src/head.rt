//! The nine bytes before a payload (RFC 9113, section 4.1).

ghost use Rattle.std.specs.Prelude.{◌≡◌, ◌≤◌, length};
ghost use Rattle.h2_frame.specs.Heads.{head_of, front_of, is_wrong_length};

use h2_wire::{flag, frame_type};

/// A payload's length in bytes, the type of frame, its flags and its stream.
#[derive(Clone, Copy)]
pub struct Head {
    pub length: u32,
    pub kind: u8,
    pub flags: u8,
    pub stream: u32,
}

impl Head {
    /// The head that stands at the front. The reserved bit is dropped.
    #[tactic(auto, unfolding(crate::specs::Heads::head_of))]
    pub fn read(bytes: &[u8]) -> Head
        requires { 9 ≤ length bytes.now }
        ensures { result ≡ head_of bytes.now }
    {
        Head {
            length: u32::from_be_bytes([0, bytes[0], bytes[1], bytes[2]]),
            kind: bytes[3],
            flags: bytes[4],
            stream: u32::from_be_bytes([bytes[5], bytes[6], bytes[7], bytes[8]]) % 0x8000_0000,
        }
    }

    /// How many bytes of a payload of DATA or HEADERS stand before its content.
    #[tactic(auto, unfolding(crate::specs::Heads::front_of))]
    pub fn front(self) -> u32
        ensures prefix { result ≡ front_of self }
        ensures small { result ≤ 6 }
    {
        let padding = if self.flags & flag::PADDED != 0 { 1 } else { 0 };
        let priority = if self.kind == frame_type::HEADERS && self.flags & flag::PRIORITY != 0 {
            5
        } else {
            0
        };
        padding + priority
    }

    /// Whether a frame of this type can't have a payload of this length.
    #[tactic(auto, unfolding(crate::specs::Heads::is_wrong_length))]
    pub fn has_wrong_length(self) -> bool
        ensures { result ≡ is_wrong_length self }
    {
        match self.kind {
            frame_type::DATA | frame_type::HEADERS => self.length < self.front(),
            frame_type::PRIORITY => self.length != 5,
            frame_type::RST_STREAM | frame_type::WINDOW_UPDATE => self.length != 4,
            frame_type::SETTINGS => {
                if self.flags & flag::ACK != 0 {
                    self.length != 0
                } else {
                    self.length % 6 != 0
                }
            }
            frame_type::PING => self.length != 8,
            frame_type::GOAWAY => self.length < 8,
            _ => false,
        }
    }
}
