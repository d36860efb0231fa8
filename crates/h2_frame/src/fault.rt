//! What is wrong with a stream of frames.

ghost use Rattle.std.specs.Prelude.{◌≡◌};

use wl_octets::Memory;

/// Why no more frames are read. The first such cause on a stream is its last.
#[derive(Clone, Copy, Debug, PartialEq, Eq)]
pub enum FrameFault {
    /// The stream doesn't begin with the connection preface (RFC 9113, section 3.4): its
    /// first wrong byte, counted from 0.
    BadPreface(usize),
    /// A payload of this many bytes, above 16,384 (RFC 9113, section 4.2).
    TooLarge(u32),
    /// A type of frame and a length of payload, in bytes, which that type can't have
    /// (RFC 9113, section 6).
    WrongLength(u8, u32),
    /// Padding that is longer than what it pads (sections 6.1 and 6.2).
    BadPadding,
    /// Memory ran out.
    Memory,
}

impl From<Memory> for FrameFault {
    ghost use Rattle.h2_frame.specs.declared.fault.FrameFault.{FrameFault};

    ghost from_gives = { λ given fault. fault ≡ FrameFault.Memory };

    fn from(_memory: Memory) -> FrameFault {
        FrameFault::Memory
    }
}
