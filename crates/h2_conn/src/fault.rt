//! Why a connection fails.

ghost use Rattle.std.specs.Prelude.{◌≡◌};
ghost use Rattle.h2_conn.specs.Faults.{code_of, hpack_code};

use h2_wire::{error_code, setting};
use hpack::HpackFault;
use wl_octets::Memory;

/// Why a connection fails, by what its peer did (RFC 9113, section 5.4.1).
#[derive(Clone, Copy, Debug, PartialEq, Eq)]
pub enum ConnCause {
    /// The preface is wrong at this byte, counted from 0.
    Preface(usize),
    /// A payload of this many bytes, above 16,384.
    TooLarge(u32),
    /// A type of frame and a payload's length in bytes, which that type can't have.
    WrongLength(u8, u32),
    /// Padding that is longer than what it pads.
    BadPadding,
    /// The first frame isn't SETTINGS.
    FirstFrame,
    /// Another frame stands between those of a header block.
    BlockOpen,
    /// CONTINUATION, where no header block is unfinished.
    NoBlock,
    /// A frame of a stream on the connection, or the other way round.
    StreamZero,
    /// PUSH_PROMISE, which a client doesn't send.
    Push,
    /// A step of 0 on the connection's window.
    ZeroStep,
    /// A window would pass 2,147,483,647 bytes.
    Overflow,
    /// A frame on a stream that was never opened.
    Idle,
    /// A head on a stream of even number, which a client doesn't open.
    EvenStream,
    /// A header block of more than 16,384 bytes.
    BlockTooLong,
    /// A header block that can't be decoded.
    Hpack(HpackFault),
    /// A setting with a value that it can't have, by its identifier.
    Setting(u16),
    /// A type of frame of which so many came that they are a flood.
    Flood(u8, u32),
}

impl ConnCause {
    /// The error code of the GOAWAY that tells it (RFC 9113, section 7).
    pub fn code(self) -> u32
        ensures { result ≡ code_of self }
    {
        match self {
            ConnCause::TooLarge(_) | ConnCause::WrongLength(_, _) => error_code::FRAME_SIZE_ERROR,
            ConnCause::Overflow | ConnCause::Setting(setting::INITIAL_WINDOW_SIZE) => {
                error_code::FLOW_CONTROL_ERROR
            }
            ConnCause::BlockTooLong | ConnCause::Flood(_, _) => error_code::ENHANCE_YOUR_CALM,
            ConnCause::Hpack(fault) => hpack_code(fault),
            _ => error_code::PROTOCOL_ERROR,
        }
    }
}

/// The error code of a header block that can't be decoded.
fn hpack_code(fault: HpackFault) -> u32
    ensures { result ≡ hpack_code fault }
{
    match fault {
        HpackFault::ListTooLong => error_code::ENHANCE_YOUR_CALM,
        _ => error_code::COMPRESSION_ERROR,
    }
}

/// The failure of a connection: the error code (RFC 9113, section 7) and the last stream of its
/// GOAWAY, and the cause.
#[derive(Clone, Copy, Debug, PartialEq, Eq)]
pub struct ConnFault {
    pub code: u32,
    pub last_stream: u32,
    pub cause: ConnCause,
}

/// Why a frame isn't taken.
#[derive(Clone, Copy, Debug, PartialEq, Eq)]
pub enum ConnError {
    /// The connection has failed, with this frame or before it.
    Fault(ConnFault),
    /// Memory ran out.
    Memory,
}

impl From<Memory> for ConnError {
    ghost use Rattle.h2_conn.specs.declared.fault.ConnError.{ConnError};

    ghost from_gives = { λ given error. error ≡ ConnError.Memory };

    fn from(_memory: Memory) -> ConnError {
        ConnError::Memory
    }
}
