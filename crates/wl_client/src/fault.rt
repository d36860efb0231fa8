//! Why a client hears nothing more.

ghost use Rattle.std.specs.Prelude.{◌≡◌};
ghost use Rattle.wl_client.specs.declared.fault.ClientFault.TheVariants.{Memory as OutOfMemory};
ghost use Rattle.wl_client.specs.Faults.{number_of, of_frame, of_header, of_message};

use grpc_wire::MessageFault;
use h2_frame::FrameFault;
use hpack::HpackFault;
use pb_wire::FieldFault;
use wl_octets::Memory;

/// Why a client hears nothing more. The first such cause in the bytes of a server is the last.
#[derive(Clone, Copy, Debug, PartialEq, Eq)]
pub enum ClientFault {
    /// Bytes that aren't frames.
    Frame(FrameFault),
    /// A header block that can't be decoded, or has more than 1,048,576 bytes: then `ListTooLong`.
    Header(HpackFault),
    /// A frame on this stream is not in its place: HEADERS, DATA or CONTINUATION of a stream that was not opened; any
    /// frame within a header block, or CONTINUATION without one; DATA before the head; a later header block that does
    /// not end the stream; HEADERS, DATA or CONTINUATION after its end.
    Order(u32),
    /// The head's `:status` is this number and not 200, or there is not exactly one that is a number below 2^32: then 0.
    HttpStatus(u32),
    /// The stream ends without exactly one `grpc-status`, or with one that isn't a decimal number below 2^32.
    NoStatus,
    /// Bytes that aren't messages.
    Message(MessageFault),
    /// A message that says nothing. It comes from a `decode_` call, and never from a client.
    Undecodable(FieldFault),
    /// The connection ended before what was awaited, within a frame of which so many bytes had come, or between two (0).
    /// It comes from who reads the connection, as the next two do.
    Cut(u64),
    /// More was read than a client may read.
    TooMuch,
    /// Nothing came for too long.
    Idle,
    /// RST_STREAM on the call's stream, with this code.
    Reset(u32),
    /// GOAWAY with this code, which is not 0.
    GoAway(u32),
    /// Memory ran out.
    Memory,
    /// A second message came before the status of a call that has one. It comes from who reads the answer of such a call.
    TooMany,
}

impl ClientFault {
    /// The number of the fault, from 1 to 14 (own rule). It takes no memory.
    pub fn number(&self) -> u8
        ensures { result ≡ number_of self.now }
    {
        match self {
            ClientFault::Frame(_) => 1,
            ClientFault::Header(_) => 2,
            ClientFault::Order(_) => 3,
            ClientFault::HttpStatus(_) => 4,
            ClientFault::NoStatus => 5,
            ClientFault::Message(_) => 6,
            ClientFault::Undecodable(_) => 7,
            ClientFault::Cut(_) => 8,
            ClientFault::TooMuch => 9,
            ClientFault::Idle => 10,
            ClientFault::Reset(_) => 11,
            ClientFault::GoAway(_) => 12,
            ClientFault::Memory => 13,
            ClientFault::TooMany => 14,
        }
    }
}

impl From<Memory> for ClientFault {
    ghost from_gives = { λ _ fault. fault ≡ OutOfMemory };

    fn from(_memory: Memory) -> ClientFault {
        ClientFault::Memory
    }
}

impl<T: Drop> From<(T, Memory)> for ClientFault {
    ghost from_gives = { λ _ fault. fault ≡ OutOfMemory };

    fn from(_refused: (T, Memory)) -> ClientFault {
        ClientFault::Memory
    }
}

impl From<HpackFault> for ClientFault {
    ghost from_gives = { λ given fault. fault ≡ of_header given };

    fn from(fault: HpackFault) -> ClientFault {
        match fault {
            HpackFault::Memory => ClientFault::Memory,
            _ => ClientFault::Header(fault),
        }
    }
}
