//! What can be wrong with the bytes of a message.

ghost use Rattle.std.specs.Prelude.{◌≡◌};
ghost use Rattle.pb_wire.specs.declared.fault.FieldFault.TheVariants.{Memory as OutOfMemory, Wire};

use wl_octets::Memory;

/// Why no field is at a place: the place of the tag, the length or the value that is wrong, counted from the start of
/// the bytes (Protocol Buffers encoding, "Message Structure"; that groups are refused is an own rule).
#[derive(Clone, Copy, Debug, PartialEq, Eq)]
pub enum WireFault {
    /// The bytes end before what begins here, or before the end of the content whose length is here.
    Truncated(usize),
    /// A varint has more than ten bytes, or a tenth byte above 1.
    VarintLong(usize),
    /// The wire type is 3, 4, 6 or 7.
    WireKind(usize),
    /// The field's number is 0 or above 536,870,911.
    Number(usize),
}

/// The first fault in the bytes of a message, or running out of memory. A field is judged once it was read whole.
#[derive(Clone, Copy, Debug, PartialEq, Eq)]
pub enum FieldFault {
    /// No field is where one is due.
    Wire(WireFault),
    /// The known field of this number has another wire type than its own.
    FieldKind(u32),
    /// The string in the field of this number is not UTF-8.
    NotUtf8(u32),
    /// The allocator had no room.
    Memory,
}

impl From<WireFault> for FieldFault {
    ghost from_gives = { λ w e. e ≡ Wire w };

    fn from(fault: WireFault) -> FieldFault {
        FieldFault::Wire(fault)
    }
}

impl From<Memory> for FieldFault {
    ghost from_gives = { λ _ e. e ≡ OutOfMemory };

    fn from(_: Memory) -> FieldFault {
        FieldFault::Memory
    }
}

impl<T: Drop> From<(T, Memory)> for FieldFault {
    ghost from_gives = { λ _ e. e ≡ OutOfMemory };

    fn from(_: (T, Memory)) -> FieldFault {
        FieldFault::Memory
    }
}
