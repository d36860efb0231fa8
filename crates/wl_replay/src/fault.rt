//! What can be wrong with a script.

ghost use Rattle.std.specs.Prelude.{◌≡◌};
ghost use Rattle.wl_replay.specs.declared.fault.ScriptFault.TheVariants.{Memory};

use std::alloc::{AllocError, AllocFailed};

/// The first fault of a script. The lines are numbered from 1.
#[derive(Clone, Copy, Debug, PartialEq, Eq)]
pub enum ScriptFault {
    /// The line has the wrong words, or stands where it may not; or the script ends before this line, without an event.
    Line(usize),
    /// The line's first word names no event.
    Kind(usize),
    /// A word of the line has to be a connection, and is none.
    Conn(usize),
    /// A word of the line has to be hexadecimal, and is not.
    Hex(usize),
    /// The script has so many bytes, more than its limit.
    TooLong(usize),
    /// Memory ran out.
    Memory,
}

impl From<wl_octets::Memory> for ScriptFault {
    ghost from_gives = { λ _ e. e ≡ Memory };

    fn from(_: wl_octets::Memory) -> ScriptFault {
        ScriptFault::Memory
    }
}

impl From<AllocError> for ScriptFault {
    ghost from_gives = { λ _ e. e ≡ Memory };

    fn from(_: AllocError) -> ScriptFault {
        ScriptFault::Memory
    }
}

impl<T: Drop> From<AllocFailed<T>> for ScriptFault {
    ghost from_gives = { λ _ e. e ≡ Memory };

    fn from(_: AllocFailed<T>) -> ScriptFault {
        ScriptFault::Memory
    }
}

impl<T: Drop> From<(T, wl_octets::Memory)> for ScriptFault {
    ghost from_gives = { λ _ e. e ≡ Memory };

    fn from(_: (T, wl_octets::Memory)) -> ScriptFault {
        ScriptFault::Memory
    }
}
