//! What a call of the outside answers where it has no value to give.

ghost use Rattle.std.specs.Prelude.{◌≡◌};

use wl_octets::Memory;

/// Why a call of the outside gave no value.
#[derive(Clone, Copy, Debug, Drop, PartialEq, Eq)]
pub enum EdgeFault {
    /// The call failed, and the count of faults of what was called rose.
    Failed,
    /// Memory ran out. What was called does not tell of the call.
    Memory,
}

impl From<Memory> for EdgeFault {
    ghost use Rattle.wl_edge.specs.declared.fault.EdgeFault.{EdgeFault};

    ghost from_gives = { λ given fault. fault ≡ EdgeFault.Memory };

    fn from(_: Memory) -> EdgeFault {
        EdgeFault::Memory
    }
}

impl<T: Drop> From<(T, Memory)> for EdgeFault {
    ghost use Rattle.wl_edge.specs.declared.fault.EdgeFault.{EdgeFault};

    ghost from_gives = { λ given fault. fault ≡ EdgeFault.Memory };

    fn from(_: (T, Memory)) -> EdgeFault {
        EdgeFault::Memory
    }
}
