//! What can be wrong with a selector, and with a list of them.

use std::alloc::{AllocError, AllocFailed};
use wl_octets::Memory;

/// The first fault of a text that is to be a selector: UTF-8 is judged first, then the parts.
#[derive(Clone, Copy, Debug, PartialEq, Eq)]
pub enum SelectorFault {
    /// There is no colon.
    NoColon,
    /// Nothing is before the first colon.
    EmptyKind,
    /// Nothing is after the first colon.
    EmptyValue,
    /// The text isn't UTF-8.
    NotUtf8,
    /// Memory ran out.
    Memory,
}

/// Why a list gives no set.
#[derive(Clone, Copy, Debug, PartialEq, Eq)]
pub enum SelectorsFault {
    /// The list has so many items, more than the limit.
    TooMany(usize),
    /// Memory ran out.
    Memory,
}

impl From<Memory> for SelectorFault {
    ghost use Rattle.std.specs.Prelude.{◌≡◌};
    ghost use Rattle.wl_selector.specs.declared.faults.SelectorFault.TheVariants.{Memory};

    ghost from_gives = { λ _ fault. fault ≡ Memory };

    fn from(_: Memory) -> SelectorFault {
        SelectorFault::Memory
    }
}

impl From<AllocError> for SelectorsFault {
    ghost use Rattle.std.specs.Prelude.{◌≡◌};
    ghost use Rattle.wl_selector.specs.declared.faults.SelectorsFault.TheVariants.{Memory};

    ghost from_gives = { λ _ fault. fault ≡ Memory };

    fn from(_: AllocError) -> SelectorsFault {
        SelectorsFault::Memory
    }
}

impl<T: Drop> From<AllocFailed<T>> for SelectorsFault {
    ghost use Rattle.std.specs.Prelude.{◌≡◌};
    ghost use Rattle.wl_selector.specs.declared.faults.SelectorsFault.TheVariants.{Memory};

    ghost from_gives = { λ _ fault. fault ≡ Memory };

    fn from(_: AllocFailed<T>) -> SelectorsFault {
        SelectorsFault::Memory
    }
}
