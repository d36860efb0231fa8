//! Why a header block is refused.
#![tactic(auto)]

ghost use Rattle.std.specs.Prelude.{◌≡◌};
ghost use Rattle.hpack.specs.declared.fault.HpackFault.TheVariants.{Memory};

use std::alloc::{AllocError, AllocFailed};
use wl_octets::Memory;

/// Why a header block is refused, by its leftmost representation that is wrong.
#[derive(Clone, Copy, Debug, PartialEq, Eq)]
pub enum HpackFault {
    /// An index is 0 in an indexed representation, or above the last item of the tables.
    Index,
    /// An integer is above 4,294,967,295, or takes more than five bytes after its prefix.
    Integer,
    /// The block ends within a representation.
    Truncated,
    /// A Huffman text isn't the code words of its symbols and fewer than eight one bits.
    Padding,
    /// A size update is above 4,096, or follows a header in its block.
    SizeUpdate,
    /// The sizes of the block's headers sum to more than 16,384.
    ListTooLong,
    /// Memory ran out.
    Memory,
}

impl From<Memory> for HpackFault {
    ghost from_gives = { λ _ fault. fault ≡ Memory };

    fn from(_memory: Memory) -> HpackFault {
        HpackFault::Memory
    }
}

impl From<AllocError> for HpackFault {
    ghost from_gives = { λ _ fault. fault ≡ Memory };

    fn from(_error: AllocError) -> HpackFault {
        HpackFault::Memory
    }
}

impl<T: Drop> From<AllocFailed<T>> for HpackFault {
    ghost from_gives = { λ _ fault. fault ≡ Memory };

    fn from(_failed: AllocFailed<T>) -> HpackFault {
        HpackFault::Memory
    }
}

impl<T: Drop> From<(T, Memory)> for HpackFault {
    ghost from_gives = { λ _ fault. fault ≡ Memory };

    fn from(_refused: (T, Memory)) -> HpackFault {
        HpackFault::Memory
    }
}
