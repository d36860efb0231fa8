//! What can be wrong with a configuration.

ghost use Rattle.std.specs.Prelude.{◌≡◌};
ghost use Rattle.wl_config.specs.declared.fault.ConfigFault.TheVariants.{Memory};

use std::alloc::AllocFailed;
use wl_document::Place;

/// The first check that a configuration fails. A place has part 0 for the top and part 4 for a socket.
#[derive(Clone, Copy, Debug, PartialEq, Eq)]
pub enum ConfigFault {
    /// It isn't JSON.
    NotJson,
    /// Its version is a whole number other than 1.
    Version,
    /// A member that has to be there is not.
    Missing(Place),
    /// A member is of another kind, its number is out of its range, or its array has no item.
    Kind(Place),
    /// A path is empty.
    EmptyText(Place),
    /// A text isn't a valid selector.
    Selector(Place),
    /// An array has so many items, or the sockets up to here have so many workers, more than the limit.
    TooMany(Place, usize),
    /// A socket before has the same path, or the same address.
    Duplicate(Place),
    /// The configuration has so many bytes, more than its limit.
    TooLong(usize),
    /// Memory ran out.
    Memory,
}

impl From<wl_octets::Memory> for ConfigFault {
    ghost from_gives = { λ _ e. e ≡ Memory };

    fn from(_: wl_octets::Memory) -> ConfigFault {
        ConfigFault::Memory
    }
}

impl<T: Drop> From<AllocFailed<T>> for ConfigFault {
    ghost from_gives = { λ _ e. e ≡ Memory };

    fn from(_: AllocFailed<T>) -> ConfigFault {
        ConfigFault::Memory
    }
}
