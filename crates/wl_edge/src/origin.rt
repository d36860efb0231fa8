//! Where links come from.

ghost use Rattle.std.specs.Prelude.{◌≡◌, [], None, Some, IfOk};

use std::alloc::Global;
use wl_octets::{Memory, Shared};
use wl_selector::{Selectors, SelectorsFault};

/// Where a link came from. It stays the same for the life of the link.
#[derive(Drop, PartialEq)]
pub struct Origin {
    /// The selectors of the socket, which are fixed when it is bound.
    pub selectors: Shared<Selectors>,
    /// The number of the socket, from 0.
    pub socket: u32,
    /// The uid of the peer, where the kernel names it.
    pub uid: Option<u32>,
}

/// The empty set.
fn no_selectors(alloc: Global) -> Result<Selectors, Memory>
    ensures { IfOk result (λ s. s ≡ []) }
{
    match Selectors::from_list(alloc, Vec::new(alloc), 0) {
        Ok(none) => Ok(none),
        Err(SelectorsFault::TooMany(_)) => unreachable!(),
        Err(SelectorsFault::Memory) => Err(Memory),
    }
}

impl Origin {
    /// The origin of what comes over the socket of this number, from a peer of this uid where there is one.
    pub fn new(
        alloc: Global,
        selectors: Selectors,
        socket: u32,
        uid: Option<u32>,
    ) -> Result<Origin, Memory>
        ensures { IfOk result (λ o. o ≡ record { selectors = selectors; socket = socket; uid = uid }) }
    {
        match Shared::new(alloc, selectors) {
            Ok(selectors) => Ok(Origin {
                selectors,
                socket,
                uid,
            }),
            Err((_, Memory)) => Err(Memory),
        }
    }

    /// The origin of a link that came over none of our sockets, as one that we dialed: no selectors, socket 0, no uid.
    pub fn nowhere(alloc: Global) -> Result<Origin, Memory>
        ensures { IfOk result (λ o. o ≡ record { selectors = []; socket = 0; uid = None }) }
    {
        Origin::new(alloc, no_selectors(alloc)?, 0, None)
    }

    /// The same origin. The selectors are shared, not copied.
    pub fn share(&self) -> Result<Origin, Memory>
        ensures { IfOk result (λ o. o ≡ self.now) }
    {
        Ok(Origin {
            selectors: self.selectors.share()?,
            socket: self.socket,
            uid: self.uid,
        })
    }
}
