//! Which sockets have callers, and what these may wait for.

use figures::{NumberedSocket, SocketTable};
use std::alloc::Global;
use wl_octets::Memory;
use wl_selector::Selectors;

/// The sockets that there are, by number, with what each of their callers has. Threads may share them.
#[derive(Drop)]
pub struct Callers {
    sockets: SocketTable<Selectors>,
}

/// Whether a connection of this socket is open whose caller has all these selectors.
fn is_entitled(socket: &NumberedSocket<Selectors>, selectors: &Selectors) -> bool {
    let (_, open) = socket.connections();
    open > 0 && selectors.is_subset(socket.item())
}

impl Callers {
    /// No sockets yet.
    pub fn start(alloc: Global) -> Callers {
        Callers {
            sockets: SocketTable::start(alloc),
        }
    }

    /// Adds the socket of this number, whose callers have these selectors. Where others have the sockets for long it fails, as where
    /// memory runs out.
    pub fn add_socket(
        &self,
        alloc: Global,
        number: u32,
        selectors: &Selectors,
    ) -> Result<(), Memory> {
        let selectors = selectors.copy(alloc)?;
        self.sockets.add_as(alloc, number, selectors)
    }

    /// The socket of this number takes no more callers. Those that it has may wait on.
    pub fn remove_socket(&self, number: u32) {
        self.sockets.give_up(number);
    }

    /// A connection of the socket of this number was accepted.
    pub fn note_opened(&self, number: u32) {
        self.sockets.note_opened(number);
    }

    /// A connection of the socket of this number is over.
    pub fn note_closed(&self, number: u32) {
        self.sockets.note_closed(number);
    }

    /// The number of a socket with an open connection, whose callers have all these selectors.
    pub fn entitled_to(&self, selectors: &Selectors) -> Option<u32> {
        let sockets = self.sockets.read()?;
        for socket in sockets.as_slice() {
            if is_entitled(socket, selectors) {
                return Some(socket.number());
            }
        }
        None
    }
}
