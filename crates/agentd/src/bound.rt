//! Sockets that were bound, before peers find them.

ghost use Rattle.std.specs.Prelude.{◌≡◌, IfOk, string_bytes};

use crate::agent_socket::{AgentSocket, SeatHandle};
use crate::agent_sockets::AgentSockets;
use crate::doors::{Door, discard_all};
use std::alloc::Global;
use std::fs::{File, Files};
use std::net::{Net, SocketAddr, TcpListener, TcpStream};
use std::string::String;
use std::sync::Arc;
use wl_config::SocketFact;
use wl_edge_real::{
    BindFault, Changes, Guard, LoopbackListener, MAX_OPEN_LINKS, OpenLinks, PathListener, RealBell,
    Unnamed, bind_loopback, bind_unnamed,
};
use wl_octets::Memory;

/// What the sockets of all seats share, and what was bound for them.
#[derive(Drop)]
pub(crate) struct Bound {
    /// The open links of all seats.
    links: Arc<OpenLinks>,
    /// Files that have no names yet.
    unnamed: Vec<Unnamed>,
    /// The sockets, in the order in which they were bound.
    sockets: Vec<AgentSocket>,
    /// The seats that were made.
    seats: Vec<SeatHandle>,
    pages: Option<Door>,
}

impl Bound {
    /// Nothing was bound yet.
    pub(crate) fn start(alloc: Global) -> Result<Bound, Memory> {
        let Ok(links) = OpenLinks::share(alloc, MAX_OPEN_LINKS) else {
            return Err(Memory);
        };
        Ok(Bound {
            links,
            unnamed: Vec::new(alloc),
            sockets: Vec::new(alloc),
            seats: Vec::new(alloc),
            pages: None,
        })
    }

    /// The open links of all seats.
    pub(crate) fn links(&self) -> &Arc<OpenLinks> {
        &self.links
    }

    /// Binds the socket of this number and path, which peers don't find yet.
    pub(crate) fn bind<R: Files + Net>(
        &mut self,
        rt: &R,
        alloc: Global,
        number: u32,
        fact: &SocketFact,
        path: &str,
        guard: Guard,
    ) -> Result<PathListener, BindFault>
        ensures { IfOk result (λ s. string_bytes s.path ≡ path.now) }
    {
        if self.unnamed.reserve(1).is_err() || self.sockets.reserve(1).is_err() {
            return Err(BindFault::Memory);
        }
        let (Ok(text), Ok(fact)) = (String::from_str(alloc, path), fact.copy(alloc)) else {
            return Err(BindFault::Memory);
        };
        let (socket, unnamed) = bind_unnamed(rt, alloc, path, guard, self.unnamed.as_slice())?;
        let door = Door::new(text, socket.file);
        // There is room for both.
        let _ = self.unnamed.push(unnamed);
        let _ = self
            .sockets
            .push(AgentSocket::bound(number, fact, Some(door)));
        Ok(socket)
    }

    /// Binds the port of this number and address.
    pub(crate) fn bind_port<
        R: Files<File = File> + Net<Listener = TcpListener, Stream = TcpStream>,
    >(
        &mut self,
        rt: &R,
        alloc: Global,
        number: u32,
        fact: &SocketFact,
        address: SocketAddr,
    ) -> Result<LoopbackListener, BindFault> {
        let Ok(fact) = fact.copy(alloc) else {
            return Err(BindFault::Memory);
        };
        if self.sockets.reserve(1).is_err() {
            return Err(BindFault::Memory);
        }
        let port = bind_loopback(rt, alloc, address)?;
        // There is room for it.
        let _ = self.sockets.push(AgentSocket::bound(number, fact, None));
        Ok(port)
    }

    /// Keeps a seat, which this bell wakes, and whose listener takes these changes.
    pub(crate) fn keep_seat(
        &mut self,
        changes: Arc<Changes>,
        bell: Arc<RealBell>,
    ) -> Result<(), Memory> {
        self.seats
            .push(SeatHandle::new(changes, bell))
            .map_err(|_| Memory)
    }

    /// Keeps the door of the pages.
    pub(crate) fn keep_pages(&mut self, door: Door) {
        self.pages = Some(door);
    }

    /// Removes the files of all that was bound.
    pub(crate) fn discard(self, rt: &impl Files) {
        discard_all(rt, self.unnamed);
        if let Some(pages) = &self.pages {
            pages.remove(rt);
        }
    }

    /// The sockets, for several owners, and the files that have no names yet.
    pub(crate) fn part(self, alloc: Global) -> (Result<Arc<AgentSockets>, Memory>, Vec<Unnamed>) {
        let sockets = AgentSockets::share(alloc, self.sockets, self.seats, self.pages);
        (sockets, self.unnamed)
    }
}
