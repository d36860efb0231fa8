//! A socket of the agent.

use crate::doors::{Door, say_unbound_at, say_unbound_port};
use crate::listening::{guard_of, origin_of, text_of};
use event_log::{Event, PathText};
use log_output::Log;
use std::alloc::Global;
use std::fs::{File, Files};
use std::net::{Net, SocketAddr, TcpListener, TcpStream};
use std::sync::Arc;
use wl_config::{SocketFact, SocketGuard, SocketPlace};
use wl_edge::Bell;
use wl_edge_real::{BindFault, Changes, PathListener, RealBell, bind, bind_loopback};
use wl_octets::{Memory, Octets};

/// For how many seconds nothing more is said of a socket that can't be bound.
const QUIET_SECONDS: u64 = 60;

/// For how many seconds it isn't said that a port can't be bound: another socket of the agent may still have it.
const PORT_SECONDS: u64 = 5;

/// The permission bit by which every user may write to a file: who may write to a socket's may connect.
const ALL_WRITE: u32 = 0o002;

/// What a seat shares with those who change its sockets.
#[derive(Drop)]
pub(crate) struct SeatHandle {
    changes: Arc<Changes>,
    bell: Arc<RealBell>,
}

impl SeatHandle {
    /// A seat whose listener takes these changes, and which this bell wakes.
    pub(crate) fn new(changes: Arc<Changes>, bell: Arc<RealBell>) -> SeatHandle {
        SeatHandle { changes, bell }
    }
}

/// A socket that the configuration names.
#[derive(Drop)]
pub(crate) struct AgentSocket {
    number: u32,
    fact: SocketFact,
    /// The file by which peers find it, once it was bound. A port has none.
    door: Option<Door>,
    /// Whether the listener of its seat has it.
    is_served: bool,
    /// The Unix second from which on it is said again that it can't be bound.
    quiet_until: u64,
}

impl AgentSocket {
    /// A socket that the listener of its seat has, and its file where it is a Unix socket.
    pub(crate) fn bound(number: u32, fact: SocketFact, door: Option<Door>) -> AgentSocket {
        AgentSocket {
            number,
            fact,
            door,
            is_served: true,
            quiet_until: 0,
        }
    }

    /// A socket that is to be bound, from this Unix second on.
    pub(crate) fn unbound(number: u32, fact: SocketFact, now: u64) -> AgentSocket {
        let quiet_until = match &fact.place {
            SocketPlace::Path { .. } => now,
            SocketPlace::Loopback { .. } => now.saturating_add(PORT_SECONDS),
        };
        AgentSocket {
            number,
            fact,
            door: None,
            is_served: false,
            quiet_until,
        }
    }

    /// Its number, which no other socket of this process has or had.
    pub(crate) fn number(&self) -> u32 {
        self.number
    }

    /// What the configuration says of it.
    pub(crate) fn fact(&self) -> &SocketFact {
        &self.fact
    }

    /// Whether peers find it.
    fn stands(&self, rt: &impl Files) -> bool {
        match (&self.fact.place, &self.door) {
            (SocketPlace::Loopback { .. }, _) => self.is_served,
            (SocketPlace::Path { .. }, Some(door)) => door.stands(rt),
            (SocketPlace::Path { .. }, None) => false,
        }
    }

    /// Has the seat's listener take a Unix socket.
    fn hand_on(
        &self,
        alloc: Global,
        seat: &SeatHandle,
        socket: PathListener,
    ) -> Result<(), Memory> {
        if self.is_served {
            let PathListener { listener, .. } = socket;
            return seat.changes.replace(self.number, listener);
        }
        let origin = origin_of(alloc, self.number, &self.fact)?;
        seat.changes.add(socket, origin, self.fact.connections)
    }

    /// Binds the Unix socket of this path. A file whose socket nobody takes is removed.
    fn bind_path<R: Files + Net>(
        &self,
        rt: &R,
        alloc: Global,
        seat: &SeatHandle,
        path: &Octets,
        guard: SocketGuard,
    ) -> Result<Option<Door>, BindFault> {
        let Ok(text) = text_of(alloc, path) else {
            return Err(BindFault::Memory);
        };
        let socket = bind(rt, alloc, text.as_str(), guard_of(guard))?;
        let door = Door::new(text, socket.file);
        match self.hand_on(alloc, seat, socket) {
            Ok(()) => Ok(Some(door)),
            Err(Memory) => {
                door.remove(rt);
                Err(BindFault::Memory)
            }
        }
    }

    /// Binds the port of this address, which this text names.
    fn bind_port<R: Files<File = File> + Net<Listener = TcpListener, Stream = TcpStream>>(
        &self,
        rt: &R,
        alloc: Global,
        seat: &SeatHandle,
        text: &Octets,
        address: SocketAddr,
        connections_per_uid: u32,
    ) -> Result<(), BindFault> {
        let (Ok(name), Ok(origin)) = (
            text_of(alloc, text),
            origin_of(alloc, self.number, &self.fact),
        ) else {
            return Err(BindFault::Memory);
        };
        let port = bind_loopback(rt, alloc, address)?;
        let connections = self.fact.connections;
        seat.changes
            .add_loopback(port, name, origin, connections, connections_per_uid)
            .map_err(|_| BindFault::Memory)
    }

    /// Binds it, and has the seat's listener take it.
    fn bind<R: Files<File = File> + Net<Listener = TcpListener, Stream = TcpStream>>(
        &self,
        rt: &R,
        alloc: Global,
        seat: &SeatHandle,
    ) -> Result<Option<Door>, BindFault> {
        match &self.fact.place {
            SocketPlace::Path { path, guard } => self.bind_path(rt, alloc, seat, path, *guard),
            SocketPlace::Loopback {
                text,
                address,
                connections_per_uid,
            } => {
                self.bind_port(rt, alloc, seat, text, *address, *connections_per_uid)?;
                Ok(None)
            }
        }
    }

    /// Whether its mode lets every user connect.
    fn is_open_to_all(&self) -> bool {
        match &self.fact.place {
            SocketPlace::Path { guard, .. } => guard.mode & ALL_WRITE != 0,
            SocketPlace::Loopback { .. } => false,
        }
    }

    /// Says that every user may connect, where that is so.
    pub(crate) fn say_if_open_to_all(&self, alloc: Global, log: &Log) {
        if !self.is_open_to_all() {
            return;
        }
        if let Ok(path) = PathText::of_configuration(alloc, self.fact.place.name()) {
            log.say(&Event::SocketOpenToAll(self.number, &path));
        }
    }

    /// Says that it was bound: for the first time, or anew.
    fn say_bound(&self, alloc: Global, log: &Log) {
        let Ok(path) = PathText::of_configuration(alloc, self.fact.place.name()) else {
            return;
        };
        if self.is_served {
            log.say(&Event::SocketBoundAnew(&path));
        } else {
            log.say(&Event::SocketAdded(self.number, &path));
            self.say_if_open_to_all(alloc, log);
        }
    }

    /// Says once a minute that it can't be bound.
    fn say_unbound(&mut self, rt: &impl Files, alloc: Global, log: &Log, fault: BindFault) {
        let now = log.now();
        if now < self.quiet_until {
            return;
        }
        self.quiet_until = now.saturating_add(QUIET_SECONDS);
        let Ok(name) = text_of(alloc, self.fact.place.name()) else {
            return;
        };
        let _ = match &self.fact.place {
            SocketPlace::Path { .. } => say_unbound_at(rt, alloc, log, name.as_str(), fault),
            SocketPlace::Loopback { .. } => say_unbound_port(alloc, log, name.as_str(), fault),
        };
    }

    /// Binds it where peers don't find it: it wasn't bound yet, or its file is gone, or another stands there. The log says what came
    /// of it.
    pub(crate) fn mend<R>(&mut self, rt: &R, alloc: Global, log: &Log, seat: &SeatHandle)
    where
        R: Files<File = File> + Net<Listener = TcpListener, Stream = TcpStream>,
    {
        if self.stands(rt) {
            return;
        }
        match self.bind(rt, alloc, seat) {
            Ok(door) => {
                seat.bell.ring();
                self.say_bound(alloc, log);
                self.door = door;
                self.is_served = true;
            }
            Err(fault) => self.say_unbound(rt, alloc, log, fault),
        }
    }

    /// Has the seat's listener close it, and removes its file. Nothing more is read of its connections, which end once they have what is unsent. Out of memory all is
    /// as it was.
    pub(crate) fn close(
        &self,
        rt: &impl Files,
        alloc: Global,
        log: &Log,
        seat: &SeatHandle,
    ) -> Result<(), Memory> {
        let path = PathText::of_configuration(alloc, self.fact.place.name())?;
        if self.is_served {
            seat.changes.close(self.number)?;
        }
        self.remove_file(rt);
        seat.bell.ring();
        log.say(&Event::SocketRemoved(self.number, &path));
        Ok(())
    }

    /// Removes its file, where that is still the agent's own.
    pub(crate) fn remove_file(&self, rt: &impl Files) {
        if let Some(door) = &self.door {
            door.remove(rt);
        }
    }
}
