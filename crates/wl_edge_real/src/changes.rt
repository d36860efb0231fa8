//! Changes of a listener's sockets while it runs.

use crate::arrivals::Arrivals;
use crate::binding::PathListener;
use crate::doors::Door;
use crate::loopback::{Loopback, LoopbackListener};
use std::alloc::{AllocFailed, Global};
use std::collections::VecDeque;
use std::os::unix::net::UnixListener;
use std::sync::atomic::{AtomicBool, Ordering};
use std::sync::{Arc, Mutex, MutexGuard};
use std::thread;
use wl_edge::Origin;
use wl_octets::Memory;

/// How many changes may wait. An agent has 4,096 sockets at most, and each may be closed and another added.
pub(crate) const MOST_WAITING: usize = 8_192;

/// How often one who finds the lock held tries again. It is held for a few instructions.
const TRIES: u32 = 1_000;

/// A socket at which a listener is to listen.
#[derive(Drop)]
pub(crate) struct Added {
    pub(crate) door: Door,
    /// Its path, or the text of its address.
    pub(crate) name: String,
    /// From where its links come.
    pub(crate) origin: Origin,
    /// How many of them may be open at once.
    pub(crate) connections: u32,
}

/// A socket, and the number of the one whose place it is to take.
#[derive(Drop)]
pub(crate) struct Replacement {
    pub(crate) number: u32,
    pub(crate) listener: UnixListener,
}

/// A change of a listener's sockets.
#[derive(Drop)]
pub(crate) enum Change {
    Add(Added),
    Replace(Replacement),
    /// The socket of this number is closed, and its links end.
    Close(u32),
}

/// Changes of a listener's sockets that its next accept makes, in their order. Threads may share it, and none of its calls waits. The
/// next wait ends at once; one that has begun ends when its bell rings. A call fails, and what it was given is dropped, where 8,192
/// changes wait already, or memory ran out.
#[derive(Drop)]
pub struct Changes {
    alloc: Global,
    waiting: Mutex<VecDeque<Change>>,
    /// Whether one waits. It is written under the lock.
    are_there: AtomicBool,
    /// Shared with the listener and its watcher.
    arrivals: Arc<Arrivals>,
}

impl Changes {
    /// No change waits.
    pub(crate) fn start(alloc: Global, arrivals: Arc<Arrivals>) -> Changes {
        Changes {
            alloc,
            waiting: Mutex::new(VecDeque::new(alloc)),
            are_there: AtomicBool::new(false),
            arrivals,
        }
    }

    /// The changes that wait. None where others hold the lock for long.
    fn enter(&self) -> Option<MutexGuard<'_, VecDeque<Change>>> {
        for _ in 0..TRIES {
            if let Some(waiting) = self.waiting.try_lock() {
                return Some(waiting);
            }
            thread::yield_now();
        }
        None
    }

    /// Has a change wait.
    fn push(&self, change: Change) -> Result<(), Memory> {
        let Some(mut waiting) = self.enter() else {
            return Err(Memory);
        };
        if waiting.len() >= MOST_WAITING {
            return Err(Memory);
        }
        match waiting.push_back(change) {
            Ok(()) => {
                self.are_there.store(true, Ordering::SeqCst);
                self.arrivals.hurry();
                Ok(())
            }
            Err(AllocFailed { value: _ }) => Err(Memory),
        }
    }

    /// Has the listener listen at one more Unix socket. Its links have this origin, and so many of them may be open at once.
    pub fn add(
        &self,
        socket: PathListener,
        origin: Origin,
        connections: u32,
    ) -> Result<(), Memory> {
        let PathListener { listener, path, .. } = socket;
        self.push(Change::Add(Added {
            door: Door::Unix(listener),
            name: path,
            origin,
            connections,
        }))
    }

    /// Has the listener listen at one more port, which has this name. Its links have this origin, and the uid of their caller. So many
    /// of them may be open at once, and so many of one uid.
    pub fn add_loopback(
        &self,
        socket: LoopbackListener,
        name: String,
        origin: Origin,
        connections: u32,
        connections_per_uid: u32,
    ) -> Result<(), Memory> {
        let loopback = Loopback::start(self.alloc, socket, connections_per_uid);
        self.push(Change::Add(Added {
            door: Door::Tcp(loopback),
            name,
            origin,
            connections,
        }))
    }

    /// Has this socket take the place of the Unix socket of this number, which is closed. Links that came over the other go on, and
    /// the origin and limits of the place stay.
    pub fn replace(&self, number: u32, listener: UnixListener) -> Result<(), Memory> {
        self.push(Change::Replace(Replacement { number, listener }))
    }

    /// Has the socket of this number closed. Nothing more is read of links that came over it, and each ends once nothing of it is unsent.
    pub fn close(&self, number: u32) -> Result<(), Memory> {
        self.push(Change::Close(number))
    }

    /// The change that has waited longest leaves.
    pub(crate) fn take(&self) -> Option<Change> {
        if !self.are_there.load(Ordering::SeqCst) {
            return None;
        }
        let mut waiting = self.enter()?;
        let taken = waiting.pop_front();
        self.are_there.store(!waiting.is_empty(), Ordering::SeqCst);
        taken
    }
}
