//! What is kept of each socket, by its number.

use crate::atomics::{add, read, zero};
use std::alloc::Global;
use std::sync::atomic::{AtomicBool, AtomicU64, Ordering};
use std::sync::{RwLock, RwLockReadGuard, RwLockWriteGuard};
use std::thread;
use wl_octets::Memory;

/// How often a lock is tried before one who notes something gives up.
const TRIES: u32 = 1_000;

/// How often before one who changes which sockets there are does.
const PATIENT_TRIES: u32 = 1_000_000;

/// What is kept of a socket, where it stays while sockets are added.
#[derive(Drop)]
struct Kept<T> {
    accepted: AtomicU64,
    closed: AtomicU64,
    is_given_up: AtomicBool,
    item: T,
}

/// A socket, by its number.
#[derive(Drop)]
pub struct NumberedSocket<T> {
    number: u32,
    kept: Box<Kept<T>>,
}

/// The sockets that there are, by ascending number.
#[derive(Drop)]
pub struct Sockets<T> {
    /// The number of the next.
    next: u32,
    sockets: Vec<NumberedSocket<T>>,
}

/// Sockets that come and go. No number is used twice, and a socket stays until it is given up and its last connection is over.
/// Threads may share it: who notes something takes a lock beside others, and whoever adds a socket or takes one out has it for a few
/// instructions. What can't be noted while another has it for long is lost.
#[derive(Drop)]
pub struct SocketTable<T> {
    sockets: RwLock<Sockets<T>>,
}

impl<T> NumberedSocket<T> {
    /// Its number.
    pub fn number(&self) -> u32 {
        self.number
    }

    /// What else is kept of it.
    pub fn item(&self) -> &T {
        &self.kept.item
    }

    /// How many of its connections were accepted, and how many of these are open. What ended is read before what began.
    pub fn connections(&self) -> (u64, u64) {
        let closed = read(&self.kept.closed);
        let accepted = read(&self.kept.accepted);
        (accepted, accepted.saturating_sub(closed))
    }

    /// Whether it takes no more callers.
    pub fn is_given_up(&self) -> bool {
        self.kept.is_given_up.load(Ordering::SeqCst)
    }

    /// Whether it takes no more callers, and its last connection is over.
    pub fn is_over(&self) -> bool {
        let (_, open) = self.connections();
        open == 0 && self.is_given_up()
    }
}

impl<T: Drop> Sockets<T> {
    /// All of them.
    pub fn as_slice(&self) -> &[NumberedSocket<T>] {
        self.sockets.as_slice()
    }

    /// Where the socket of this number stands, or else where it would.
    fn place_of(&self, number: u32) -> Result<usize, usize> {
        self.sockets
            .binary_search_by(|socket| socket.number.cmp(&number))
    }

    /// The socket of this number.
    pub fn of(&self, number: u32) -> Option<&NumberedSocket<T>> {
        let at = self.place_of(number).ok()?;
        self.sockets.get(at)
    }

    /// Puts one of this number at its place. One that is there already stays.
    fn put(&mut self, number: u32, kept: Box<Kept<T>>) -> Result<(), Memory> {
        if let Err(at) = self.place_of(number) {
            let at = at.min(self.sockets.len());
            self.sockets.insert(at, NumberedSocket { number, kept })?;
        }
        Ok(())
    }

    /// Puts one of the next number.
    fn put_next(&mut self, kept: Box<Kept<T>>) -> Result<u32, Memory> {
        let number = self.next;
        let Some(next) = number.checked_add(1) else {
            return Err(Memory);
        };
        self.put(number, kept)?;
        self.next = next;
        Ok(number)
    }

    /// Takes out the socket of this number.
    fn take_out(&mut self, number: u32) {
        if let Ok(at) = self.place_of(number) {
            if at < self.sockets.len() {
                self.sockets.remove(at);
            }
        }
    }
}

/// What is kept of a socket without connections.
fn keep<T: Drop>(alloc: Global, item: T) -> Result<Box<Kept<T>>, Memory> {
    let kept = Kept {
        accepted: zero(),
        closed: zero(),
        is_given_up: AtomicBool::new(false),
        item,
    };
    match Box::new(alloc, kept) {
        Ok(kept) => Ok(kept),
        Err(_) => Err(Memory),
    }
}

impl<T: Drop> SocketTable<T> {
    /// No socket is there; the first number is 0.
    pub fn start(alloc: Global) -> SocketTable<T> {
        SocketTable {
            sockets: RwLock::new(Sockets {
                next: 0,
                sockets: Vec::new(alloc),
            }),
        }
    }

    /// The sockets that there are, which stay as they are meanwhile; nothing where another has the lock for long.
    pub fn read(&self) -> Option<RwLockReadGuard<'_, Sockets<T>>> {
        for _ in 0..TRIES {
            if let Some(sockets) = self.sockets.try_read() {
                return Some(sockets);
            }
            thread::yield_now();
        }
        None
    }

    /// The same for one who changes them.
    fn write(&self, tries: u32) -> Option<RwLockWriteGuard<'_, Sockets<T>>> {
        for _ in 0..tries {
            if let Some(sockets) = self.sockets.try_write() {
                return Some(sockets);
            }
            thread::yield_now();
        }
        None
    }

    /// Adds a socket, of which this is kept, and gives its number. Where others have the lock for long it fails, as where memory
    /// runs out.
    pub fn add(&self, alloc: Global, item: T) -> Result<u32, Memory> {
        let kept = keep(alloc, item)?;
        match self.write(PATIENT_TRIES) {
            Some(mut sockets) => sockets.put_next(kept),
            None => Err(Memory),
        }
    }

    /// Adds the socket of this number, which another table gave. It fails as `add` does.
    pub fn add_as(&self, alloc: Global, number: u32, item: T) -> Result<(), Memory> {
        let kept = keep(alloc, item)?;
        match self.write(PATIENT_TRIES) {
            Some(mut sockets) => sockets.put(number, kept),
            None => Err(Memory),
        }
    }

    /// Takes the socket of this number out, where it is over.
    fn take_out_if_over(&self, number: u32, tries: u32) {
        let is_over = match self.read() {
            Some(sockets) => match sockets.of(number) {
                Some(socket) => socket.is_over(),
                None => false,
            },
            None => false,
        };
        if is_over {
            if let Some(mut sockets) = self.write(tries) {
                sockets.take_out(number);
            }
        }
    }

    /// The socket of this number takes no more callers. It stays until its last connection is over.
    pub fn give_up(&self, number: u32) {
        if let Some(sockets) = self.read() {
            if let Some(socket) = sockets.of(number) {
                socket.kept.is_given_up.store(true, Ordering::SeqCst);
            }
        }
        self.take_out_if_over(number, PATIENT_TRIES);
    }

    /// A connection was accepted at the socket of this number.
    pub fn note_opened(&self, number: u32) {
        if let Some(sockets) = self.read() {
            if let Some(socket) = sockets.of(number) {
                add(&socket.kept.accepted, 1);
            }
        }
    }

    /// Counts a connection of the socket of this number that is over, and says whether the socket was given up.
    fn count_closed(&self, number: u32) -> bool {
        let Some(sockets) = self.read() else {
            return false;
        };
        let Some(socket) = sockets.of(number) else {
            return false;
        };
        add(&socket.kept.closed, 1);
        socket.is_given_up()
    }

    /// A connection of the socket of this number is over.
    pub fn note_closed(&self, number: u32) {
        if self.count_closed(number) {
            self.take_out_if_over(number, TRIES);
        }
    }
}
