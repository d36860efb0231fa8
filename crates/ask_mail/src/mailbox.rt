//! The answers that came for the connections of a seat.

ghost use Rattle.std.specs.Prelude.{◌≡◌, IfSome};

use crate::mail::Answered;
use std::alloc::{AllocFailed, Global};
use wl_entry::Voucher;
use wl_octets::Memory;

/// A connection whose answer is awaited, and the socket over which it came.
#[derive(Drop)]
struct Awaited {
    connection: u64,
    socket: u32,
}

/// The answers for the connections of a seat, and of which connections an ask is under way.
#[derive(Drop)]
pub struct Mailbox<V: Voucher> {
    awaited: Vec<Awaited>,
    letters: Vec<Answered<V>>,
}

impl<V: Voucher> Mailbox<V> {
    /// No answers, and none is awaited.
    pub fn empty(alloc: Global) -> Mailbox<V> {
        Mailbox {
            awaited: Vec::new(alloc),
            letters: Vec::new(alloc),
        }
    }

    /// From now on an answer for this connection, which came over this socket, is awaited.
    pub fn await_one(&mut self, connection: u64, socket: u32) -> Result<(), Memory> {
        match self.awaited.push(Awaited { connection, socket }) {
            Ok(()) => Ok(()),
            Err(_) => Err(Memory),
        }
    }

    /// Whether an answer for this connection is awaited, or lies here.
    pub fn awaits(&self, connection: u64) -> bool {
        self.awaited
            .iter()
            .any(|awaited| awaited.connection == connection)
    }

    /// The socket of this connection, where an answer for it is awaited or lies here.
    pub fn socket_of(&self, connection: u64) -> Option<u32> {
        let awaited = self
            .awaited
            .iter()
            .find(|awaited| awaited.connection == connection)?;
        Some(awaited.socket)
    }

    /// No answer for this connection is awaited any more. One that lies here is let go.
    pub fn forget(&mut self, connection: u64) {
        self.awaited
            .retain(|awaited| awaited.connection != connection);
        self.letters.retain(|letter| !letter.is_of(connection));
    }

    /// Puts an answer in. It comes back where nobody awaits it, or memory runs out; then nobody awaits it any more.
    pub fn put(&mut self, letter: Answered<V>) -> Option<Answered<V>>
        ensures { IfSome result (λ back. back ≡ letter) }
    {
        let connection = letter.connection();
        if !self.awaits(connection) {
            return Some(letter);
        }
        match self.letters.push(letter) {
            Ok(()) => None,
            Err(AllocFailed { value }) => {
                self.forget(connection);
                Some(value)
            }
        }
    }

    /// Takes out an answer for this connection. Then none is awaited any more.
    pub fn take(&mut self, connection: u64) -> Option<Answered<V>>
        ensures { IfSome result (λ letter. letter.connection ≡ connection) }
    {
        let at = self
            .letters
            .iter()
            .position(|letter| letter.is_of(connection))?;
        let letter = self.letters.remove(at);
        if letter.is_of(connection) {
            self.forget(connection);
            return Some(letter);
        }
        None
    }
}
