//! The asks that wait for a signer.

ghost use Rattle.std.specs.Prelude.{◌≡◌, ◌↔◌, ◌++◌, ◌∷◌, [], true, None, length, IfSome, OnOk, OnErr};

use crate::mail::Asked;
use std::alloc::Global;
use std::marker::Model;
use wl_octets::Memory;

/// The asks of one socket that no signer took yet, the oldest first.
#[derive(Drop)]
pub struct AskQueue {
    asks: Vec<Asked>,
}

impl Model for AskQueue {
    ghost use Rattle.std.specs.Prelude.{List};
    ghost use Rattle.ask_mail.specs.declared.mail.Asked.{Asked};

    ghost Value = { List Asked };

    ghost view = { λ q. q.asks.items };
}

impl AskQueue {
    /// No asks.
    pub fn empty(alloc: Global) -> AskQueue
        ensures { result ≡ [] }
    {
        AskQueue {
            asks: Vec::new(alloc),
        }
    }

    /// Puts one more at the end.
    pub fn put(&mut self, asked: Asked) -> Result<(), Memory>
        ensures ok { OnOk result (self.new ≡ self.old ++ asked ∷ []) }
        ensures err { OnErr result (self.new ≡ self.old) }
    {
        match self.asks.push(asked) {
            Ok(()) => Ok(()),
            Err(_) => Err(Memory),
        }
    }

    /// The oldest.
    pub fn take(&mut self) -> Option<Asked>
        ensures some { IfSome result (λ a. self.old ≡ a ∷ self.new) }
        ensures none { result ≡ None → (self.old ≡ []) × (self.new ≡ []) }
    {
        if self.asks.is_empty() {
            return None;
        }
        Some(self.asks.remove(0))
    }

    /// How many there are.
    pub fn len(&self) -> usize
        ensures { result ≡ length self.now }
    {
        self.asks.len()
    }

    /// Whether there is none.
    pub fn is_empty(&self) -> bool
        ensures { result ≡ true ↔ self.now ≡ [] }
    {
        self.asks.is_empty()
    }

    /// Gives up the asks of a connection of this seat.
    pub fn forget(&mut self, seat: u32, connection: u64) {
        self.asks.retain(|asked| asked.seat != seat || asked.connection != connection);
    }
}
