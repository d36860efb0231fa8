//! A stream of bytes both ways.

ghost use Rattle.std.specs.Prelude.{◌≡◌, ◌<◌, ℕ, Option, length};
ghost use Rattle.wl_edge.specs.Links.{LinkLog, Receives, SendsSome, TriesToSend};
ghost use Rattle.wl_edge.specs.declared.origin.Origin.{Origin};

use crate::origin::Origin;
use crate::sink::Sent;
use wl_octets::Octets;

/// The answer of a receive.
#[derive(Clone, Copy, Debug, Drop, PartialEq, Eq)]
pub enum Received {
    /// So many bytes came, at least 1; they stand at the front of what was lent.
    Got(usize),
    /// Nothing came for a while.
    Idle,
    /// The peer sends no more.
    End,
    /// The receive failed.
    Failed,
}

/// An answer of a receive as it is recorded, with the bytes that came.
#[derive(Drop, PartialEq)]
pub enum Heard {
    /// These bytes came.
    Piece(Octets),
    /// Nothing came for a while.
    Idle,
    /// The peer sends no more.
    End,
    /// The receive failed.
    Failed,
}

/// The answer of a sending that does not wait.
#[derive(Clone, Copy, Debug, Drop, PartialEq, Eq)]
pub enum TrySent {
    /// So many bytes were taken, from the front, at least 1.
    Took(usize),
    /// The link takes nothing for now.
    Later,
    /// The sending failed.
    Failed,
}

/// A stream of bytes both ways.
pub trait Link {
    /// Where it came from: the same for its life.
    ghost origin: { Self → Origin };

    /// What it gave and took, where it tells that.
    ghost told: { Self → Option LinkLog };

    /// How often a receive has failed. It never falls; at 2^64-1 it stays.
    ghost failed_receives: { Self → ℕ };

    /// How often a sending has failed. It never falls; at 2^64-1 it stays.
    ghost failed_sends: { Self → ℕ };

    /// How often a sending was put off. It never falls; at 2^64-1 it stays.
    ghost stalls: { Self → ℕ };

    /// Where it came from.
    fn origin(&self) -> &Origin
        ensures { result.now ≡ origin self.now };

    /// Notes that a call of it was attested. From then on its silence is no reason to give it up.
    fn note_call(&mut self)
        ensures told { told self.new ≡ told self.old }
        ensures receives { failed_receives self.new ≡ failed_receives self.old }
        ensures sends { failed_sends self.new ≡ failed_sends self.old }
        ensures stalls { stalls self.new ≡ stalls self.old }
        ensures origin { origin self.new ≡ origin self.old };

    /// Notes with which error code (RFC 9113, section 7) the connection ends, since its peer broke a rule of HTTP/2.
    fn note_error(&mut self, code: u32)
        ensures told { told self.new ≡ told self.old }
        ensures receives { failed_receives self.new ≡ failed_receives self.old }
        ensures sends { failed_sends self.new ≡ failed_sends self.old }
        ensures stalls { stalls self.new ≡ stalls self.old }
        ensures origin { origin self.new ≡ origin self.old };

    /// Receives some bytes into what is lent, which is not empty.
    fn receive(&mut self, into: &mut [u8]) -> Received
        requires { 0 < length into.old }
        ensures gives { Receives (told self.old) (told self.new) (failed_receives self.old)
            (failed_receives self.new) (length into.old) into.new result }
        ensures sends { failed_sends self.new ≡ failed_sends self.old }
        ensures stalls { stalls self.new ≡ stalls self.old }
        ensures origin { origin self.new ≡ origin self.old };

    /// Sends some of the bytes, of which there is at least one. It may wait until the peer takes some.
    fn send(&mut self, bytes: &[u8]) -> Sent
        requires { 0 < length bytes.now }
        ensures takes { SendsSome (told self.old) (told self.new) (failed_sends self.old) (failed_sends self.new)
            bytes.now result }
        ensures receives { failed_receives self.new ≡ failed_receives self.old }
        ensures stalls { stalls self.new ≡ stalls self.old }
        ensures origin { origin self.new ≡ origin self.old };

    /// Sends some of the bytes, of which there is at least one, and does not wait.
    fn try_send(&mut self, bytes: &[u8]) -> TrySent
        requires { 0 < length bytes.now }
        ensures takes { TriesToSend (told self.old) (told self.new) (failed_sends self.old) (failed_sends self.new)
            (stalls self.old) (stalls self.new) bytes.now result }
        ensures receives { failed_receives self.new ≡ failed_receives self.old }
        ensures origin { origin self.new ≡ origin self.old };
}
