//! A link that gives the same bytes again and again.

ghost use Rattle.std.specs.Prelude.{◌≤◌, length, None};

use wl_edge::{Link, Origin, Received, Sent, TrySent};
use wl_octets::Octets;

/// A link that gives one piece so many times and then always another. It takes all that is sent, never fails,
/// and tells nothing. Of a piece that is longer than what is lent only the front comes, and an empty one is idle.
#[derive(Drop)]
pub struct RepeatingLink {
    pub origin: Origin,
    pub piece: Octets,
    pub times: u32,
    pub then: Octets,
}

/// Copies as much of the front of the bytes as there is room for, and says how much.
fn copy_front(bytes: &[u8], into: &mut [u8]) -> usize
    ensures { result ≤ length into.old }
{
    let count = bytes.len().min(into.len());
    into[..count].copy_from_slice(bytes.split_at(count).0);
    count
}

impl Link for RepeatingLink {
    ghost origin = { λ l. l.origin };

    ghost told = { λ l. None };

    ghost failed_receives = { λ l. 0 };

    ghost failed_sends = { λ l. 0 };

    ghost stalls = { λ l. 0 };

    fn origin(&self) -> &Origin {
        &self.origin
    }

    fn note_call(&mut self) {}

    fn note_error(&mut self, _code: u32) {}

    fn receive(&mut self, into: &mut [u8]) -> Received {
        let count = if self.times == 0 {
            copy_front(self.then.as_slice(), into)
        } else {
            self.times -= 1;
            copy_front(self.piece.as_slice(), into)
        };
        if count == 0 {
            Received::Idle
        } else {
            Received::Got(count)
        }
    }

    fn send(&mut self, bytes: &[u8]) -> Sent {
        Sent::Took(bytes.len())
    }

    fn try_send(&mut self, bytes: &[u8]) -> TrySent {
        TrySent::Took(bytes.len())
    }
}
