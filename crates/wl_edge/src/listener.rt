//! Where links come from.

ghost use Rattle.std.specs.Prelude.{◌≡◌, ℕ, List, Option};
ghost use Rattle.wl_edge.specs.Links.{IsFresh};
ghost use Rattle.wl_edge.specs.Listeners.{ListenerLog, BoundSocket, CameOver, OnlyAdds, Accepts, IfLink, HasOpenLink, Finishes};

use crate::link::Link;
use crate::origin::Origin;
use call_counts::CallCounts;

/// The answer of an accept.
#[derive(Drop)]
pub enum Accepted<L> {
    /// A new link.
    Link(L),
    /// No link is there for now.
    Idle,
    /// There will be no more links.
    End,
    /// The accept failed.
    Failed,
}

/// The kind of such an answer.
#[derive(Clone, Copy, Debug, Drop, PartialEq, Eq)]
pub enum AcceptKind {
    Link,
    Idle,
    End,
    Failed,
}

/// A place to which peers connect.
pub trait Listener {
    type L: Link + Send + Drop;

    /// The sockets on which it listens, if they are known.
    ghost sockets: { Self → Option (List BoundSocket) };

    /// The kinds of its answers and the finished links, where it tells them.
    ghost told: { Self → Option ListenerLog };

    /// How often an accept has failed. It never falls; at 2^64-1 it stays.
    ghost faults: { Self → ℕ };

    /// A new link, if one is there. It has given and taken nothing. The listener may know more sockets from then on.
    fn accept(&mut self) -> Accepted<Self::L>
        ensures gives { Accepts (told self.old) (told self.new) (faults self.old) (faults self.new) result }
        ensures fresh { IfLink result (λ link. IsFresh (Self.L.told link) (Self.L.failed_receives link)
            (Self.L.failed_sends link) (Self.L.stalls link)) }
        ensures origin { IfLink result (λ link. CameOver (sockets self.new) (Self.L.origin link)) }
        ensures sockets { OnlyAdds (sockets self.old) (sockets self.new) };

    /// Takes back a link that it gave and that is not served any more.
    fn finish(&mut self, link: Self::L)
        requires { HasOpenLink (told self.old) }
        ensures finished { Finishes (told self.old) (told self.new) (record {
          origin = Self.L.origin link;
          log = Self.L.told link;
          failed_receives = Self.L.failed_receives link;
          failed_sends = Self.L.failed_sends link;
          stalls = Self.L.stalls link;
        }) }
        ensures count { faults self.new ≡ faults self.old }
        ensures sockets { sockets self.new ≡ sockets self.old };

    /// Notes what became of calls of a link that came from there. It answers nothing, and nothing hangs on it.
    fn note_calls(&self, _origin: &Origin, _calls: &CallCounts) {}
}
