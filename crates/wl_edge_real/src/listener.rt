//! Listeners at sockets of this machine.

ghost use Rattle.std.specs.Prelude.{◌≡◌, ◌≤◌, ◌++◌, ℕ, List, [], ◌∷◌, map, string_bytes, Contains, Some, IfOk, IfSome, OnOk, OnErr};
ghost use mathlib.Core.List.{IsPrefix};
ghost use Rattle.wl_edge.specs.Links.{IsFresh};
ghost use Rattle.wl_edge.specs.Listeners.{AcceptFits, IfLink, kind_of};
ghost use Rattle.wl_edge_real.specs.Places.{socket_of};

use crate::arrivals::Arrivals;
use crate::binding::PathListener;
use crate::changes::{Added, Changes};
use crate::doors::Door;
use crate::link::RealLink;
use crate::loopback::{Loopback, LoopbackListener};
use crate::missed::{ENOMEM, Missed};
use crate::open_links::OpenLinks;
use crate::refusal::Refusal;
use crate::sockets::Sockets;
use crate::stop::{Stop, is_asked, share_stop};
use std::alloc::Global;
use std::io;
use std::net::Net;
use std::os::fd::RawFd;
use std::sync::Arc;
use wl_edge::{AcceptKind, Accepted, Link, Listener, Origin};
use wl_telling::One;
use wl_told::Told;

/// The system has no descriptor left (the number of errno(3) on Linux, as those that follow).
const ENFILE: i32 = 23;

/// The process has no descriptor left.
const EMFILE: i32 = 24;

/// The network has no buffer left.
const ENOBUFS: i32 = 105;

/// A listener at Unix sockets and loopback TCP ports, from which it takes connections in turn. It tells its answers and the links that were finished, by lists
/// that exist only in proofs.
#[derive(Drop)]
pub struct RealListener {
    sockets: Sockets,
    /// The open links of all listeners that share it.
    all: Arc<OpenLinks>,
    /// What has it and its links end.
    stop: Option<Arc<Stop>>,
    /// What the last accept refused.
    refusal: Option<Refusal>,
    faults: u64,
    kinds: Told<AcceptKind>,
    finished: Told<RealLink>,
}

/// What contracts see of where a listener was bound.
pub trait BoundAt {
    /// The paths of its sockets, in the order in which they were added.
    ghost paths: { Self → List (List ℕ) };

    /// The number of the socket at which it looked last for a connection, 0 at first.
    fn last_socket(&self) -> u32;

    /// The connection that its last accept closed at once, if it did. An accept refuses one at most.
    fn last_refusal(&self) -> Option<Refusal> {
        None
    }
}

impl BoundAt for RealListener {
    ghost paths = { λ l. map (λ p. string_bytes p.name) l.sockets.places.items };

    fn last_socket(&self) -> u32 {
        self.sockets.tried()
    }

    fn last_refusal(&self) -> Option<Refusal> {
        self.refusal
    }
}

/// Whether an accept found no room for one more connection. Room comes as others end.
fn is_full(error: &io::Error) -> bool {
    matches!(
        error.raw_os_error(),
        Some(ENOMEM | ENFILE | EMFILE | ENOBUFS)
    )
}

/// The kind of an answer.
fn kind<L>(answer: &Accepted<L>) -> AcceptKind
    ensures { result ≡ kind_of answer.now }
{
    match answer {
        Accepted::Link(_) => AcceptKind::Link,
        Accepted::Idle => AcceptKind::Idle,
        Accepted::End => AcceptKind::End,
        Accepted::Failed => AcceptKind::Failed,
    }
}

impl RealListener {
    /// A listener at no socket yet. Its open links are counted with those of all listeners that share the count.
    pub fn start(rt: &impl Net, alloc: Global, all: Arc<OpenLinks>) -> io::Result<RealListener>
        ensures sockets { IfOk result (λ l. ⟦<RealListener as Listener>⟧.sockets l ≡ Some []) }
        ensures paths { IfOk result (λ l. ⟦<RealListener as BoundAt>⟧.paths l ≡ []) }
        ensures told { IfOk result (λ l. ⟦<RealListener as Listener>⟧.told l ≡ Some (record { kinds = []; finished = [] })) }
        ensures fresh { IfOk result (λ l. ⟦<RealListener as Listener>⟧.faults l ≡ 0) }
    {
        Ok(RealListener {
            sockets: Sockets::start(rt, alloc)?,
            all,
            stop: None,
            refusal: None,
            faults: 0,
            kinds: Told::new(),
            finished: Told::new(),
        })
    }

    /// Listens at one more socket. Its links have this origin, and so many of them may be open at once: other callers of it
    /// wait in its backlog. After a fault, which is out of memory or one of the operating system, the listener is as it was
    /// and the socket is closed.
    pub fn add(&mut self, socket: PathListener, origin: Origin, connections: u32) -> io::Result<()>
        ensures sockets { OnOk result (IfSome (⟦<RealListener as Listener>⟧.sockets self.old) (λ known.
            ⟦<RealListener as Listener>⟧.sockets self.new
            ≡ Some (known ++ record { selectors = origin.selectors; number = origin.socket } ∷ []))) }
        ensures paths { OnOk result (⟦<RealListener as BoundAt>⟧.paths self.new
            ≡ ⟦<RealListener as BoundAt>⟧.paths self.old ++ string_bytes socket.path ∷ []) }
        ensures same_sockets { OnErr result (⟦<RealListener as Listener>⟧.sockets self.new
            ≡ ⟦<RealListener as Listener>⟧.sockets self.old) }
        ensures same_paths { OnErr result (⟦<RealListener as BoundAt>⟧.paths self.new
            ≡ ⟦<RealListener as BoundAt>⟧.paths self.old) }
        ensures told { ⟦<RealListener as Listener>⟧.told self.new ≡ ⟦<RealListener as Listener>⟧.told self.old }
        ensures faults { ⟦<RealListener as Listener>⟧.faults self.new ≡ ⟦<RealListener as Listener>⟧.faults self.old }
    {
        let PathListener { listener, path, .. } = socket;
        self.sockets.add(Added {
            door: Door::Unix(listener),
            name: path,
            origin,
            connections,
        })
    }

    /// Listens at one more socket, a TCP port of this machine, which has this name. Its links have this origin, and the uid of their
    /// caller, whom the kernel names. So many of them may be open at once, and so many of one uid: one more of that uid is
    /// closed at once, as one that the kernel doesn't name (`last_refusal`). After a fault, which is out of memory or one of the
    /// operating system, the listener is as it was and the socket is closed.
    pub fn add_loopback(
        &mut self,
        socket: LoopbackListener,
        name: String,
        origin: Origin,
        connections: u32,
        connections_per_uid: u32,
    ) -> io::Result<()>
        ensures sockets { OnOk result (IfSome (⟦<RealListener as Listener>⟧.sockets self.old) (λ known.
            ⟦<RealListener as Listener>⟧.sockets self.new
            ≡ Some (known ++ record { selectors = origin.selectors; number = origin.socket } ∷ []))) }
        ensures paths { OnOk result (⟦<RealListener as BoundAt>⟧.paths self.new
            ≡ ⟦<RealListener as BoundAt>⟧.paths self.old ++ string_bytes name ∷ []) }
        ensures same_sockets { OnErr result (⟦<RealListener as Listener>⟧.sockets self.new
            ≡ ⟦<RealListener as Listener>⟧.sockets self.old) }
        ensures same_paths { OnErr result (⟦<RealListener as BoundAt>⟧.paths self.new
            ≡ ⟦<RealListener as BoundAt>⟧.paths self.old) }
        ensures told { ⟦<RealListener as Listener>⟧.told self.new ≡ ⟦<RealListener as Listener>⟧.told self.old }
        ensures faults { ⟦<RealListener as Listener>⟧.faults self.new ≡ ⟦<RealListener as Listener>⟧.faults self.old }
    {
        let loopback = Loopback::start(self.sockets.alloc(), socket, connections_per_uid);
        self.sockets.add(Added {
            door: Door::Tcp(loopback),
            name,
            origin,
            connections,
        })
    }

    /// Has it end once this stop is asked for, and the links that it gives from now on. A watcher that is made from now on then lists
    /// all links.
    pub fn obey(&mut self, stop: Arc<Stop>)
        ensures told { ⟦<RealListener as Listener>⟧.told self.new ≡ ⟦<RealListener as Listener>⟧.told self.old }
        ensures faults { ⟦<RealListener as Listener>⟧.faults self.new ≡ ⟦<RealListener as Listener>⟧.faults self.old }
        ensures paths { ⟦<RealListener as BoundAt>⟧.paths self.new ≡ ⟦<RealListener as BoundAt>⟧.paths self.old }
        ensures sockets { ⟦<RealListener as Listener>⟧.sockets self.new ≡ ⟦<RealListener as Listener>⟧.sockets self.old }
    {
        self.stop = Some(stop);
    }

    /// One more owner of its stop, where it has one.
    pub(crate) fn share_stop(&self) -> io::Result<Option<Arc<Stop>>> {
        share_stop(&self.stop)
    }

    /// What one who waits for peers watches.
    pub(crate) fn descriptor(&self) -> RawFd {
        self.sockets.descriptor()
    }

    /// What one who watches it shares.
    pub(crate) fn share_arrivals(&self) -> io::Result<Arc<Arrivals>> {
        self.sockets.share_arrivals()
    }

    /// By which its sockets are changed while it runs.
    pub fn share_changes(&self) -> io::Result<Arc<Changes>> {
        self.sockets.share_changes()
    }

    /// The next answer, which is not told yet.
    fn accept_one(&mut self) -> Accepted<RealLink>
        ensures fits { AcceptFits self.old.faults self.new.faults result }
        ensures later { self.old.faults ≤ self.new.faults }
        ensures fresh { IfLink result (λ l. IsFresh (⟦<RealLink as Link>⟧.told l) (⟦<RealLink as Link>⟧.failed_receives l)
            (⟦<RealLink as Link>⟧.failed_sends l) (⟦<RealLink as Link>⟧.stalls l)) }
        ensures origin { IfLink result (λ l. Contains (map (λ p. socket_of p.origin) self.new.sockets.places.items)
            (socket_of (⟦<RealLink as Link>⟧.origin l))) }
        ensures grew { IsPrefix (map (λ p. socket_of p.origin) self.old.sockets.places.items)
            (map (λ p. socket_of p.origin) self.new.sockets.places.items) }
        ensures kinds { self.new.kinds ≡ self.old.kinds }
        ensures finished { self.new.finished ≡ self.old.finished }
    {
        self.refusal = None;
        if is_asked(&self.stop) {
            return Accepted::End;
        }
        let refused = self.sockets.change_all();
        if refused > 0 {
            self.faults = self.faults.saturating_add(refused);
            return Accepted::Idle;
        }
        if !self.sockets.may_have_arrivals() {
            return Accepted::Idle;
        }
        match self.sockets.accept(&self.all, &self.stop) {
            Ok(link) => Accepted::Link(link),
            Err(Missed::Failed(error)) => {
                self.faults = self.faults.saturating_add(1);
                if is_full(&error) {
                    Accepted::Idle
                } else {
                    Accepted::Failed
                }
            }
            Err(Missed::Refused(refusal)) => {
                self.refusal = Some(refusal);
                Accepted::Idle
            }
            Err(_) => Accepted::Idle,
        }
    }
}

impl Listener for RealListener {
    type L = RealLink;

    ghost sockets = { λ l. Some (map (λ p. socket_of p.origin) l.sockets.places.items) };

    ghost told = { λ l. Some (record {
      kinds = l.kinds.list;
      finished = map (λ link. record {
        origin = ⟦<RealLink as Link>⟧.origin link;
        log = ⟦<RealLink as Link>⟧.told link;
        failed_receives = ⟦<RealLink as Link>⟧.failed_receives link;
        failed_sends = ⟦<RealLink as Link>⟧.failed_sends link;
        stalls = ⟦<RealLink as Link>⟧.stalls link;
      }) l.finished.list;
    }) };

    ghost faults = { λ l. l.faults };

    fn accept(&mut self) -> Accepted<RealLink> {
        let answer = self.accept_one();
        self.kinds = self.kinds.and::<AcceptKind, One>(&kind(&answer));
        answer
    }

    fn finish(&mut self, link: RealLink) {
        let at = link.place();
        self.finished = self.finished.and::<RealLink, One>(&link);
        link.close();
        if let Some(at) = at {
            self.sockets.make_room(at);
        }
    }
}
