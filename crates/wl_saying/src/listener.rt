//! A listener of which the log speaks.

ghost use Rattle.std.specs.Prelude.{◌≡◌};

use crate::repeats::Repeats;
use call_counts::CallCounts;
use event_log::{ErrorCode, Event};
use figures::{Direction, FaultCause, LateCause, LinkCause, RefusedCause};
use std::sync::Arc;
use wl_edge::{Accepted, Link, Listener, Origin};
use wl_edge_real::{BoundAt, Lateness, LinkFailures, Refusal};
use wl_outlook::Outlook;

/// What is said of connections that fail.
#[derive(Drop)]
struct LinksSaid {
    outlook: Arc<Outlook>,
    broken: Repeats,
    late: Repeats,
    unattested: Repeats,
    uid_full: Repeats,
}

/// Why a connection was given up, in the words of the log and the figures.
fn late_cause(lateness: Lateness) -> LateCause {
    match lateness {
        Lateness::Stalled => LateCause::Stalled,
        Lateness::Silent => LateCause::Silent,
    }
}

/// Why a connection failed that wasn't given up. None where it didn't.
fn link_cause(link: &impl LinkFailures) -> Option<LinkCause> {
    if link.has_failed_receives() {
        return Some(LinkCause::ReceiveFailed);
    }
    if link.has_failed_sends() {
        return Some(LinkCause::SendFailed);
    }
    None
}

/// One number for a socket and a user, or a cause.
fn pair_key(socket: u32, other: u32) -> u64 {
    u64::from(socket) * 0x1_0000_0000 + u64::from(other)
}

/// A number for each cause.
fn late_number(lateness: Lateness) -> u32 {
    match lateness {
        Lateness::Stalled => 0,
        Lateness::Silent => 1,
    }
}

impl LinksSaid {
    /// Nothing was said.
    fn start(outlook: Arc<Outlook>) -> LinksSaid {
        let alloc = outlook.log().runtime().alloc();
        LinksSaid {
            outlook,
            broken: Repeats::start(alloc),
            late: Repeats::start(alloc),
            unattested: Repeats::start(alloc),
            uid_full: Repeats::start(alloc),
        }
    }

    /// Says that the peer of a connection broke a rule, once a minute for each socket.
    fn note_broken(&mut self, socket: u32, code: u32) {
        self.outlook.note_fault(FaultCause::Protocol);
        let now = self.outlook.log().now();
        if let Some(held) = self.broken.admit_number(u64::from(socket), now) {
            let event = Event::ConnectionBroken(socket, ErrorCode::of_number(code));
            self.outlook.log().say_after(now, &event, held);
        }
    }

    /// Says that a connection was given up, once a minute for each socket and cause.
    fn note_late(&mut self, socket: u32, lateness: Lateness) {
        let cause = late_cause(lateness);
        self.outlook.note_fault(FaultCause::Late(cause));
        let now = self.outlook.log().now();
        if let Some(held) = self
            .late
            .admit_number(pair_key(socket, late_number(lateness)), now)
        {
            let event = Event::LinkLate(socket, cause);
            self.outlook.log().say_after(now, &event, held);
        }
    }

    /// Says that nobody can say who a caller is, once a minute for each socket.
    fn note_unattested(&mut self, socket: u32) {
        self.outlook
            .note_fault(FaultCause::Refused(RefusedCause::Unattested));
        let now = self.outlook.log().now();
        if let Some(held) = self.unattested.admit_number(u64::from(socket), now) {
            let event = Event::AttestationFailed(socket);
            self.outlook.log().say_after(now, &event, held);
        }
    }

    /// Says that a user has as many connections as may be, once a minute for each socket and user.
    fn note_uid_full(&mut self, socket: u32, uid: u32) {
        self.outlook
            .note_fault(FaultCause::Refused(RefusedCause::UidFull));
        let now = self.outlook.log().now();
        if let Some(held) = self.uid_full.admit_number(pair_key(socket, uid), now) {
            let event = Event::ConnectionsOfUidFull(socket, uid);
            self.outlook.log().say_after(now, &event, held);
        }
    }

    /// Says that a caller was refused as it came.
    fn note_refused(&mut self, refusal: Refusal) {
        match refusal {
            Refusal::Unattested { socket } => self.note_unattested(socket),
            Refusal::UidFull { socket, uid } => self.note_uid_full(socket, uid),
        }
    }

    /// Counts the bytes of a link of this socket, and says how it failed, where it did.
    fn note_end(&mut self, socket: u32, link: &impl LinkFailures) {
        let traffic = link.traffic();
        self.outlook
            .note_bytes(Direction::Received, traffic.received);
        self.outlook.note_bytes(Direction::Sent, traffic.sent);
        if let Some(lateness) = link.lateness() {
            self.note_late(socket, lateness);
        } else if let Some(code) = link.error_code() {
            self.note_broken(socket, code);
        } else if let Some(cause) = link_cause(link) {
            self.outlook.note_fault(FaultCause::Failed(cause));
            let event = Event::ConnectionFailed(socket, cause);
            self.outlook.log().say(&event);
        }
    }
}

/// A listener whose connections are counted, each for its socket. The log has each of them, whether it failed, those that were refused
/// as they came, and that the listener failed for good. It is the other in all that contracts see.
#[derive(Drop)]
pub struct SayingListener<L> {
    inner: L,
    said: LinksSaid,
}

impl<L: Listener + BoundAt + Drop> SayingListener<L>
where
    L::L: LinkFailures,
{
    /// Over this listener. A connection counts for the socket over which it came.
    pub fn start(inner: L, outlook: Arc<Outlook>) -> SayingListener<L>
        ensures told { ⟦<SayingListener<L> as Listener>⟧.told result ≡ L.Listener.told inner }
        ensures faults { ⟦<SayingListener<L> as Listener>⟧.faults result ≡ L.Listener.faults inner }
        ensures sockets { ⟦<SayingListener<L> as Listener>⟧.sockets result ≡ L.Listener.sockets inner }
        ensures paths { ⟦<SayingListener<L> as BoundAt>⟧.paths result ≡ L.BoundAt.paths inner }
    {
        let said = LinksSaid::start(outlook);
        SayingListener { inner, said }
    }
}

impl<L: BoundAt> BoundAt for SayingListener<L> {
    ghost paths = { λ l. L.paths l.inner };

    fn last_socket(&self) -> u32 {
        self.inner.last_socket()
    }

    fn last_refusal(&self) -> Option<Refusal> {
        self.inner.last_refusal()
    }
}

impl<L: Listener + BoundAt + Drop> Listener for SayingListener<L>
where
    L::L: LinkFailures,
{
    type L = L::L;

    ghost sockets = { λ l. L.sockets l.inner };

    ghost told = { λ l. L.told l.inner };

    ghost faults = { λ l. L.faults l.inner };

    fn accept(&mut self) -> Accepted<L::L> {
        let answer = self.inner.accept();
        match &answer {
            Accepted::Link(link) => self.said.outlook.note_opened(link.origin().socket),
            Accepted::Failed => {
                let event = Event::ListenFailed(self.inner.last_socket());
                self.said.outlook.log().say(&event);
            }
            Accepted::Idle | Accepted::End => {}
        }
        if let Some(refusal) = self.inner.last_refusal() {
            self.said.note_refused(refusal);
        }
        answer
    }

    fn finish(&mut self, link: L::L) {
        let socket = link.origin().socket;
        self.said.note_end(socket, &link);
        self.inner.finish(link);
        self.said.outlook.note_closed(socket);
    }

    fn note_calls(&self, origin: &Origin, calls: &CallCounts) {
        self.said
            .outlook
            .note_calls(origin.socket, origin.uid, calls);
        self.inner.note_calls(origin, calls);
    }
}
