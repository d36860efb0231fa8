//! Counters that threads add to.

use crate::atomics::{add, read, zero};
use crate::call_counters::CallCounters;
use crate::figures::{
    Documents, Figures, Identities, LinkFaults, Seconds, Signings, SocketFigures, Traffic,
};
use crate::labels::{
    Direction, DocumentResult, FaultCause, LateCause, LinkCause, RefusedCause, SigningKind,
    SigningResult,
};
use crate::socket_path::SocketPath;
use crate::socket_table::{NumberedSocket, SocketTable};
use crate::socket_totals::SocketTotals;
use call_counts::CallCounts;
use std::alloc::Global;
use std::sync::atomic::{AtomicBool, AtomicU64, Ordering};
use wl_octets::{Memory, Octets, Row};

/// How many milliseconds a second has.
const SECOND: u64 = 1_000;

/// The upper bounds of the seconds of asks, in milliseconds.
const BOUNDS: [u64; 5] = [10, 100, 1_000, 5_000, 10_000];

/// The counters of a socket, beside those of its connections.
#[derive(Drop)]
struct SocketCounters {
    path: SocketPath,
    calls: CallCounters,
}

/// How many connections failed, by cause.
#[derive(Drop)]
struct FaultCounters {
    receive_failed: AtomicU64,
    send_failed: AtomicU64,
    protocol: AtomicU64,
    stalled: AtomicU64,
    silent: AtomicU64,
    unattested: AtomicU64,
    uid_full: AtomicU64,
}

/// Shared counters. Each is an atomic: whoever adds to one waits for nobody. At 2^64 they begin anew, as counters of Prometheus
/// may. Sockets come and go: what is counted of a socket while one is added is lost where that takes long.
#[derive(Drop)]
pub struct Counters {
    taken: AtomicU64,
    refused: AtomicU64,
    failed: AtomicU64,
    /// When a document that was taken came last, in milliseconds of the caller's clock.
    came: AtomicU64,
    /// Whether one came.
    has_come: AtomicBool,
    /// The number of the last publication.
    publication: AtomicU64,
    /// Whether there was one.
    has_published: AtomicBool,
    entries: AtomicU64,
    bundles: AtomicU64,
    x509_signed: AtomicU64,
    x509_failed: AtomicU64,
    jwt_signed: AtomicU64,
    jwt_failed: AtomicU64,
    /// Asks of at most so long, by `BOUNDS`.
    short: [AtomicU64; 5],
    asks: AtomicU64,
    milliseconds: AtomicU64,
    sockets: SocketTable<SocketCounters>,
    faults: FaultCounters,
    received: AtomicU64,
    sent: AtomicU64,
}

/// What stands in the counters of a socket. What ended is read before what began.
fn figures_of(
    alloc: Global,
    socket: &NumberedSocket<SocketCounters>,
) -> Result<SocketFigures, Memory> {
    let (accepted, open) = socket.connections();
    let counters = socket.item();
    let calls = counters.calls.figures();
    let begun = counters.calls.begun();
    Ok(SocketFigures {
        path: counters.path.copy(alloc)?,
        open,
        accepted,
        streams: begun.saturating_sub(calls.all_ended()),
        calls,
    })
}

impl Counters {
    /// Counters at 0, of no socket yet.
    pub fn start(alloc: Global) -> Counters {
        Counters {
            taken: zero(),
            refused: zero(),
            failed: zero(),
            came: zero(),
            has_come: AtomicBool::new(false),
            publication: zero(),
            has_published: AtomicBool::new(false),
            entries: zero(),
            bundles: zero(),
            x509_signed: zero(),
            x509_failed: zero(),
            jwt_signed: zero(),
            jwt_failed: zero(),
            short: [zero(), zero(), zero(), zero(), zero()],
            asks: zero(),
            milliseconds: zero(),
            sockets: SocketTable::start(alloc),
            faults: FaultCounters {
                receive_failed: zero(),
                send_failed: zero(),
                protocol: zero(),
                stalled: zero(),
                silent: zero(),
                unattested: zero(),
                uid_full: zero(),
            },
            received: zero(),
            sent: zero(),
        }
    }

    /// Adds a socket, at the path that a configuration names, and gives its number: the next one, from 0. Where others have the
    /// sockets for long it fails, as where memory runs out.
    pub fn add_socket(&self, alloc: Global, path: &Octets) -> Result<u32, Memory> {
        let path = SocketPath::of_configuration(alloc, path)?;
        let calls = CallCounters::start();
        self.sockets.add(alloc, SocketCounters { path, calls })
    }

    /// The socket of this number takes no more callers. It stands on the page until its last connection is over.
    pub fn remove_socket(&self, socket: u32) {
        self.sockets.give_up(socket);
    }

    /// Counts a pull of the document.
    pub fn count_document(&self, outcome: DocumentResult) {
        match outcome {
            DocumentResult::Taken => add(&self.taken, 1),
            DocumentResult::Refused => add(&self.refused, 1),
            DocumentResult::Failed => add(&self.failed, 1),
        }
    }

    /// Notes that a document that is taken came at this time, in milliseconds of a clock that doesn't go back.
    pub fn note_came(&self, now: u64) {
        self.came.store(now, Ordering::SeqCst);
        self.has_come.store(true, Ordering::SeqCst);
    }

    /// Notes the number of a publication. One with a higher number may have been noted before: then that stays.
    pub fn note_publication(&self, number: u64) {
        self.publication.fetch_max(number, Ordering::SeqCst);
        self.has_published.store(true, Ordering::SeqCst);
    }

    /// Notes what the document in use has.
    pub fn note_document(&self, entries: u64, bundles: u64) {
        self.entries.store(entries, Ordering::SeqCst);
        self.bundles.store(bundles, Ordering::SeqCst);
    }

    /// Counts an ask of a signer, which took so many milliseconds.
    pub fn count_signing(&self, kind: SigningKind, outcome: SigningResult, milliseconds: u64) {
        let counter = match (kind, outcome) {
            (SigningKind::X509, SigningResult::Signed) => &self.x509_signed,
            (SigningKind::X509, SigningResult::Failed) => &self.x509_failed,
            (SigningKind::Jwt, SigningResult::Signed) => &self.jwt_signed,
            (SigningKind::Jwt, SigningResult::Failed) => &self.jwt_failed,
        };
        add(counter, 1);
        add(&self.asks, 1);
        add(&self.milliseconds, milliseconds);
        for (bound, counter) in BOUNDS.iter().zip(self.short.iter()) {
            if milliseconds <= *bound {
                add(counter, 1);
            }
        }
    }

    /// Counts a connection that was accepted at the socket of this number.
    pub fn count_opened(&self, socket: u32) {
        self.sockets.note_opened(socket);
    }

    /// Counts a connection of the socket of this number that is over.
    pub fn count_closed(&self, socket: u32) {
        self.sockets.note_closed(socket);
    }

    /// Counts what became of calls of a connection of the socket of this number.
    pub fn count_calls(&self, socket: u32, calls: &CallCounts) {
        if calls.is_empty() {
            return;
        }
        if let Some(sockets) = self.sockets.read() {
            if let Some(numbered) = sockets.of(socket) {
                numbered.item().calls.count(calls);
            }
        }
    }

    /// Counts a connection that failed.
    pub fn count_fault(&self, cause: FaultCause) {
        let counter = match cause {
            FaultCause::Failed(LinkCause::ReceiveFailed) => &self.faults.receive_failed,
            FaultCause::Failed(LinkCause::SendFailed) => &self.faults.send_failed,
            FaultCause::Protocol => &self.faults.protocol,
            FaultCause::Late(LateCause::Stalled) => &self.faults.stalled,
            FaultCause::Late(LateCause::Silent) => &self.faults.silent,
            FaultCause::Refused(RefusedCause::Unattested) => &self.faults.unattested,
            FaultCause::Refused(RefusedCause::UidFull) => &self.faults.uid_full,
        };
        add(counter, 1);
    }

    /// Counts bytes of connections.
    pub fn count_bytes(&self, direction: Direction, count: u64) {
        match direction {
            Direction::Received => add(&self.received, count),
            Direction::Sent => add(&self.sent, count),
        }
    }

    /// How many connections failed.
    fn link_faults(&self) -> LinkFaults {
        LinkFaults {
            receive_failed: read(&self.faults.receive_failed),
            send_failed: read(&self.faults.send_failed),
            protocol: read(&self.faults.protocol),
            stalled: read(&self.faults.stalled),
            silent: read(&self.faults.silent),
            unattested: read(&self.faults.unattested),
            uid_full: read(&self.faults.uid_full),
        }
    }

    /// How many seconds ago a document that was taken came last; nothing before the first.
    fn document_age(&self, now: u64) -> Option<u64> {
        if !self.has_come.load(Ordering::SeqCst) {
            return None;
        }
        Some(now.saturating_sub(read(&self.came)) / SECOND)
    }

    /// The number of the last publication; nothing before the first.
    fn last_publication(&self) -> Option<u64> {
        if !self.has_published.load(Ordering::SeqCst) {
            return None;
        }
        Some(read(&self.publication))
    }

    /// The figures of the sockets, in the order of their numbers; of each path once.
    fn socket_figures(&self, alloc: Global) -> Result<Row<SocketFigures>, Memory> {
        let Some(sockets) = self.sockets.read() else {
            return Err(Memory);
        };
        let mut totals = SocketTotals::start(alloc);
        for socket in sockets.as_slice() {
            if !socket.is_over() {
                totals.take(figures_of(alloc, socket)?, socket.is_given_up())?;
            }
        }
        Ok(totals.into_row())
    }

    /// The seconds of asks. A shorter bound is read before a longer one, so that none has more than the next.
    fn seconds(&self) -> Seconds {
        let [first, second, third, fourth, fifth] = &self.short;
        Seconds {
            at_most_10_milliseconds: read(first),
            at_most_100_milliseconds: read(second),
            at_most_1_second: read(third),
            at_most_5_seconds: read(fourth),
            at_most_10_seconds: read(fifth),
            count: read(&self.asks),
            milliseconds: read(&self.milliseconds),
        }
    }

    /// What stands in the counters, with these identities, at this time in milliseconds of the clock of `note_came`, of a process
    /// that started at this Unix second and whose log dropped so many lines.
    pub fn figures(
        &self,
        alloc: Global,
        now: u64,
        started: u64,
        lines_dropped: u64,
        identities: Identities,
    ) -> Result<Figures, Memory> {
        Ok(Figures {
            documents: Documents {
                taken: read(&self.taken),
                refused: read(&self.refused),
                failed: read(&self.failed),
            },
            document_age: self.document_age(now),
            publication: self.last_publication(),
            entries: read(&self.entries),
            bundles: read(&self.bundles),
            identities,
            x509: Signings {
                signed: read(&self.x509_signed),
                failed: read(&self.x509_failed),
            },
            jwt: Signings {
                signed: read(&self.jwt_signed),
                failed: read(&self.jwt_failed),
            },
            seconds: self.seconds(),
            sockets: self.socket_figures(alloc)?,
            faults: self.link_faults(),
            traffic: Traffic {
                received: read(&self.received),
                sent: read(&self.sent),
            },
            lines_dropped,
            started,
        })
    }
}
