//! What threads note, and pages show.

use crate::asking::UnderWay;
use crate::callers::Callers;
use crate::calls::say_calls;
use crate::standing::Standing;
use call_counts::CallCounts;
use event_log::{DocumentCounts, Event, Level};
use figures::{
    Counters, Direction, DocumentResult, FaultCause, Figures, Health, Shows, SigningKind,
    SigningResult,
};
use log_output::Log;
use std::alloc::Global;
use std::sync::atomic::{AtomicU64, Ordering};
use std::sync::{Arc, RwLock, RwLockWriteGuard};
use std::thread;
use std::time::{Duration, Instant};
use wl_document::AuthorityState;
use wl_entry::{Ask, Signed};
use wl_octets::{Memory, Octets};
use wl_selector::Selectors;

/// How many milliseconds ago the keeper's last step may have ended.
const LIVE_MILLISECONDS: u64 = 10_000;

/// How often the entries are tried, a millisecond apart, before one who notes something gives up.
const TRIES: u32 = 1_000;

/// What is known of the agent. Threads may share it: counters are atomics, and no seat takes the lock of the entries.
#[derive(Drop)]
pub struct Outlook {
    alloc: Global,
    log: Arc<Log>,
    counters: Counters,
    callers: Callers,
    /// When the process started: the clock of all milliseconds here.
    began: Option<Instant>,
    /// The same in Unix seconds.
    started: u64,
    /// When the keeper's last step ended.
    stepped: AtomicU64,
    standing: RwLock<Standing>,
}

impl Outlook {
    /// Of a process that starts now, with counters at 0 and no socket yet.
    pub fn start(alloc: Global, log: Arc<Log>) -> Outlook {
        let began = Instant::now(log.runtime()).ok();
        let started = log.now();
        Outlook {
            alloc,
            log,
            counters: Counters::start(alloc),
            callers: Callers::start(alloc),
            began,
            started,
            stepped: AtomicU64::new(0),
            standing: RwLock::new(Standing::start(alloc)),
        }
    }

    /// Adds a socket, at the path that a configuration names, whose callers have these selectors, and gives its number: the next one,
    /// from 0. No number is used twice. Where memory runs out, or others have the sockets for long, nothing is added.
    pub fn add_socket(&self, path: &Octets, selectors: &Selectors) -> Result<u32, Memory> {
        let number = self.counters.add_socket(self.alloc, path)?;
        if self
            .callers
            .add_socket(self.alloc, number, selectors)
            .is_err()
        {
            self.counters.remove_socket(number);
            return Err(Memory);
        }
        Ok(number)
    }

    /// The socket of this number takes no more callers. Its figures stay until its last connection is over.
    pub fn remove_socket(&self, number: u32) {
        self.counters.remove_socket(number);
        self.callers.remove_socket(number);
    }

    /// The log.
    pub fn log(&self) -> &Log {
        &self.log
    }

    /// How many milliseconds the process has run; 0 where the system gives no time.
    pub fn milliseconds(&self) -> u64 {
        let Some(began) = &self.began else { return 0 };
        match began.elapsed(self.log.runtime()) {
            Ok(time) => u64::try_from(time.as_millis()).unwrap_or(u64::MAX),
            Err(_) => 0,
        }
    }

    /// The entries, of which nobody else knows then; nothing where others have them for a whole second.
    fn standing(&self) -> Option<RwLockWriteGuard<'_, Standing>> {
        for _ in 0..TRIES {
            if let Some(standing) = self.standing.try_write() {
                return Some(standing);
            }
            thread::sleep(self.log.runtime(), Duration::from_millis(1));
        }
        None
    }

    /// A step of the keeper has ended. Identities that have ended since the last step are said, and that a caller waits for one.
    pub fn note_step(&self) {
        self.stepped.store(self.milliseconds(), Ordering::SeqCst);
        let now = self.log.now();
        if let Some(mut standing) = self.standing() {
            standing.say_ended(&self.log, now);
            standing.say_waiting(&self.log, &self.callers, now);
        }
    }

    /// A pull of the document ended so.
    pub fn note_pull(&self, outcome: DocumentResult) {
        if outcome == DocumentResult::Taken {
            self.counters.note_came(self.milliseconds());
        }
        self.counters.count_document(outcome);
    }

    /// The store takes another document than before next, of which this is to be said then. Where memory runs out the entries
    /// stay as they were known.
    pub fn note_document(&self, state: &AuthorityState, counts: DocumentCounts) {
        self.counters.note_document(counts.entries, counts.bundles);
        let now = self.log.now();
        if let Some(mut standing) = self.standing() {
            let _ = standing.take_document(state.entries.as_slice(), state.renew_before, now);
            standing.keep_unsaid(counts);
        }
    }

    /// The store took the document that was noted last, and the publication of this number shows it. That is said once of each.
    pub fn note_taken(&self, publication: u64) {
        let counts = match self.standing() {
            Some(mut standing) => standing.take_unsaid(),
            None => None,
        };
        if let Some(counts) = counts {
            self.log.say(&Event::DocumentTaken(publication, counts));
        }
    }

    /// There is a publication of this number.
    pub fn note_publication(&self, number: u64) {
        self.counters.note_publication(number);
    }

    /// An ask ended so, which began when the process had run so many milliseconds.
    pub fn note_ask(&self, kind: SigningKind, outcome: SigningResult, began: u64) {
        let taken = self.milliseconds().saturating_sub(began);
        self.counters.count_signing(kind, outcome, taken);
    }

    /// A signer is asked for an identity, until that ends. An ask that no entry of the document in use has counts nowhere, and nor
    /// does one where others have the entries for a whole second.
    pub fn note_asked(&self, ask: &Ask) -> UnderWay {
        match self.standing() {
            Some(standing) => standing.begin_ask(ask),
            None => UnderWay::uncounted(),
        }
    }

    /// This identity was signed.
    pub fn note_signed(&self, ask: &Ask, signed: &Signed) {
        if let Some(mut standing) = self.standing() {
            standing.note_signed(ask, signed);
        }
    }

    /// A connection was accepted at the socket of this number.
    pub fn note_opened(&self, socket: u32) {
        self.counters.count_opened(socket);
        self.callers.note_opened(socket);
        self.log.say(&Event::Connected(socket));
    }

    /// A connection of the socket of this number is over.
    pub fn note_closed(&self, socket: u32) {
        self.counters.count_closed(socket);
        self.callers.note_closed(socket);
        self.log.say(&Event::Closed(socket));
    }

    /// This became of calls of a connection of the socket of this number, whose caller is this user where the kernel names it. Each
    /// that ended is said.
    pub fn note_calls(&self, socket: u32, uid: Option<u32>, calls: &CallCounts) {
        self.counters.count_calls(socket, calls);
        if !calls.is_empty() && self.log.says(Level::Debug) {
            say_calls(&self.log, socket, uid, calls);
        }
    }

    /// A connection failed.
    pub fn note_fault(&self, cause: FaultCause) {
        self.counters.count_fault(cause);
    }

    /// So many bytes went over connections.
    pub fn note_bytes(&self, direction: Direction, count: u64) {
        self.counters.count_bytes(direction, count);
    }
}

impl Shows for Outlook {
    fn figures(&self) -> Result<Figures, Memory> {
        let dropped = self.log.dropped();
        let now = self.log.now();
        let identities = match self.standing() {
            Some(standing) => standing.identities(now),
            None => return Err(Memory),
        };
        let ran = self.milliseconds();
        self.counters
            .figures(self.alloc, ran, self.started, dropped, identities)
    }

    fn health(&self) -> Result<Health, Memory> {
        let stepped = self.stepped.load(Ordering::SeqCst);
        let is_live = self.milliseconds().saturating_sub(stepped) <= LIVE_MILLISECONDS;
        let now = self.log.now();
        let Some(standing) = self.standing() else {
            return Err(Memory);
        };
        Ok(Health {
            is_live,
            has_document: standing.has_document(),
            lacking: standing.lacking(now)?,
        })
    }
}
