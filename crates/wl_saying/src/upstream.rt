//! An upstream whose pulls are counted and said.

ghost use Rattle.std.specs.Prelude.{◌≡◌, IfOk};

use crate::memory::MemorySaid;
use event_log::{Event, PullCause, Slot};
use figures::DocumentResult;
use std::alloc::Global;
use std::sync::Arc;
use wl_edge::{EdgeFault, MemoryUpstream, Upstream};
use wl_octets::{Memory, Octets};
use wl_outlook::{DocumentJudge, FaultLines, Outlook};

/// An upstream that knows why a pull of it fails.
pub trait PullFailures {
    /// Why the last pull failed, where it did.
    fn cause(&self) -> PullCause;
}

impl PullFailures for MemoryUpstream {
    fn cause(&self) -> PullCause {
        PullCause::File
    }
}

/// Says what comes of the pulls of documents.
#[derive(Drop)]
struct PullsSaid {
    outlook: Arc<Outlook>,
    /// When the first of the pulls failed that have failed since one came.
    since: Option<u64>,
    failed: Slot,
    memory: MemorySaid,
}

impl PullsSaid {
    /// Nothing was pulled yet.
    fn start(outlook: Arc<Outlook>) -> PullsSaid {
        PullsSaid {
            outlook,
            since: None,
            failed: Slot::empty(),
            memory: MemorySaid::start(),
        }
    }

    /// Says that a pull failed, for this cause, and for the first time since then.
    fn say_failed(&self, cause: PullCause, now: u64, since: u64, held: u64) {
        let log = self.outlook.log();
        if let Ok(since) = log.time_text(since) {
            log.say_after(now, &Event::AuthorityFailed(cause, &since), held);
        }
    }

    fn note_failed(&mut self, cause: PullCause) {
        self.outlook.note_pull(DocumentResult::Failed);
        let now = self.outlook.log().now();
        let since = self.since.unwrap_or(now);
        self.since = Some(since);
        if let Some(held) = self.failed.admit(now) {
            self.say_failed(cause, now, since, held);
        }
    }

    /// Says what came of a pull, and why it failed where it did.
    fn note(&mut self, pulled: &Result<(), EdgeFault>, cause: PullCause) {
        match pulled {
            Ok(()) => {
                if self.since.take().is_some() {
                    self.outlook.log().say(&Event::AuthorityBack);
                }
            }
            Err(EdgeFault::Failed) => self.note_failed(cause),
            Err(EdgeFault::Memory) => self.memory.say(self.outlook.log()),
        }
    }
}

/// An upstream whose pulls are counted. The log has those that fail, that a document came again, and what comes of a document that
/// is another than the last: it is judged as the agent's store judges it after that. It is the other in all that contracts see.
#[derive(Drop)]
pub struct SayingUpstream<U, F> {
    inner: U,
    said: PullsSaid,
    judge: DocumentJudge<F>,
    /// Whether the last pull gave a document that was judged, and that is taken.
    is_good: bool,
}

impl<U: Upstream + PullFailures + Drop, F: FaultLines + Drop> SayingUpstream<U, F> {
    /// Over this upstream. The faults of documents are written by these.
    pub fn start(
        alloc: Global,
        inner: U,
        outlook: Arc<Outlook>,
        lines: F,
    ) -> Result<SayingUpstream<U, F>, Memory>
        ensures told { IfOk result (λ u. ⟦<SayingUpstream<U, F> as Upstream>⟧.told u ≡ U.told inner) }
        ensures faults { IfOk result (λ u. ⟦<SayingUpstream<U, F> as Upstream>⟧.faults u ≡ U.faults inner) }
    {
        let Ok(other) = Arc::try_clone(&outlook) else {
            return Err(Memory);
        };
        Ok(SayingUpstream {
            inner,
            said: PullsSaid::start(outlook),
            judge: DocumentJudge::start(alloc, other, lines),
            is_good: false,
        })
    }
}

impl<U: Upstream + PullFailures + Drop, F: FaultLines + Drop> Upstream for SayingUpstream<U, F> {
    ghost told = { λ u. U.told u.inner };

    ghost faults = { λ u. U.faults u.inner };

    fn pull(&mut self, into: &mut Octets) -> Result<(), EdgeFault> {
        let before = into.len();
        let pulled = self.inner.pull(into);
        self.said.note(&pulled, self.inner.cause());
        self.is_good = match (&pulled, into.as_slice().get(before..)) {
            (Ok(()), Some(document)) => self.judge.note_document(document),
            _ => false,
        };
        pulled
    }

    fn is_unchanged(&self) -> bool {
        let is_unchanged = self.is_good && self.inner.is_unchanged();
        if is_unchanged {
            self.said.outlook.note_pull(DocumentResult::Taken);
        }
        is_unchanged
    }

    fn note_taken(&self, publication: u64) {
        self.said.outlook.note_taken(publication);
        self.inner.note_taken(publication);
    }
}
