//! The verdict on each document.

use crate::changes::counts_after;
use crate::outlook::Outlook;
use event_log::{DocumentCounts, Event, FaultLine, Slot};
use figures::DocumentResult;
use log_output::Log;
use spiffe_id::TrustDomain;
use std::alloc::Global;
use std::sync::Arc;
use wl_document::{AuthorityState, DocFault, read_state};
use wl_octets::{Memory, Octets};

/// Who writes the fault of a document as a line.
pub trait FaultLines {
    /// The line of a fault, without its newline; nothing where it is not one of small letters, digits and spaces.
    fn line_of(&self, alloc: Global, fault: DocFault) -> Result<Option<FaultLine>, Memory>;
}

/// What became of the last document.
#[derive(Drop)]
enum Verdict {
    /// No document came yet that could be judged.
    Nothing,
    /// It was taken.
    Taken,
    /// It was refused.
    Refused(Refusal),
}

/// A document that was refused, why, and when that was said.
#[derive(Drop)]
struct Refusal {
    document: Octets,
    line: Option<FaultLine>,
    slot: Slot,
}

impl Refusal {
    /// Says it, or holds it back.
    fn say(&mut self, log: &Log) {
        let Some(line) = &self.line else { return };
        let now = log.now();
        if let Some(held) = self.slot.admit(now) {
            log.say_after(now, &Event::DocumentRefused(line), held);
        }
    }
}

/// Judges documents as the agent's store does, and notes what it finds. One that is the same as the last isn't judged again.
#[derive(Drop)]
pub struct DocumentJudge<F> {
    outlook: Arc<Outlook>,
    alloc: Global,
    lines: F,
    /// The trust domain of the first document: others have to be of it.
    domain: Option<TrustDomain>,
    /// The last document that was taken; empty before the first.
    taken: Octets,
    verdict: Verdict,
}

impl<F: FaultLines + Drop> DocumentJudge<F> {
    /// No document came yet. Faults are written by these.
    pub fn start(alloc: Global, outlook: Arc<Outlook>, lines: F) -> DocumentJudge<F> {
        DocumentJudge {
            outlook,
            alloc,
            lines,
            domain: None,
            taken: Octets::empty(alloc),
            verdict: Verdict::Nothing,
        }
    }

    /// What a document has, after the last that was taken: that is read again, since a copy of its entries would have to be kept.
    fn counts_of(&self, state: &AuthorityState) -> Result<DocumentCounts, Memory> {
        match read_state(self.alloc, self.taken.as_slice(), self.domain.as_ref()) {
            Ok(before) => Ok(counts_after(state, before.entries.as_slice())),
            Err(DocFault::Memory) => Err(Memory),
            Err(_) => Ok(counts_after(state, &[])),
        }
    }

    /// Notes a document without a fault, which the store takes next.
    fn note_good(&mut self, state: &AuthorityState, document: Octets) -> Result<(), Memory> {
        let counts = self.counts_of(state)?;
        if self.domain.is_none() {
            self.domain = Some(state.domain.copy(self.alloc)?);
        }
        self.outlook.note_document(state, counts);
        self.taken = document;
        self.verdict = Verdict::Taken;
        Ok(())
    }

    /// Notes a document that was refused.
    fn note_refused(&mut self, fault: DocFault, document: Octets) -> Result<(), Memory> {
        let line = self.lines.line_of(self.alloc, fault)?;
        self.verdict = Verdict::Refused(Refusal {
            document,
            line,
            slot: Slot::empty(),
        });
        Ok(())
    }

    /// Judges a document that is another than the last. Where memory runs out it is judged again when it comes again.
    fn judge(&mut self, document: &[u8]) -> Result<(), Memory> {
        let copy = Octets::from_slice(self.alloc, document)?;
        match read_state(self.alloc, document, self.domain.as_ref()) {
            Ok(state) => self.note_good(&state, copy),
            Err(DocFault::Memory) => Err(Memory),
            Err(fault) => self.note_refused(fault, copy),
        }
    }

    /// Whether a document is the same as the last.
    fn is_last(&self, document: &[u8]) -> bool {
        match &self.verdict {
            Verdict::Nothing => false,
            Verdict::Taken => self.taken.as_slice() == document,
            Verdict::Refused(refusal) => refusal.document.as_slice() == document,
        }
    }

    /// Says once a minute that a document is refused, and not of a first one.
    fn say_refused(&mut self) {
        if self.domain.is_none() {
            return;
        }
        if let Verdict::Refused(refusal) = &mut self.verdict {
            refusal.say(self.outlook.log());
        }
    }

    /// Notes a document, and says where it is refused: of a first document whoever ends then says it. That one is taken is said by
    /// [`Outlook::note_taken`], once the store has it. True where this one is taken, and false where memory ran out.
    pub fn note_document(&mut self, document: &[u8]) -> bool {
        if !self.is_last(document) && self.judge(document).is_err() {
            return false;
        }
        match &self.verdict {
            Verdict::Nothing => false,
            Verdict::Taken => {
                self.outlook.note_pull(DocumentResult::Taken);
                true
            }
            Verdict::Refused(_) => {
                self.outlook.note_pull(DocumentResult::Refused);
                self.say_refused();
                false
            }
        }
    }
}
