//! Which entries have an identity, as far as documents and signers show.

use crate::asking::{Asking, UnderWay};
use crate::callers::Callers;
use crate::stand::{Known, Stand};
use event_log::{DocumentCounts, Event};
use figures::{EntryId, Identities, IdentityState, Lacking};
use log_output::Log;
use std::alloc::Global;
use wl_entry::{Ask, Entry, Signed};
use wl_octets::{Memory, Octets, Row};

/// How many seconds an entry may have no identity before the agent isn't ready.
pub const PATIENCE_SECONDS: u64 = 60;

/// At how many such entries one step looks.
const LOOKS: u32 = 16;

/// The entries of the document in use, by ascending id.
#[derive(Drop)]
pub struct Standing {
    alloc: Global,
    stands: Vec<Stand>,
    has_document: bool,
    /// The second before which what was signed is to be renewed.
    renew_before: u64,
    /// What is to be said of it once the store has it.
    unsaid: Option<DocumentCounts>,
    /// Where the next look for entries without an identity begins.
    next: usize,
}

/// The place of the entry with this id.
fn place_of(stands: &[Stand], id: &Octets) -> Option<usize> {
    stands
        .binary_search_by(|stand| stand.ask.entry_id.as_slice().cmp(id.as_slice()))
        .ok()
}

/// The lower of two numbers, as far as they are there.
fn sooner(one: Option<u64>, other: Option<u64>) -> Option<u64> {
    match (one, other) {
        (Some(one), Some(other)) => Some(one.min(other)),
        (Some(one), None) => Some(one),
        (None, other) => other,
    }
}

/// Counts one more entry in this state.
fn count(all: &mut Identities, state: IdentityState) {
    match state {
        IdentityState::Kept => all.kept = all.kept.saturating_add(1),
        IdentityState::Due => all.due = all.due.saturating_add(1),
        IdentityState::InFlight => all.in_flight = all.in_flight.saturating_add(1),
        IdentityState::Missing => all.missing = all.missing.saturating_add(1),
    }
}

impl Standing {
    /// No document was taken yet.
    pub fn start(alloc: Global) -> Standing {
        Standing {
            alloc,
            stands: Vec::new(alloc),
            has_document: false,
            renew_before: 0,
            unsaid: None,
            next: 0,
        }
    }

    /// Whether a document was taken.
    pub fn has_document(&self) -> bool {
        self.has_document
    }

    /// What stands of an entry: as before where its ask is as before, and else no identity from now on, for which nobody is asked.
    fn before(&self, entry: &Entry, now: u64) -> Result<(Known, Asking), Memory> {
        let at = place_of(self.stands.as_slice(), &entry.id).unwrap_or(usize::MAX);
        match self.stands.get(at) {
            Some(stand) if entry.asks(&stand.ask) => Ok((stand.known, stand.asking.share()?)),
            _ => Ok((Known::start(now), Asking::start(self.alloc)?)),
        }
    }

    /// A document was taken at this time, whose entries stand by ascending id. What was signed before the second `renew_before` is
    /// to be renewed. Where memory runs out nothing changes.
    pub fn take_document(
        &mut self,
        entries: &[Entry],
        renew_before: u64,
        now: u64,
    ) -> Result<(), Memory> {
        let mut stands = Vec::new(self.alloc);
        for entry in entries {
            let (known, asking) = self.before(entry, now)?;
            stands.push(Stand {
                ask: entry.ask(self.alloc)?,
                selectors: entry.selectors.copy(self.alloc)?,
                known,
                asking,
            })?;
        }
        self.stands = stands;
        self.renew_before = renew_before;
        self.has_document = true;
        Ok(())
    }

    /// Keeps what is to be said of the document once the store has it.
    pub fn keep_unsaid(&mut self, counts: DocumentCounts) {
        self.unsaid = Some(counts);
    }

    /// What is to be said of the document, once.
    pub fn take_unsaid(&mut self) -> Option<DocumentCounts> {
        self.unsaid.take()
    }

    /// A signer is asked. An ask that no entry has any more is nobody's, and so is one where memory runs out.
    pub fn begin_ask(&self, ask: &Ask) -> UnderWay {
        let at = place_of(self.stands.as_slice(), &ask.entry_id).unwrap_or(usize::MAX);
        match self.stands.get(at) {
            Some(stand) if stand.ask == *ask => stand.begin_ask(),
            _ => UnderWay::uncounted(),
        }
    }

    /// An identity was signed for an ask. One for an ask that no entry has any more is nobody's.
    pub fn note_signed(&mut self, ask: &Ask, signed: &Signed) {
        let Some(at) = place_of(self.stands.as_slice(), &ask.entry_id) else {
            return;
        };
        if let Some(stand) = self.stands.get_mut(at) {
            if stand.ask == *ask {
                stand.known.note_signed(signed);
            }
        }
    }

    /// The entries that have had no identity for longer than [`PATIENCE_SECONDS`].
    pub fn lacking(&self, now: u64) -> Result<Row<Lacking>, Memory> {
        let mut all = Row::empty(self.alloc);
        for stand in self.stands.iter() {
            let seconds = now.saturating_sub(stand.known.lacks_from);
            if seconds > PATIENCE_SECONDS {
                let entry = EntryId::of_entry(self.alloc, &stand.ask.entry_id)?;
                all.push(Lacking { entry, seconds }).map_err(|_| Memory)?;
            }
        }
        Ok(all)
    }

    /// How many entries are in each state at this time, and when the next identity ends.
    pub fn identities(&self, now: u64) -> Identities {
        let mut all = Identities {
            kept: 0,
            due: 0,
            in_flight: 0,
            missing: 0,
            next_end: None,
        };
        for stand in self.stands.iter() {
            count(&mut all, stand.state(self.alloc, self.renew_before, now));
            all.next_end = sooner(all.next_end, stand.known.seconds_left(now));
        }
        all
    }

    /// Says once of each identity that it has ended.
    pub fn say_ended(&mut self, log: &Log, now: u64) {
        for stand in self.stands.iter_mut() {
            if stand.known.was_signed && stand.known.lacks_from <= now {
                stand.known.was_signed = false;
                log.say(&Event::IdentityEnded(&stand.ask));
            }
        }
    }

    /// The place of an entry that has had no identity for long and of which nothing was said, from the last look on.
    fn next_unsaid(&self, now: u64) -> Option<usize> {
        let from = self.next.min(self.stands.len());
        let (before, after) = self.stands.as_slice().split_at(from);
        match after.iter().position(|stand| stand.known.is_unsaid(now)) {
            Some(at) => Some(from.saturating_add(at)),
            None => before.iter().position(|stand| stand.known.is_unsaid(now)),
        }
    }

    /// Says that a caller waits for the entry at this place, where one does.
    fn say_if_awaited(&mut self, at: usize, log: &Log, callers: &Callers) -> bool {
        let Some(stand) = self.stands.get_mut(at) else {
            return false;
        };
        let Some(socket) = callers.entitled_to(&stand.selectors) else {
            return false;
        };
        stand.known.was_awaited = true;
        log.say(&Event::CallerWaits(socket, &stand.ask));
        true
    }

    /// Says of one entry at most that it has had no identity for ten seconds and that a caller waits for it. Of each entry
    /// it is said once, until an identity is signed for it.
    pub fn say_waiting(&mut self, log: &Log, callers: &Callers, now: u64) {
        for _ in 0..LOOKS {
            let Some(at) = self.next_unsaid(now) else {
                return;
            };
            self.next = at.saturating_add(1);
            if self.say_if_awaited(at, log, callers) {
                return;
            }
        }
    }
}
