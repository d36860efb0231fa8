//! Events are replayed over a manager, and what they give is compared.

mod calls;
mod prepared;

use super::caller;
use super::events::{Event, Identity};
use super::tickets::{Slip, ask_of, note};
use super::transcripts::Transcript;
use super::words::{installed_words, text};
use std::alloc::Global;
use std::process::Abort;
use svid_cache::Installed;
use wl_document::DocFault;
use wl_entry::Free;
use wl_manager::{Change, Manager, Ticket};
use wl_octets::Row;
use wl_selector::Selectors;

/// A manager whose steps have to give what is due.
#[derive(Drop)]
struct Replay {
    name: &'static str,
    manager: Manager<Free>,
    /// Whether each step is prepared, and then adopted.
    is_prepared: bool,
    /// Who is answered.
    caller: Selectors,
    /// The tickets that were given.
    slips: Vec<Slip>,
    /// What the steps to come have to give.
    due: &'static str,
}

impl Replay {
    /// Asserts that these words are due next.
    fn say(&mut self, rt: &impl Abort, words: &str) {
        let rest = self.due.strip_prefix(words);
        assert!(rt;
            rest.is_some(),
            "{}: {words}; but due: {}",
            self.name,
            self.due
        );
        let rest = rest.unwrap_or("");
        let next = rest.strip_prefix(", ");
        assert!(rt;
            next.is_some() || rest.is_empty(),
            "{}: {words}; then: {rest}",
            self.name
        );
        self.due = next.unwrap_or("");
    }

    fn number(&self) -> u64 {
        self.manager.snapshot().part().number
    }

    fn say_number(&mut self, rt: &impl Abort, alloc: Global) {
        let words = format!(in alloc; "published {}", self.number()).expect(rt, "memory");
        self.say(rt, words.as_str());
    }

    fn say_change(&mut self, rt: &impl Abort, alloc: Global, change: Change) {
        match change {
            Change::Same => {}
            Change::New => self.say_number(rt, alloc),
        }
    }

    /// Notes the tickets down, and says those.
    fn say_tickets(&mut self, rt: &impl Abort, alloc: Global, tickets: Row<Ticket>) {
        for ticket in tickets.as_slice() {
            let entry = text(&ticket.ask.entry_id);
            let words = format!(in alloc; "ticket {} {entry}", ticket.number).expect(rt, "memory");
            self.say(rt, words.as_str());
        }
        note(rt, alloc, &mut self.slips, tickets);
    }

    fn say_installed(&mut self, rt: &impl Abort, alloc: Global, installed: &Installed) {
        let words = installed_words(rt, alloc, installed);
        self.say(rt, words.as_str());
    }

    fn say_fault(&mut self, rt: &impl Abort, alloc: Global, fault: DocFault) {
        let words = format!(in alloc; "fault {fault:?}").expect(rt, "memory");
        self.say(rt, words.as_str());
    }
}

impl Replay {
    /// A ticket of this number with the ask of the ticket of that number comes back with an identity.
    fn hand_in(
        &mut self,
        rt: &impl Abort,
        alloc: Global,
        (number, slip): (u64, u64),
        identity: Identity,
        now: u64,
    ) {
        let ask = ask_of(rt, alloc, self.slips.as_slice(), slip);
        let ticket = Ticket { number, ask };
        let signed = identity.signed(rt, alloc);
        if self.is_prepared {
            self.prepare_signed(rt, alloc, ticket, signed, now);
        } else {
            self.signed(rt, alloc, ticket, signed, now);
        }
    }

    fn hand_back(&mut self, rt: &impl Abort, alloc: Global, number: u64) {
        let ask = ask_of(rt, alloc, self.slips.as_slice(), number);
        self.failed(rt, Ticket { number, ask });
    }

    fn step(&mut self, rt: &impl Abort, alloc: Global, event: Event) {
        match event {
            Event::Sync(document) if self.is_prepared => self.prepare_sync(rt, alloc, document),
            Event::Sync(document) => self.sync(rt, alloc, document),
            Event::SyncState(document) => self.sync_state(rt, alloc, document),
            Event::Claim(now) if self.is_prepared => self.prepare_claim(rt, alloc, now),
            Event::Claim(now) => self.claim(rt, alloc, now),
            Event::Signed(number, identity, now) => {
                self.hand_in(rt, alloc, (number, number), identity, now);
            }
            Event::SignedAs(number, slip, identity, now) => {
                self.hand_in(rt, alloc, (number, slip), identity, now);
            }
            Event::Failed(number) => self.hand_back(rt, alloc, number),
            Event::Answer => self.answer(rt, alloc),
        }
    }
}

fn start(rt: &impl Abort, alloc: Global, transcript: &Transcript) -> Manager<Free> {
    let started = if transcript.is_strict {
        Manager::start_strict(alloc, transcript.document)
    } else {
        Manager::start(alloc, transcript.document)
    };
    started.expect(rt, "a document")
}

/// Asserts what the events of a transcript give, by the calls or by prepared steps.
pub fn take_events(rt: &impl Abort, alloc: Global, transcript: &Transcript, is_prepared: bool) {
    let mut replay = Replay {
        name: transcript.name,
        manager: start(rt, alloc, transcript),
        is_prepared,
        caller: caller(rt, alloc, b"unix:uid:1"),
        slips: Vec::new(alloc),
        due: transcript.lines,
    };
    replay.say_number(rt, alloc);
    for event in transcript.events {
        replay.step(rt, alloc, *event);
    }
    assert!(rt;
        replay.due.is_empty(),
        "{}: missing: {}",
        replay.name,
        replay.due
    );
    drop(replay);
}
