//! The calls that take a step at once, and the answers to a caller.

use super::Replay;
use crate::tests::words::message_words;
use std::alloc::Global;
use std::process::Abort;
use wl_document::DocFault;
use wl_entry::Signed;
use wl_manager::{Change, Claim, Ticket};
use wl_octets::Memory;
use wl_snapshot::{Answer, Method3, answer, view_of};

fn change_from(before: u64, after: u64) -> Change {
    if after == before {
        Change::Same
    } else {
        Change::New
    }
}

impl Replay {
    /// Out of memory in a step, at which the last publication has this number still.
    fn stop(&self, rt: &impl Abort, number: u64) {
        assert_eq!(rt; self.number(), number, "published out of memory");
        panic!(rt; "memory")
    }

    pub(super) fn sync(&mut self, rt: &impl Abort, alloc: Global, document: &[u8]) {
        let before = self.number();
        match self.manager.sync(alloc, document) {
            Ok(change) => self.say_change(rt, alloc, change),
            Err(DocFault::Memory) => self.stop(rt, before),
            Err(fault) => self.say_fault(rt, alloc, fault),
        }
    }

    pub(super) fn claim(&mut self, rt: &impl Abort, alloc: Global, now: u64) {
        let before = self.number();
        match self.manager.claim(alloc, now) {
            Ok(Claim { swept, tickets }) => {
                self.say_change(rt, alloc, swept);
                self.say_tickets(rt, alloc, tickets);
            }
            Err(Memory) => self.stop(rt, before),
        }
    }

    /// Hands a ticket in with an identity. It is spent in each case.
    pub(super) fn signed(
        &mut self,
        rt: &impl Abort,
        alloc: Global,
        ticket: Ticket,
        signed: Signed,
        now: u64,
    ) {
        let before = self.number();
        let number = ticket.number;
        match self.manager.signed(alloc, ticket, signed, now) {
            Ok(installed) => {
                self.say_installed(rt, alloc, &installed);
                self.say_change(rt, alloc, change_from(before, self.number()));
            }
            Err(Memory) if self.manager.in_flight(number) => self.say(rt, "still in flight"),
            Err(Memory) => self.stop(rt, before),
        }
    }

    /// Hands a ticket back without an identity.
    pub(super) fn failed(&mut self, rt: &impl Abort, ticket: Ticket) {
        let number = ticket.number;
        let was_in_flight = self.manager.in_flight(number);
        self.manager.failed(ticket);
        let words = match (was_in_flight, self.manager.in_flight(number)) {
            (true, false) => "failed",
            (false, false) => "spent",
            (_, true) => "still in flight",
        };
        self.say(rt, words);
    }

    /// What FetchX509SVID gives the caller.
    pub(super) fn answer(&mut self, rt: &impl Abort, alloc: Global) {
        let places = self
            .manager
            .entitled(alloc, &self.caller)
            .expect(rt, "memory");
        let snapshot = self.manager.snapshot().part();
        let view = view_of(alloc, snapshot, places.as_slice()).expect(rt, "memory");
        let words = match answer(alloc, Method3::X509Svid, &view).expect(rt, "memory") {
            Answer::Message(message) => message_words(&message),
            Answer::Wait => "wait",
            _ => "another answer",
        };
        self.say(rt, words);
    }
}
