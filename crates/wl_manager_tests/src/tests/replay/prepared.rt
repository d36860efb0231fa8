//! Steps that are prepared, and then adopted.

use super::Replay;
use std::alloc::Global;
use std::process::Abort;
use wl_document::{DocFault, read_state};
use wl_entry::{Free, Signed};
use wl_manager::{Adopted, Change, Prepared, Ticket};

/// The number of the publication that a step makes, if it makes one.
fn number_in(prepared: &Prepared<Free>) -> Option<u64> {
    match prepared.snapshot() {
        Some(snapshot) => Some(snapshot.part().number),
        None => None,
    }
}

impl Replay {
    /// The number of the last publication, if it is new.
    fn number_of(&self, change: Change) -> Option<u64> {
        match change {
            Change::Same => None,
            Change::New => Some(self.number()),
        }
    }

    fn adopt(&mut self, rt: &impl Abort, alloc: Global, prepared: Prepared<Free>) {
        let number = number_in(&prepared);
        let Adopted {
            change,
            tickets,
            installed,
            touched: _,
        } = self.manager.adopt(prepared);
        assert_eq!(rt; self.number_of(change), number, "another snapshot");
        if let Some(installed) = installed {
            self.say_installed(rt, alloc, &installed);
        }
        self.say_change(rt, alloc, change);
        self.say_tickets(rt, alloc, tickets);
    }

    pub(super) fn prepare_sync(&mut self, rt: &impl Abort, alloc: Global, document: &[u8]) {
        match self.manager.prepare_sync(alloc, document) {
            Ok(prepared) => self.adopt(rt, alloc, prepared),
            Err(DocFault::Memory) => panic!(rt; "memory"),
            Err(fault) => self.say_fault(rt, alloc, fault),
        }
    }

    /// Reads a document with the manager's domain as the own one, and takes what it says.
    pub(super) fn sync_state(&mut self, rt: &impl Abort, alloc: Global, document: &[u8]) {
        let read = read_state(
            alloc,
            document,
            Some(&self.manager.snapshot().part().domain),
        );
        match read {
            Ok(state) => {
                let prepared = self.manager.prepare_state(alloc, state);
                let prepared = prepared.expect(rt, "memory");
                self.adopt(rt, alloc, prepared);
            }
            Err(DocFault::Memory) => panic!(rt; "memory"),
            Err(fault) => self.say_fault(rt, alloc, fault),
        }
    }

    pub(super) fn prepare_claim(&mut self, rt: &impl Abort, alloc: Global, now: u64) {
        let prepared = self.manager.prepare_claim(alloc, now).expect(rt, "memory");
        self.adopt(rt, alloc, prepared);
    }

    pub(super) fn prepare_signed(
        &mut self,
        rt: &impl Abort,
        alloc: Global,
        ticket: Ticket,
        signed: Signed,
        now: u64,
    ) {
        let prepared = self.manager.prepare_signed(alloc, &ticket, &signed, now);
        ticket.abandon();
        let prepared = prepared.expect(rt, "memory");
        self.adopt(rt, alloc, prepared);
    }
}
