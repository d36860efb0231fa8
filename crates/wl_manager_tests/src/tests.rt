//! Documents, claims, tickets that come back and answered callers, on the worked document.

mod documents;
mod events;
mod replay;
mod tickets;
mod tokens;
mod transcripts;
mod words;

use documents::DOC;
use replay::take_events;
use std::alloc::{AllocGlobal, Global};
use std::process::Abort;
use transcripts::{DOCUMENTS, RENEWALS, STRICT, TICKETS, Transcript};
use wl_entry::Free;
use wl_manager::Manager;
use wl_selector::{Selector, Selectors};

/// The set of this selector alone.
fn caller(rt: &impl Abort, alloc: Global, selector: &[u8]) -> Selectors {
    let mut items = Vec::new(alloc);
    let selector = Selector::parse(alloc, selector).expect(rt, "a selector");
    items.push(selector).expect(rt, "memory");
    Selectors::from_list(alloc, items, 64).expect(rt, "selectors")
}

/// Asserts what the events of each transcript give, by the calls and by prepared steps.
fn take_all(rt: &impl Abort, alloc: Global, transcripts: &[Transcript]) {
    for transcript in transcripts {
        take_events(rt, alloc, transcript, false);
        take_events(rt, alloc, transcript, true);
    }
}

#[test]
fn documents_change_entries(rt: HostRuntime) {
    take_all(&rt, rt.alloc(), &DOCUMENTS);
}

#[test]
fn tickets_come_back(rt: HostRuntime) {
    take_all(&rt, rt.alloc(), &TICKETS);
}

#[test]
fn identities_are_renewed(rt: HostRuntime) {
    take_all(&rt, rt.alloc(), &RENEWALS);
}

#[test]
fn leaves_are_judged(rt: HostRuntime) {
    take_all(&rt, rt.alloc(), &STRICT);
}

/// Asserts at which places a caller with this selector is entitled to entries.
fn is_entitled(
    rt: &impl Abort,
    alloc: Global,
    manager: &Manager<Free>,
    selector: &[u8],
    due: &[u32],
) {
    let caller = caller(rt, alloc, selector);
    let places = manager.entitled(alloc, &caller).expect(rt, "memory");
    assert_eq!(rt; places.as_slice(), due);
}

#[test]
fn manager_entitled(rt: HostRuntime) {
    let alloc = rt.alloc();
    let manager = Manager::<Free>::start(alloc, DOC).expect(&rt, "a document");
    assert_eq!(rt; manager.index().part().entries().len(), 1);
    is_entitled(&rt, alloc, &manager, b"unix:uid:1", &[0]);
    is_entitled(&rt, alloc, &manager, b"unix:uid:2", &[]);
}
