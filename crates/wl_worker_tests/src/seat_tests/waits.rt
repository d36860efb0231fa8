//! A wait costs what is ready: a link that is listed is served, and no other.

use super::outside::seat;
use super::{are_due, serve};
use crate::connection_tests::outside::numbers;
use std::alloc::{AllocGlobal, Global};
use std::process::Abort;
use std::sync::Wait;
use wl_edge::{EdgeFault, Link, MemoryReady, Ready};
use wl_octets::Row;
use wl_worker::SeatEnd;

/// A watcher whose waits list these numbers, one row after the other, the last one first. Then it fails.
#[derive(Drop)]
struct Listing {
    ready: MemoryReady,
    rows: Vec<Row<u32>>,
}

impl<L: Link> Ready<L> for Listing {
    ghost faults = { λ r. ⟦<MemoryReady as Ready<L>>⟧.faults r.ready };

    fn add(&mut self, number: u32, link: &mut L) -> Result<(), EdgeFault> {
        self.ready.add(number, link)
    }

    fn remove(&mut self, number: u32, link: &mut L) {
        self.ready.remove(number, link);
    }

    fn wait(&mut self, into: &mut Row<u32>) -> Result<(), EdgeFault> {
        if let Some(row) = self.rows.pop() {
            self.ready.numbers = row;
        }
        Ready::<L>::wait(&mut self.ready, into)
    }
}

/// What the waits of a seat of two places list, one after the other.
#[derive(Clone, Copy)]
struct Case {
    name: &'static str,
    /// For each link, how many of its first sendings are put off.
    links: &'static [u64],
    lists: &'static [&'static [u32]],
    /// The call of the watcher that fails; its additions and waits are counted together.
    failing: u64,
    /// For each link that was finished, in their order, whether it took its whole talk, else nothing; and how many
    /// sendings were put off: one in each of its rounds.
    finished: &'static [(bool, u64)],
}

const CASES: [Case; 4] = [
    Case {
        name: "waits that list nobody",
        links: &[1_000],
        lists: &[&[], &[], &[]],
        failing: 4,
        finished: &[(false, 0)],
    },
    Case {
        name: "a link that is listed once, and then twice, beside the number of no link",
        links: &[1_000],
        lists: &[&[0], &[], &[0, 9, 0]],
        failing: 4,
        finished: &[(false, 3)],
    },
    Case {
        name: "of two links the one that is listed",
        links: &[1_000, 0],
        lists: &[&[1], &[1]],
        failing: 4,
        finished: &[(true, 0), (false, 0)],
    },
    Case {
        name: "a number that is free again is given to the next link",
        links: &[1_000, 0, 0],
        lists: &[&[1], &[1], &[1], &[1]],
        failing: 7,
        finished: &[(true, 0), (true, 0), (false, 0)],
    },
];

/// The rows that are listed, the last one first.
fn rows(alloc: Global, lists: &[&[u32]]) -> Vec<Row<u32>> {
    let mut rows = Vec::new(alloc);
    for list in lists.iter().rev() {
        let mut row = Row::empty(alloc);
        for number in *list {
            let _ = row.push(*number);
        }
        let _ = rows.push(row);
    }
    rows
}

/// Asserts what the links of such a seat took until the watcher failed.
fn serve_listed<R: Wait + Abort>(rt: &R, alloc: Global, case: &Case) {
    let failing = numbers(alloc, &[case.failing]).expect(rt, "memory");
    let ready = Listing {
        ready: MemoryReady::start(alloc, failing),
        rows: rows(alloc, case.lists),
    };
    let mut seat = seat(alloc, 2, case.links, &[], &[], ready).expect(rt, "a seat");
    let came = serve(rt, alloc, &mut seat);
    assert!(rt; came == (SeatEnd::WaitFault, 2), "{}", case.name);
    assert!(rt;
        are_due(seat.listener.finished(), case.finished),
        "{}",
        case.name
    );
    drop(seat);
}

#[test]
fn who_is_listed_is_served(rt: HostRuntime) {
    for case in &CASES {
        serve_listed(&rt, rt.alloc(), case);
    }
}
