//! No more links are served at once than a seat has room for.

use super::outside::seat;
use super::serve;
use crate::connection_tests::outside::numbers;
use std::alloc::{AllocGlobal, Global};
use std::process::Abort;
use std::sync::Wait;
use wl_edge::{EdgeFault, Link, MemoryReady, Ready};
use wl_octets::Row;
use wl_worker::SeatEnd;

/// A watcher that lists every link, and keeps how many it watched at most.
#[derive(Drop)]
struct Widest {
    ready: MemoryReady,
    most: usize,
}

impl<L: Link> Ready<L> for Widest {
    ghost faults = { λ r. ⟦<MemoryReady as Ready<L>>⟧.faults r.ready };

    fn add(&mut self, number: u32, link: &mut L) -> Result<(), EdgeFault> {
        let answer = self.ready.add(number, link);
        self.most = self.most.max(self.ready.numbers.len());
        answer
    }

    fn remove(&mut self, number: u32, link: &mut L) {
        self.ready.remove(number, link);
    }

    fn wait(&mut self, into: &mut Row<u32>) -> Result<(), EdgeFault> {
        Ready::<L>::wait(&mut self.ready, into)
    }
}

/// The room of a seat, how many of the first sendings each of its links puts off, and how many are served at most.
const ROOMS: [(u32, &[u64], usize); 4] = [
    (1, &[0, 0, 0], 1),
    (2, &[0, 0, 0], 2),
    (2, &[9, 0, 0, 0], 2),
    (3, &[0, 0], 2),
];

/// Asserts how many links of such a seat are served at most, which ends with its listener.
fn serve_most<R: Wait + Abort>(rt: &R, alloc: Global, room: u32, links: &[u64], most: usize) {
    let unwatched = numbers(alloc, &[]).expect(rt, "memory");
    let ready = Widest {
        ready: MemoryReady::start(alloc, unwatched),
        most: 0,
    };
    let mut seat = seat(alloc, room, links, &[], &[], ready).expect(rt, "a seat");
    let (end, _) = serve(rt, alloc, &mut seat);
    assert!(rt; end == SeatEnd::End && seat.ready.most == most);
    drop(seat);
}

#[test]
fn rooms_are_kept(rt: HostRuntime) {
    for (room, links, most) in ROOMS {
        serve_most(&rt, rt.alloc(), room, links, most);
    }
}
