//! A link for which memory runs out ends alone.

use super::outside::{SeatWith, seat, took};
use super::{are_due, serve, serve_on};
use crate::connection_tests::desks::open;
use crate::connection_tests::outside::{Stop, numbers};
use std::alloc::{AllocGlobal, Global};
use std::process::Abort;
use std::sync::Wait;
use wl_edge::{Attestor, EdgeFault, MemoryAttestor, MemoryLink, MemoryReady, Origin};
use wl_selector::Selectors;
use wl_worker::{Seat, SeatEnd};

/// An attestor for which memory runs out at some of its calls, by their numbers from 0.
#[derive(Drop)]
struct Starving {
    attestor: MemoryAttestor,
    calls: u64,
    without: &'static [u64],
}

impl Attestor for Starving {
    ghost calls = { λ s. ⟦<MemoryAttestor as Attestor>⟧.calls s.attestor };

    ghost faults = { λ s. ⟦<MemoryAttestor as Attestor>⟧.faults s.attestor };

    fn attest(&mut self, origin: &Origin) -> Result<Selectors, EdgeFault> {
        let call = self.calls;
        self.calls = self.calls.saturating_add(1);
        if self.without.contains(&call) {
            return Err(EdgeFault::Memory);
        }
        self.attestor.attest(origin)
    }
}

/// Two places for three links with a call each, for some of which memory runs out as they are attested.
fn starving_seat(
    alloc: Global,
    without: &'static [u64],
) -> Result<SeatWith<Starving, MemoryReady>, Stop> {
    let ready = MemoryReady::start(alloc, numbers(alloc, &[])?);
    let seat = seat(alloc, 2, &[0, 0, 0], &[], &[], ready)?;
    let attestor = Starving {
        attestor: seat.attestor,
        calls: 0,
        without,
    };
    Ok(Seat {
        listener: seat.listener,
        asks: seat.asks,
        connections: 0,
        attestor,
        clock: seat.clock,
        pass: None,
        end: None,
        ready: seat.ready,
        room: seat.room,
        budget: seat.budget,
        starved: 0,
    })
}

/// At which calls memory runs out, and for each link that was finished whether it took its whole talk, else nothing.
const CASES: [(&[u64], &[(bool, u64)]); 3] = [
    (&[0], &[(false, 0), (true, 0), (true, 0)]),
    (&[1, 2], &[(false, 0), (true, 0), (false, 0)]),
    (&[0, 1, 2], &[(false, 0), (false, 0), (false, 0)]),
];

/// Asserts the end of such a seat, how many seats its desk has then, its count, and what its links took.
fn starve<R: Wait + Abort>(rt: &R, alloc: Global, without: &'static [u64], due: &[(bool, u64)]) {
    let mut seat = starving_seat(alloc, without).expect(rt, "a seat");
    let came = serve(rt, alloc, &mut seat);
    assert!(rt; came == (SeatEnd::End, 2) && seat.starved == without.len() as u64);
    assert!(rt; are_due(seat.listener.finished(), due));
    drop(seat);
}

#[test]
fn a_link_without_memory_ends_alone(rt: HostRuntime) {
    for (without, due) in CASES {
        starve(&rt, rt.alloc(), without, due);
    }
}

/// How many links took their whole talk, or had a call of theirs fail.
fn explained(links: &[MemoryLink]) -> usize {
    links
        .iter()
        .filter(|link| took(link, true) || link.failed_receives() > 0 || link.failed_sends() > 0)
        .count()
}

/// Where an allocation is refused, whichever it is, the seat counts the links that it costs, or ends with `Memory`.
#[test]
fn a_refused_allocation_is_counted(rt: HostRuntime) {
    let alloc = rt.alloc();
    let Ok(mut seat) = starving_seat(alloc, &[]) else {
        return;
    };
    let Ok((desk, pass)) = open(&rt, alloc, 3) else {
        return;
    };
    let (end, _) = serve_on(&rt, alloc, &mut seat, desk, pass);
    assert!(rt; matches!(end, SeatEnd::End | SeatEnd::Memory | SeatEnd::ListenFault));
    let links = seat.listener.finished();
    let counted = (explained(links) as u64).saturating_add(seat.starved);
    assert!(rt; end != SeatEnd::End || links.len() == 3 && counted >= 3);
    drop(seat);
}
