//! Seats over memory.

mod budgets;
mod outside;
mod rooms;
mod starving;
mod waits;

ghost use Rattle.std.specs.Prelude.{IsSome};

use crate::connection_tests::desks::open;
use crate::connection_tests::outside::numbers;
use outside::{SeatWith, seat};
use std::alloc::{AllocGlobal, Global};
use std::process::Abort;
use std::sync::{Mutex, Wait};
use wl_desk::Desk;
use wl_edge::{Attestor, MemoryLink, MemoryReady, OpenGate, Ready};
use wl_entry::Free;
use wl_publish::Pass;
use wl_worker::{SeatEnd, serve_seat};

/// A seat and what becomes of it. Each link gives the opening and a call for identities, and then its end.
#[derive(Clone, Copy)]
struct Case {
    name: &'static str,
    room: u32,
    /// For each link, how many of its first sendings are put off.
    links: &'static [u64],
    /// The accepts that find no link, and those that fail.
    idle: &'static [u64],
    failing: &'static [u64],
    /// The calls of the watcher that fail.
    unwatched: &'static [u64],
    end: SeatEnd,
    /// For each link that was finished, in their order, whether it took its whole talk, else nothing; and
    /// how many sendings were put off.
    finished: &'static [(bool, u64)],
}

const CASES: [Case; 8] = [
    Case {
        name: "two links, of which one is served at a time",
        room: 1,
        links: &[0, 0],
        idle: &[0],
        failing: &[],
        unwatched: &[],
        end: SeatEnd::End,
        finished: &[(true, 0), (true, 0)],
    },
    Case {
        name: "three links on two places",
        room: 2,
        links: &[0, 0, 0],
        idle: &[1],
        failing: &[],
        unwatched: &[],
        end: SeatEnd::End,
        finished: &[(true, 0), (true, 0), (true, 0)],
    },
    Case {
        name: "no links",
        room: 2,
        links: &[],
        idle: &[],
        failing: &[],
        unwatched: &[],
        end: SeatEnd::End,
        finished: &[],
    },
    Case {
        name: "a link that takes nothing for long is finished last, and in full",
        room: 2,
        links: &[40, 0],
        idle: &[],
        failing: &[],
        unwatched: &[],
        end: SeatEnd::End,
        finished: &[(true, 0), (true, 40)],
    },
    // The watcher's calls are two additions and then waits, so that its call 20 comes after 18 turns. The first link
    // puts off a sending in each of them.
    Case {
        name: "beside a link that takes nothing any more the other is served in full",
        room: 2,
        links: &[1_000, 0],
        idle: &[],
        failing: &[],
        unwatched: &[20],
        end: SeatEnd::WaitFault,
        finished: &[(true, 0), (false, 18)],
    },
    Case {
        name: "an accept fails while a link is served",
        room: 2,
        links: &[0],
        idle: &[],
        failing: &[1],
        unwatched: &[],
        end: SeatEnd::ListenFault,
        finished: &[(false, 0)],
    },
    Case {
        name: "a link cannot be watched",
        room: 2,
        links: &[0],
        idle: &[],
        failing: &[],
        unwatched: &[0],
        end: SeatEnd::WaitFault,
        finished: &[(false, 0)],
    },
    Case {
        name: "the watcher fails after the end of the listener",
        room: 2,
        links: &[0],
        idle: &[],
        failing: &[],
        unwatched: &[1],
        end: SeatEnd::WaitFault,
        finished: &[(false, 0)],
    },
];

/// Whether these links took their whole talk or nothing, and put off so many sendings, as is said of each.
fn are_due(links: &[MemoryLink], due: &[(bool, u64)]) -> bool {
    links.len() == due.len()
        && links.iter().zip(due).all(|(link, (whole, stalls))| outside::took(link, *whole)
            && link.stalls() == *stalls)
}

/// Serves a seat of which no link was finished yet.
fn serve_first<A: Attestor, P: Ready<MemoryLink>, R: Wait + Abort>(
    rt: &R,
    alloc: Global,
    desk: &Mutex<Desk<Free>>,
    seat: &mut SeatWith<A, P>,
) -> SeatEnd
    requires { IsSome seat.old.pass }
{
    assert!(rt; seat.listener.finished().is_empty());
    serve_seat(rt, alloc, desk, seat, &OpenGate)
}

/// Serves a seat with this pass on a desk of its own: its end, and how many seats the desk has then.
fn serve_on<A: Attestor, P: Ready<MemoryLink>, R: Wait + Abort>(
    rt: &R,
    alloc: Global,
    seat: &mut SeatWith<A, P>,
    desk: Mutex<Desk<Free>>,
    pass: Pass<Free>,
) -> (SeatEnd, u32) {
    seat.pass = Some(pass);
    let end = serve_first(rt, alloc, &desk, seat);
    let left = desk.lock(rt).seats();
    desk.into_inner().end(rt);
    (end, left)
}

/// The same on a desk of three seats.
fn serve<A: Attestor, P: Ready<MemoryLink>, R: Wait + Abort>(
    rt: &R,
    alloc: Global,
    seat: &mut SeatWith<A, P>,
) -> (SeatEnd, u32) {
    let (desk, pass) = open(rt, alloc, 3).expect(rt, "a desk");
    serve_on(rt, alloc, seat, desk, pass)
}

/// Asserts that a seat ends as is due, and that the desk has one seat fewer then.
fn serve_case<R: Wait + Abort>(rt: &R, alloc: Global, case: &Case) {
    let unwatched = numbers(alloc, case.unwatched).expect(rt, "memory");
    let ready = MemoryReady::start(alloc, unwatched);
    let seat = seat(alloc, case.room, case.links, case.idle, case.failing, ready);
    let mut seat = seat.expect(rt, "a seat");
    let came = serve(rt, alloc, &mut seat);
    assert!(rt; came == (case.end, 2), "{}", case.name);
    assert!(rt;
        are_due(seat.listener.finished(), case.finished),
        "{}",
        case.name
    );
    drop(seat);
}

#[test]
fn seats_end_as_is_due(rt: HostRuntime) {
    for case in &CASES {
        serve_case(&rt, rt.alloc(), case);
    }
}

/// Three links, each from a socket of its own, on two places.
#[test]
fn each_link_is_attested_by_its_own_origin(rt: HostRuntime) {
    let alloc = rt.alloc();
    let ready = MemoryReady::start(alloc, numbers(alloc, &[]).expect(&rt, "memory"));
    let mut seat = seat(alloc, 2, &[0, 0, 0], &[], &[], ready).expect(&rt, "a seat");
    assert!(rt; serve(&rt, alloc, &mut seat) == (SeatEnd::End, 2));
    let calls = seat.attestor.calls();
    assert_eq!(rt; calls.len(), 3);
    for (place, call) in calls.iter().enumerate() {
        assert_eq!(rt; call.origin.socket as usize, place);
    }
    drop(seat);
}
