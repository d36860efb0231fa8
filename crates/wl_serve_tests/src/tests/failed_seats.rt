//! A seat that ends with a fault, beside one that goes on.

use super::bytes::{HEAD, MESSAGE, OPENING, TWO};
use super::gates::Holding;
use super::hosts::{LINKS, Trial, served_two};
use std::rt::Clock;
use std::sync::atomic::Ordering;
use std::test::Fail;
use wl_serve::{AFTER_FAILED_SEAT, MemoryHost, Parts, ServeEnd};
use wl_worker::SeatEnd;

/// A socket whose first accept fails.
const FAILING: Trial = Trial {
    configuration: TWO,
    accepts: &[0],
    ..LINKS
};

/// A socket with one link, which gives a call. Each of its turns is held.
const HELD: Trial = Trial {
    links: 1,
    pieces: &[OPENING, HEAD, MESSAGE],
    ..LINKS
};

/// What became of a seat: its end, how many links it finished, and whether its bell rang.
#[derive(Clone, Copy, Debug, PartialEq, Eq)]
struct Outcome {
    end: SeatEnd,
    finished: usize,
    rung: bool,
}

/// What became of the seat of this socket.
fn outcome_of<'a, R: Clock + Sync>(
    kept: &Option<Parts<MemoryHost<Holding<'a, R>>>>,
    socket: usize,
) -> Option<Outcome> {
    let parts = kept.as_ref()?;
    let seat = parts.seats.get(socket)?;
    Some(Outcome {
        end: seat.end?,
        finished: seat.listener.finished().len(),
        rung: parts.bells.as_slice().get(socket)?.rings() > 0,
    })
}

/// The link of the second socket is held until point 5 is passed, as a host holds none from then on.
#[test]
fn a_failed_seat_ends_the_others(rt: HostRuntime) -> Result<(), Fail> {
    let gate = Holding::start(&rt, AFTER_FAILED_SEAT, 1);
    let (end, kept) = served_two(&rt, rt.alloc(), &FAILING, &HELD, gate)?;
    assert_eq!(rt; end, ServeEnd::HostFault);
    let failed = Outcome {
        end: SeatEnd::ListenFault,
        finished: 0,
        rung: true,
    };
    assert_eq!(rt; outcome_of(&kept, 0), Some(failed));
    let held = Outcome {
        end: SeatEnd::End,
        finished: 1,
        rung: true,
    };
    assert_eq!(rt; outcome_of(&kept, 1), Some(held));
    let Some(parts) = kept else { return Ok(()) };
    assert_eq!(rt; parts.gate.passed.load(Ordering::SeqCst), 1);
    assert_eq!(rt; parts.gate.given_up.load(Ordering::SeqCst), 0);
    Ok(())
}
