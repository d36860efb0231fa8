//! Seats are made, each for the sockets that were dealt out to it.

ghost use Rattle.std.specs.Prelude.{◌≡◌, ◌<◌, ◌≤◌, IfOk, length, map, min};
ghost use Rattle.wl_dealing.specs.Dealt.{dealt, EverySocketIsServedOnce};
ghost use Rattle.wl_serve.specs.Prepared.{AreSeats, IsSeat};

use crate::seats::SeatShown;
use std::alloc::Global;
use wl_config::SocketFact;
use wl_dealing::{every_socket_is_served_once, seat_count};
use wl_edge::EdgeFault;
use wl_octets::Row;

/// Makes a seat.
pub trait SeatMaker {
    type Seat: SeatShown + Drop;

    type Ring: Drop;

    /// Whether all that a seat holds tells its content.
    ghost tells: { Type 0 };

    /// The seat of this number, from 0, of so many, and its bell. It serves those of the sockets that are dealt out to it. Nothing
    /// of it was used yet.
    fn make_seat(
        &mut self,
        alloc: Global,
        seat: u32,
        seats: u32,
        sockets: &[SocketFact],
    ) -> Result<(Self::Seat, Self::Ring), EdgeFault>
        requires seat { seat < seats }
        requires at_most { length sockets.now ≤ 4096 }
        ensures made { IfOk result (λ r. IsSeat tells (dealt seats seat sockets.now) (Self.Seat.shown r.0)) };
}

/// Seats for these sockets, on at most so many threads, and their bells. The sockets are dealt out to the seats in turn. The
/// first fault ends it, and the seats that were made are let go.
pub fn make_seats<M: SeatMaker>(
    alloc: Global,
    maker: &mut M,
    threads: u32,
    sockets: &[SocketFact],
) -> Result<(Vec<M::Seat>, Row<M::Ring>), EdgeFault>
    requires at_most { length sockets.now ≤ 4096 }
    ensures seats { IfOk result (λ r. AreSeats M.tells (min threads (length sockets.now)) sockets.now (map M.Seat.shown r.0.items)) }
    ensures bells { IfOk result (λ r. length r.1 ≡ length r.0.items) }
    ensures once { EverySocketIsServedOnce }
{
    // law: no socket is left out
    every_socket_is_served_once();
    let count = seat_count(threads, sockets);
    let mut seats = Vec::new(alloc);
    let mut bells = Row::empty(alloc);
    for number in 0..count {
        let (seat, bell) = maker.make_seat(alloc, number, count, sockets)?;
        if seats.push(seat).is_err() {
            return Err(EdgeFault::Memory);
        }
        bells.push(bell)?;
    }
    Ok((seats, bells))
}
