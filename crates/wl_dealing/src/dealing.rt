//! Sockets are dealt out to seats.

ghost use Rattle.std.specs.Prelude.{◌≡◌, ◌<◌, ◌≤◌, IfOk, length, map, min};
ghost use Rattle.wl_dealing.specs.Dealt.{dealt, room_of, EverySocketIsServedOnce};

use std::alloc::Global;
use wl_config::{MAX_ALL_CONNECTIONS, SocketFact};
use wl_octets::Memory;

/// A socket of a configuration.
#[derive(Clone, Copy)]
pub struct DealtSocket<'a> {
    /// Its number there, from 0.
    pub number: u32,
    pub fact: &'a SocketFact,
}

/// How many seats serve these sockets on at most so many threads: one a thread, and none without a socket.
pub fn seat_count(threads: u32, sockets: &[SocketFact]) -> u32
    requires at_most { length sockets.now ≤ 4096 }
    ensures { result ≡ min threads (length sockets.now) }
{
    threads.min(sockets.len() as u32)
}

/// The sockets that the seat of this number, from 0, of so many seats serves, in their order: those whose numbers leave its number
/// on division.
pub fn deal<'a>(
    alloc: Global,
    sockets: &'a [SocketFact],
    seats: u32,
    seat: u32,
) -> Result<Vec<DealtSocket<'a>>, Memory>
    requires seat { seat < seats }
    requires at_most { length sockets.now ≤ 4096 }
    ensures { IfOk result (λ r. map (λ s. (s.number, s.fact.now)) r.items ≡ dealt seats seat sockets.now) }
{
    let mut dealt = Vec::new(alloc);
    let mut number = 0;
    for fact in sockets {
        if number % seats == seat {
            dealt.push(DealtSocket { number, fact })?;
        }
        number += 1;
    }
    Ok(dealt)
}

/// How many connections a seat with these sockets serves at once: as many as they do together, and at most 65,536
/// ([`MAX_ALL_CONNECTIONS`]).
pub fn room_of(sockets: &[DealtSocket<'_>]) -> u32
    ensures { result ≡ room_of (map (λ s. (s.number, s.fact.now)) sockets.now) }
{
    let mut room = 0;
    for socket in sockets {
        let left = MAX_ALL_CONNECTIONS - room;
        room += socket.fact.connections.min(left);
    }
    room
}

/// Law: each socket is served by one seat, and by no other.
pub fn every_socket_is_served_once()
    ensures { EverySocketIsServedOnce }
{}
