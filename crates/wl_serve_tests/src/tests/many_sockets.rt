//! Seats that serve several sockets each.

use super::bytes::{HEAD, MESSAGE, OPENING};
use super::hosts::{LINKS, Stop, Trial, served_two};
use std::alloc::Global;
use std::sync::Wait;
use std::test::Fail;
use std::thread::Threads;
use wl_edge::OpenGate;
use wl_serve::{MemoryHost, Parts};

/// Five sockets on two threads.
const FIVE: &[u8] =
    b"{\"version\":1,\"upstream\":\"/u\",\"signer\":\"/s\",\"threads\":2,\"sockets\":[{\"path\":\"/a\",\"connections\":1,\"selectors\":[\"a:b\"]},{\"path\":\"/b\",\"connections\":2,\"selectors\":[\"a:b\"]},{\"path\":\"/c\",\"connections\":4,\"selectors\":[\"a:b\"]},{\"path\":\"/d\",\"connections\":8,\"selectors\":[\"a:b\"]},{\"path\":\"/e\",\"connections\":16,\"selectors\":[\"a:b\"]}]}";

/// Callers of the sockets of the first thread, which come in another order.
const FIRST: Trial = Trial {
    configuration: FIVE,
    links: 3,
    sockets: &[4, 0, 2],
    pieces: &[OPENING, HEAD, MESSAGE],
    ..LINKS
};

/// Callers of those of the second.
const SECOND: Trial = Trial {
    links: 2,
    sockets: &[3, 1],
    ..FIRST
};

type Served = Option<Parts<MemoryHost<OpenGate>>>;

/// How many connections the seat of this number serves at once.
fn room_of(kept: &Served, seat: usize) -> Option<u32> {
    Some(kept.as_ref()?.seats.get(seat)?.room)
}

/// The sockets of which the seat's attestor was asked, in this order.
fn attested(kept: &Served, seat: usize) -> Option<[u32; 3]> {
    let calls = kept.as_ref()?.seats.get(seat)?.attestor.calls();
    let mut sockets = [9; 3];
    for (place, call) in calls.iter().enumerate() {
        if place < sockets.len() {
            sockets[place] = call.origin.socket;
        }
    }
    Some(sockets)
}

fn served_five<R: Threads + Wait + Sync>(rt: &R, alloc: Global) -> Result<Served, Stop> {
    let (_, kept) = served_two(rt, alloc, &FIRST, &SECOND, OpenGate)?;
    Ok(kept)
}

/// Two seats serve the sockets 0, 2, 4 and 1, 3. Each call is attested by the origin of its own link.
#[test]
fn sockets_are_dealt_out_in_turn(rt: HostRuntime) -> Result<(), Fail> {
    let kept = served_five(&rt, rt.alloc())?;
    assert_eq!(rt; room_of(&kept, 0), Some(1 + 4 + 16));
    assert_eq!(rt; room_of(&kept, 1), Some(2 + 8));
    assert_eq!(rt; room_of(&kept, 2), None);
    assert_eq!(rt; attested(&kept, 0), Some([4, 0, 2]));
    assert_eq!(rt; attested(&kept, 1), Some([3, 1, 9]));
    Ok(())
}
